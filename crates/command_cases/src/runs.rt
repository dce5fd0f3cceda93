//! Cases: each has a store, over which the top call is run, and remembers which texts were shown, so that only new ones are shown again.
use crate::page::Page;
use crate::shown::show;
use audit_cli::peep;
use outer_store::{MemSink, MemStore, Sink, Store, StoreError};
use std::alloc::{AllocError, Global};
use step_ledger::{Counted, Steps};

/// The texts under names that the case put there or has shown, and the pieces that are sought in the next run.
#[derive(Drop)]
pub(crate) struct Notes {
    pub(crate) alloc: Global,
    pub(crate) known: MemStore,
    pub(crate) sought: MemStore,
}

/// A case: its store, its notes, and the number, from 1, of the call that fails of each sink; 0 if none does.
#[derive(Drop)]
pub(crate) struct Case {
    store: MemStore,
    pub(crate) notes: Notes,
    pub(crate) sink: u64,
}

/// A store without texts that never fails.
pub(crate) fn empty(alloc: Global) -> MemStore {
    MemStore::new(alloc, Vec::new(alloc), Vec::new(alloc))
}

/// A word; `''` is the empty one.
fn word_of(alloc: Global, word: &str) -> Result<String, AllocError> {
    String::from_str(alloc, if word == "''" { "" } else { word })
}

/// The words of a line, one blank apart; `''` is the empty word.
pub(crate) fn words_of(alloc: Global, line: &str) -> Result<Vec<String>, AllocError> {
    let mut words = Vec::new(alloc);
    if line.is_empty() {
        return Ok(words);
    }
    for word in line.split(' ') {
        words.push(word_of(alloc, word)?)?;
    }
    Ok(words)
}

/// Shows the words of a run and its status.
fn show_ending(line: &str, code: u8, page: &mut Page) {
    page.add(line);
    page.add(": status ");
    page.add_bytes(&[b'0'.wrapping_add(code), b'\n']);
}

impl Notes {
    /// Shows the text under a word, unless it is the known one, and notes it as known.
    fn show_new(&mut self, words: &[String], word: &str, text: &[u8], page: &mut Page) {
        if self.known.held(word) != Some(text) {
            show(self, words, word, text, page);
            page.note(self.known.keep(word, text).is_ok());
        }
    }

    /// Runs the words of a line, and shows the status and the new texts under those words that name one.
    fn run<S: Store, O: Sink>(
        &mut self,
        line: &str,
        words: &[String],
        store: &mut S,
        sink: &mut O,
        page: &mut Page,
    ) {
        let mut steps = Steps::new(Counted::new());
        let status = peep(self.alloc, words, store, sink, &mut steps);
        show_ending(line, status.code(), page);
        for word in words {
            if let Ok(text) = store.fetch(self.alloc, word.as_str()) {
                self.show_new(words, word.as_str(), &text, page);
            }
        }
    }

    /// Puts the known texts under these words into a store.
    fn put_known<S: Store>(&self, words: &[String], store: &mut S, page: &mut Page) {
        for word in words {
            if let Some(text) = self.known.held(word.as_str()) {
                page.note(store.keep(word.as_str(), text).is_ok());
            }
        }
    }
}

impl Case {
    pub(crate) fn new(alloc: Global, failing: Vec<u64>) -> Case {
        Case {
            store: MemStore::new(alloc, Vec::new(alloc), failing),
            notes: Notes {
                alloc,
                known: empty(alloc),
                sought: empty(alloc),
            },
            sink: 0,
        }
    }

    /// Puts a text into the case's store, and notes it as known.
    pub(crate) fn hold(&mut self, name: &str, text: &[u8]) -> Result<(), StoreError> {
        self.store.keep(name, text)?;
        self.notes.known.keep(name, text)
    }

    /// Runs the words of a line over the case's store and a new sink.
    pub(crate) fn run(&mut self, line: &str, words: &[String], page: &mut Page) -> Option<()> {
        let alloc = self.notes.alloc;
        let failing = vec![in alloc; self.sink].ok()?;
        let mut sink = MemSink::new(alloc, failing);
        self.notes
            .run(line, words, &mut self.store, &mut sink, page);
        if !sink.written().is_empty() {
            show(&self.notes, words, "put", sink.written(), page);
        }
        self.notes.sought = empty(alloc);
        Some(())
    }

    /// Runs the words of a line over another store and sink, after the texts that the case knows under these words are put there.
    pub(crate) fn run_elsewhere<S: Store, O: Sink>(
        &mut self,
        line: &str,
        words: &[String],
        store: &mut S,
        sink: &mut O,
        page: &mut Page,
    ) -> Option<()> {
        self.notes.put_known(words, store, page);
        self.notes.run(line, words, store, sink, page);
        Some(())
    }
}
