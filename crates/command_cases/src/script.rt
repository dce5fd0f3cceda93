//! Carries out a script of command runs, over stores in memory or over files, line by line.
//!
//! A line is blank, a comment after `#` and a blank, or one of these, in which words stand one blank apart and `''` is an empty word:
//!
//! | line | what it does |
//! |---|---|
//! | `text NAME TEXT ..` | begins a text that all later cases may use, with the content of other such texts |
//! | `case NAME` | begins a case, whose store holds nothing and never fails |
//! | `file NAME TEXT ..` | begins a text that the case's store holds |
//! | `piece NAME TEXT ..` | begins a text that is sought in what the next run keeps under the name, or, if the name is `put`, in what it prints |
//! | `\|LINE` | appends a line to the text begun last, with its newline |
//! | `use TEXT ..` | appends the content of these texts |
//! | `times COUNT TEXT` | appends the content of this text so many times |
//! | `bytes DIGITS` | appends bytes, given by their hexadecimal digits |
//! | `bare` | removes the last byte |
//! | `store NUMBER` | begins the case anew, with a store whose call of this number fails; each `file` is a call |
//! | `sink NUMBER` | makes the call of this number fail in the sink of each run |
//! | `run WORD ..` | runs the words over the case's store, and shows the status, the new texts under the words, and what is printed, as `put` |
//! | `files WORD ..` | the same over the files of the working directory, after the case's texts are put there, and over standard output |
//! | `remove NAME` | removes a file |
//! | `image DIGITS END STEPS ANSWER ..` | runs an image at 0, whose code ends at END, with answers of these words, and shows stage and events |
use crate::images::image;
use crate::page::Page;
use crate::runs::{Case, empty, words_of};
use ascii_scan::number;
use outer_store::{MemStore, Sink, Store, StoreError};
use std::alloc::Global;

/// What the text begun last is for.
#[derive(Clone, Copy)]
enum Purpose {
    Shared,
    Held,
    Sought,
}

/// The texts that all cases may use, the case begun last, and the text begun last with its purpose and name.
#[derive(Drop)]
pub(crate) struct Script {
    alloc: Global,
    shared: MemStore,
    case: Case,
    purpose: Purpose,
    name: String,
    text: Vec<u8>,
}

impl Script {
    pub(crate) fn new(alloc: Global) -> Script {
        Script {
            alloc,
            shared: empty(alloc),
            case: Case::new(alloc, Vec::new(alloc)),
            purpose: Purpose::Shared,
            name: String::new(alloc),
            text: Vec::new(alloc),
        }
    }

    /// Ends the text begun last: puts it where its purpose says.
    fn end(&mut self) -> Result<(), StoreError> {
        let name = self.name.as_str();
        match self.purpose {
            Purpose::Shared => self.shared.keep(name, &self.text),
            Purpose::Held => self.case.hold(name, &self.text),
            Purpose::Sought => self.case.notes.sought.keep(name, &self.text),
        }
    }

    /// Ends the text begun last and begins another: `rest` has its name and the shared texts that it begins with.
    fn begin(&mut self, purpose: Purpose, rest: &str) -> Option<()> {
        self.end().ok()?;
        let (name, texts) = rest.split_once(' ').unwrap_or((rest, ""));
        self.purpose = purpose;
        self.name.clear();
        self.name.push_str(name).ok()?;
        self.text.clear();
        self.add_all(texts)
    }

    /// Adds a shared text so many times.
    fn add(&mut self, count: u32, name: &str) -> Option<()> {
        let text = self.shared.held(name)?;
        for _ in 0..count {
            self.text.extend_from_slice(text).ok()?;
        }
        Some(())
    }

    /// Adds shared texts.
    fn add_all(&mut self, names: &str) -> Option<()> {
        for name in names.split(' ') {
            if !name.is_empty() {
                self.add(1, name)?;
            }
        }
        Some(())
    }

    /// Adds a shared text as often as the number before its name says.
    fn add_times(&mut self, rest: &str) -> Option<()> {
        let (count, name) = rest.split_once(' ')?;
        self.add(number(count.as_bytes())?, name)
    }

    /// Adds bytes by their hexadecimal digits.
    fn add_bytes(&mut self, digits: &str) -> Option<()> {
        let bytes = hex::decode(self.alloc, digits).ok()?;
        self.text.extend_from_slice(&bytes).ok()
    }

    /// Adds a line.
    fn add_line(&mut self, line: &str) -> Option<()> {
        self.text.extend_from_slice(line.as_bytes()).ok()?;
        self.text.push(b'\n').ok()
    }

    /// Removes the last byte.
    fn bare(&mut self) -> Option<()> {
        self.text.truncate(self.text.len().saturating_sub(1));
        Some(())
    }

    /// Begins a case with a store whose calls of these numbers fail.
    fn begin_case(&mut self, failing: Vec<u64>) -> Option<()> {
        self.case = Case::new(self.alloc, failing);
        Some(())
    }

    /// Begins the case anew, with a store whose call of this number fails.
    fn begin_failing(&mut self, digits: &str) -> Option<()> {
        let call = u64::from(number(digits.as_bytes())?);
        self.begin_case(vec![in self.alloc; call].ok()?)
    }

    /// Makes the call of this number fail in the sink of each run.
    fn begin_sink(&mut self, digits: &str) -> Option<()> {
        self.case.sink = u64::from(number(digits.as_bytes())?);
        Some(())
    }

    /// Begins a case and shows its name.
    fn begin_named(&mut self, name: &str, page: &mut Page) -> Option<()> {
        page.add("== ");
        page.add(name);
        page.add("\n");
        self.begin_case(Vec::new(self.alloc))
    }

    /// Carries out a line that runs something.
    fn run<S: Store, O: Sink>(
        &mut self,
        word: &str,
        rest: &str,
        files: &mut S,
        output: &mut O,
        page: &mut Page,
    ) -> Option<()> {
        let words = words_of(self.alloc, rest).ok()?;
        match word {
            "run" => self.case.run(rest, &words, page),
            "files" => self.case.run_elsewhere(rest, &words, files, output, page),
            "image" => image(self.alloc, &words, page),
            _ => None,
        }
    }

    /// Carries out a line that doesn't change the text begun last.
    fn act<S: Store, O: Sink>(
        &mut self,
        word: &str,
        rest: &str,
        files: &mut S,
        output: &mut O,
        page: &mut Page,
    ) -> Option<()> {
        self.begin(Purpose::Shared, "")?;
        match word {
            "text" => self.begin(Purpose::Shared, rest),
            "file" => self.begin(Purpose::Held, rest),
            "piece" => self.begin(Purpose::Sought, rest),
            "store" => self.begin_failing(rest),
            "sink" => self.begin_sink(rest),
            "case" => self.begin_named(rest, page),
            _ => self.run(word, rest, files, output, page),
        }
    }

    /// Carries out a line, with the real files and standard output for `files`; None if it can't be carried out, or memory runs out.
    pub(crate) fn obey<S: Store, O: Sink>(
        &mut self,
        line: &str,
        files: &mut S,
        output: &mut O,
        page: &mut Page,
    ) -> Option<()> {
        if let Some(text) = line.strip_prefix('|') {
            return self.add_line(text);
        }
        let (word, rest) = line.split_once(' ').unwrap_or((line, ""));
        match word {
            "" | "#" => Some(()),
            "use" => self.add_all(rest),
            "times" => self.add_times(rest),
            "bytes" => self.add_bytes(rest),
            "bare" => self.bare(),
            _ => self.act(word, rest, files, output, page),
        }
    }
}
