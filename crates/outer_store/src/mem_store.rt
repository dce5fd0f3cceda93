//! A store in memory for tests: its texts can be inspected, and chosen calls fail, so that each fault of a file can be tried.
ghost use Rattle.std.specs.Prelude.{◌≡◌, ◌↔◌, ℕ, List, [], ◌∷◌, ◌++◌, Some, find, if◌then◌else◌, OnOk, OnErr, IsErrOf};
ghost use Rattle.std.specs.List.{position};
ghost use Rattle.std.specs.Option.{option_copied};
ghost use Rattle.std.specs.Result.{result_map_both};
ghost use Rattle.std.specs.Str.{bytes_eq};
ghost use Rattle.outer_store.specs.Entries.{is_named, text_in};
ghost use Rattle.outer_store.specs.Outside.{Fetching, Keeping, SameHeld};
ghost use Rattle.outer_store.specs.Answers.{Grows, OthersStay, Fetches, Keeps};
ghost use Rattle.outer_store.specs.Scripts.{Texts, IsCalled, FailsNext, RaisesTexts, seen_texts};

use crate::calls::Calls;
use crate::history::History;
use crate::{Store, StoreError};
use ascii_scan::TEXT_LIMIT;
use std::alloc::{AllocError, Global};
use std::marker::Model;

/// Texts in memory, which contracts see, and the numbers of the calls that fail. Of two texts under one name the
/// first counts.
#[derive(Drop)]
pub struct MemStore {
    alloc: Global,
    held: Vec<(String, Vec<u8>)>,
    calls: Calls,
    missing: u64,
    oversize: u64,
    history: History,
}

impl Model for MemStore {
    ghost Value = { Texts };

    ghost view = { λ s. record { entries = s.held.items; script = record { failing = s.calls.failing.items; calls = s.calls.made; faults = s.calls.faults }; missing = s.missing; oversize = s.oversize; events = s.history.events } };
}

impl MemStore {
    /// Holds the texts given. `failing` has the numbers, from 1, of the calls of `fetch` and `keep` that fail.
    pub fn new(alloc: Global, held: Vec<(String, Vec<u8>)>, failing: Vec<u64>) -> MemStore
        ensures { result ≡ record { entries = held.items; script = record { failing = failing.items; calls = 0; faults = 0 }; missing = 0; oversize = 0; events = [] } }
    {
        MemStore {
            alloc,
            held,
            calls: Calls::new(failing),
            missing: 0,
            oversize: 0,
            history: History::new(),
        }
    }

    /// The text under a name, if there is one.
    pub fn held(&self, name: &str) -> Option<&[u8]>
        ensures { option_copied result ≡ text_in self.now.entries name.now }
    {
        text_of(&self.held, name)
    }
}

/// The index of the first pair with a name.
fn place_of(held: &[(String, Vec<u8>)], name: &str) -> Option<usize>
    ensures { result ≡ position (is_named name.now) held.now }
{
    held.iter().position(|entry| entry.0.as_str() == name)
}

/// The first pair with a name.
fn entry_of<'a>(held: &'a [(String, Vec<u8>)], name: &str) -> Option<&'a (String, Vec<u8>)>
    ensures { option_copied result ≡ find (is_named name.now) held.now }
{
    held.iter().find(|entry| entry.0.as_str() == name)
}

/// The text under a name, if there is one.
fn text_of<'a>(held: &'a [(String, Vec<u8>)], name: &str) -> Option<&'a [u8]>
    ensures { option_copied result ≡ text_in held.now name.now }
{
    match entry_of(held, name) {
        None => None,
        Some(entry) => Some(entry.1.as_slice()),
    }
}

/// Puts a text under a name, in place of the one there.
fn put_text(
    alloc: Global,
    held: &mut Vec<(String, Vec<u8>)>,
    name: &str,
    bytes: &[u8],
) -> Result<(), AllocError>
    ensures ok { OnOk result ((n : List ℕ) → text_in held.new.items n ≡ (if bytes_eq name.now n then Some bytes.now else text_in held.old.items n)) }
    ensures err { OnErr result (held.new.items ≡ held.old.items) }
{
    let text = bytes.to_vec(alloc)?;
    match place_of(held, name) {
        Some(i) => {
            held[i].1 = text;
            Ok(())
        }
        None => {
            let name = String::from_str(alloc, name)?;
            held.push((name, text))?;
            Ok(())
        }
    }
}

impl Store for MemStore {
    ghost seen = { seen_texts };

    fn fetch(&mut self, alloc: Global, name: &str) -> Result<Vec<u8>, StoreError>
        ensures fetches { Fetches (seen_texts self.old) (seen_texts self.new) name.now (result_map_both (λ v. v.items) (λ e. e) result) }
        ensures held { SameHeld (text_in self.old.entries) (text_in self.new.entries) }
        ensures grows { Grows (seen_texts self.old) (seen_texts self.new) }
        ensures events { self.new.events ≡ self.old.events ++ Fetching name.now (result_map_both (λ v. v.items) (λ e. e) result) ∷ [] }

        ensures called { IsCalled self.old.script self.new.script }
        ensures failed { IsErrOf result StoreError.Failed ↔ FailsNext self.old.script }
        ensures raises { RaisesTexts self.old self.new result }
    {
        let answer = if self.calls.fails_next() {
            Err(StoreError::Failed)
        } else {
            match text_of(&self.held, name) {
                None => {
                    self.missing = self.missing.saturating_add(1);
                    Err(StoreError::Missing)
                }
                Some(text) if text.len() > TEXT_LIMIT => {
                    self.oversize = self.oversize.saturating_add(1);
                    Err(StoreError::TooBig)
                }
                Some(text) => match text.to_vec(alloc) {
                    Ok(copy) => Ok(copy),
                    Err(_) => Err(StoreError::Memory),
                },
            }
        };
        self.history = self.history.fetched(name, &answer);
        answer
    }

    fn keep(&mut self, name: &str, bytes: &[u8]) -> Result<(), StoreError>
        ensures keeps { Keeps (seen_texts self.old) (seen_texts self.new) name.now bytes.now result }
        ensures others { OthersStay name.now (text_in self.old.entries) (text_in self.new.entries) }
        ensures grows { Grows (seen_texts self.old) (seen_texts self.new) }
        ensures events { self.new.events ≡ self.old.events ++ Keeping name.now bytes.now result ∷ [] }

        ensures called { IsCalled self.old.script self.new.script }
        ensures failed { IsErrOf result StoreError.Failed ↔ FailsNext self.old.script }
        ensures raises { RaisesTexts self.old self.new result }
        ensures unchanged { OnErr result (self.new.entries ≡ self.old.entries) }
    {
        let answer = if self.calls.fails_next() {
            Err(StoreError::Failed)
        } else {
            match put_text(self.alloc, &mut self.held, name, bytes) {
                Ok(()) => Ok(()),
                Err(_) => Err(StoreError::Memory),
            }
        };
        self.history = self.history.kept(name, bytes, answer);
        answer
    }
}
