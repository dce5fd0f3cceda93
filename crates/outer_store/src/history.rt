//! The calls of a store or a sink so far, with their answers. They exist only in contracts: a history has no bytes, and adding a call does nothing at run time.
ghost use Rattle.std.specs.Prelude.{◌≡◌, List, [], ◌∷◌, ◌++◌, Result};
ghost use Rattle.std.specs.Result.{result_map_both};
ghost use Rattle.std.specs.Borrow.{ftrue};
ghost use Rattle.outer_store.specs.Outside.{Event, Fetching, Keeping, Putting};
ghost use Rattle.outer_store.specs.EventCodes.{events_code};

use crate::{SinkError, StoreError};
use std::marker::Model;

/// The calls so far.
#[derive(Drop)]
pub(crate) struct History {
    ghost events: { List Event } by { events_code },
}

impl Model for History {
    ghost also_owns = { λ _. ftrue };
}

/// One call: what it was given, and its answer.
#[derive(Clone, Copy, Drop)]
pub(crate) enum Note<'a> {
    Fetched(&'a str, &'a [u8]),
    Unfetched(&'a str, StoreError),
    Kept(&'a str, &'a [u8]),
    Unkept(&'a str, &'a [u8], StoreError),
    Put(&'a [u8]),
    Unput(&'a [u8], SinkError),
}

impl History {
    ghost use Rattle.outer_store.specs.Notes.{event_of};

    /// The history without calls.
    pub(crate) fn new() -> History
        ensures { result.events ≡ [] }
    {
        History {}
    }

    /// The history with one more call.
    pub(crate) fn and(&self, _note: &Note<'_>) -> History
        ensures { result.events ≡ self.now.events ++ event_of _note.now ∷ [] }
    {
        History {}
    }

    /// The history with one more fetch.
    pub(crate) fn fetched(&self, name: &str, answer: &Result<Vec<u8>, StoreError>) -> History
        ensures { result.events ≡ self.now.events ++ Fetching name.now (result_map_both (λ v. v.items) (λ e. e) answer.now) ∷ [] }
    {
        match answer {
            Ok(text) => self.and(&Note::Fetched(name, text)),
            Err(error) => self.and(&Note::Unfetched(name, *error)),
        }
    }

    /// The history with one more keep.
    pub(crate) fn kept(&self, name: &str, bytes: &[u8], answer: Result<(), StoreError>) -> History
        ensures { result.events ≡ self.now.events ++ Keeping name.now bytes.now answer ∷ [] }
    {
        match answer {
            Ok(()) => self.and(&Note::Kept(name, bytes)),
            Err(error) => self.and(&Note::Unkept(name, bytes, error)),
        }
    }

    /// The history with one more put.
    pub(crate) fn put(&self, bytes: &[u8], answer: Result<(), SinkError>) -> History
        ensures { result.events ≡ self.now.events ++ Putting bytes.now answer ∷ [] }
    {
        match answer {
            Ok(()) => self.and(&Note::Put(bytes)),
            Err(error) => self.and(&Note::Unput(bytes, error)),
        }
    }
}
