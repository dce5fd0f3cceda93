//! A sink in memory for tests: its bytes can be inspected, and chosen calls fail, so that each fault of an output can be tried.
ghost use Rattle.std.specs.Prelude.{◌≡◌, ◌↔◌, [], ◌∷◌, ◌++◌, IsErrOf, OnErr};
ghost use Rattle.outer_store.specs.Outside.{Putting};
ghost use Rattle.outer_store.specs.Answers.{SinkGrows, Puts};
ghost use Rattle.outer_store.specs.Scripts.{Bytes, IsCalled, FailsNext, RaisesBytes, seen_bytes};

use crate::calls::Calls;
use crate::history::History;
use crate::{Sink, SinkError};
use std::alloc::Global;
use std::marker::Model;

/// The bytes written, which contracts see, and the numbers of the calls that fail.
#[derive(Drop)]
pub struct MemSink {
    written: Vec<u8>,
    calls: Calls,
    history: History,
}

impl Model for MemSink {
    ghost Value = { Bytes };

    ghost view = { λ s. record { written = s.written.items; script = record { failing = s.calls.failing.items; calls = s.calls.made; faults = s.calls.faults }; events = s.history.events } };
}

impl MemSink {
    /// Nothing written yet. `failing` has the numbers, from 1, of the calls of `put` that fail.
    pub fn new(alloc: Global, failing: Vec<u64>) -> MemSink
        ensures { result ≡ record { written = []; script = record { failing = failing.items; calls = 0; faults = 0 }; events = [] } }
    {
        MemSink {
            written: Vec::new(alloc),
            calls: Calls::new(failing),
            history: History::new(),
        }
    }

    /// The bytes written so far.
    pub fn written(&self) -> &[u8]
        ensures { result.now ≡ self.now.written }
    {
        &self.written
    }
}

impl Sink for MemSink {
    ghost sunk = { seen_bytes };

    fn put(&mut self, bytes: &[u8]) -> Result<(), SinkError>
        ensures puts { Puts (seen_bytes self.old) (seen_bytes self.new) bytes.now result }
        ensures grows { SinkGrows (seen_bytes self.old) (seen_bytes self.new) }
        ensures events { self.new.events ≡ self.old.events ++ Putting bytes.now result ∷ [] }

        ensures called { IsCalled self.old.script self.new.script }
        ensures failed { IsErrOf result SinkError.Failed ↔ FailsNext self.old.script }
        ensures raises { RaisesBytes self.old self.new result }
        ensures unchanged { OnErr result (self.new.written ≡ self.old.written) }
    {
        let answer = if self.calls.fails_next() {
            Err(SinkError::Failed)
        } else {
            match self.written.extend_from_slice(bytes) {
                Ok(()) => Ok(()),
                Err(_) => Err(SinkError::Memory),
            }
        };
        self.history = self.history.put(bytes, answer);
        answer
    }
}
