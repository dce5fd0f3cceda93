//! The sink of the shipped program: standard output. Its content can't be inspected, so contracts speak only of the calls of `put`.
ghost use Rattle.std.specs.Prelude.{◌≡◌, []};
ghost use Rattle.outer_store.specs.Scripts.{RealOutput, seen_output};

use crate::history::History;
use crate::transfer::write_all;
use crate::{Sink, SinkError};
use std::io;
use std::marker::Model;

/// The standard output of the runtime, of which contracts see only the calls of `put`.
#[derive(Drop)]
pub struct RealSink<R: Print> {
    rt: R,
    faults: u64,
    history: History,
}

impl<R: Print> Model for RealSink<R> {
    ghost Value = { RealOutput };

    ghost view = { λ s. record { faults = s.faults; events = s.history.events } };
}

impl<R: Print> RealSink<R> {
    /// The runtime's standard output, with no fault and no call yet.
    pub fn new(rt: R) -> RealSink<R>
        ensures { result ≡ record { faults = 0; events = [] } }
    {
        RealSink {
            rt,
            faults: 0,
            history: History::new(),
        }
    }
}

impl<R: Print> Sink for RealSink<R> {
    ghost sunk = { seen_output };

    fn put(&mut self, bytes: &[u8]) -> Result<(), SinkError> {
        let answer = if write_all(&mut io::writer(&self.rt), bytes) {
            Ok(())
        } else {
            self.faults = self.faults.saturating_add(1);
            Err(SinkError::Failed)
        };
        self.history = self.history.put(bytes, answer);
        answer
    }
}
