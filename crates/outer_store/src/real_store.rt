//! The store of the shipped program: the system's files. Contracts can't see their contents, so they speak only of the calls and their answers.
ghost use Rattle.std.specs.Prelude.{◌≡◌, []};
ghost use Rattle.outer_store.specs.Scripts.{RealFiles, seen_files};

use crate::history::History;
use crate::transfer::{read_all, write_all};
use crate::{Store, StoreError};
use std::alloc::Global;
use std::fs;
use std::marker::Model;
use std::rt::Files;

/// The files of the runtime, of which contracts see only the calls. If a file can't be opened for a fetch, for whatever reason,
/// the answer is `Missing`.
#[derive(Drop)]
pub struct RealStore<R: Files> {
    rt: R,
    faults: u64,
    missing: u64,
    oversize: u64,
    history: History,
}

impl<R: Files> Model for RealStore<R> {
    ghost Value = { RealFiles };

    ghost view = { λ s. record { faults = s.faults; missing = s.missing; oversize = s.oversize; events = s.history.events } };
}

impl<R: Files> RealStore<R> {
    /// The files that the runtime reaches, with every count 0 and no call yet.
    pub fn new(rt: R) -> RealStore<R>
        ensures { result ≡ record { faults = 0; missing = 0; oversize = 0; events = [] } }
    {
        RealStore {
            rt,
            faults: 0,
            missing: 0,
            oversize: 0,
            history: History::new(),
        }
    }
}

impl<R: Files> Store for RealStore<R> {
    ghost seen = { seen_files };

    fn fetch(&mut self, alloc: Global, name: &str) -> Result<Vec<u8>, StoreError> {
        let answer = match fs::open(&self.rt, name) {
            Err(_) => {
                self.missing = self.missing.saturating_add(1);
                Err(StoreError::Missing)
            }
            Ok(mut file) => match read_all(alloc, &mut file) {
                Err(StoreError::Failed) => {
                    self.faults = self.faults.saturating_add(1);
                    Err(StoreError::Failed)
                }
                Err(StoreError::TooBig) => {
                    self.oversize = self.oversize.saturating_add(1);
                    Err(StoreError::TooBig)
                }
                other => other,
            },
        };
        self.history = self.history.fetched(name, &answer);
        answer
    }

    fn keep(&mut self, name: &str, bytes: &[u8]) -> Result<(), StoreError> {
        let written = match fs::create(&self.rt, name) {
            Ok(mut file) => write_all(&mut file, bytes),
            Err(_) => false,
        };
        let answer = if written {
            Ok(())
        } else {
            self.faults = self.faults.saturating_add(1);
            Err(StoreError::Failed)
        };
        self.history = self.history.kept(name, bytes, answer);
        answer
    }
}
