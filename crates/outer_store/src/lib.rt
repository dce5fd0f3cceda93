//! The outside of the program: stores of texts by name, and sinks of bytes.
//!
//! A store or a sink shows its content to contracts (those in memory do), or hides it (the real ones do). Either
//! way it counts what went wrong, so that each answer other than `Ok` has a cause, and records its calls in a
//! history, so that a contract can say what was asked of it.
#![tactic(auto)]

ghost use Rattle.std.specs.Prelude.{◌≡◌, [], ◌∷◌, ◌++◌, Result};
ghost use Rattle.std.specs.Result.{result_map_both};
ghost use Rattle.outer_store.specs.Outside.{Fetching, Keeping, Putting, Seen, SameHeld, Sunk};
ghost use Rattle.outer_store.specs.Answers.{Grows, OthersStay, Fetches, Keeps, SinkGrows, Puts};

mod calls;
mod history;
mod mem_sink;
mod mem_store;
mod real_sink;
mod real_store;
mod transfer;

pub use mem_sink::MemSink;
pub use mem_store::MemStore;
pub use real_sink::RealSink;
pub use real_store::RealStore;
use std::alloc::Global;
use thiserror::Error;

/// Why a store did not do what was asked.
#[derive(Clone, Copy, Debug, PartialEq, Eq, Error)]
pub enum StoreError {
    /// The store failed.
    #[error("the store failed")]
    Failed,
    /// Only of a fetch: there is no text under the name.
    #[error("no such name")]
    Missing,
    /// Only of a fetch: the text under the name is longer than `ascii_scan::TEXT_LIMIT`.
    #[error("the text is too big")]
    TooBig,
    /// Memory ran out.
    #[error("out of memory")]
    Memory,
}

/// Why a sink did not take what was put.
#[derive(Clone, Copy, Debug, PartialEq, Eq, Error)]
pub enum SinkError {
    /// The sink failed, and took a prefix of the bytes, possibly none.
    #[error("the sink failed")]
    Failed,
    /// Memory ran out, and no byte was taken.
    #[error("out of memory")]
    Memory,
}

/// Texts by name.
pub trait Store {
    ghost seen: { Self → Seen };

    /// The text under a name, of at most `ascii_scan::TEXT_LIMIT` bytes.
    fn fetch(&mut self, alloc: Global, name: &str) -> Result<Vec<u8>, StoreError>
        ensures fetches { Fetches (seen self.old) (seen self.new) name.now (result_map_both (λ v. v.items) (λ e. e) result) }
        ensures held { SameHeld (seen self.old).held (seen self.new).held }
        ensures grows { Grows (seen self.old) (seen self.new) }
        ensures events { (seen self.new).events ≡ (seen self.old).events ++ Fetching name.now (result_map_both (λ v. v.items) (λ e. e) result) ∷ [] };

    /// Puts the bytes under a name, in place of what was there. After `Failed` the content under that name is unspecified.
    fn keep(&mut self, name: &str, bytes: &[u8]) -> Result<(), StoreError>
        ensures keeps { Keeps (seen self.old) (seen self.new) name.now bytes.now result }
        ensures others { OthersStay name.now (seen self.old).held (seen self.new).held }
        ensures grows { Grows (seen self.old) (seen self.new) }
        ensures events { (seen self.new).events ≡ (seen self.old).events ++ Keeping name.now bytes.now result ∷ [] };
}

/// A place for what is printed.
pub trait Sink {
    ghost sunk: { Self → Sunk };

    /// Writes the bytes after those that were written before.
    fn put(&mut self, bytes: &[u8]) -> Result<(), SinkError>
        ensures puts { Puts (sunk self.old) (sunk self.new) bytes.now result }
        ensures grows { SinkGrows (sunk self.old) (sunk self.new) }
        ensures events { (sunk self.new).events ≡ (sunk self.old).events ++ Putting bytes.now result ∷ [] };
}
