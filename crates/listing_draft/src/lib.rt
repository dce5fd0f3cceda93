//! A listing from which instructions are removed and in which branches are redirected while the numbers of its places stay.
//!
//! What changes is noted by places: no line is moved or written before the listing is asked for in the end.
#![tactic(auto)]

mod draft;
mod emitting;

pub use draft::{Draft, instr_of};
