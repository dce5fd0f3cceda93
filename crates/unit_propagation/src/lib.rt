//! Unit propagation by two watched literals, which notes for each literal that becomes true the clause that is its reason.
#![tactic(auto)]

mod attaching;
pub mod laws;
mod watching;

pub use attaching::{attach, store};
pub use watching::propagate;
