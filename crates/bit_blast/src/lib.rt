//! The formula of two sequences of instructions: gates over the bits of registers and flags, whose models are exactly the states that tell
//! the sequences apart under a mask.
#![tactic(auto)]

mod bits;
mod circuits;
mod forming;
pub mod laws;
mod shifts;
mod sides;
mod slots;
mod state;
mod words;

pub use sides::{family_formula, formula};
pub use slots::Symbol;
pub use state::{state_of, value_of};
