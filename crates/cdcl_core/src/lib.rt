//! A CDCL solver whose log can be checked: it refutes the formula, or shows that the search spent its budget.
#![tactic(auto)]

mod adopting;
mod analysis;
mod assumption;
mod certifying;
mod dropping;
mod formulas;
mod hinting;
pub mod laws;
mod learning;
mod minimising;
mod order;
mod search;
mod solver;
mod solving;

pub use clause_arena::Memory;
pub use solving::{Verdict, solve};
