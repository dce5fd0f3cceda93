//! Gates over bits, written as clauses in conjunctive normal form (the transformation of Tseitin),
//! with constants folded and one gate for each key.
#![tactic(auto)]

mod assignment;
mod bit;
mod builder;
mod clauses;
mod dimacs;
mod errors;
mod formula;
pub mod laws;

pub use assignment::Model;
pub use bit::{Bit, Gate, LIMIT, Signal, Variable};
pub use builder::Builder;
pub use dimacs::write_dimacs;
pub use errors::{GateError, Memory};
pub use formula::Formula;
