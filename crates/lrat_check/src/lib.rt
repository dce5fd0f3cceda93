//! Proofs in the text format LRAT, and a checker that accepts only clauses that follow; whole proofs
//! that a formula has no model, and logs of searches that spent their budget.
#![tactic(auto)]

mod checker;
mod clause;
mod deletion;
mod entry;
mod fault;
mod kept_clauses;
pub mod laws;
mod line;
mod lists;
mod logs;
mod meanings;
mod proof_fault;
mod proofs;
mod propagation;
mod shown;
mod text;
mod trimming;
mod words;

pub use checker::Checker;
pub use fault::LineFault;
pub use line::{Addition, Deletion, Hint, Id, Line, VARIABLES};
pub use logs::is_spent;
pub use proof_fault::ProofFault;
pub use proofs::check_proof;
pub use text::{length_of_line, read_line, write_line};
pub use trimming::trim;
