//! Tidying a listing: branches are redirected to the ends of their chains; branches to the next place and instructions that nothing reaches are removed.
#![tactic(auto)]

mod chain_ends;
mod chains;
mod changing;
mod drafted;
mod due_places;
mod errors;
mod found;
pub mod laws;
mod limits;
mod outcome;
mod quick;
mod reached_places;
mod searching;
mod settling;
mod tidied;
mod tidying;
mod widest_layout;

pub use errors::TidyError;
pub use tidied::Tidy;
pub use tidying::tidy;
