//! Runs a command: fetches the texts under its names, lets it compute its outcome from them, keeps the outcome's texts and prints its lines with one put.
#![tactic(auto)]

mod outcome;
mod stages;
mod status;

pub use outcome::{KeptText, Outcome};
pub use stages::{TextCommand, run};
pub use status::Status;
