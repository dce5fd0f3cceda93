//! Learns a table of rules from windows: for each window the shortest sequence with the same effect, or with costs the cheapest, and its proof.
#![tactic(auto)]

mod dropping;
mod errors;
mod keeping;
pub mod laws;
mod learning;
mod lengths;
mod ordering;
mod searching;
mod settings;
mod trying;
mod window;

pub use errors::LearnError;
pub use learning::learn;
pub use settings::Settings;
