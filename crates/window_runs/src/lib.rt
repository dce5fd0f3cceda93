//! The places of a listing as windows see them, and the runs of instructions that may stand in a window.
#![tactic(auto)]

pub mod rows;
pub mod runs;
