//! What listings, their runs and their replaced instructions mean: definitions, and the laws that hold of them.
#![tactic(auto)]

pub mod laws;
