//! Theorems about listings that no code rests on: where the layout of a listing ends, and when the naming of code points by their addresses fits a listing.
#![tactic(auto)]

pub mod laws;
