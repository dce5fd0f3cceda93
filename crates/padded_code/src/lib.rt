//! Padded codes: their places never move, and a nop stands where a place is gone. Definitions, and the laws by which a padded code stands for the code of the
//! places that are kept.
#![tactic(auto)]

pub mod laws;
