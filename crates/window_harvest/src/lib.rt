//! The windows of a listing with the items that are live after them, in canonical form, each pair once: what a table is learnt from.
#![tactic(auto)]

mod adding;
mod harvesting;
mod keys;
mod numberings;

pub use harvesting::windows;
