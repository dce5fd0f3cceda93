//! No code: lemmas on truth values, numbers and lists, shared by crates that otherwise have no dependency in common.
#![tactic(auto)]
