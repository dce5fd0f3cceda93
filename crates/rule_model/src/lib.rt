//! What rules are, where they apply, and what it means to rewrite a listing by a table of them: definitions, and the laws that hold of them.
#![tactic(auto)]

pub mod laws;
