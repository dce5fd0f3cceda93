//! How sequences are told apart by running them: the states of a seed, run eight at a time; prints
//! (hashes) of the states that a sequence ends in; tables of what each sequence of an alphabet makes of one state,
//! in columns, so that a scan of a column finds the sequences that leave a word; and sequences
//! run from all listed states and compared with what a left side leaves.
#![tactic(auto)]

mod arranging;
mod basic;
mod bytes;
mod columns;
mod eight_words;
mod flags;
mod index;
mod lanes;
pub mod laws;
mod looks;
mod numbering;
mod outcome_columns;
mod outcomes;
mod print;
mod sequences;
mod shifts;
mod short_list;
mod states;
mod stepping;
mod sums;
mod tables;
mod trials;

pub use index::Index;
pub use lanes::Lanes;
pub use outcomes::Outcomes;
pub use print::print_of;
pub use short_list::candidates;
pub use states::{first_state_of_42, seeded};
pub use stepping::step8;
pub use tables::Tables;
pub use trials::{Trial, is_told, run, trials_of};
