//! The audit of a table: accepted rules are sound, and shortest, or with costs cheapest, but for what they name open; families hold for each of their values.
#![tactic(auto)]

mod audited;
mod errors;
mod families;
pub mod laws;
mod lighter;
mod opens;
mod refutation;
mod sides;
mod states;
mod told;
mod verdict;
mod widths;

pub use audited::Audited;
pub use errors::{AuditError, EntryFault, FamilyKind};
pub use families::{
    entry_at, entry_of, family_at, family_formula, is_hole, is_raisable, raised_side,
};
pub use sides::{
    alphabet_registers, entry_formula, named_count, register_count, sides_fit, with_scratch,
};
pub use verdict::audit;
pub use widths::{WIDEST, below_at, count_shorter, width};
