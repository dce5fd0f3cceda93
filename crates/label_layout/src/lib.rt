//! Where the lines of a listing lie: addresses as sums of sizes and paddings, and the first line that cannot be laid out.
#![tactic(auto)]

mod addresses;
mod errors;
mod faults;
mod laying;
mod sizes;

pub use addresses::{Layout, cleared};
pub use errors::{LayoutError, LayoutFault};
pub use faults::aim_fault;
pub use laying::layout;
pub use sizes::{CODE_END, behind, behind_words, instr_size, padding};
