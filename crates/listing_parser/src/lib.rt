//! Listings as GNU assembler texts of Armv6-M Thumb code: read line by line, printed back byte for byte, and edited by replacing instructions.
#![tactic(auto)]

mod directive;
mod errors;
mod index;
pub mod laws;
mod line;
mod listing;
mod parsing;
mod reading;
mod replacing;
mod retargeting;
mod splitting;
mod statement;
mod targets;
mod twice;
mod values;

pub use errors::{ListingError, ListingFault, Memory};
pub use line::{FunctionMark, ListingLine, Mention, Place, Statement, Value, is_call};
pub use listing::Listing;
pub use parsing::{parse, print};
pub use reading::{LONGEST_LINE, MOST_LINES};
pub use replacing::{add_labels, add_new, copy_lines, is_op, line_of_labels};
pub use retargeting::branch_line;
