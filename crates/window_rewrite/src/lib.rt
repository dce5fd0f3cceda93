//! Rewriting a listing by a table of rules, until no rule applies.
//!
//! In turn, at the least place where some entry of the table applies, or a family with one of its values, its left side is replaced: of those that apply there
//! the one with the longest left side, of these an entry before a family, and of these the lowest. One applies only if its right side weighs less than its left
//! side: if it is shorter, or by a table with costs, if it costs less. So each replacement lowers the weight of the listing, and rewriting ends.
//!
//! What may be replaced is decided by the items that are live, by the labels, by how many lines would be left and by their layout. Marks of hashes that ignore
//! registers reject most windows. Any other is put in canonical form and compared with the entries whose left side has the hash of that form; one fits only if
//! its mask has the items that are live. An entry is left out where an earlier one has its left side, its mask and a right side as long, and needs a scratch
//! register only if it does. Families are found by their left sides with 0 for 8-bit numbers, and each is tried with the one value that its number has in the
//! window. A scratch register is looked for last, by what is live after the window.
//!
//! The listing keeps the numbers of its places while windows give way. What is live before each place is kept too, and so is the layout, where the listing
//! isn't steady; nothing moves in it where as many instructions come as go. The least place that is due is looked at next. All are due at first, and after a
//! replacement those whose windows reach into it, those whose windows end where items aren't live any more, and those at which an entry that fits was refused
//! for the lines that it would leave.
#![tactic(auto)]

mod chains;
mod choice;
mod errors;
mod families;
mod finding;
mod fitting;
mod forms;
mod fronts;
mod hashes;
mod index;
mod known_layout;
mod left_side_hashes;
mod registers;
mod rewriting;
mod scene;
mod scratch;
mod shadows;
mod work_list;

pub use choice::{Replacement, Rewritten};
pub use errors::RewriteError;
pub use rewriting::rewrite;
