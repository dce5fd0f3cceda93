//! The scanner that the readers of listings, tables, costs and command lines share: lines, numerals, names, and the words and marks of a statement.
#![tactic(auto)]

mod naming;
mod numerals;
mod source;
mod words;

pub use naming::{is_name_byte, is_spelled, name};
pub use numerals::{hex_digit, number};
pub use source::{Lines, SourceLine, TEXT_LIMIT, lines_are_slices, lines_join_to_the_text};
pub use words::{Token, next_token};
