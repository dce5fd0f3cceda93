//! The encodings of instructions: one table of rows, each a list of pieces of bits from the highest, which both encoding and decoding read.
#![tactic(auto)]

mod bits;
mod code;
mod laws;
mod row;
mod table;

pub use code::{decode, encode};
pub use laws::{decoding_reads_back, rows_are_apart};
pub use row::Code;
