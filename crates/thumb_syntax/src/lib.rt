//! Reads and writes instructions as text: the canonical spelling of the Arm manual's unified syntax, and other spellings that are only read.
#![tactic(auto)]

mod canonical;
mod fields;
mod form;
mod laws;
mod left;
mod lists;
mod operands;
mod reading;
mod registers;
mod table;
mod whole;
mod writing;

pub use fields::Label;
pub use laws::{forms_agree, reading_is_whole, some_form_reads, writing_reads_back};
pub use operands::is_name;
pub use reading::{Parsed, read_instr};
pub use whole::is_whole;
pub use writing::write_instr;
