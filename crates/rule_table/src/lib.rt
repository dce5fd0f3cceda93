//! Tables of rules and their text. Each line ends with a newline; one blank stands between two words, numbers are decimal without leading
//! zeros, instructions in canonical text over r0 to r3.
//!
//! ```text
//! peep N                   the version, 1 to 4
//! regs N                   1 to 4
//! left N                   1 to 5
//! seed N                   below 2^32
//! budget N                 1 to 1,000,000
//! pool N ..                1 to 16 numbers from 0 to 255, ascending
//! scratch N                0 or 1; from version 2 on
//! costs N ..               28 numbers from 1 to 64; in version 4 alone
//! state R0 R1 R2 R3 F      any number of them: eight hexadecimal digits each and one for the flags, in lower case
//! entry                    any number of entries, each these lines:
//! left INSTRUCTION         1 to 5
//! right INSTRUCTION        0 to 5
//! mask ITEM ..             some of r0 r1 r2 r3 n z c v, in this order
//! proof                    and then lines in LRAT
//! open NUMBER              any number of them, each number above the one before, and lines in LRAT after each
//! family ENTRY NUMBER LOW HIGH
//!                          any number of families, from version 3 on: each this line, of four numbers below 2^32, and
//! proof                    and then lines in LRAT
//! end
//! ```
#![tactic(auto)]

mod binding;
mod draft;
mod errors;
mod header;
mod item;
pub mod laws;
mod lines;
mod map;
mod matching;
mod numbers;
mod reading;
mod scratch;
mod table;
mod tails;
mod telling;
mod windows;
mod words;
mod writing;

pub use binding::same_kind;
pub use errors::TableError;
pub use header::{Field, Header, HeaderLine, LearnOptions};
pub use map::Map;
pub use matching::matches;
pub use reading::read_table;
pub use scratch::free_scratch;
pub use table::{Entry, Family, Open, Table};
pub use windows::{are_windows, canonical, renamed_all};
pub use writing::write_table;
