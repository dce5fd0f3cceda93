//! What the instructions of a window do to the registers r0 to r3 and the flags. The machine runs the same code over all its registers.
#![tactic(auto)]

mod computing;
pub mod laws;
mod one_word;
mod register_file;
mod sequence;
mod state;
mod states;
mod stepping;
mod words;

pub use computing::{compute, computes, total, written};
pub use register_file::{RegisterFile, flags};
pub use sequence::{differ, run_seq, tells};
pub use state::WState;
pub use states::States;
pub use stepping::step;
pub use words::Word;
