//! The machine: runs a listing as the model defines it, by the ARMv6-M manual; what comes from outside is a list of answers.
#![tactic(auto)]

mod accessing;
mod acting;
mod answers;
mod computing;
mod distinct;
mod event;
mod fitting;
mod laying;
mod lists;
mod machine;
mod making;
mod memory;
mod naming;
mod points;
mod popping;
mod position;
mod program;
mod registers;
mod stages;
mod system;
mod walking;
mod world;

pub use answers::{Answer, Answers, Bytes};
pub use event::Event;
pub use laying::fixed_word;
pub use machine::{Machine, State, registers_of};
pub use memory::Memory;
pub use naming::Naming;
pub use position::{Position, Stage, stage_of};
pub use program::{PlaceContents, Program};
pub use registers::Registers;
pub use stages::stage_word;
pub use world::{Around, Continuation, End, Landing, Lands, Target, World};
