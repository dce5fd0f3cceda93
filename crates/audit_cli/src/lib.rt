//! The ten commands, a module each, and the top call `peep`, whose contract is the promise of the whole program.
#![tactic(auto)]

mod audit;
mod demo;
mod export;
mod generalising;
pub mod laws;
mod learn;
mod printing;
mod raising;
mod refusal;
mod rewrite;
mod running;
mod start;
mod steps;
mod tidy;
mod top;
mod trace;
mod trace_lines;
mod trim;
mod upgrade;

pub use command_line::{Command, usage_of};
pub use command_runs::Status;
pub use raising::{FamilyFault, generalise};
pub use top::peep;
