//! Assembles a listing into its image: the bytes of its instructions and data words at their addresses, with padding between them.
#![tactic(auto)]

mod aiming;
mod assembling;
mod errors;
mod image;
pub mod laws;
mod machine;
mod pushing;

pub use assembling::assemble;
pub use errors::ImageError;
pub use machine::ImageMachine;
