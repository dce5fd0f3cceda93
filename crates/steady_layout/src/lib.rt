//! Listings whose mentions stay within reach, whichever of their instructions are replaced by runs that are no longer.
#![tactic(auto)]

mod aims;
mod judging;
mod laying;
mod starts;

pub use judging::is_steady;
pub use laying::lay_widest;
pub use starts::Start;
