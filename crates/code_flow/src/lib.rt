//! The ways on from an instruction and from a place of a listing: what is read and written, and where they lead; and the places that runs may come to.
#![tactic(auto)]

mod finding;
pub mod laws;
mod leaving;
mod marks;
mod points;
mod reaching;
mod way;

pub use finding::{answered, ways_of};
pub use leaving::{target, ways};
pub use marks::Reached;
pub use points::all_points;
pub use reaching::reached;
pub use way::{Next, Way, Ways};
