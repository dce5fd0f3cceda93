//! A listing whose instructions give way to others while the numbers of its places stay, so that what is kept for each place needs no renumbering.
#![tactic(auto)]

mod emitting;
mod given;
mod giving;
mod in_place;
mod labels;
pub mod laws;
mod listing;
mod looks;
mod passing;
mod standing;

pub use listing::EditedListing;
pub use looks::Run;
pub use standing::Standing;
