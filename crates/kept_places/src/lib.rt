//! Places of a listing whose numbers stay while some of them go.
//!
//! A place that is gone leads on to a later one, and so at last to the next one that is kept. A search lets all places that it passes lead straight there,
//! so that later searches are short. With each kept place goes the first of the gone ones right before it. How many places are gone is counted by groups
//! of 64 and of 4096 places, so a place's number now takes few additions. Sets of places have a bit for each place, and bounds outside which all words are 0.
#![tactic(auto)]

mod counting;
mod kept;
pub mod laws;
mod leading;
mod set;
mod words;

pub use kept::KeptPlaces;
pub use set::PlaceSet;
