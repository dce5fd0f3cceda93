//! What tidying gives back: the listing, and the number of changes that a command prints.
use listing_parser::Listing;

/// A listing that was tidied, and how many changes were made.
#[derive(Drop)]
pub struct Tidy {
    pub listing: Listing,
    pub changes: u64,
}
