//! A change that tidying made, with the listing after it. Where nothing moved there is no new layout: the old one still says where lines lie.
use label_layout::Layout;
use listing_parser::Listing;

/// The listing after a change, and where it lies, unless nothing moved.
#[derive(Drop)]
pub(crate) struct Changed {
    pub(crate) listing: Listing,
    pub(crate) moved: Option<Layout>,
}

/// The place of a change, and the listing after it.
#[derive(Drop)]
pub(crate) struct Found {
    pub(crate) place: u32,
    pub(crate) changed: Changed,
}
