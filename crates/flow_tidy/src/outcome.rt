//! Where the branch at a place goes, and what became of a place or its branch. What isn't sure while places keep their numbers is decided later, by laying out
//! the listing that a change would make.

/// What became of a place, or of the first place at which a change is possible.
#[derive(Clone, Copy)]
pub(crate) enum PlaceOutcome {
    /// No change is possible there.
    Nothing,
    /// A change was made.
    Made,
    /// Whether a branch can go to the end of its chain is not sure.
    Unsure,
}

/// What became of the branch at a place.
#[derive(Clone, Copy)]
pub(crate) enum Redirected {
    /// It doesn't reach the end of its chain.
    Refused,
    /// It goes to the end of its chain now.
    Made,
    /// Whether it can go there is not sure.
    Unsure,
}

/// Where the branch at a place goes.
#[derive(Clone, Copy)]
pub(crate) enum Way {
    /// To the next place.
    Next,
    /// Not there, and the end of its chain is where the branch at this place goes.
    End(u32),
    /// Not there, and its chain has no end, or no branch stands at the place.
    Other,
}
