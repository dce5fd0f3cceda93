//! The edges of the flow graph: what is read and written on the way from an instruction to what may run next.
use thumb_instr::Items;

/// Where a way leads.
#[derive(Clone, Copy, Debug, PartialEq, Eq)]
pub enum Next {
    /// To this place. It may be one past the last place, where nothing stands.
    Place(u32),
    /// To any code point: the place of a code label, or a return point, which is the place right after a `bl` or `blx`.
    Points,
    /// Out of the listing.
    Out,
}

/// A way on from an instruction: the items that it reads, those that it writes, and where it leads.
#[derive(Clone, Copy, Debug, PartialEq, Eq)]
pub struct Way {
    pub uses: Items,
    pub writes: Items,
    pub next: Next,
}

/// The ways on from an instruction: one or two.
#[derive(Clone, Copy, Debug, PartialEq, Eq)]
pub struct Ways {
    pub first: Way,
    pub second: Option<Way>,
}
