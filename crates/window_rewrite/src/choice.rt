//! What a search for a replacement finds: a choice carries all that is needed to make the replacement, so that nothing is looked up again.
use kept_layout::Move;
use listing_parser::Listing;
use rule_table::Map;
use thumb_instr::Seq;

/// A replacement that was made: the right side of an entry, or of an instance of a family, stands in place of the left side.
#[derive(Drop)]
pub struct Replacement {
    /// The place of the first instruction that was replaced, counted from 0 in the listing as it then was.
    pub place: u32,
    /// The entry of the table, counted from 1, or the family, where these are counted behind the entries.
    pub entry: u64,
    /// How far the value of a family's number is above the least; 0 for an entry.
    pub instance: u8,
    /// The registers that stood in place of the entry's own, and of a scratch register where its right side names one.
    pub map: Map,
}

/// What rewriting leaves.
#[derive(Drop)]
pub struct Rewritten {
    pub listing: Listing,
    /// The replacements in the order in which they were made.
    pub replacements: Vec<Replacement>,
}

/// A replacement that can be made, and what it puts in place of what.
#[derive(Drop)]
pub(crate) struct Choice {
    pub(crate) replacement: Replacement,
    /// The instructions that go.
    pub(crate) window: Seq,
    /// The instructions that come.
    pub(crate) new: Seq,
    /// How the layout moves, where one is kept.
    pub(crate) moved: Move,
}

impl Choice {
    ghost use Rattle.std.specs.Prelude.{◌≡◌};

    /// The replacement.
    pub(crate) fn into_replacement(self) -> Replacement
        ensures { result ≡ self.replacement }
    {
        let Choice {
            replacement,
            window: _window,
            new: _new,
            moved: _moved,
        } = self;
        replacement
    }
}
