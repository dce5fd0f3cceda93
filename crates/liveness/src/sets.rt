//! Sets are kept before and after each place, since windows ask for those after and changes of a listing begin from those before.
use std::marker::Model;
use thumb_instr::Items;

/// The items that are live before and after each place of a listing.
#[derive(Drop)]
pub struct Live {
    pub(crate) before: Vec<Items>,
    pub(crate) after: Vec<Items>,
}

impl Model for Live {
    ghost use Rattle.liveness.specs.Live.{Sets};

    ghost Value = { Sets };

    ghost view = { λ l. record { before = l.before.items; after = l.after.items } };
}

impl Live {
    ghost use Rattle.std.specs.Prelude.{◌≡◌, ◌<◌, ◌↔◌, ℕ, length, true};
    ghost use Rattle.thumb_instr.specs.Items.{has};
    ghost use Rattle.thumb_model.specs.Listing.{Code};
    ghost use Rattle.thumb_model.specs.Flow.{LiveAfter};
    ghost use Rattle.liveness.specs.Live.{IsLive, set_at};

    /// The items that are live before each place.
    pub fn before_sets(&self) -> &[Items]
        ensures { result.now ≡ self.now.before }
    {
        self.before.as_slice()
    }

    /// The items that are live after each place.
    pub fn after_sets(&self) -> &[Items]
        ensures { result.now ≡ self.now.after }
    {
        self.after.as_slice()
    }

    /// The items that are live after a place, which is one of the listing's.
    pub fn after(&self, place: u32) -> Items
        requires { place < length self.now.after }
        ensures value { result.bits ≡ set_at self.now.after place }
        ensures live { (code : Code) → IsLive code self.now → (x : ℕ) → (has result.bits x ≡ true) ↔ LiveAfter code place x }
    {
        self.after[place as usize]
    }
}
