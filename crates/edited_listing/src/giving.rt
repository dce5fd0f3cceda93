//! Places that give way, one by one: the first of them take new instructions, and the others are gone.
ghost use Rattle.std.specs.Prelude.{◌≡◌, ◌<◌, ◌≤◌, ◌^◌, false, drop, length, slice_set};
ghost use Rattle.kept_places.specs.Marks.{is_gone, IsNode};
ghost use Rattle.edited_listing.specs.Changes.{giving_from, is_none, marks_of, next_standing};
ghost use Rattle.edited_listing.specs.Items.{items_from};

use crate::standing::Standing;
use kept_places::KeptPlaces;
use thumb_instr::Instr;

/// What comes to stand at the next place that gives way, where `before` places did so already.
fn next_standing(new: &[Instr], before: u32, home: u32) -> Standing
    ensures { result ≡ next_standing (drop before new.now) home }
{
    match new.get(before as usize) {
        Some(instr) => Standing::New {
            instr: *instr,
            home,
        },
        None => Standing::Gone,
    }
}

/// Removes a place from the kept ones, if nothing stands there now.
fn note(kept: &mut KeptPlaces, place: u32, standing: &Standing)
    requires within { place < length kept.old }
    requires kept { is_gone kept.old place ≡ false }
    ensures { kept.new ≡ slice_set kept.old place (is_none standing.now) }
{
    match standing {
        Standing::Gone => kept.remove(place),
        Standing::Given => {}
        Standing::New { .. } => {}
    }
}

/// Sets what stands at the next kept place from `from` on. Answers that place.
fn put(stands: &mut Vec<Standing>, kept: &mut KeptPlaces, from: u32, standing: Standing) -> u32
    requires marks { kept.old ≡ marks_of stands.old.items }
    requires some { 1 ≤ length (items_from 0 (drop from stands.old.items)) }
    ensures next { IsNode (marks_of stands.old.items) from result }
    ensures within { result < length stands.old.items }
    ensures stands { stands.new.items ≡ slice_set stands.old.items result standing }
    ensures marks { kept.new ≡ marks_of stands.new.items }
{
    let place = kept.node(from);
    note(kept, place, &standing);
    stands[place as usize] = standing;
    place
}

/// Lets the first `count` kept places from `place` on give way to new instructions with this home.
pub(crate) fn give_way(
    stands: &mut Vec<Standing>,
    kept: &mut KeptPlaces,
    place: u32,
    count: u32,
    new: &[Instr],
    home: u32,
)
    requires marks { kept.old ≡ marks_of stands.old.items }
    requires few { length stands.old.items < 2 ^ 32 }
    requires many { count ≤ length (items_from 0 (drop place stands.old.items)) }
    ensures stands { stands.new.items ≡ giving_from place count new.now home stands.old.items }
    ensures marks { kept.new ≡ marks_of stands.new.items }
{
    let mut from = place;
    for before in 0..count {
        let standing = next_standing(new, before, home);
        from = put(stands, kept, from, standing) + 1;
    }
}
