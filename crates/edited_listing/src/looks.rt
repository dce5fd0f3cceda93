//! The runs of instructions from a kept place on, while others give way: what a finder may take as a window now.
ghost use Rattle.std.specs.Prelude.{◌≡◌, ◌<◌, ◌≤◌, ◌^◌, true, false, drop, length, slice_get, IfSome, None};
ghost use Rattle.kept_places.specs.Marks.{is_gone, rank};
ghost use Rattle.thumb_model.specs.Listing.{places_of};
ghost use Rattle.window_runs.specs.Rows.{rows_from, window_instr};
ghost use Rattle.window_runs.specs.Runs.{instr_at, run};
ghost use Rattle.padded_code.specs.Windows.{AreRanked};
ghost use Rattle.edited_listing.specs.Changes.{marks_of};
ghost use Rattle.edited_listing.specs.Edited.{instr_in, lines_now, padded, IsEdited};
ghost use Rattle.edited_listing.specs.Known.{joined_at};
ghost use Rattle.edited_listing.specs.Looks.{home_of_place, IsNextKept};

use crate::given::GivenListing;
use crate::standing::Standing;
use arrayvec::ArrayVec;
use kept_places::KeptPlaces;
use thumb_instr::{Instr, Seq, in_window};

/// Consecutive instructions that may stand in a window, with no label and no alignment line between them, and their places.
#[derive(Drop)]
pub struct Run {
    pub instrs: Seq,
    pub places: ArrayVec<u32, 5>,
}

/// A new instruction, where it may stand in a window.
fn new_instr(instr: Instr) -> Option<Instr>
    ensures { result ≡ window_instr instr None }
{
    if in_window(&instr) { Some(instr) } else { None }
}

/// The instruction at a place, where it may stand in a window.
fn standing_instr(given: &GivenListing, stands: &[Standing], place: u32) -> Option<Instr>
    requires places { length stands.now ≡ length (places_of given.now) }
    requires within { place < length stands.now }
    ensures { result ≡ instr_in (slice_get (padded (record { given = given.now; stands = stands.now })).places place) }
{
    match stands[place as usize] {
        Standing::Given => given.instr(place),
        Standing::Gone => None,
        Standing::New { instr, home: _ } => new_instr(instr),
    }
}

/// The place on whose line what stands at `place` is emitted.
pub(crate) fn home(stands: &[Standing], place: u32) -> u32
    requires { place < length stands.now }
    ensures { result ≡ home_of_place stands.now place }
{
    stands[place as usize].home(place)
}

/// Whether neither a label nor an alignment line stands between an instruction and the next kept place.
fn is_joined(given: &GivenListing, stands: &[Standing], before: u32, place: u32) -> bool
    requires edited { IsEdited (record { given = given.now; stands = stands.now }) }
    requires follows { IsNextKept (record { given = given.now; stands = stands.now }) before place }
    ensures { result ≡ joined_at (rows_from false (lines_now (record { given = given.now; stands = stands.now }))) (rank (marks_of stands.now) place) }
{
    let from = home(stands, before);
    let to = home(stands, place);
    given.is_joined(from, to)
}

/// The instruction at `place`, if a run may begin with it, or go on with it after the one at `before`.
pub(crate) fn next_instr(
    given: &GivenListing,
    stands: &[Standing],
    begins: bool,
    before: u32,
    place: u32,
) -> Option<Instr>
    requires edited { IsEdited (record { given = given.now; stands = stands.now }) }
    requires kept { is_gone (marks_of stands.now) place ≡ false }
    requires follows { begins ≡ false → place < length stands.now → IsNextKept (record { given = given.now; stands = stands.now }) before place }
    ensures instr { result ≡ instr_at begins (drop (rank (marks_of stands.now) place) (rows_from false (lines_now (record { given = given.now; stands = stands.now })))) }
    ensures within { IfSome result (λ i. place < length stands.now) }
{
    if place as usize >= stands.len() {
        return None;
    }
    if begins || is_joined(given, stands, before, place) {
        standing_instr(given, stands, place)
    } else {
        None
    }
}

/// The longest run of instructions from a kept place on, at most `most`, that may stand in a window and have no label and no alignment line between them.
pub(crate) fn run_from(
    given: &GivenListing,
    stands: &[Standing],
    kept: &mut KeptPlaces,
    place: u32,
    most: usize,
) -> Run
    requires edited { IsEdited (record { given = given.now; stands = stands.now }) }
    requires marks { kept.old ≡ marks_of stands.now }
    requires few { length stands.now < 2 ^ 32 }
    requires within { place < length stands.now }
    requires kept { is_gone (marks_of stands.now) place ≡ false }
    requires most { most ≤ 5 }
    ensures instrs { result.instrs ≡ run true most (drop (rank (marks_of stands.now) place) (rows_from false (lines_now (record { given = given.now; stands = stands.now })))) }
    ensures places { AreRanked (marks_of stands.now) (rank (marks_of stands.now) place) result.places.items }
    ensures as_many { length result.places.items ≡ length result.instrs }
    ensures same { kept.new ≡ kept.old }
{
    let mut instrs = Seq::new();
    let mut places = ArrayVec::new();
    let mut before = place;
    let mut at = place;
    while instrs.len() < most {
        let count = instrs.len();
        match next_instr(given, stands, count == 0, before, at) {
            None => return Run { instrs, places },
            Some(instr) => {
                instrs.push(instr);
                places.push(at);
            }
        }
        before = at;
        at = kept.node(at + 1);
    }
    Run { instrs, places }
}
