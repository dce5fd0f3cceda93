//! The listing that rewriting edits: what stands at each place, which windows begin there, and the lines that come of it at the end.
ghost use Rattle.std.specs.Prelude.{◌≡◌, ◌<◌, ◌^◌, ◌&&◌, Bool, Some, length, replicate, slice_get, IfOk};
ghost use Rattle.std.specs.Option.{option_map};
ghost use Rattle.listing_parser.specs.Views.{place_view};
ghost use Rattle.edited_listing.specs.Changes.{is_as_given};
ghost use Rattle.edited_listing.specs.Counting.{one_if};
ghost use Rattle.edited_listing.specs.Edited.{instr_in};
ghost use Rattle.edited_listing.specs.declared.standing.Standing.{Standing as Standings};
ghost use Rattle.edited_listing.specs.declared.standing.Standing.TheVariants as standing;

use crate::emitting::emit;
use crate::given::GivenListing;
use crate::giving::give_way;
use crate::labels::{Labels, labels_of};
use crate::looks::{Run, home, next_instr, run_from};
use crate::passing::is_op_behind;
use crate::standing::Standing;
use kept_places::KeptPlaces;
use listing_parser::{Listing, Memory, Place};
use std::alloc::{AllocError, Global};
use std::marker::Model;
use thumb_instr::Instr;
use window_runs::rows::window_instr;

/// A listing whose instructions give way to others while the numbers of its places stay. Contracts see the lines that were given and what stands at each
/// of their places now. `lines_now` of these are the lines now, `padded` the code of all places with a nop where one is gone.
///
/// `kept` has the places that are kept, `labelled` says of each place whether a label stands on its instruction's line, and `line_count` is how many lines
/// there are now.
#[derive(Drop)]
pub struct EditedListing {
    listing: GivenListing,
    stands: Vec<Standing>,
    kept: KeptPlaces,
    is_changed: bool,
    labelled: Vec<bool>,
    line_count: usize,
}

impl Model for EditedListing {
    ghost use Rattle.edited_listing.specs.Edited.{Edited};

    ghost Value = { Edited };

    ghost use Rattle.edited_listing.specs.Invariant.{IsEditedInside};

    ghost view = { λ s. record { given = s.listing; stands = s.stands.items } };

    ghost invariant = { IsEditedInside };
}

/// So many places as they were given.
fn all_given(alloc: Global, count: u32) -> Result<Vec<Standing>, AllocError>
    ensures { IfOk result (λ stands. stands.items ≡ replicate count standing.Given) }
{
    let mut stands = Vec::with_capacity(alloc, count as usize)?;
    for _place in 0..count {
        stands.push(Standing::Given)?;
    }
    Ok(stands)
}

/// The instruction at a place, where it may stand in a window.
fn instr_in(place: Option<Place<'_>>) -> Option<Instr>
    ensures { result ≡ instr_in (option_map place_view place.entry) }
{
    match place {
        None => None,
        Some(Place::Word(_)) => None,
        Some(Place::Op { instr, mention }) => window_instr(&instr, mention),
    }
}

/// How many lines a listing has.
fn count_lines(listing: &Listing) -> usize
    ensures same { result ≡ length listing.now }
    ensures short { result < 2 ^ 63 }
{
    listing.lines().len()
}

/// How many lines of labels stay when the instruction at a place gives way: one, where a label stands on its line.
fn label_lines(labelled: &[bool], stands: &[Standing], place: u32) -> usize
    requires labels { place < length labelled.now }
    requires within { place < length stands.now }
    ensures { (b : Bool) (s : Standings) → slice_get labelled.now place ≡ Some b → slice_get stands.now place ≡ Some s → result ≡ one_if (b && is_as_given s) }
{
    let labelled = labelled[place as usize];
    if labelled && stands[place as usize].is_given() {
        1
    } else {
        0
    }
}

impl EditedListing {
    ghost use Rattle.std.specs.Prelude.{◌≡◌, ◌+◌, ◌<◌, ◌≤◌, ◌↔◌, ◌⊎◌, ℕ, suc, List, true, false, drop, length, slice_get, IfNone, IfOk, IfSome, Some};
    ghost use Rattle.kept_places.specs.Marks.{is_gone, rank};
    ghost use Rattle.thumb_model.specs.Listing.{Label, is_op_place, labels_from, places_of};
    ghost use Rattle.thumb_model.specs.Replaced.{replaced_lines};
    ghost use Rattle.listing_parser.specs.Parsing.{own_line};
    ghost use Rattle.padded_code.specs.Exchange.{exchanged, marks_after};
    ghost use Rattle.padded_code.specs.Padding.{kept};
    ghost use Rattle.padded_code.specs.Windows.{AreRanked};
    ghost use Rattle.window_runs.specs.Rows.{rows_from};
    ghost use Rattle.window_runs.specs.Runs.{instr_at, run};
    ghost use Rattle.edited_listing.specs.Edited.{instr_in, lines_now, marks, padded, unchanged};
    ghost use Rattle.edited_listing.specs.Known.{HasLabelAt};

    /// A listing of which nothing is changed.
    pub fn new(alloc: Global, listing: Listing) -> Result<Self, AllocError>
        ensures is { IfOk result (λ e. e ≡ unchanged listing) }
        ensures lines { IfOk result (λ e. lines_now e ≡ listing) }
    {
        let count = listing.place_count();
        let stands = all_given(alloc, count)?;
        let kept = KeptPlaces::new(alloc, count)?;
        let labels = labels_of(alloc, listing.lines(), count as usize)?;
        let Labels { lasts, labelled } = labels;
        let line_count = count_lines(&listing);
        let listing = GivenListing::new(alloc, listing, lasts)?;
        Ok(EditedListing {
            listing,
            stands,
            kept,
            is_changed: false,
            labelled,
            line_count,
        })
    }

    /// The instruction that stands at a place now, where it may stand in a window.
    pub fn instr(&self, place: u32) -> Option<Instr>
        requires { place < length self.now.stands }
        ensures { result ≡ instr_in (slice_get (padded self.now).places place) }
    {
        match self.stands[place as usize] {
            Standing::Given => instr_in(self.listing.listing().place(place)),
            Standing::Gone => None,
            Standing::New { instr, home: _ } => window_instr(&instr, None),
        }
    }

    /// The instruction with which a run begins at a kept place, if one does.
    pub fn first_instr(&self, place: u32) -> Option<Instr>
        requires within { place < length self.now.stands }
        requires kept { is_gone (marks self.now) place ≡ false }
        ensures { result ≡ instr_at true (drop (rank (marks self.now) place) (rows_from false (lines_now self.now))) }
    {
        next_instr(&self.listing, &self.stands, true, place, place)
    }

    /// How many places there are, with those that are gone.
    pub fn place_count(&self) -> u32
        ensures { result ≡ length self.now.stands }
    {
        self.stands.len() as u32
    }

    /// Whether a place is gone.
    pub fn is_gone(&self, place: u32) -> bool
        requires { place < length self.now.stands }
        ensures { result ≡ is_gone (marks self.now) place }
    {
        self.kept.is_gone(place)
    }

    /// How many places are kept before one: its number now.
    pub fn number(&self, place: u32) -> u32
        requires { place ≤ length self.now.stands }
        ensures { result ≡ rank (marks self.now) place }
    {
        self.kept.number(place)
    }

    /// The kept place right before a kept one or the end, if there is one.
    pub fn previous(&self, place: u32) -> Option<u32>
        requires within { place ≤ length self.now.stands }
        requires kept { is_gone (marks self.now) place ≡ false }
        ensures some { IfSome result (λ q. (q < place) × (is_gone (marks self.now) q ≡ false) × (suc (rank (marks self.now) q) ≡ rank (marks self.now) place)) }
        ensures none { IfNone result (rank (marks self.now) place ≡ 0) }
    {
        self.kept.previous(place)
    }

    /// Whether some label stands right before a kept place now.
    pub fn is_labelled(&self, place: u32) -> bool
        requires within { place < length self.now.stands }
        requires kept { is_gone (marks self.now) place ≡ false }
        ensures { (result ≡ true) ↔ HasLabelAt (labels_from 0 (lines_now self.now)) (rank (marks self.now) place) }
    {
        let from = match self.previous(place) {
            None => 0,
            Some(before) => home(&self.stands, before) + 1,
        };
        self.listing.has_label(from, home(&self.stands, place))
    }

    /// The longest run of instructions from a kept place on, at most `most`, that may stand in a window and have no label and no alignment line between them;
    /// and their places.
    pub fn run(&mut self, place: u32, most: usize) -> Run
        requires within { place < length self.old.stands }
        requires kept { is_gone (marks self.old) place ≡ false }
        requires most { most ≤ 5 }
        ensures instrs { result.instrs ≡ run true most (drop (rank (marks self.old) place) (rows_from false (lines_now self.old))) }
        ensures places { AreRanked (marks self.old) (rank (marks self.old) place) result.places.items }
        ensures as_many { length result.places.items ≡ length result.instrs }
        ensures same { self.new ≡ self.old }
    {
        run_from(&self.listing, &self.stands, &mut self.kept, place, most)
    }

    /// How many lines there are now.
    pub fn line_count(&self) -> usize
        ensures { result ≡ length (lines_now self.now) }
    {
        self.line_count
    }

    /// How many lines there would be if a window gave way to `new_count` instructions.
    pub fn lines_after(&self, place: u32, count: u32, new_count: usize) -> usize
        requires within { place < length self.now.stands }
        requires kept { is_gone (marks self.now) place ≡ false }
        requires some { 1 ≤ count }
        requires few { new_count ≤ count }
        requires window { (k : ℕ) → k < count → is_op_place (slice_get (places_of (lines_now self.now)) (rank (marks self.now) place + k)) ≡ true }
        requires unlabelled { (k : ℕ) (l : Label) → slice_get (labels_from 0 (lines_now self.now)) k ≡ Some l → (l.place ≤ rank (marks self.now) place) ⊎ (rank (marks self.now) place + count ≤ l.place) }
        ensures { (new : List Instr) → length new ≡ new_count → result ≡ length (replaced_lines own_line (rank (marks self.now) place) count new (lines_now self.now)) }
    {
        let labels = label_lines(&self.labelled, &self.stands, place);
        self.line_count + new_count + labels - count as usize
    }

    /// Whether an instruction stands right after the first `count` kept places from `place` on: if so, a label before these is still a code label when they go.
    pub fn is_op_behind(&mut self, place: u32, count: u32) -> bool
        requires { place < length self.old.stands }
        ensures op { result ≡ is_op_place (slice_get (places_of (lines_now self.old)) (rank (marks self.old) place + count)) }
        ensures same { self.new ≡ self.old }
    {
        is_op_behind(
            self.listing.listing(),
            &self.stands,
            &mut self.kept,
            place,
            count as usize,
        )
    }

    /// Lets a window give way to instructions: they take the first of its places, and the others are gone.
    pub fn replace(&mut self, place: u32, count: u32, new: &[Instr])
        requires within { place < length self.old.stands }
        requires kept { is_gone (marks self.old) place ≡ false }
        requires some { 1 ≤ count }
        requires few { length new.now ≤ count }
        requires window { (k : ℕ) → k < count → is_op_place (slice_get (places_of (lines_now self.old)) (rank (marks self.old) place + k)) ≡ true }
        requires unlabelled { (k : ℕ) (l : Label) → slice_get (labels_from 0 (lines_now self.old)) k ≡ Some l → (l.place ≤ rank (marks self.old) place) ⊎ (rank (marks self.old) place + count ≤ l.place) }
        ensures given { self.new.given ≡ self.old.given }
        ensures lines { lines_now self.new ≡ replaced_lines own_line (rank (marks self.old) place) count new.now (lines_now self.old) }
        ensures gone { (ps : List ℕ) → length ps ≡ count → AreRanked (marks self.old) (rank (marks self.old) place) ps → marks self.new ≡ marks_after ps new.now (marks self.old) }
        ensures padded { (ps : List ℕ) → length ps ≡ count → AreRanked (marks self.old) (rank (marks self.old) place) ps → padded self.new ≡ exchanged ps new.now (padded self.old) }
    {
        let line_count = self.lines_after(place, count, new.len());
        let home = self.stands[place as usize].home(place);
        give_way(&mut self.stands, &mut self.kept, place, count, new, home);
        self.is_changed = true;
        self.line_count = line_count;
    }

    /// The listing of the lines now: the given one, where nothing was replaced.
    pub fn into_listing(self, alloc: Global) -> Result<Listing, Memory>
        ensures { IfOk result (λ l. l ≡ lines_now self) }
    {
        let EditedListing {
            listing,
            stands,
            mut kept,
            is_changed,
            labelled: _,
            line_count: _,
        } = self;
        let listing = listing.into_listing();
        if !is_changed {
            return Ok(listing);
        }
        let lines = emit(alloc, listing.into_lines(), &stands, &mut kept)?;
        Listing::of(alloc, lines)
    }
}
