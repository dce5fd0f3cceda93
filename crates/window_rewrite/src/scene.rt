//! A listing that is rewritten: what stands at its places, what is live before them and how it is laid out.
ghost use Rattle.std.specs.Prelude.{◌≡◌, ◌⊎◌, ◌+◌, ◌-◌, ◌<◌, ◌≤◌, ◌↔◌, ℕ, [], true, false, length, take, IfOk, OnOk};
ghost use Rattle.kept_places.specs.Marks.{is_gone, marked, rank};
ghost use Rattle.thumb_instr.specs.Items.{has};
ghost use Rattle.thumb_model.specs.Flow.{LiveAfter};
ghost use Rattle.thumb_model.specs.Layout.{Layable};
ghost use Rattle.thumb_model.specs.Listing.{code_of, labels_from, places_of};
ghost use Rattle.rule_model.specs.Rewriting.{lines_after};
ghost use Rattle.liveness.specs.Live.{set_at};
ghost use Rattle.padded_code.specs.Exchange.{exchanged, marks_after};
ghost use Rattle.edited_listing.specs.Edited.{lines_now, marks, padded};
ghost use Rattle.liveness.specs.KeptLive.{LosesAt};
ghost use Rattle.step_ledger.specs.Counts.{RisesByAtLeast};
ghost use Rattle.window_rewrite.specs.Choices.{choice_of, setting_of, IsChoice};
ghost use Rattle.window_rewrite.specs.TableRewriting.{visits};
ghost use Rattle.window_rewrite.specs.Scenes.{lines_of, IsKept, IsNear, IsOver, IsRun, IsSite};
ghost use Rattle.window_rewrite.specs.Settled.{IsSettled};
ghost use Rattle.window_rewrite.specs.Layouts.{is_steady, IsSteadyIf, Moves};

use crate::choice::Choice;
use crate::finding::Rules;
use crate::known_layout::KnownLayout;
use edited_listing::{EditedListing, Run};
use kept_places::PlaceSet;
use listing_parser::{Listing, Memory};
use liveness::KeptLive;
use std::alloc::Global;
use step_ledger::{Ledger, Steps};
use thumb_instr::{Instr, Items};

/// A listing that is rewritten. Its places keep their numbers; one that a shorter right side leaves over is gone.
#[derive(Drop)]
pub(crate) struct Scene {
    pub(crate) listing: EditedListing,
    pub(crate) live: KeptLive,
    /// Its layout, where that has to be asked.
    pub(crate) layout: KnownLayout,
}

/// A kept place at which windows may begin.
#[derive(Drop)]
pub(crate) struct Site {
    /// Its number in the listing as it was given.
    pub(crate) place: u32,
    /// Its number now.
    pub(crate) number: u32,
    /// The instructions from there on that may stand in a window, and their places.
    pub(crate) run: Run,
    /// Whether each code label stays code where all of these go and no instruction comes.
    pub(crate) may_vanish: bool,
}

/// Whether each code label stays code where `count` instructions from a kept place on go and none comes: no label stands there, or an instruction follows them.
fn may_vanish(listing: &mut EditedListing, place: u32, count: u32) -> bool
    requires within { place < length listing.old.stands }
    requires kept { is_gone (marks listing.old) place ≡ false }
    ensures settled { (result ≡ true) ↔ IsSettled (places_of (lines_now listing.old)) (labels_from 0 (lines_now listing.old)) (rank (marks listing.old) place) count [] }
    ensures same { listing.new ≡ listing.old }
{
    if !listing.is_labelled(place) {
        return true;
    }
    listing.is_op_behind(place, count)
}

impl Scene {
    /// A listing of which nothing is changed, that can be laid out. `steady` is whether each listing that comes of it by replacements surely can.
    pub(crate) fn of<L: Ledger>(
        alloc: Global,
        rules: &Rules<'_>,
        listing: Listing,
        steady: bool,
        steps: &mut Steps<L>,
    ) -> Result<Scene, Memory>
        requires layable { Layable rules.now.base listing }
        requires steady { IsSteadyIf rules.now.base listing steady }
        ensures over { IfOk result (IsOver rules.now) }
        ensures lines { IfOk result (λ s. lines_of s ≡ listing) }
        ensures many { IfOk result (λ s. length s.listing.stands ≡ length (places_of listing)) }
        ensures none_gone { IfOk result (λ s. (p : ℕ) → is_gone (marks s.listing) p ≡ false) }
        ensures cost { steps.new ≤ steps.old + visits (length (places_of listing)) }
        ensures rises { OnOk result (RisesByAtLeast steps.old steps.new (length (places_of listing))) }
    {
        let layout = KnownLayout::of(alloc, &listing, rules.base, steady)?;
        let live = KeptLive::new(alloc, &listing, steps)?;
        let listing = EditedListing::new(alloc, listing)?;
        Ok(Scene {
            listing,
            live,
            layout,
        })
    }

    /// The listing of the lines now.
    pub(crate) fn into_listing(self, alloc: Global) -> Result<Listing, Memory>
        ensures { IfOk result (λ l. l ≡ lines_of self) }
    {
        self.listing.into_listing(alloc)
    }

    /// The instructions from a kept place on that may stand in a window, at most as many as a left side has.
    pub(crate) fn run(&mut self, rules: &Rules<'_>, place: u32) -> Run
        requires over { IsOver rules.now self.old }
        requires most { rules.now.longest ≤ 5 }
        requires within { place < length self.old.listing.stands }
        requires kept { is_gone (marks self.old.listing) place ≡ false }
        ensures over { IsOver rules.now self.new }
        ensures run { IsRun rules.now.longest self.new place result }
        ensures listing { self.new.listing ≡ self.old.listing }
        ensures live { self.new.live ≡ self.old.live }
    {
        self.listing.run(place, usize::from(rules.longest))
    }

    /// The site at a kept place from which this run goes on. The layout, where one is kept, is positioned there then.
    pub(crate) fn site(&mut self, rules: &Rules<'_>, place: u32, run: Run) -> Site
        requires over { IsOver rules.now self.old }
        requires within { place < length self.old.listing.stands }
        requires kept { is_gone (marks self.old.listing) place ≡ false }
        requires run { IsRun rules.now.longest self.old place run }
        ensures over { IsOver rules.now self.new }
        ensures site { IsSite rules.now.longest self.new result }
        ensures place { result.place ≡ place }
        ensures run { result.run ≡ run }
        ensures near { IsNear self.new result }
        ensures listing { self.new.listing ≡ self.old.listing }
        ensures live { self.new.live ≡ self.old.live }
    {
        let number = self.listing.number(place);
        let count = run.instrs.len() as u32;
        let may_vanish = may_vanish(&mut self.listing, place, count);
        self.layout.go_to(number as usize);
        Site {
            place,
            number,
            run,
            may_vanish,
        }
    }

    /// The items that are live after the first `count` instructions of a site's run.
    pub(crate) fn live_after(&self, rules: &Rules<'_>, site: &Site, count: usize) -> Items
        requires kept { IsKept self.now }
        requires site { IsSite rules.now.longest self.now site.now }
        requires some { 0 < count }
        requires few { count ≤ length site.now.run.instrs }
        ensures { (x : ℕ) → (has result.bits x ≡ true) ↔ LiveAfter (code_of (lines_of self.now)) (site.now.number + (count - 1)) x }
    {
        let end = self.listing.place_count();
        let last = site.run.places[count - 1];
        if last + 1 < end {
            self.live.before(last + 1)
        } else {
            Items::none()
        }
    }

    /// Whether each code label stays code where the first `count` instructions of a site's run give way to others.
    pub(crate) fn is_settled(
        &self,
        rules: &Rules<'_>,
        site: &Site,
        count: usize,
        new: &[Instr],
    ) -> bool
        requires site { IsSite rules.now.longest self.now site.now }
        requires few { count ≤ length site.now.run.instrs }
        ensures { (result ≡ true) ↔ IsSettled (places_of (lines_of self.now)) (labels_from 0 (lines_of self.now)) site.now.number count new.now }
    {
        if !new.is_empty() {
            return true;
        }
        if count < site.run.instrs.len() {
            return true;
        }
        site.may_vanish
    }

    /// Makes a replacement that was chosen at a site. `lost` gains the places before which an item was live that isn't any more.
    pub(crate) fn make(
        &mut self,
        rules: &Rules<'_>,
        site: &Site,
        choice: &Choice,
        lost: &mut PlaceSet,
    ) -> Result<(), Memory>
        requires over { IsOver rules.now self.old }
        requires site { IsSite rules.now.longest self.old site.now }
        requires near { IsNear self.old site.now }
        requires is { IsChoice (setting_of rules.now) (lines_of self.old) choice.now }
        requires here { (choice_of choice.now).place ≡ site.now.number }
        requires some { 0 < length choice.now.window }
        requires no_longer { length choice.now.new ≤ length choice.now.window }
        requires within { length choice.now.window ≤ length site.now.run.instrs }
        requires moved { Moves self.old.layout choice.now.window choice.now.new choice.now.moved }
        requires room { length lost.old ≡ length self.old.listing.stands }
        ensures over { OnOk result (IsOver rules.now self.new) }
        ensures lines { OnOk result (lines_of self.new ≡ lines_after (setting_of rules.now) (choice_of choice.now) (lines_of self.old)) }
        ensures many { OnOk result (length self.new.listing.stands ≡ length self.old.listing.stands) }
        ensures steady { OnOk result (is_steady self.new.layout ≡ is_steady self.old.layout) }
        ensures gone { OnOk result (marks self.new.listing ≡ marks_after (take (length choice.now.window) site.now.run.places.items) choice.now.new (marks self.old.listing)) }
        ensures padded { OnOk result (padded self.new.listing ≡ exchanged (take (length choice.now.window) site.now.run.places.items) choice.now.new (padded self.old.listing)) }
        ensures room { length lost.new ≡ length lost.old }
        ensures lost { OnOk result ((p : ℕ) → (marked lost.new p ≡ true) ↔ ((marked lost.old p ≡ true) ⊎ LosesAt (set_at self.old.live.before p) (set_at self.new.live.before p))) }
    {
        let window = choice.window.as_slice();
        let new = choice.new.as_slice();
        let count = window.len();
        let places = &site.run.places.as_slice()[..count];
        self.layout.give_way(window, new, &choice.moved)?;
        self.live.replace(places, new, lost);
        self.listing.replace(site.place, count as u32, new);
        Ok(())
    }
}
