//! The work list of rewriting: places at which an entry or a family may apply are due, and the least that is due is looked at next, until none is.
ghost use Rattle.std.specs.Prelude.{◌≡◌, ◌+◌, ◌*◌, ◌<◌, ◌≤◌, ℕ, suc, true, false, All, length, map, replicate, slice_get, is_some, Some, IfOk, OnOk, IfSome, IfNone};
ghost use Rattle.std.specs.Int.{from_bool};
ghost use Rattle.kept_places.specs.Marks.{is_gone, marked};
ghost use Rattle.thumb_model.specs.Listing.{places_of};
ghost use Rattle.rule_model.specs.Rewriting.{lines_after, AreRewritten, IsFirst};
ghost use Rattle.edited_listing.specs.Edited.{marks};
ghost use Rattle.step_ledger.specs.Counts.{RisesByAtLeast};
ghost use Rattle.window_rewrite.specs.Choices.{choice_of, setting_of, sides_of, table_in, AreReady, IsChoice};
ghost use Rattle.window_rewrite.specs.Fitting.{NoneReaches};
ghost use Rattle.window_rewrite.specs.WorkList.{AreTried, AreTriedBut, Reaches, StayMarked};
ghost use Rattle.window_rewrite.specs.TableRewriting.{replacement_of, IsWhole};
ghost use Rattle.window_rewrite.specs.Scenes.{lines_of, IsNear, IsOver, IsSite};
ghost use Rattle.window_rewrite.specs.Layouts.{Moves};

use crate::choice::{Choice, Replacement};
use crate::finding::{Rules, SiteLookup, best};
use crate::fronts::{may_begin, reach};
use crate::scene::{Scene, Site};
use kept_places::PlaceSet;
use listing_parser::Memory;
use std::alloc::Global;
use step_ledger::{Ledger, Steps};

/// Which places are to be looked at.
#[derive(Drop)]
pub(crate) struct WorkList {
    /// Those at which some entry may fit, for all that is known.
    pub(crate) due: PlaceSet,
    /// Those at which, since the last replacement, each entry that fits was refused: it would leave too many lines, or lines that can't be laid out.
    pub(crate) refused: PlaceSet,
    /// Those before which an item was live that isn't any more. Between replacements there is none.
    pub(crate) lost: PlaceSet,
}

impl WorkList {
    /// All of `count` places are due.
    pub(crate) fn all(alloc: Global, count: u32) -> Result<WorkList, Memory>
        ensures due { IfOk result (λ d. d.due ≡ replicate count true) }
        ensures refused { IfOk result (λ d. d.refused ≡ replicate count false) }
        ensures lost { IfOk result (λ d. d.lost ≡ replicate count false) }
    {
        Ok(WorkList {
            due: PlaceSet::full(alloc, count)?,
            refused: PlaceSet::new(alloc, count)?,
            lost: PlaceSet::new(alloc, count)?,
        })
    }

    /// Marks places as due.
    fn add(&mut self, places: &[u32])
        requires within { (k p : ℕ) → slice_get places.now k ≡ Some p → p < length self.old.due }
        ensures due { StayMarked self.old.due self.new.due }
        ensures these { (k p : ℕ) → slice_get places.now k ≡ Some p → marked self.new.due p ≡ true }
        ensures refused { self.new.refused ≡ self.old.refused }
        ensures lost { self.new.lost ≡ self.old.lost }
    {
        for place in places {
            self.due.insert(*place);
        }
    }

    /// Marks a kept place as due, and the kept ones before it from which a window of at most `longest` instructions reaches it.
    fn add_up_to(&mut self, scene: &Scene, place: u32, longest: u8)
        requires within { place < length scene.now.listing.stands }
        requires kept { is_gone (marks scene.now.listing) place ≡ false }
        requires many { length self.old.due ≡ length scene.now.listing.stands }
        ensures due { StayMarked self.old.due self.new.due }
        ensures reached { (p : ℕ) → Reaches (marks scene.now.listing) longest p place → marked self.new.due p ≡ true }
        ensures refused { self.new.refused ≡ self.old.refused }
        ensures lost { self.new.lost ≡ self.old.lost }
    {
        let mut at = place;
        self.due.insert(at);
        for _passed in 1..longest {
            match scene.listing.previous(at) {
                None => return,
                Some(before) => {
                    self.due.insert(before);
                    at = before;
                }
            }
        }
    }

    /// Marks as due the places whose windows may end right before a place that lost an item, and empties `lost`.
    fn add_lost(&mut self, scene: &Scene, longest: u8)
        requires many { length self.old.due ≡ length scene.now.listing.stands }
        requires lost_many { length self.old.lost ≡ length scene.now.listing.stands }
        ensures due { StayMarked self.old.due self.new.due }
        ensures reached { (p q : ℕ) → marked self.old.lost (suc q) ≡ true → is_gone (marks scene.now.listing) q ≡ false → Reaches (marks scene.now.listing) longest p q → marked self.new.due p ≡ true }
        ensures refused { self.new.refused ≡ self.old.refused }
        ensures lost_many { length self.new.lost ≡ length self.old.lost }
        ensures none_lost { (p : ℕ) → marked self.new.lost p ≡ false }
    {
        while let Some(place) = self.lost.take_least() {
            if place > 0 && !scene.listing.is_gone(place - 1) {
                self.add_up_to(scene, place - 1, longest);
            }
        }
    }

    /// Marks as due the places at which what fits was refused, and empties `refused`.
    fn add_refused(&mut self)
        requires many { length self.old.refused ≡ length self.old.due }
        ensures due { StayMarked self.old.due self.new.due }
        ensures reached { (p : ℕ) → marked self.old.refused p ≡ true → marked self.new.due p ≡ true }
        ensures refused_many { length self.new.refused ≡ length self.old.refused }
        ensures none_refused { (p : ℕ) → marked self.new.refused p ≡ false }
        ensures lost { self.new.lost ≡ self.old.lost }
    {
        while let Some(place) = self.refused.take_least() {
            self.due.insert(place);
        }
    }

    /// Makes a replacement that was chosen at a site, and marks as due the places at which others may be possible now: those whose windows reach into the
    /// site's window, those whose windows end where items aren't live any more, and those at which an entry was refused.
    fn make(
        &mut self,
        rules: &Rules<'_>,
        scene: &mut Scene,
        site: &Site,
        choice: &Choice,
    ) -> Result<(), Memory>
        requires ready { AreReady rules.now }
        requires over { IsOver rules.now scene.old }
        requires site { IsSite rules.now.longest scene.old site.now }
        requires near { IsNear scene.old site.now }
        requires is { IsChoice (setting_of rules.now) (lines_of scene.old) choice.now }
        requires here { (choice_of choice.now).place ≡ site.now.number }
        requires moved { Moves scene.old.layout choice.now.window choice.now.new choice.now.moved }
        requires tried { AreTriedBut (setting_of rules.now) scene.old self.old site.now.place }
        ensures over { OnOk result (IsOver rules.now scene.new) }
        ensures lines { OnOk result (lines_of scene.new ≡ lines_after (setting_of rules.now) (choice_of choice.now) (lines_of scene.old)) }
        ensures many { OnOk result (length scene.new.listing.stands ≡ length scene.old.listing.stands) }
        ensures tried { OnOk result (AreTried (setting_of rules.now) scene.new self.new) }
    {
        self.add(&site.run.places.as_slice()[..choice.window.len()]);
        self.add_up_to(scene, site.place, rules.longest);
        scene.make(rules, site, choice, &mut self.lost)?;
        self.add_lost(scene, rules.longest);
        self.add_refused();
        Ok(())
    }

    /// Looks at the site of a place that was taken from the due ones, none of which is before it, and makes the best replacement there, if there is one. No
    /// left side of more than `reached` instructions stands there.
    fn try_site<L: Ledger>(
        &mut self,
        alloc: Global,
        rules: &Rules<'_>,
        scene: &mut Scene,
        site: &Site,
        reached: usize,
        steps: &mut Steps<L>,
    ) -> Result<Option<Replacement>, Memory>
        requires ready { AreReady rules.now }
        requires over { IsOver rules.now scene.old }
        requires site { IsSite rules.now.longest scene.old site.now }
        requires near { IsNear scene.old site.now }
        requires reached { reached ≤ length site.now.run.instrs }
        requires none { NoneReaches rules.now.costs.now (table_in rules.now) site.now.run.instrs reached }
        requires tried { AreTriedBut (setting_of rules.now) scene.old self.old site.now.place }
        requires least { (q : ℕ) → q < site.now.place → marked self.old.due q ≡ false }
        ensures over { OnOk result (IsOver rules.now scene.new) }
        ensures many { OnOk result (length scene.new.listing.stands ≡ length scene.old.listing.stands) }
        ensures tried { OnOk result (AreTried (setting_of rules.now) scene.new self.new) }
        ensures none { IfOk result (λ o. IfNone o ((lines_of scene.new ≡ lines_of scene.old) × (self.new.due ≡ self.old.due))) }
        ensures first { IfOk result (λ o. IfSome o (λ r. IsWhole r × IsFirst (setting_of rules.now) (replacement_of r) (lines_of scene.old) × (lines_of scene.new ≡ lines_after (setting_of rules.now) (replacement_of r) (lines_of scene.old)))) }
        ensures cost { steps.new ≤ steps.old + length (sides_of rules.now) }
        ensures rises { IfOk result (λ o. RisesByAtLeast steps.old steps.new (from_bool (is_some o))) }
    {
        let mut is_refused = false;
        let lookup = SiteLookup {
            rules: &*rules,
            scene: &*scene,
            site,
        };
        match best(alloc, &lookup, reached, &mut is_refused, steps)? {
            None => {
                if is_refused {
                    self.refused.insert(site.place);
                }
                Ok(None)
            }
            Some(choice) => {
                self.make(rules, scene, site, &choice)?;
                Ok(Some(choice.into_replacement()))
            }
        }
    }

    /// Looks at a kept place that was taken from the due ones, none of which is before it, and makes the best replacement there, if there is one.
    fn try_at<L: Ledger>(
        &mut self,
        alloc: Global,
        rules: &Rules<'_>,
        scene: &mut Scene,
        place: u32,
        steps: &mut Steps<L>,
    ) -> Result<Option<Replacement>, Memory>
        requires ready { AreReady rules.now }
        requires over { IsOver rules.now scene.old }
        requires within { place < length scene.old.listing.stands }
        requires kept { is_gone (marks scene.old.listing) place ≡ false }
        requires tried { AreTriedBut (setting_of rules.now) scene.old self.old place }
        requires least { (q : ℕ) → q < place → marked self.old.due q ≡ false }
        ensures over { OnOk result (IsOver rules.now scene.new) }
        ensures many { OnOk result (length scene.new.listing.stands ≡ length scene.old.listing.stands) }
        ensures tried { OnOk result (AreTried (setting_of rules.now) scene.new self.new) }
        ensures none { IfOk result (λ o. IfNone o ((lines_of scene.new ≡ lines_of scene.old) × (self.new.due ≡ self.old.due))) }
        ensures first { IfOk result (λ o. IfSome o (λ r. IsWhole r × IsFirst (setting_of rules.now) (replacement_of r) (lines_of scene.old) × (lines_of scene.new ≡ lines_after (setting_of rules.now) (replacement_of r) (lines_of scene.old)))) }
        ensures cost { steps.new ≤ steps.old + length (sides_of rules.now) }
        ensures rises { IfOk result (λ o. RisesByAtLeast steps.old steps.new (from_bool (is_some o))) }
    {
        if !may_begin(rules, scene.listing.first_instr(place)) {
            return Ok(None);
        }
        let run = scene.run(rules, place);
        let reached = reach(rules, run.instrs.as_slice());
        if reached == 0 {
            return Ok(None);
        }
        let site = scene.site(rules, place, run);
        self.try_site(alloc, rules, scene, &site, reached, steps)
    }
}

/// Makes replacements, each the first that can be made, until no entry applies any more.
pub(crate) fn go_through<L: Ledger>(
    alloc: Global,
    rules: &Rules<'_>,
    scene: &mut Scene,
    steps: &mut Steps<L>,
) -> Result<Vec<Replacement>, Memory>
    requires ready { AreReady rules.now }
    requires over { IsOver rules.now scene.old }
    requires none_gone { (p : ℕ) → is_gone (marks scene.old.listing) p ≡ false }
    ensures over { OnOk result (IsOver rules.now scene.new) }
    ensures whole { IfOk result (λ rs. All IsWhole rs.items) }
    ensures rewritten { IfOk result (λ rs. AreRewritten (setting_of rules.now) (lines_of scene.old) (map replacement_of rs.items) (lines_of scene.new)) }
    ensures cost { IfOk result (λ rs. steps.new ≤ steps.old + (length rs.items + 1) * (length (places_of (lines_of scene.old)) * length (sides_of rules.now))) }
    ensures rises { IfOk result (λ rs. RisesByAtLeast steps.old steps.new (length rs.items)) }
{
    let mut work_list = WorkList::all(alloc, scene.listing.place_count())?;
    let mut replacements = Vec::new(alloc);
    while let Some(place) = work_list.due.take_least() {
        if scene.listing.is_gone(place) {
            continue;
        }
        if let Some(replacement) = work_list.try_at(alloc, rules, scene, place, steps)? {
            replacements.push(replacement)?;
        }
    }
    Ok(replacements)
}
