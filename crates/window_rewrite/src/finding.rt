//! The best replacement that can be made at a place.
ghost use Rattle.std.specs.Prelude.{◌≡◌, ◌+◌, ◌-◌, ◌<◌, ◌≤◌, ◌↔◌, max, List, length, true, ◌==◌, is_some, IfOk, OnOk, IfSome, IfNone, OnSome};
ghost use Rattle.std.specs.Int.{from_bool};
ghost use Rattle.std.specs.List.{list_all};
ghost use Rattle.thumb_instr.specs.declared.instr.Instr.{Instr as AnInstr};
ghost use Rattle.thumb_instr.specs.Window.{Low as LowRegister, is_in_window};
ghost use Rattle.listing_parser.specs.Grammar.{most_lines};
ghost use Rattle.thumb_model.specs.Replaced.{IsWindow};
ghost use Rattle.step_ledger.specs.Counts.{RisesByAtLeast};
ghost use Rattle.window_rewrite.specs.TableRewriting.{map_of};
ghost use Rattle.window_rewrite.specs.Fitting.{IsForm, NoneReaches, StandsThere};
ghost use Rattle.window_rewrite.specs.Rules.{entry_rule, rules_in, side_length, IsFit};
ghost use Rattle.window_rewrite.specs.Choices.{entries_setting, setting_of, sides_of, table_in, choice_of, of_length, AreReady, Awaits, IsBest, IsChoice, IsChoiceBy, IsLowest, Meets, NoneAt, NoneBy, NoneOf};
ghost use Rattle.window_rewrite.specs.Scenes.{lines_left, lines_seen, number_seen, IsSiteLookup, IsSight, MayBeLeft};
ghost use Rattle.window_rewrite.specs.Layouts.{Moves};

use crate::choice::{Choice, Replacement};
use crate::families::lowest_family;
use crate::fitting::fitting;
use crate::forms::Form;
use crate::fronts::may_stand;
use crate::index::RuleIndex;
use crate::registers::map_to;
use crate::scene::{Scene, Site};
use crate::shadows::is_lighter;
use arrayvec::ArrayVec;
use kept_layout::Move;
use listing_parser::{MOST_LINES, Memory};
use rule_table::{Entry, Family, renamed_all};
use seq_enum::Costs;
use std::alloc::Global;
use step_ledger::{Ledger, Steps};
use thumb_instr::{Instr, Items, Low, Seq};

/// A table with its index, as the search for replacements uses it.
#[derive(Drop)]
pub(crate) struct Rules<'a> {
    pub(crate) entries: &'a [Entry],
    pub(crate) families: &'a [Family],
    pub(crate) index: &'a RuleIndex,
    /// What instructions cost; where there are no costs, a side weighs as much as it is long.
    pub(crate) costs: &'a Option<Costs>,
    /// How many instructions a left side has at most.
    pub(crate) longest: u8,
    /// Where the image begins.
    pub(crate) base: u32,
}

/// A lookup by a table at one site of a listing that is rewritten.
#[derive(Drop)]
pub(crate) struct SiteLookup<'a> {
    pub(crate) rules: &'a Rules<'a>,
    pub(crate) scene: &'a Scene,
    pub(crate) site: &'a Site,
}

/// A window at the place of a lookup, with its form.
#[derive(Drop)]
pub(crate) struct Sight<'a> {
    pub(crate) lookup: &'a SiteLookup<'a>,
    pub(crate) window: &'a [Instr],
    pub(crate) form: &'a Form,
}

/// Whether the lines that are left are not too many where a window at the place gives way to as many instructions or fewer. There is one line more than before
/// where as many come and labels stand on the line of the window's first instruction, since these get a line of their own.
fn has_room(lookup: &SiteLookup<'_>, window: &[Instr], new: &[Instr]) -> bool
    requires lookup { IsSiteLookup lookup.now }
    requires window { IsWindow (lines_seen lookup.now) (number_seen lookup.now) window.now }
    requires within { length window.now ≤ length lookup.now.site.now.run.instrs }
    requires some { 0 < length window.now }
    requires no_longer { length new.now ≤ length window.now }
    ensures { (result ≡ true) ↔ (length (lines_left lookup.now window.now new.now) ≤ max (length (lines_seen lookup.now)) most_lines) }
{
    let listing = &lookup.scene.listing;
    let after = listing.lines_after(lookup.site.place, window.len() as u32, new.len());
    after <= listing.line_count().max(MOST_LINES)
}

/// The move of a layout that stays as it is.
fn unmoved(alloc: Global) -> Move {
    Move {
        at: Vec::new(alloc),
        by: 0,
    }
}

/// How the layout moves where a window at the place gives way to as many instructions or fewer. None where the lines that are left are too many or can't be
/// laid out. Nothing moves where as many come, nor where no layout is kept.
fn moved_layout(
    alloc: Global,
    lookup: &SiteLookup<'_>,
    window: &[Instr],
    new: &[Instr],
) -> Result<Option<Move>, Memory>
    requires lookup { IsSiteLookup lookup.now }
    requires window { IsWindow (lines_seen lookup.now) (number_seen lookup.now) window.now }
    requires within { length window.now ≤ length lookup.now.site.now.run.instrs }
    requires in_window { list_all is_in_window new.now ≡ true }
    requires some { 0 < length window.now }
    requires no_longer { length new.now ≤ length window.now }
    ensures allowed { IfOk result (λ o. (is_some o ≡ true) ↔ MayBeLeft lookup.now window.now new.now) }
    ensures moved { IfOk result (λ o. IfSome o (Moves lookup.now.scene.now.layout window.now new.now)) }
{
    if !has_room(lookup, window, new) {
        return Ok(None);
    }
    if new.len() == window.len() {
        return Ok(Some(unmoved(alloc)));
    }
    match &lookup.scene.layout.kept {
        None => Ok(Some(unmoved(alloc))),
        Some(kept) => kept.may_give_way(alloc, window, new),
    }
}

/// The instructions of a window, which are few.
fn copied(window: &[Instr]) -> Seq
    requires { length window.now ≤ 5 }
    ensures { result ≡ window.now }
{
    let mut seq = Seq::new();
    for instr in window {
        seq.push(*instr);
    }
    seq
}

/// The choice by which a window gives way to these instructions, with these registers in place of the rule's.
fn choice_at(
    sight: &Sight<'_>,
    entry: u64,
    instance: u8,
    registers: &[Low],
    new: Seq,
    moved: Move,
) -> Choice
    requires short { length sight.now.window.now ≤ 5 }
    requires few { length registers.now ≤ 8 }
    ensures { result ≡ record { replacement = record { place = number_seen sight.now.lookup.now; entry = entry; instance = instance; map = map_of 8 registers.now }; window = sight.now.window.now; new = new; moved = moved } }
{
    Choice {
        replacement: Replacement {
            place: sight.lookup.site.number,
            entry,
            instance,
            map: map_to(registers),
        },
        window: copied(sight.window),
        new,
        moved,
    }
}

/// The choice by a rule at a window as long as its left side, if the rule applies there. The rule is an entry, or an instance of a family, given as an entry
/// with its sides and mask. `refused` becomes true where it fits, but would leave too many lines, or lines that can't be laid out.
pub(crate) fn try_rule<L: Ledger>(
    alloc: Global,
    sight: &Sight<'_>,
    rule: &Entry,
    entry: u64,
    instance: u8,
    refused: &mut bool,
    steps: &mut Steps<L>,
) -> Result<Option<Choice>, Memory>
    requires sight { IsSight sight.now }
    requires fit { IsFit sight.now.lookup.now.rules.now.longest (entry_rule rule.now) }
    requires long { length rule.now.left ≡ length sight.now.window.now }
    requires counted { 1 ≤ entry }
    ensures some { IfOk result (λ o. IfSome o (IsChoiceBy sight.now.lookup.now.rules.now.costs.now sight.now.lookup.now.rules.now.base (entry_rule rule.now) (lines_seen sight.now.lookup.now) (number_seen sight.now.lookup.now) (entry - 1) instance)) }
    ensures moved { IfOk result (λ o. IfSome o (λ c. Moves sight.now.lookup.now.scene.now.layout c.window c.new c.moved)) }
    ensures none { IfOk result (λ o. IfNone o (NoneBy refused.new sight.now.lookup.now.rules.now.costs.now sight.now.lookup.now.rules.now.base (entry_rule rule.now) (lines_seen sight.now.lookup.now) (number_seen sight.now.lookup.now))) }
    ensures stays { OnOk result (refused.old ≡ true → refused.new ≡ true) }
    ensures cost { steps.new ≤ steps.old + 1 }
    ensures rises { IfOk result (λ o. RisesByAtLeast steps.old steps.new (from_bool (is_some o))) }
{
    let lookup = sight.lookup;
    if !is_lighter(lookup.rules.costs, rule) {
        return Ok(None);
    }
    steps.tick();
    let registers = match fitting(sight, rule) {
        None => return Ok(None),
        Some(registers) => registers,
    };
    let new = renamed_all(rule.right.as_slice(), &registers);
    let count = sight.window.len();
    if !lookup
        .scene
        .is_settled(lookup.rules, lookup.site, count, new.as_slice())
    {
        return Ok(None);
    }
    let moved = match moved_layout(alloc, lookup, sight.window, new.as_slice())? {
        None => {
            *refused = true;
            return Ok(None);
        }
        Some(moved) => moved,
    };
    Ok(Some(choice_at(sight, entry, instance, &registers, new, moved)))
}

/// The choice by the entry of a number at a window, if it applies there. `refused` becomes true where it fits and the lines that it would leave are refused.
fn try_entry<L: Ledger>(
    alloc: Global,
    sight: &Sight<'_>,
    number: usize,
    refused: &mut bool,
    steps: &mut Steps<L>,
) -> Result<Option<Choice>, Memory>
    requires sight { IsSight sight.now }
    requires number { number < length sight.now.lookup.now.rules.now.entries.now }
    ensures long { IfOk result (λ o. OnSome o (side_length (rules_in sight.now.lookup.now.rules.now.entries.now) number ≡ length sight.now.window.now)) }
    ensures some { IfOk result (λ o. IfSome o (λ c. IsChoice (entries_setting sight.now.lookup.now.rules.now) (lines_seen sight.now.lookup.now) c × ((choice_of c).place ≡ number_seen sight.now.lookup.now) × ((choice_of c).entry ≡ number))) }
    ensures moved { IfOk result (λ o. IfSome o (λ c. Moves sight.now.lookup.now.scene.now.layout c.window c.new c.moved)) }
    ensures none { IfOk result (λ o. IfNone o (side_length (rules_in sight.now.lookup.now.rules.now.entries.now) number ≡ length sight.now.window.now → (registers : List LowRegister) → Meets refused.new (entries_setting sight.now.lookup.now.rules.now) (record { place = number_seen sight.now.lookup.now; entry = number; instance = 0; registers = registers }) (lines_seen sight.now.lookup.now) → ⊥)) }
    ensures stays { OnOk result (refused.old ≡ true → refused.new ≡ true) }
    ensures cost { steps.new ≤ steps.old + from_bool (side_length (rules_in sight.now.lookup.now.rules.now.entries.now) number == length sight.now.window.now) }
    ensures rises { IfOk result (λ o. RisesByAtLeast steps.old steps.new (from_bool (is_some o))) }
{
    let entry = &sight.lookup.rules.entries[number];
    if entry.left.len() != sight.window.len() {
        return Ok(None);
    }
    try_rule(alloc, sight, entry, number as u64 + 1, 0, refused, steps)
}

/// The first entry that is kept and whose left side may stand in a window of this form.
fn first_number(rules: &Rules<'_>, form: &Form) -> Option<usize>
    requires ready { AreReady rules.now }
    ensures { (window : List AnInstr) → IsForm window form.now → Awaits rules.now.costs.now (rules_in rules.now.entries.now) rules.now.index.now.entries.kept.items window 0 result }
{
    rules.index.entries.first(form.number)
}

/// The lowest entry that applies to a window.
fn lowest_by<L: Ledger>(
    alloc: Global,
    sight: &Sight<'_>,
    refused: &mut bool,
    steps: &mut Steps<L>,
) -> Result<Option<Choice>, Memory>
    requires { IsSight sight.now }
    ensures some { IfOk result (λ o. IfSome o (IsLowest (entries_setting sight.now.lookup.now.rules.now) (lines_seen sight.now.lookup.now) (number_seen sight.now.lookup.now) (length sight.now.window.now))) }
    ensures moved { IfOk result (λ o. IfSome o (λ c. Moves sight.now.lookup.now.scene.now.layout c.window c.new c.moved)) }
    ensures none { IfOk result (λ o. IfNone o (NoneOf refused.new (entries_setting sight.now.lookup.now.rules.now) (lines_seen sight.now.lookup.now) (number_seen sight.now.lookup.now) (length sight.now.window.now))) }
    ensures stays { OnOk result (refused.old ≡ true → refused.new ≡ true) }
    ensures cost { steps.new ≤ steps.old + of_length (length sight.now.window.now) (rules_in sight.now.lookup.now.rules.now.entries.now) }
    ensures rises { IfOk result (λ o. RisesByAtLeast steps.old steps.new (from_bool (is_some o))) }
{
    let rules = sight.lookup.rules;
    let mut at = first_number(rules, sight.form);
    while let Some(number) = at {
        if let Some(choice) = try_entry(alloc, sight, number, refused, steps)? {
            return Ok(Some(choice));
        }
        at = rules.index.entries.next(number);
    }
    Ok(None)
}

/// The lowest entry that applies to a window, or the lowest family where no entry does.
fn lowest_in<L: Ledger>(
    alloc: Global,
    sight: &Sight<'_>,
    refused: &mut bool,
    steps: &mut Steps<L>,
) -> Result<Option<Choice>, Memory>
    requires { IsSight sight.now }
    ensures some { IfOk result (λ o. IfSome o (IsLowest (setting_of sight.now.lookup.now.rules.now) (lines_seen sight.now.lookup.now) (number_seen sight.now.lookup.now) (length sight.now.window.now))) }
    ensures moved { IfOk result (λ o. IfSome o (λ c. Moves sight.now.lookup.now.scene.now.layout c.window c.new c.moved)) }
    ensures none { IfOk result (λ o. IfNone o (NoneOf refused.new (setting_of sight.now.lookup.now.rules.now) (lines_seen sight.now.lookup.now) (number_seen sight.now.lookup.now) (length sight.now.window.now))) }
    ensures stays { OnOk result (refused.old ≡ true → refused.new ≡ true) }
    ensures cost { steps.new ≤ steps.old + of_length (length sight.now.window.now) (sides_of sight.now.lookup.now.rules.now) }
    ensures rises { IfOk result (λ o. RisesByAtLeast steps.old steps.new (from_bool (is_some o))) }
{
    if let Some(choice) = lowest_by(alloc, sight, refused, steps)? {
        return Ok(Some(choice));
    }
    lowest_family(alloc, sight, refused, steps)
}

/// The lowest entry, or else family, that applies to a window at the place, after which these items are live.
fn lowest<L: Ledger>(
    alloc: Global,
    lookup: &SiteLookup<'_>,
    window: &[Instr],
    live: Items,
    refused: &mut bool,
    steps: &mut Steps<L>,
) -> Result<Option<Choice>, Memory>
    requires lookup { IsSiteLookup lookup.now }
    requires stands { StandsThere (lines_seen lookup.now) (number_seen lookup.now) window.now live.bits }
    requires within { length window.now ≤ length lookup.now.site.now.run.instrs }
    ensures some { IfOk result (λ o. IfSome o (IsLowest (setting_of lookup.now.rules.now) (lines_seen lookup.now) (number_seen lookup.now) (length window.now))) }
    ensures moved { IfOk result (λ o. IfSome o (λ c. Moves lookup.now.scene.now.layout c.window c.new c.moved)) }
    ensures none { IfOk result (λ o. IfNone o (NoneOf refused.new (setting_of lookup.now.rules.now) (lines_seen lookup.now) (number_seen lookup.now) (length window.now))) }
    ensures stays { OnOk result (refused.old ≡ true → refused.new ≡ true) }
    ensures cost { steps.new ≤ steps.old + of_length (length window.now) (sides_of lookup.now.rules.now) }
    ensures rises { IfOk result (λ o. RisesByAtLeast steps.old steps.new (from_bool (is_some o))) }
{
    if !may_stand(lookup.rules, window) {
        return Ok(None);
    }
    match Form::of(window, live) {
        None => Ok(None),
        Some(form) => {
            let sight = Sight {
                lookup,
                window,
                form: &form,
            };
            lowest_in(alloc, &sight, refused, steps)
        }
    }
}

/// The choice by the best entry or family at the place: of those that apply there the lowest with the longest left side. No left side of more than `reached`
/// instructions stands there. `refused` becomes true where one fits and the lines that it would leave are refused.
pub(crate) fn best<L: Ledger>(
    alloc: Global,
    lookup: &SiteLookup<'_>,
    reached: usize,
    refused: &mut bool,
    steps: &mut Steps<L>,
) -> Result<Option<Choice>, Memory>
    requires lookup { IsSiteLookup lookup.now }
    requires within { reached ≤ length lookup.now.site.now.run.instrs }
    requires none { NoneReaches lookup.now.rules.now.costs.now (table_in lookup.now.rules.now) lookup.now.site.now.run.instrs reached }
    ensures some { IfOk result (λ o. IfSome o (IsBest (setting_of lookup.now.rules.now) (lines_seen lookup.now) (number_seen lookup.now))) }
    ensures moved { IfOk result (λ o. IfSome o (λ c. Moves lookup.now.scene.now.layout c.window c.new c.moved)) }
    ensures none { IfOk result (λ o. IfNone o (NoneAt refused.new (setting_of lookup.now.rules.now) (lines_seen lookup.now) (number_seen lookup.now))) }
    ensures stays { OnOk result (refused.old ≡ true → refused.new ≡ true) }
    ensures cost { steps.new ≤ steps.old + length (sides_of lookup.now.rules.now) }
    ensures rises { IfOk result (λ o. RisesByAtLeast steps.old steps.new (from_bool (is_some o))) }
{
    let run = lookup.site.run.instrs.as_slice();
    let mut count = reached;
    while count > 0 {
        let live = lookup.scene.live_after(lookup.rules, lookup.site, count);
        if let Some(choice) = lowest(alloc, lookup, &run[..count], live, refused, steps)? {
            return Ok(Some(choice));
        }
        count -= 1;
    }
    Ok(None)
}
