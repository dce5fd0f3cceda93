//! A visit of a place: the sets before and after it are updated by the sets to which its ways lead.
ghost use Rattle.std.specs.Prelude.{[], ◌∷◌, ◌≡◌, ℕ, ◌+◌, ◌-◌, ◌^◌, ◌<◌, min, length};
ghost use Rattle.thumb_instr.specs.Items.{has};
ghost use Rattle.code_flow.specs.Flow.{way_list};
ghost use Rattle.liveness.specs.Passes.{gained, led, there, IsVisit};

use code_flow::{Next, Way, Ways};
use step_ledger::{Ledger, Steps};
use thumb_instr::Items;

/// The sets so far: those before and after each place, and one for all code points.
#[derive(Drop)]
pub struct Found {
    pub before: Vec<Items>,
    pub after: Vec<Items>,
    pub points: Items,
}

/// What is read from a place on, and what is read after it.
#[derive(Clone, Copy)]
pub struct Seen {
    pub before: Items,
    pub after: Items,
}

/// The set where a way leads.
fn set_there(next: Next, before: &[Items], points: Items) -> Items
    ensures { (x : ℕ) → has result.bits x ≡ has (there next before.now points.bits) x }
{
    match next {
        Next::Place(place) => match before.get(place as usize) {
            Some(set) => *set,
            None => Items::none(),
        },
        Next::Points => points,
        Next::Out => Items::none(),
    }
}

/// What one way finds.
fn look_along(way: Way, before: &[Items], points: Items) -> Seen
    ensures before { (x : ℕ) → has result.before.bits x ≡ gained (way ∷ []) before.now points.bits x }
    ensures after { (x : ℕ) → has result.after.bits x ≡ led (way ∷ []) before.now points.bits x }
{
    let after = set_there(way.next, before, points);
    Seen {
        before: way.uses.union(after.minus(way.writes)),
        after,
    }
}

/// What the ways of a place find.
pub fn look(ways: Option<Ways>, before: &[Items], points: Items) -> Seen
    ensures before { (x : ℕ) → has result.before.bits x ≡ gained (way_list ways) before.now points.bits x }
    ensures after { (x : ℕ) → has result.after.bits x ≡ led (way_list ways) before.now points.bits x }
{
    match ways {
        None => Seen {
            before: Items::none(),
            after: Items::none(),
        },
        Some(ways) => {
            let first = look_along(ways.first, before, points);
            match ways.second {
                None => first,
                Some(way) => {
                    let second = look_along(way, before, points);
                    Seen {
                        before: first.before.union(second.before),
                        after: first.after.union(second.after),
                    }
                }
            }
        }
    }
}

/// Visits a place: brings the sets before and after it up to date, and the code points' set. Answers whether the set before it changed.
pub(crate) fn visit<L: Ledger>(
    ways: Option<Ways>,
    is_point: bool,
    place: usize,
    found: &mut Found,
    steps: &mut Steps<L>,
) -> bool
    requires before { place < length found.old.before.items }
    requires after { place < length found.old.after.items }
    ensures visit { IsVisit (way_list ways) is_point place found.old.before.items found.old.after.items found.old.points.bits found.new.before.items found.new.after.items found.new.points.bits result }
    ensures before_len { length found.new.before.items ≡ length found.old.before.items }
    ensures after_len { length found.new.after.items ≡ length found.old.after.items }
    ensures count { steps.new ≡ min (steps.old + 1) (2 ^ 64 - 1) }
{
    steps.tick();
    let seen = look(ways, found.before.as_slice(), found.points);
    found.after[place] = seen.after;
    let old = found.before[place];
    let new = old.union(seen.before);
    if new.bits == old.bits {
        return false;
    }
    found.before[place] = new;
    if is_point {
        found.points = found.points.union(new);
    }
    true
}
