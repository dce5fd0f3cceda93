//! The sets of live items of new instructions, and what is read after these: so `Live::change` sees whether all other sets stay.
ghost use Rattle.std.specs.Prelude.{◌≡◌, ◌≤◌, ◌||◌, ◌+◌, ℕ, drop, length};
ghost use Rattle.thumb_instr.specs.Items.{has};
ghost use Rattle.liveness.specs.Through.{live_through, passed, read_along, AreThrough};

use crate::flowing::Flow;
use arrayvec::ArrayVec;
use thumb_instr::{Instr, Items, shape};

/// The items that are live before and after a new instruction.
#[derive(Clone, Copy, Debug, PartialEq, Eq)]
pub(crate) struct NewSets {
    pub(crate) before: Items,
    pub(crate) after: Items,
}

impl Default for NewSets {
    ghost use Rattle.std.specs.Prelude.{◌≡◌};

    ghost is_default = { λ s. (s.before.bits ≡ 0) × (s.after.bits ≡ 0) };

    /// No item before and none after.
    fn default() -> Self {
        NewSets {
            before: Items { bits: 0 },
            after: Items { bits: 0 },
        }
    }
}

/// What is live before straight code, where `after` is live after it.
pub(crate) fn set_before(instrs: &[Instr], after: Items) -> Items
    ensures { (x : ℕ) → has result.bits x ≡ live_through instrs.now (λ y. has after.bits y) x }
{
    match instrs {
        [] => after,
        [instr, rest @ ..] => {
            let shape = shape(instr);
            shape
                .uses
                .union(set_before(rest, after).minus(shape.writes))
        }
    }
}

/// What is read before it is written along the flows of consecutive places.
pub(crate) fn read_ahead(ahead: &[Flow]) -> Items
    ensures { (x : ℕ) → has result.bits x ≡ read_along ahead.now x }
{
    let mut read = Items::none();
    let mut at = ahead.len();
    while at > 0 {
        at -= 1;
        read = read_at(ahead[at], read);
    }
    read
}

/// What is read before it is written from a place on, where `read` is that from the next place on.
fn read_at(flow: Flow, read: Items) -> Items
    ensures { (x : ℕ) → has result.bits x ≡ (has flow.reads.bits x || passed flow.onward (has read.bits x) x) }
{
    match flow.onward {
        None => flow.reads,
        Some(writes) => flow.reads.union(read.minus(writes)),
    }
}

/// What is live before the instruction at a place of straight code, or after all of it.
fn set_from(instrs: &[Instr], at: usize, after: Items) -> Items
    requires { at ≤ length instrs.now }
    ensures { (x : ℕ) → has result.bits x ≡ live_through (drop at instrs.now) (λ y. has after.bits y) x }
{
    set_before(&instrs[at..], after)
}

/// The sets of straight code, where `after` is live after it.
pub(crate) fn new_sets(instrs: &[Instr], after: Items) -> ArrayVec<NewSets, 5>
    requires few { length instrs.now ≤ 5 }
    ensures as_many { length result.items ≡ length instrs.now }
    ensures through { AreThrough instrs.now after result.items }
{
    let mut sets = ArrayVec::new();
    for at in 0..instrs.len() {
        sets.push(NewSets {
            before: set_from(instrs, at, after),
            after: set_from(instrs, at + 1, after),
        });
    }
    sets
}
