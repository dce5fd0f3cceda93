//! The flow of a place: what it reads, and what it writes on its way to the next place.
ghost use Rattle.std.specs.Prelude.{◌≡◌, ◌<◌, ◌-◌, ◌^◌, ℕ, [], length, Option, true, None, Some};
ghost use Rattle.thumb_instr.specs.Items.{has};
ghost use Rattle.thumb_model.specs.Listing.{code_of, places_of};
ghost use Rattle.thumb_model.specs.Flow.{ways, ways_of};
ghost use Rattle.code_flow.specs.Flow.{way_list};
ghost use Rattle.shrinking_sets.specs.Straight.{is_straight};
ghost use Rattle.liveness.specs.Kept.{onward_writes, HasThese, FlowOf, AreFlowsFrom};
ghost use Rattle.liveness.specs.Through.{uses_among};

use arrayvec::ArrayVec;
use code_flow::{Ways, answered, target, ways_of};
use listing_parser::{Listing, Place};
use thumb_instr::{Instr, Items, shape};

/// What some way of a place reads, and what its way straight to the next place writes, where it has one.
#[derive(Clone, Copy, Debug, PartialEq, Eq)]
pub(crate) struct Flow {
    pub(crate) reads: Items,
    pub(crate) onward: Option<Items>,
}

impl Default for Flow {
    ghost use Rattle.std.specs.Prelude.{◌≡◌, None};

    ghost is_default = { λ f. (f.reads.bits ≡ 0) × (f.onward ≡ None) };

    /// Nothing read, and no way on.
    fn default() -> Self {
        Flow {
            reads: Items { bits: 0 },
            onward: None,
        }
    }
}

/// The most flows that are looked at after a place.
const AHEAD: usize = 64;

/// The flows of the places from one on: 64 of them, or as many as there are.
pub(crate) fn flows_from(listing: &Listing, place: u32) -> ArrayVec<Flow, AHEAD>
    ensures { AreFlowsFrom (code_of listing.now) place result.items }
{
    let mut flows = ArrayVec::new();
    for at in place..listing.place_count() {
        if flows.is_full() {
            return flows;
        }
        flows.push(flow_at(listing, at));
    }
    flows
}

/// The flow of a place where no instruction stands.
fn nothing() -> Flow
    ensures { FlowOf [] result }
{
    Flow {
        reads: Items::none(),
        onward: None,
    }
}

/// The flow of an instruction that goes straight on.
fn straight(instr: &Instr) -> Flow
    requires { is_straight instr.now ≡ true }
    ensures { (aim : Option ℕ) → FlowOf (ways_of aim instr.now) result }
{
    let shape = shape(instr);
    Flow {
        reads: shape.uses,
        onward: Some(shape.writes),
    }
}

/// The flow of any instruction. `target` is the place of the code label that it mentions.
fn branching(instr: &Instr, target: Option<u32>, place: u32) -> Flow
    requires { place < 2 ^ 32 - 1 }
    ensures { FlowOf (ways_of target instr.now) result }
{
    Flow {
        reads: reads_of(ways_of(instr, target, place)),
        onward: onward(instr, target),
    }
}

/// The flow of a place. Most go straight on, and then no label is looked up.
fn flow_at(listing: &Listing, place: u32) -> Flow
    requires { place < length (places_of listing.now) }
    ensures { FlowOf (ways (code_of listing.now) place) result }
{
    // For the prover alone: the type of the answer says that the places are fewer than 2^32.
    let _count = listing.place_count();
    match listing.place(place) {
        None => nothing(),
        Some(found) => match found {
            Place::Word(_) => nothing(),
            Place::Op { instr, mention } => {
                if is_straight(&instr) {
                    straight(&instr)
                } else {
                    branching(&instr, target(listing, mention), place)
                }
            }
        },
    }
}

/// Whether control goes on from an instruction to the next place alone, with no call in between.
fn is_straight(instr: &Instr) -> bool
    ensures { result ≡ is_straight instr.now }
{
    match *instr {
        Instr::Bx { .. } => false,
        Instr::Blx { .. } => false,
        Instr::Pop { list } => list.number < 256,
        Instr::BranchIf { .. } => false,
        Instr::Branch { .. } => false,
        Instr::Call { .. } => false,
        _ => true,
    }
}

/// The items that at least one way reads.
fn reads_of(ways: Ways) -> Items
    ensures { (x : ℕ) → has result.bits x ≡ uses_among (way_list (Some ways)) x }
{
    match ways.second {
        None => ways.first.uses,
        Some(second) => ways.first.uses.union(second.uses),
    }
}

/// What an instruction writes on its way to the next place. `target` is the place of the code label that it mentions.
fn onward(instr: &Instr, target: Option<u32>) -> Option<Items>
    ensures { HasThese (onward_writes (ways_of target instr.now)) result }
{
    match *instr {
        Instr::Bx { .. } => None,
        Instr::Branch { .. } => None,
        Instr::Blx { .. } => Some(answered()),
        Instr::Pop { list } => if list.number >= 256 {
            None
        } else {
            Some(shape(instr).writes)
        },
        Instr::BranchIf { .. } => Some(Items::none()),
        Instr::Call { .. } => if target.is_some() {
            None
        } else {
            Some(answered())
        },
        _ => Some(shape(instr).writes),
    }
}
