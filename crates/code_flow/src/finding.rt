//! The ways of an instruction, a row for each form: on to the next place, to a label, to any code point, or out of the listing.
ghost use Rattle.std.specs.Prelude.{◌≡◌, ◌<◌, ◌≤◌, ◌-◌, ◌^◌, ℕ, List, [], ◌∷◌, Option, Some, None};
ghost use Rattle.thumb_instr.specs.Items.{one_of, has};
ghost use Rattle.thumb_instr.specs.Shape.{uses_of, writes_of};
ghost use Rattle.thumb_model.specs.States.{answered, handed, registers_left};
ghost use Rattle.thumb_model.specs.Flow.{way, ways_of, jump_way, call_way, Onward};
ghost use Rattle.code_flow.specs.Flow.{AreWays, IsWay, way_list};

use crate::way::{Next, Way, Ways};
use thumb_instr::items::{C, LR, N, SP, V, Z};
use thumb_instr::{General, Instr, Items, StackList, shape};

/// The ways on from an instruction at a place. `target` is the place of the code label that it mentions.
pub fn ways_of(instr: &Instr, target: Option<u32>, place: u32) -> Ways
    requires { place < 2 ^ 32 - 1 }
    ensures { AreWays place (ways_of target instr.now) (way_list (Some result)) }
{
    match *instr {
        Instr::Bx { source } => branches_by(source),
        Instr::Blx { source } => calls_by(source, place),
        Instr::Pop { list } => pops(list, place),
        Instr::BranchIf { .. } => branches_if(shape(instr).uses, target, place),
        Instr::Branch { .. } => only(jump(Items::none(), target)),
        Instr::Call { .. } => only(call(target, place)),
        _ => only(onward(instr, place)),
    }
}

/// One way.
fn only(way: Way) -> Ways
    ensures { result ≡ record { first = way; second = None } }
{
    Ways {
        first: way,
        second: None,
    }
}

/// What a run that leaves the listing hands out: r0 to r11, sp and lr.
fn left() -> Items
    ensures { (x : ℕ) → has result.bits x ≡ one_of x registers_left }
{
    Items::of(&[0, 1, 2, 3, 4, 5, 6, 7, 8, 9, 10, 11, SP, LR])
}

/// What a call out of the listing hands out: the arguments in r0 to r3, and sp.
fn handed() -> Items
    ensures { (x : ℕ) → has result.bits x ≡ one_of x handed }
{
    Items::of(&[0, 1, 2, 3, SP])
}

/// What a call out of the listing may change: all that a callee needn't preserve.
pub fn answered() -> Items
    ensures { (x : ℕ) → has result.bits x ≡ one_of x answered }
{
    Items::of(&[0, 1, 2, 3, 12, LR, N, Z, C, V])
}

/// The way to the next place, which reads and writes what the instruction's shape says.
fn onward(instr: &Instr, place: u32) -> Way
    requires { place < 2 ^ 32 - 1 }
    ensures { IsWay place (way (uses_of instr.now) (writes_of instr.now) Onward) result }
{
    let shape = shape(instr);
    Way {
        uses: shape.uses,
        writes: shape.writes,
        next: Next::Place(place + 1),
    }
}

/// The way of a direct branch that reads these items: to its target, or out of the listing where it has none there.
fn jump(reads: Items, target: Option<u32>) -> Way
    ensures { (p : ℕ) (list : List ℕ) → ((x : ℕ) → has reads.bits x ≡ one_of x list) → IsWay p (jump_way list target) result }
{
    match target {
        Some(place) => Way {
            uses: reads,
            writes: Items::none(),
            next: Next::Place(place),
        },
        None => Way {
            uses: reads.union(left()),
            writes: Items::none(),
            next: Next::Out,
        },
    }
}

/// The way of `bl`: to its target, or out of the listing and back to the next place.
fn call(target: Option<u32>, place: u32) -> Way
    requires { place < 2 ^ 32 - 1 }
    ensures { IsWay place (call_way target) result }
{
    match target {
        Some(place) => Way {
            uses: Items::none(),
            writes: Items::one(LR),
            next: Next::Place(place),
        },
        None => Way {
            uses: handed(),
            writes: answered(),
            next: Next::Place(place + 1),
        },
    }
}

/// The ways of `bx`: to any code point, or out of the listing.
fn branches_by(source: General) -> Ways
    ensures { (p : ℕ) (aim : Option ℕ) → AreWays p (ways_of aim (Instr.Bx source)) (way_list (Some result)) }
{
    let word = Items::of(&[source.number as u8]);
    Ways {
        first: Way {
            uses: word,
            writes: Items::none(),
            next: Next::Points,
        },
        second: Some(Way {
            uses: word.union(left()),
            writes: Items::none(),
            next: Next::Out,
        }),
    }
}

/// The ways of `blx`: to any code point, or out of the listing and back to the next place.
fn calls_by(source: General, place: u32) -> Ways
    requires { place < 2 ^ 32 - 1 }
    ensures { (aim : Option ℕ) → AreWays place (ways_of aim (Instr.Blx source)) (way_list (Some result)) }
{
    let word = Items::of(&[source.number as u8]);
    Ways {
        first: Way {
            uses: word,
            writes: Items::of(&[LR]),
            next: Next::Points,
        },
        second: Some(Way {
            uses: word.union(handed()),
            writes: answered(),
            next: Next::Place(place + 1),
        }),
    }
}

/// The ways of `pop`: to the next place, or, if pc is loaded, to any code point or out of the listing.
fn pops(list: StackList, place: u32) -> Ways
    requires { place < 2 ^ 32 - 1 }
    ensures { (aim : Option ℕ) → AreWays place (ways_of aim (Instr.Pop list)) (way_list (Some result)) }
{
    if list.number >= 256 {
        returns_by(list)
    } else {
        only(onward(&Instr::Pop { list }, place))
    }
}

/// The ways of `pop` with pc: to any code point, or out, where r0 to r11, sp and lr are read but for those that it loads.
fn returns_by(list: StackList) -> Ways
    requires { 256 ≤ list.number }
    ensures { (p : ℕ) (aim : Option ℕ) → AreWays p (ways_of aim (Instr.Pop list)) (way_list (Some result)) }
{
    let writes = shape(&Instr::Pop { list }).writes;
    let stack = Items::of(&[SP]);
    Ways {
        first: Way {
            uses: stack,
            writes,
            next: Next::Points,
        },
        second: Some(Way {
            uses: stack.union(left().minus(writes)),
            writes,
            next: Next::Out,
        }),
    }
}

/// The ways of a conditional branch that reads these items: to its target or out of the listing, or to the next place.
fn branches_if(reads: Items, target: Option<u32>, place: u32) -> Ways
    requires { place < 2 ^ 32 - 1 }
    ensures { (list : List ℕ) → ((x : ℕ) → has reads.bits x ≡ one_of x list) → AreWays place (jump_way list target ∷ way list [] Onward ∷ []) (way_list (Some result)) }
{
    Ways {
        first: jump(reads, target),
        second: Some(Way {
            uses: reads,
            writes: Items::none(),
            next: Next::Place(place + 1),
        }),
    }
}
