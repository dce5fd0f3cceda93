//! A set of items for each place, with how many code points have each item: so the set of all code points is known without a look at them, also where one
//! of them loses an item.
ghost use Rattle.std.specs.Prelude.{◌≡◌, ◌<◌, ◌≤◌, ◌+◌, ◌-◌, ◌^◌, ◌&&◌, nat_lt, ◌||◌, ◌==◌, true, false, ℕ, length, get_or, slice_set, IfOk};
ghost use Rattle.std.specs.Int.{from_bool};
ghost use Rattle.thumb_instr.specs.Items.{has};
ghost use Rattle.liveness.specs.Live.{set_at};
ghost use Rattle.liveness.specs.Counted.{AreCounted};

use std::alloc::{AllocError, Global};
use thumb_instr::Items;

/// How many items there are.
const KINDS: usize = 19;

/// The sets of places, how many code points have each item, and the items that some code point has.
#[derive(Drop)]
pub(crate) struct PointSets {
    pub(crate) sets: Vec<Items>,
    pub(crate) counts: Vec<u32>,
    pub(crate) points: Items,
}

/// The new count of the code points that have an item, where one of them had it or not and has it or not.
fn recounted(count: u32, had: bool, has: bool) -> u32
    requires had { had ≡ true → 1 ≤ count }
    requires room { had ≡ false → count < 2 ^ 32 - 1 }
    ensures { result + from_bool had ≡ count + from_bool has }
{
    match (had, has) {
        (true, false) => count - 1,
        (false, true) => count + 1,
        _ => count,
    }
}

/// Updates the counts where a code point's set changes. Answers the items that some code point has now.
fn recount(counts: &mut Vec<u32>, old: Items, new: Items) -> Items
    requires kinds { length counts.old.items ≡ 19 }
    requires had { (x : ℕ) → x < 19 → has old.bits x ≡ true → 1 ≤ get_or counts.old.items x 0 }
    requires room { (x : ℕ) → x < 19 → has old.bits x ≡ false → get_or counts.old.items x 0 < 2 ^ 32 - 1 }
    ensures kinds { length counts.new.items ≡ 19 }
    ensures counts { (x : ℕ) → x < 19 → get_or counts.new.items x 0 + from_bool (has old.bits x) ≡ get_or counts.old.items x 0 + from_bool (has new.bits x) }
    ensures points { (x : ℕ) → has result.bits x ≡ (nat_lt x 19 && nat_lt 0 (get_or counts.new.items x 0)) }
{
    let mut points = Items::none();
    for item in 0..KINDS {
        let kind = item as u8;
        let count = recounted(counts[item], old.has(kind), new.has(kind));
        counts[item] = count;
        points = with_counted(points, kind, count);
    }
    points
}

/// The items, with this one if its count isn't 0.
fn with_counted(points: Items, item: u8, count: u32) -> Items
    requires { item < 19 }
    ensures { (x : ℕ) → has result.bits x ≡ (has points.bits x || ((x == item) && nat_lt 0 count)) }
{
    if count == 0 {
        return points;
    }
    points.union(Items::one(item))
}

/// Empty sets for so many places.
pub(crate) fn no_sets(alloc: Global, _marks: &[bool], count: usize) -> Result<PointSets, AllocError>
    ensures counted { IfOk result (λ s. AreCounted _marks.now s) }
    ensures many { IfOk result (λ s. length s.sets.items ≡ count) }
    ensures none { IfOk result (λ s. (p x : ℕ) → has (set_at s.sets.items p) x ≡ false) }
{
    Ok(PointSets {
        sets: vec![in alloc; Items::none(); count]?,
        counts: vec![in alloc; 0; KINDS]?,
        points: Items::none(),
    })
}

/// Puts a set in place of that of a place, and updates the counts if that is a code point.
pub(crate) fn put(marks: &[bool], all: &mut PointSets, place: usize, new: Items)
    requires counted { AreCounted marks.now all.old }
    requires place { place < length all.old.sets.items }
    requires marks { length all.old.sets.items ≤ length marks.now }
    requires few { length all.old.sets.items < 2 ^ 32 }
    ensures counted { AreCounted marks.now all.new }
    ensures sets { all.new.sets.items ≡ slice_set all.old.sets.items place new }
{
    let old = all.sets[place];
    all.sets[place] = new;
    if !marks[place] {
        return;
    }
    all.points = recount(&mut all.counts, old, new);
}
