//! The canonical form of windows: their registers are renamed in order of first appearance, so that windows that differ in registers alone have one form.
ghost use Rattle.std.specs.Prelude.{◌≡◌, ◌<◌, ◌≤◌, ℕ, [], ◌∷◌, ◌&&◌, ◌==◌, true, length, map, slice_get, MatchOption};
ghost use Rattle.std.specs.List.{list_all};
ghost use Rattle.std.specs.Bool.{OnTrue, OnFalse};
ghost use Rattle.thumb_instr.specs.Items.{has as has_item};
ghost use Rattle.thumb_instr.specs.Window.{is_in_window, normal_of, renamed};
ghost use Rattle.rule_table.specs.Canonical.{has, with_first, firsts, name_in, numbers_of, appearing, register_has, masked, IsRenamable, IsCanonical};

use crate::map::Map;
use arrayvec::ArrayVec;
use thumb_instr::{Instr, Items, Low, Mask, Seq, in_window, normal, registers_of, renamed};

/// The normal form of the window with its registers renamed r0, r1 and so on by first appearance, the map from these to its own registers, and
/// those of the items that are its registers, by their new names, or flags. None if and only if the window is empty or longer than five, some
/// instruction may not stand in a window, or more than four registers are named.
pub fn canonical(window: &[Instr], items: Items) -> Option<(Seq, Map, Mask)>
    ensures { MatchOption result (IsRenamable window.now → ⊥) (λ c. IsRenamable window.now × IsCanonical window.now items.bits c.0 c.1 c.2.items.bits) }
{
    if window.is_empty() || window.len() > 5 || !are_windows(window) {
        return None;
    }
    let normal = normalised(window);
    match order_of(normal.as_slice()) {
        None => None,
        Some(order) => {
            let names = names_of(&order);
            let seq = renamed_all(normal.as_slice(), names.as_slice());
            Some((seq, Map::to(&order), mask_of(items, &order)))
        }
    }
}

/// Whether each instruction may stand in a window.
pub fn are_windows(instrs: &[Instr]) -> bool
    ensures { result ≡ list_all is_in_window instrs.now }
{
    instrs.iter().all(|instr| in_window(instr))
}

/// The instructions, each in its normal form.
fn normalised(window: &[Instr]) -> Seq
    requires { length window.now ≤ 5 }
    ensures { result ≡ map normal_of window.now }
{
    let mut seq = Seq::new();
    for instr in window {
        seq.push(normal(*instr));
    }
    seq
}

/// The instructions with these registers in place of r0, r1 and so on.
pub fn renamed_all(instrs: &[Instr], registers: &[Low]) -> Seq
    requires { length instrs.now ≤ 5 }
    ensures { result ≡ map (renamed registers.now) instrs.now }
{
    let mut seq = Seq::new();
    for instr in instrs {
        seq.push(renamed(instr, registers));
    }
    seq
}

/// Whether a register is among those seen.
fn has(seen: &[Low], register: Low) -> bool
    ensures { result ≡ has (numbers_of seen.now) register.number }
{
    for other in seen {
        if other.number == register.number {
            return true;
        }
    }
    false
}

/// Appends a register to those seen, if it isn't among them; false if there is no room.
fn see(seen: &mut ArrayVec<Low, 4>, register: Low) -> bool
    requires { length seen.old.items ≤ 4 }
    ensures yes { OnTrue result (numbers_of seen.new.items ≡ with_first (numbers_of seen.old.items) register.number) }
    ensures room { OnTrue result (length seen.new.items ≤ 4) }
    ensures no { OnFalse result (4 < length (with_first (numbers_of seen.old.items) register.number)) }
{
    if has(seen, register) {
        true
    } else {
        seen.try_push(register).is_ok()
    }
}

/// Appends registers to those seen, each if it isn't among them; false if there is no room.
#[tactic(auto, using(crate::proofs::Orders::order))]
fn see_all(seen: &mut ArrayVec<Low, 4>, registers: &[Low]) -> bool
    requires { length seen.old.items ≤ 4 }
    ensures yes { OnTrue result (numbers_of seen.new.items ≡ firsts (numbers_of seen.old.items) (numbers_of registers.entry.now)) }
    ensures room { OnTrue result (length seen.new.items ≤ 4) }
    ensures no { OnFalse result (4 < length (firsts (numbers_of seen.old.items) (numbers_of registers.entry.now))) }
{
    for register in registers {
        if !see(seen, *register) {
            return false;
        }
    }
    true
}

/// The registers that instructions name, in order of first appearance; None where there are more than four.
#[tactic(auto, using(crate::proofs::Orders::orders))]
fn order_of(instrs: &[Instr]) -> Option<ArrayVec<Low, 4>>
    requires { list_all is_in_window instrs.now ≡ true }
    ensures { MatchOption result (4 < length (appearing instrs.now)) (λ m. (numbers_of m.items ≡ appearing instrs.now) × (length m.items ≤ 4)) }
{
    let mut seen = ArrayVec::new();
    for instr in instrs {
        if !see_all(&mut seen, &registers_of(instr)) {
            return None;
        }
    }
    Some(seen)
}

/// The new names of r0 to r7: each register's index in the order; one past its end for a register that isn't in it.
fn names_of(order: &[Low]) -> [Low; 8]
    requires { length order.now ≤ 4 }
    ensures { numbers_of result ≡ map (name_in (numbers_of order.now)) (0 ∷ 1 ∷ 2 ∷ 3 ∷ 4 ∷ 5 ∷ 6 ∷ 7 ∷ []) }
{
    let count = order.len();
    let mut names = [Low::of(count as u32); 8];
    for turn in 0..count {
        let place = count - 1 - turn;
        names[order[place].number as usize] = Low::of(place as u32);
    }
    names
}

/// An item under another name, if it is in the set; else the empty set.
fn kept(items: Items, item: u8, name: u8) -> Items
    requires item { item < 19 }
    requires name { name < 19 }
    ensures { (x : ℕ) → has_item result.bits x ≡ (has_item items.bits item && (x == name)) }
{
    if items.has(item) {
        Items::one(name)
    } else {
        Items::none()
    }
}

/// The register that has this new name, under that name, if it is in the set; else the empty set.
fn kept_at(items: Items, order: &[Low], name: u8) -> Items
    requires { name < 4 }
    ensures { (x : ℕ) → has_item result.bits x ≡ (register_has items.bits (slice_get (numbers_of order.now) name) && (x == name)) }
{
    match order.get(usize::from(name)) {
        None => Items::none(),
        Some(register) => kept(items, register.number as u8, name),
    }
}

/// The items under their new names; flags keep theirs.
fn mask_of(items: Items, order: &[Low]) -> Mask
    ensures { (x : ℕ) → has_item result.items.bits x ≡ masked items.bits (numbers_of order.now) x }
{
    let registers = kept_at(items, order, 0)
        .union(kept_at(items, order, 1))
        .union(kept_at(items, order, 2))
        .union(kept_at(items, order, 3));
    let named = registers
        .union(kept(items, 15, 15))
        .union(kept(items, 16, 16))
        .union(kept(items, 17, 17))
        .union(kept(items, 18, 18));
    Mask::of(named)
}
