//! The formula of a pair of sides: both formed from the same inputs, and one clause that some item of the mask differs. Sides with holes have the bits of
//! a symbol's value among the inputs, and clauses that it lies in its range.
ghost use Rattle.std.specs.Prelude.{◌≡◌, ◌↔◌, ◌+◌, ◌*◌, IfOk, OnOk, length, take};
ghost use Rattle.thumb_model.specs.Effect.{AreOver};
ghost use Rattle.bit_blast.specs.declared.circuits.Connective.TheVariants.{Xor};
ghost use Rattle.bit_blast.specs.Circuits.{each_of, before_word};
ghost use Rattle.bit_blast.specs.Slots.{AreSlotsOver};
ghost use Rattle.bit_blast.specs.Differences.{start_built, flag_difference, register_differences, differences, sides_from, formula_from, sides_formula, low_inputs, at_least, range_built, family_formula};
ghost use Rattle.bit_blast.specs.Exactness.{IsMaskOver, ModelsTell, TellersAreModels, HasNoModel, AreEqual, FamilyModelsTell, FamilyTellersAreModels, AreEqualForAll};

use crate::bits::{Bits, low_inputs};
use crate::circuits::{Connective, each};
use crate::slots::{Slot, Symbol, plain, slots};
use crate::words::{BitVector, filled, inverted};
use cnf_gates::{Bit, Builder, Formula, GateError, Memory};
use std::alloc::Global;
use thumb_instr::items::{C, N, V, Z};
use thumb_instr::{Mask, Seq};

/// Pushes, for each pair of bits of two words, the bit that is true where they differ.
fn push_word(
    builder: &mut Builder,
    found: &mut Vec<Bit>,
    x: &BitVector,
    y: &BitVector,
) -> Result<(), GateError>
    ensures { IfOk result (λ _. (builder.new, found.new.items) ≡ before_word found.old.items (each_of Xor builder.old x.now y.now)) }
{
    let bits = each(builder, Connective::Xor, x, y)?;
    found.extend_from_slice(&bits)?;
    Ok(())
}

/// Pushes the bit that is true where the flag differs, if the flag is in the mask.
fn push_flag(
    builder: &mut Builder,
    found: &mut Vec<Bit>,
    on: bool,
    x: &Bit,
    y: &Bit,
) -> Result<(), GateError>
    ensures { IfOk result (λ _. (builder.new, found.new.items) ≡ before_word found.old.items (flag_difference builder.old on x.now y.now)) }
{
    if on {
        found.push(builder.xor(*x, *y)?)?;
    }
    Ok(())
}

/// The bits of which some is true where a register of the mask differs.
fn register_differences(
    alloc: Global,
    builder: &mut Builder,
    mask: Mask,
    x: &Bits,
    y: &Bits,
) -> Result<Vec<Bit>, GateError>
    requires { length x.now.r ≡ length y.now.r }
    ensures { IfOk result (λ f. (builder.new, f.items) ≡ register_differences builder.old mask.items.bits 0 (take 4 x.now.r) (take 4 y.now.r)) }
{
    let mut found = Vec::new(alloc);
    for register in 0..x.registers.len().min(4) {
        if mask.has(register as u8) {
            push_word(
                builder,
                &mut found,
                &x.registers[register],
                &y.registers[register],
            )?;
        }
    }
    Ok(found)
}

/// The bits of which some is true where an item of the mask differs.
fn differences(
    alloc: Global,
    builder: &mut Builder,
    mask: Mask,
    x: &Bits,
    y: &Bits,
) -> Result<Vec<Bit>, GateError>
    requires { length x.now.r ≡ length y.now.r }
    ensures { IfOk result (λ f. (builder.new, f.items) ≡ differences builder.old mask.items.bits x.now y.now) }
{
    let mut found = register_differences(alloc, builder, mask, x, y)?;
    push_flag(builder, &mut found, mask.has(N), &x.n, &y.n)?;
    push_flag(builder, &mut found, mask.has(Z), &x.z, &y.z)?;
    push_flag(builder, &mut found, mask.has(C), &x.c, &y.c)?;
    push_flag(builder, &mut found, mask.has(V), &x.v, &y.v)?;
    Ok(found)
}

/// Forms both sides from the same bits, and gives the bits of which some is true where the sides differ.
fn sides_from(
    alloc: Global,
    builder: &mut Builder,
    start: Bits,
    symbol: &BitVector,
    left: &[Slot],
    right: &[Slot],
    mask: Mask,
) -> Result<Vec<Bit>, GateError>
    requires left { AreSlotsOver (length start.r) left.now }
    requires right { AreSlotsOver (length start.r) right.now }
    ensures { IfOk result (λ f. (builder.new, f.items) ≡ sides_from builder.old start symbol.now left.now right.now mask.items.bits) }
{
    let mut r = start;
    let mut l = r.copied(alloc)?;
    l.form_all(builder, left, symbol)?;
    r.form_all(builder, right, symbol)?;
    differences(alloc, builder, mask, &l, &r)
}

/// The formula of two sides of slots, added to what `builder` holds already.
fn formula_from(
    alloc: Global,
    builder: Builder,
    start: Bits,
    symbol: &BitVector,
    left: &[Slot],
    right: &[Slot],
    mask: Mask,
) -> Result<Formula, Memory>
    requires left { AreSlotsOver (length start.r) left.now }
    requires right { AreSlotsOver (length start.r) right.now }
    ensures { IfOk result (λ f. f ≡ formula_from builder start symbol.now left.now right.now mask.items.bits) }
{
    let mut builder = builder;
    let found = sides_from(alloc, &mut builder, start, symbol, left, right, mask).map_err(
        |_| Memory,
    )?;
    builder.or_clause(&found)?;
    Ok(builder.finish())
}

/// Adds the clauses that say that the number in eight bits is `least` or more.
fn at_least(alloc: Global, builder: &mut Builder, bits: &[Bit], least: u8) -> Result<(), Memory>
    requires { length bits.now ≡ 8 }
    ensures { OnOk result (builder.new ≡ at_least bits.now least builder.old) }
{
    let mut higher = Vec::new(alloc);
    for i in 0..8 {
        let j = 7 - i;
        if least >> j & 1 == 1 {
            let mut clause = Vec::from_slice(alloc, &[bits[j]])?;
            clause.extend_from_slice(&higher)?;
            builder.or_clause(&clause)?;
        } else {
            higher.push(bits[j])?;
        }
    }
    Ok(())
}

/// New input variables for the symbol's bits, and the clauses that its value lies in the range.
fn symbol_inputs(
    alloc: Global,
    builder: &mut Builder,
    symbol: Symbol,
    k: u8,
) -> Result<BitVector, Memory>
    requires { builder.old ≡ start_built k }
    ensures { IfOk result (λ w. (builder.new ≡ range_built k symbol) × (w ≡ low_inputs (32 * k + 4) 8)) }
{
    let word = low_inputs(builder, 8).map_err(|_| Memory)?;
    at_least(alloc, builder, &word[..8], symbol.low)?;
    at_least(alloc, builder, &inverted(&word)[..8], 255 - symbol.high)?;
    Ok(word)
}

/// The formula that two sequences differ in some item of the mask: both consist of instructions that may stand in a window and name r0 to
/// r(k-1) alone, and the mask has no register of `k` or above.
///
/// Variable 32 r + b + 1 is bit `b` of register `r` before the two, variables 32 k + 1 to 32 k + 4 are N, Z, C and V before them; gates
/// follow as they are made, for the left sequence, the right one and the differences. The last clause, left out where it is always true, says
/// that something differs. The models are exactly the states that tell the two apart (`state_of`), so there is none exactly where the two
/// are equal under the mask. The one error is want of memory: ten instructions never need more variables than there may be (`laws`).
pub fn formula(alloc: Global, left: &Seq, right: &Seq, mask: Mask, k: u8) -> Result<Formula, Memory>
    requires left { AreOver k left.now }
    requires right { AreOver k right.now }
    requires mask { IsMaskOver k mask.items.bits }
    ensures stated { IfOk result (λ f. f ≡ sides_formula left.now right.now mask.items.bits k) }
    ensures models_tell { IfOk result (λ f. ModelsTell f left.now right.now mask.items.bits k) }
    ensures tellers_are_models { IfOk result (λ f. TellersAreModels f left.now right.now mask.items.bits k) }
    ensures none_where_equal { IfOk result (λ f. HasNoModel f ↔ AreEqual left.now right.now mask.items.bits) }
{
    let mut builder = Builder::new(alloc);
    let start = Bits::inputs(alloc, &mut builder, k).map_err(|_| Memory)?;
    let left = plain(alloc, left)?;
    let right = plain(alloc, right)?;
    let symbol = filled(&Bit::Constant(false));
    formula_from(alloc, builder, start, &symbol, &left, &right, mask)
}

/// The formula that two sequences differ in some item of the mask for some value of a symbol, under the conditions of `formula`: in the
/// sequences each 8-bit number of `movs`, `cmp`, `adds` and `subs` that is the symbol's number is a hole, which takes the symbol's value.
///
/// Variables 32 k + 5 to 32 k + 12 are the bits of the value, bit 0 first, behind those that `formula` has for the state. The first clauses say
/// that the value lies in the symbol's range, and all else is as in `formula`. The models are exactly the pairs of a value (`value_of`) and a
/// state (`state_of`) that tells the two sequences with that value apart, so there is none exactly where the two are equal under the mask for
/// each value. The one error is want of memory.
pub fn family_formula(
    alloc: Global,
    left: &Seq,
    right: &Seq,
    symbol: Symbol,
    mask: Mask,
    k: u8,
) -> Result<Formula, Memory>
    requires left { AreOver k left.now }
    requires right { AreOver k right.now }
    requires mask { IsMaskOver k mask.items.bits }
    ensures stated { IfOk result (λ f. f ≡ family_formula left.now right.now symbol mask.items.bits k) }
    ensures models_tell { IfOk result (λ f. FamilyModelsTell f left.now right.now symbol mask.items.bits k) }
    ensures tellers_are_models { IfOk result (λ f. FamilyTellersAreModels f left.now right.now symbol mask.items.bits k) }
    ensures none_where_equal { IfOk result (λ f. HasNoModel f ↔ AreEqualForAll left.now right.now symbol mask.items.bits) }
{
    let mut builder = Builder::new(alloc);
    let start = Bits::inputs(alloc, &mut builder, k).map_err(|_| Memory)?;
    let word = symbol_inputs(alloc, &mut builder, symbol, k)?;
    let left = slots(alloc, left, symbol.number)?;
    let right = slots(alloc, right, symbol.number)?;
    formula_from(alloc, builder, start, &word, &left, &right, mask)
}
