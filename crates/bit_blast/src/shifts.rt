//! Shifts by a register: a barrel shifter of six stages, each by a power of two, and one stage for bits 6 and 7 of the amount, since the manual has rules
//! of its own for shifts by 32 and more.
ghost use Rattle.std.specs.Prelude.{◌≡◌, ◌<◌, ◌≤◌, ◌^◌, IfOk, take};
ghost use Rattle.word_bits.specs.declared.Shift.TheVariants.{Ror};
ghost use Rattle.bit_blast.specs.Circuits.{stage_of, stages_from, shift_by, rotations_from, rotate_by};
ghost use Rattle.bit_blast.specs.Words.{moved, moved_out};

use crate::circuits::{any, choose};
use crate::words::{BitVector, copied, fill, filled, moved, moved_out};
use cnf_gates::{Bit, Builder, GateError};
use std::marker::Model;
use word_bits::Shift;

/// A word and a carry.
#[derive(Drop)]
pub struct Shifted {
    pub value: BitVector,
    pub carry: Bit,
}

impl Model for Shifted {
    ghost use Rattle.bit_blast.specs.Circuits.{Shifted};

    ghost Value = { Shifted };

    ghost view = { λ s. record { value = s.value; carry = s.carry } };
}

/// 2^j places.
fn places(j: usize) -> usize
    requires { j < 6 }
    ensures power { result ≡ 2 ^ j }
    ensures some { 0 < result }
    ensures within { result ≤ 32 }
{
    1 << j
}

/// One stage: where `a` is true, the word becomes `bits` and the carry `out`.
fn stage(
    builder: &mut Builder,
    a: &Bit,
    bits: &BitVector,
    out: &Bit,
    s: &Shifted,
) -> Result<Shifted, GateError>
    ensures { IfOk result (λ r. (builder.new, r) ≡ stage_of builder.old a.now bits.now out.now s.now) }
{
    let value = choose(builder, a, bits, &s.value)?;
    let carry = builder.ite(*a, *out, s.carry)?;
    Ok(Shifted { value, carry })
}

/// The stages of bits 0 to 5 of the amount: where bit j is set, the word moves by 2^j.
fn stages(
    builder: &mut Builder,
    kind: Shift,
    amount: &BitVector,
    start: Shifted,
) -> Result<Shifted, GateError>
    ensures { IfOk result (λ r. (builder.new, r) ≡ stages_from kind builder.old 0 (take 6 amount.now) start) }
{
    let mut s = start;
    for j in 0..6 {
        let n = places(j);
        let bits = moved(kind, n, &s.value);
        let out = moved_out(kind, n, &s.value);
        s = stage(builder, &amount[j], &bits, &out, &s)?;
    }
    Ok(s)
}

/// LSL, LSR or ASR by the low byte of a word.
pub fn shift_by(
    builder: &mut Builder,
    kind: Shift,
    amount: &BitVector,
    start: Shifted,
) -> Result<Shifted, GateError>
    ensures { IfOk result (λ r. (builder.new, r) ≡ shift_by kind builder.old amount.now start) }
{
    let near = stages(builder, kind, amount, start)?;
    let far = builder.or(amount[6], amount[7])?;
    let rest = fill(kind, &near.value);
    stage(builder, &far, &filled(&rest), &rest, &near)
}

/// The stages of bits 0 to 4 of the amount as rotations of the word; the carry isn't computed here.
fn rotations(
    builder: &mut Builder,
    amount: &BitVector,
    start: &BitVector,
) -> Result<BitVector, GateError>
    ensures { IfOk result (λ r. (builder.new, r) ≡ rotations_from builder.old 0 (take 5 amount.now) start.now) }
{
    let mut value = copied(start);
    for j in 0..5 {
        let bits = moved(Shift::Ror, places(j), &value);
        value = choose(builder, &amount[j], &bits, &value)?;
    }
    Ok(value)
}

/// ROR by the low byte of a word.
pub fn rotate_by(
    builder: &mut Builder,
    amount: &BitVector,
    start: &Shifted,
) -> Result<Shifted, GateError>
    ensures { IfOk result (λ r. (builder.new, r) ≡ rotate_by builder.old amount.now start.now) }
{
    let value = rotations(builder, amount, &start.value)?;
    let some = any(builder, &amount[..8])?;
    let carry = builder.ite(some, value[31], start.carry)?;
    Ok(Shifted { value, carry })
}
