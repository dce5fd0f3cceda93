//! What one instruction does, as gates: one case for each kind, divided as in the model of instructions, so that the proof that the bits have the values of
//! the model's step goes case by case.
ghost use Rattle.std.specs.Prelude.{◌≡◌, ◌<◌, ◌≤◌, IfOk};
ghost use Rattle.thumb_model.specs.Effect.{right_shift};
ghost use Rattle.bit_blast.specs.Forming.{result_of, summed, unflagged, joined_of, shifted_of, rotated_of, multiplied_of, three_of, two_of, byte_of, number_shift};

use crate::bits::Bits;
use crate::circuits::{Connective, Total, add, each, none, product};
use crate::shifts::{Shifted, rotate_by, shift_by};
use crate::words::{BitVector, copied, filled, inverted, moved, moved_out};
use cnf_gates::{Bit, Builder, GateError};
use std::marker::Model;
use thumb_instr::{ByteOperation, Operation, Right, SumOperation};
use word_bits::Shift;

/// The outcome of an instruction: the bits of its target and the flags after it.
#[derive(Drop)]
pub struct ResultBits {
    pub value: BitVector,
    pub n: Bit,
    pub z: Bit,
    pub c: Bit,
    pub v: Bit,
}

impl Model for ResultBits {
    ghost use Rattle.bit_blast.specs.Forming.{ResultBits};

    ghost Value = { ResultBits };

    ghost view = { λ o. record { value = o.value; n = o.n; z = o.z; c = o.c; v = o.v } };
}

/// A result with N and Z computed from `value`, and the given C and V.
pub fn result(
    builder: &mut Builder,
    value: BitVector,
    c: &Bit,
    v: &Bit,
) -> Result<ResultBits, GateError>
    ensures { IfOk result (λ o. (builder.new, o) ≡ result_of builder.old value c.now v.now) }
{
    let z = none(builder, &value)?;
    let n = value[31];
    Ok(ResultBits {
        value,
        n,
        z,
        c: *c,
        v: *v,
    })
}

/// A sum that sets all four flags.
fn summed(
    builder: &mut Builder,
    x: &BitVector,
    y: &BitVector,
    c: &Bit,
) -> Result<ResultBits, GateError>
    ensures { IfOk result (λ o. (builder.new, o) ≡ summed builder.old x.now y.now c.now) }
{
    let Total {
        value,
        carry,
        overflow,
    } = add(builder, x, y, c)?;
    result(builder, value, &carry, &overflow)
}

/// A result that leaves the flags unchanged.
pub fn unflagged(value: BitVector, before: &Bits) -> ResultBits
    ensures { result ≡ unflagged value before.now }
{
    ResultBits {
        value,
        n: before.n,
        z: before.z,
        c: before.c,
        v: before.v,
    }
}

/// An outcome of which only the flags are written: the target keeps its bits.
fn flags_alone(target: &BitVector, outcome: ResultBits) -> ResultBits
    ensures { result ≡ record outcome { value = target.now } }
{
    let ResultBits { n, z, c, v, .. } = outcome;
    let value = copied(target);
    ResultBits { value, n, z, c, v }
}

/// A sum or a difference of two words, as `sum` says, with all four flags.
pub fn three(
    builder: &mut Builder,
    sum: SumOperation,
    x: &BitVector,
    y: &BitVector,
) -> Result<ResultBits, GateError>
    ensures { IfOk result (λ o. (builder.new, o) ≡ three_of sum builder.old x.now y.now) }
{
    match sum {
        SumOperation::Add => summed(builder, x, y, &Bit::Constant(false)),
        SumOperation::Sub => summed(builder, x, &inverted(y), &Bit::Constant(true)),
    }
}

/// A right shift as a kind of shift.
pub fn right(shift: Right) -> Shift
    ensures { result ≡ right_shift shift }
{
    match shift {
        Right::Lsr => Shift::Lsr,
        Right::Asr => Shift::Asr,
    }
}

/// A shift by a number of places.
pub fn number_shift(
    builder: &mut Builder,
    kind: Shift,
    x: &BitVector,
    n: u32,
    before: &Bits,
) -> Result<ResultBits, GateError>
    requires some { 0 < n }
    requires within { n ≤ 32 }
    ensures { IfOk result (λ o. (builder.new, o) ≡ number_shift kind builder.old x.now n before.now) }
{
    let value = moved(kind, n as usize, x);
    let carry = moved_out(kind, n as usize, x);
    result(builder, value, &carry, &before.v)
}

/// A bitwise operation on two words, which sets N and Z.
fn joined(
    builder: &mut Builder,
    gate: Connective,
    x: &BitVector,
    y: &BitVector,
    before: &Bits,
) -> Result<ResultBits, GateError>
    ensures { IfOk result (λ o. (builder.new, o) ≡ joined_of gate builder.old x.now y.now before.now) }
{
    let value = each(builder, gate, x, y)?;
    result(builder, value, &before.c, &before.v)
}

/// The word and C as they are before a shift.
fn unshifted(x: &BitVector, before: &Bits) -> Shifted
    ensures { result ≡ record { value = x.now; carry = before.now.c } }
{
    let value = copied(x);
    Shifted {
        value,
        carry: before.c,
    }
}

/// A shift by the low byte of a register, which sets N, Z and C.
fn shifted(
    builder: &mut Builder,
    kind: Shift,
    x: &BitVector,
    y: &BitVector,
    before: &Bits,
) -> Result<ResultBits, GateError>
    ensures { IfOk result (λ o. (builder.new, o) ≡ shifted_of kind builder.old x.now y.now before.now) }
{
    let Shifted { value, carry } = shift_by(builder, kind, y, unshifted(x, before))?;
    result(builder, value, &carry, &before.v)
}

/// A rotation by the low byte of a register, which sets N, Z and C.
fn rotated(
    builder: &mut Builder,
    x: &BitVector,
    y: &BitVector,
    before: &Bits,
) -> Result<ResultBits, GateError>
    ensures { IfOk result (λ o. (builder.new, o) ≡ rotated_of builder.old x.now y.now before.now) }
{
    let Shifted { value, carry } = rotate_by(builder, y, &unshifted(x, before))?;
    result(builder, value, &carry, &before.v)
}

/// A product, which sets N and Z.
fn multiplied(
    builder: &mut Builder,
    x: &BitVector,
    y: &BitVector,
    before: &Bits,
) -> Result<ResultBits, GateError>
    ensures { IfOk result (λ o. (builder.new, o) ≡ multiplied_of builder.old x.now y.now before.now) }
{
    let value = product(builder, x, y)?;
    result(builder, value, &before.c, &before.v)
}

/// A two-register operation, where `x` holds the bits of its target and `y` those of the other register.
pub fn two(
    builder: &mut Builder,
    operation: Operation,
    x: &BitVector,
    y: &BitVector,
    before: &Bits,
) -> Result<ResultBits, GateError>
    ensures { IfOk result (λ o. (builder.new, o) ≡ two_of operation builder.old x.now y.now before.now) }
{
    match operation {
        Operation::And => joined(builder, Connective::And, x, y, before),
        Operation::Eor => joined(builder, Connective::Xor, x, y, before),
        Operation::Lsl => shifted(builder, Shift::Lsl, x, y, before),
        Operation::Lsr => shifted(builder, Shift::Lsr, x, y, before),
        Operation::Asr => shifted(builder, Shift::Asr, x, y, before),
        Operation::Adc => summed(builder, x, y, &before.c),
        Operation::Sbc => summed(builder, x, &inverted(y), &before.c),
        Operation::Ror => rotated(builder, x, y, before),
        Operation::Tst => Ok(flags_alone(x, joined(builder, Connective::And, x, y, before)?)),
        Operation::Rsb => {
            let zero = filled(&Bit::Constant(false));
            summed(builder, &inverted(y), &zero, &Bit::Constant(true))
        }
        Operation::Cmp => Ok(flags_alone(x, three(builder, SumOperation::Sub, x, y)?)),
        Operation::Cmn => Ok(flags_alone(x, three(builder, SumOperation::Add, x, y)?)),
        Operation::Orr => joined(builder, Connective::Or, x, y, before),
        Operation::Mul => multiplied(builder, x, y, before),
        Operation::Bic => joined(builder, Connective::And, x, &inverted(y), before),
        Operation::Mvn => result(builder, inverted(y), &before.c, &before.v),
    }
}

/// An operation with an 8-bit number, where `x` holds the bits of its target.
pub fn byte(
    builder: &mut Builder,
    operation: ByteOperation,
    x: &BitVector,
    number: &BitVector,
    before: &Bits,
) -> Result<ResultBits, GateError>
    ensures { IfOk result (λ o. (builder.new, o) ≡ byte_of operation builder.old x.now number.now before.now) }
{
    match operation {
        ByteOperation::Mov => result(builder, copied(number), &before.c, &before.v),
        ByteOperation::Cmp => Ok(flags_alone(x, three(builder, SumOperation::Sub, x, number)?)),
        ByteOperation::Add => three(builder, SumOperation::Add, x, number),
        ByteOperation::Sub => three(builder, SumOperation::Sub, x, number),
    }
}
