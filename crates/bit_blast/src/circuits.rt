//! The circuits that instructions share, over words: bitwise gates, choice, zero test, sum and product. Each has its meaning proved once (Each, Sums and
//! Products in `proofs`), so that no proof about instructions speaks of single gates.
ghost use Rattle.std.specs.Prelude.{◌≡◌, IfOk, true, false};
ghost use Rattle.cnf_gates.specs.declared.bit.Bit.TheVariants.{Constant};
ghost use Rattle.bit_blast.specs.Words.{filled};
ghost use Rattle.bit_blast.specs.Circuits.{connected, each_of, choose_each, none_of, any_of, place_of, places_of, add_of, product_from};

use crate::words::{BitVector, filled, moved};
use cnf_gates::{Bit, Builder, GateError};
use std::marker::Model;
use word_bits::Shift;

/// A gate that is applied to two words bit by bit.
#[derive(Clone, Copy, Debug, PartialEq, Eq)]
pub enum Connective {
    And,
    Or,
    Xor,
}

/// One gate of the given kind.
fn connected(builder: &mut Builder, gate: Connective, x: &Bit, y: &Bit) -> Result<Bit, GateError>
    ensures { IfOk result (λ r. (builder.new, r) ≡ connected gate builder.old x.now y.now) }
{
    match gate {
        Connective::And => builder.and(*x, *y),
        Connective::Or => builder.or(*x, *y),
        Connective::Xor => builder.xor(*x, *y),
    }
}

/// One gate for each pair of bits of two words, from the lowest pair up.
pub fn each(
    builder: &mut Builder,
    gate: Connective,
    x: &BitVector,
    y: &BitVector,
) -> Result<BitVector, GateError>
    ensures { IfOk result (λ r. (builder.new, r) ≡ each_of gate builder.old x.now y.now) }
{
    let mut value = [Bit::Constant(false); 32];
    for i in 0..32 {
        value[i] = connected(builder, gate, &x[i], &y[i])?;
    }
    Ok(value)
}

/// The bits of `y` where `a` is true, and otherwise those of `x`.
pub fn choose(
    builder: &mut Builder,
    a: &Bit,
    y: &BitVector,
    x: &BitVector,
) -> Result<BitVector, GateError>
    ensures { IfOk result (λ r. (builder.new, r) ≡ choose_each builder.old a.now y.now x.now) }
{
    let mut value = [Bit::Constant(false); 32];
    for i in 0..32 {
        value[i] = builder.ite(*a, y[i], x[i])?;
    }
    Ok(value)
}

/// Whether none of the bits is true.
pub fn none(builder: &mut Builder, bits: &BitVector) -> Result<Bit, GateError>
    ensures { IfOk result (λ r. (builder.new, r) ≡ none_of builder.old bits.now (Constant true)) }
{
    let mut none = Bit::Constant(true);
    for bit in bits {
        none = builder.and(none, bit.not())?;
    }
    Ok(none)
}

/// Whether some of the bits is true.
pub fn any(builder: &mut Builder, bits: &[Bit]) -> Result<Bit, GateError>
    ensures { IfOk result (λ r. (builder.new, r) ≡ any_of builder.old bits.now (Constant false)) }
{
    let mut any = Bit::Constant(false);
    for bit in bits {
        any = builder.or(any, *bit)?;
    }
    Ok(any)
}

/// The bits of a sum, the last carry, and the carry into the highest bit.
#[derive(Drop)]
struct Places {
    value: BitVector,
    carry: Bit,
    before: Bit,
}

impl Model for Places {
    ghost use Rattle.bit_blast.specs.Circuits.{Places};

    ghost Value = { Places };

    ghost view = { λ p. record { value = p.value; carry = p.carry; before = p.before } };
}

/// The bits of a sum, C and V.
#[derive(Drop)]
pub struct Total {
    pub value: BitVector,
    pub carry: Bit,
    pub overflow: Bit,
}

impl Model for Total {
    ghost use Rattle.bit_blast.specs.Circuits.{Total};

    ghost Value = { Total };

    ghost view = { λ t. record { value = t.value; carry = t.carry; overflow = t.overflow } };
}

/// One full adder: the bit of the sum and the next carry.
fn place(builder: &mut Builder, x: &Bit, y: &Bit, c: &Bit) -> Result<(Bit, Bit), GateError>
    ensures { IfOk result (λ r. (builder.new, r) ≡ place_of builder.old x.now y.now c.now) }
{
    let p = &builder.xor(*x, *y)?;
    let s = builder.xor(*p, *c)?;
    let g = builder.and(*x, *y)?;
    let h = builder.and(*p, *c)?;
    let n = builder.or(g, h)?;
    Ok((s, n))
}

/// A ripple-carry adder of two words and a carry.
fn place_by_place(
    builder: &mut Builder,
    x: &BitVector,
    y: &BitVector,
    c: &Bit,
) -> Result<Places, GateError>
    ensures { IfOk result (λ r. (builder.new, r) ≡ places_of builder.old x.now y.now c.now c.now) }
{
    let mut value = [Bit::Constant(false); 32];
    let mut carry = *c;
    let mut before = *c;
    for i in 0..32 {
        let (sum, next) = place(builder, &x[i], &y[i], &carry)?;
        value[i] = sum;
        before = carry;
        carry = next;
    }
    Ok(Places {
        value,
        carry,
        before,
    })
}

/// AddWithCarry: the sum of two words and a carry.
pub fn add(builder: &mut Builder, x: &BitVector, y: &BitVector, c: &Bit) -> Result<Total, GateError>
    ensures { IfOk result (λ r. (builder.new, r) ≡ add_of builder.old x.now y.now c.now) }
{
    let Places {
        value,
        carry,
        before,
    } = place_by_place(builder, x, y, c)?;
    let carry = &carry;
    let overflow = builder.xor(before, *carry)?;
    Ok(Total {
        value,
        carry: *carry,
        overflow,
    })
}

/// The low 32 bits of a product, by shifts and sums: a row for each bit of `y`.
pub fn product(builder: &mut Builder, x: &BitVector, y: &BitVector) -> Result<BitVector, GateError>
    ensures { IfOk result (λ r. (builder.new, r) ≡ product_from builder.old 0 x.now y.now (filled (Constant false))) }
{
    let mut sum = filled(&Bit::Constant(false));
    for j in 0..32 {
        let row = each(
            builder,
            Connective::And,
            &moved(Shift::Lsl, j, x),
            &filled(&y[j]),
        )?;
        let Total { value, .. } = add(builder, &sum, &row, &Bit::Constant(false))?;
        sum = value;
    }
    Ok(sum)
}
