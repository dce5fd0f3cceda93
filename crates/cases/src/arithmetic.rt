//! Cases of words: `sum X Y C`, `shift KIND X AMOUNT C`, `reverse KIND X` and `extend X BITS`.
use crate::case::Case;
use word_bits::{Shift, add_with_carry, rev, rev16, revsh, shift_c, sign_extend};

/// The sum, the carry out and the overflow.
pub(crate) fn sum(case: &mut Case<'_>) -> Option<()> {
    let x = case.hex();
    let y = case.hex();
    let sum = add_with_carry(x, y, case.bit());
    case.add_hexes(&[sum.value, u32::from(sum.c), u32::from(sum.v)]);
    Some(())
}

fn shift_named(name: &str) -> Option<Shift> {
    match name {
        "lsl" => Some(Shift::Lsl),
        "lsr" => Some(Shift::Lsr),
        "asr" => Some(Shift::Asr),
        "ror" => Some(Shift::Ror),
        _ => None,
    }
}

/// The value and the carry out.
pub(crate) fn shift(case: &mut Case<'_>) -> Option<()> {
    let kind = shift_named(case.word())?;
    let x = case.hex();
    let amount = case.hex();
    let (value, carry) = shift_c(kind, x, amount, case.bit());
    case.add_hexes(&[value, u32::from(carry)]);
    Some(())
}

pub(crate) fn reverse(case: &mut Case<'_>) -> Option<()> {
    let kind = case.word();
    let x = case.hex();
    case.add_hex(match kind {
        "rev" => rev(x),
        "rev16" => rev16(x),
        "revsh" => revsh(x),
        _ => return None,
    });
    Some(())
}

pub(crate) fn extend(case: &mut Case<'_>) -> Option<()> {
    let x = case.hex();
    let bits = case.number();
    if bits == 0 || bits > 32 {
        return None;
    }
    case.add_hex(sign_extend(x, bits));
    Some(())
}
