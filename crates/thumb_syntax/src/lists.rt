//! Reads lists of registers in braces, such as those of `push` and `ldm`, as the bits that their code holds.
ghost use Rattle.std.specs.Prelude.{◌≡◌, ◌<◌, ◌≤◌, ◌+◌, ◌-◌, ◌^◌, option_map};
ghost use Rattle.thumb_syntax.specs.Views.{view};
ghost use Rattle.thumb_syntax.specs.LeftView.{left};
ghost use Rattle.thumb_syntax.specs.Slots.{is_sign, bits_of, joined, added, items, listed};

use crate::left::Left;
use crate::operands::Operand;

fn is_sign(mark: u8, operand: &Operand<'_>) -> bool
    ensures { result ≡ is_sign mark (view operand.now) }
{
    match operand {
        Operand::Sign(sign) => mark == *sign,
        _ => false,
    }
}

fn bit(register: u32) -> u32
    requires { register ≤ 8 }
    ensures { result ≡ 2 ^ register }
{
    1 << register
}

/// The bits of the registers from the least to the greatest, both included.
#[tactic(auto, using(std::proofs::lemmas::Nat::pow_below))]
fn range_bits(least: u32, most: u32) -> u32
    requires order { least < most }
    requires low { most < 8 }
    ensures { result ≡ 2 ^ (most + 1) - 2 ^ least }
{
    bit(most + 1) - bit(least)
}

/// The bits of a register or a range of registers. `extra` is the register that the list may have besides r0 to r7: it is bit 8.
fn bits_of(extra: Option<u32>, item: &Operand<'_>) -> Option<u32>
    ensures { result ≡ bits_of extra (view item.now) }
{
    match item {
        Operand::Register(register) => {
            if *register < 8 {
                return Some(1 << *register);
            }
            match extra {
                Some(other) => { if other == *register { Some(256) } else { None } }
                None => None,
            }
        }
        Operand::Range(least, most) => {
            if *least < *most && *most < 8 {
                Some(range_bits(*least, *most))
            } else {
                None
            }
        }
        _ => None,
    }
}

/// The list with more bits. None where it already has one of them.
fn joined(list: u32, bits: u32) -> Option<u32>
    ensures { result ≡ joined list bits }
{
    if list & bits == 0 {
        Some(list | bits)
    } else {
        None
    }
}

/// The list with one more item. None where it isn't a register or range, or is already in the list.
fn added(extra: Option<u32>, list: u32, item: &Operand<'_>) -> Option<u32>
    ensures { result ≡ added extra list (view item.now) }
{
    match bits_of(extra, item) {
        Some(bits) => joined(list, bits),
        None => None,
    }
}

/// The list with the items up to the closing brace, and the operands after the brace.
fn items<'a, 'r>(
    extra: Option<u32>,
    list: u32,
    operands: Left<'a, 'r>,
) -> Option<(u32, Left<'a, 'r>)>
    ensures { option_map (λ r. (r.0, left r.1)) result ≡ items extra list (left operands.entry) }
{
    match operands.next() {
        None => None,
        Some((item, after_item)) => match after_item.next() {
            None => None,
            Some((sign, after)) => match added(extra, list, &item) {
                None => None,
                Some(more) => {
                    if is_sign(b',', &sign) {
                        items(extra, more, after)
                    } else if is_sign(b'}', &sign) {
                        Some((more, after))
                    } else {
                        None
                    }
                }
            },
        },
    }
}

/// A list in braces, which may have the register `extra` besides r0 to r7, and the operands after it.
pub fn listed<'a, 'r>(extra: Option<u32>, operands: Left<'a, 'r>) -> Option<(u32, Left<'a, 'r>)>
    ensures { option_map (λ r. (r.0, left r.1)) result ≡ listed extra (left operands.entry) }
{
    match operands.next() {
        None => None,
        Some((sign, after)) => {
            if is_sign(b'{', &sign) {
                items(extra, 0, after)
            } else {
                None
            }
        }
    }
}
