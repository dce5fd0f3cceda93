//! Hashes of instruction sequences that ignore registers: the index rejects most windows by them, before anything is renamed.
ghost use Rattle.std.specs.Prelude.{◌≡◌, ◌<◌, ◌≤◌, length, map};
ghost use Rattle.window_rewrite.specs.Hashes.{blind, head_number, next_hash, number_in, seen, hash_of};

use seq_enum::rank;
use thumb_instr::{Byte, Instr, Seq, normal, parts};

/// How many values a hash of a sequence can have.
pub(crate) const HASHES: usize = 65_536;

/// The number that stands in an instruction of windows beside its registers, or 0.
fn number_in(instr: &Instr) -> usize
    ensures value { result ≡ number_in instr.now }
    ensures small { result < 256 }
{
    match *instr {
        Instr::ShiftLeft { amount, .. } => amount.number as usize,
        Instr::ShiftRight { amount, .. } => amount.number as usize,
        Instr::ThreeNumber { number, .. } => number.number as usize,
        Instr::TwoNumber { number, .. } => number.number as usize,
        _ => 0,
    }
}

/// The number of one instruction of windows: different for each mnemonic and each number that stands in it.
fn head_number(instr: &Instr) -> usize
    ensures value { result ≡ head_number instr.now }
    ensures small { result < 9472 }
{
    37 * number_in(instr) + rank(parts(instr).kind).unwrap_or(0)
}

/// The hash of instructions and one more after them, from the hash of the former.
pub(crate) fn next_hash(hash: usize, instr: &Instr) -> usize
    requires { hash < 65536 }
    ensures value { result ≡ next_hash hash instr.now }
    ensures small { result < 65536 }
{
    (hash * 1283 + head_number(instr)) % HASHES
}

/// `movs`, `cmp`, `adds` and `subs` with 0 for their 8-bit number, and other instructions as they are.
fn blind(instr: &Instr) -> Instr
    ensures { result ≡ blind instr.now }
{
    match *instr {
        Instr::TwoNumber {
            operation,
            target,
            ..
        } => Instr::TwoNumber {
            operation,
            target,
            number: Byte::of(0),
        },
        _ => *instr,
    }
}

/// Instructions with 0 for their 8-bit numbers.
pub(crate) fn blind_all(instrs: &[Instr]) -> Seq
    requires { length instrs.now ≤ 5 }
    ensures { result ≡ map blind instrs.now }
{
    let mut seq = Seq::new();
    for instr in instrs {
        seq.push(blind(instr));
    }
    seq
}

/// An instruction in its normal form; if `hidden`, with 0 for its 8-bit number.
pub(crate) fn seen(hidden: bool, instr: Instr) -> Instr
    ensures { result ≡ seen hidden instr }
{
    if hidden {
        blind(&normal(instr))
    } else {
        normal(instr)
    }
}

/// The hash of a window's instructions, each in its normal form; if `hidden`, with 0 for its 8-bit number.
pub(crate) fn hash_of(hidden: bool, window: &[Instr]) -> usize
    ensures value { result ≡ hash_of (map (seen hidden) window.now) }
    ensures small { result < 65536 }
{
    let mut hash = 0;
    for instr in window {
        hash = next_hash(hash, &seen(hidden, *instr));
    }
    hash
}
