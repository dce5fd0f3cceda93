//! Words of 32 bits, lowest first, for which no gate is needed: constants, complements, extensions, reversals, and shifts by a known amount.
ghost use Rattle.std.specs.Prelude.{◌≡◌, ◌<◌, ◌≤◌, ◌+◌, ◌++◌, length};
ghost use Rattle.bit_blast.specs.Words.{filled, constant, inverted, fill, moved, moved_out, extended, turned};

use cnf_gates::Bit;
use thumb_instr::{Extension, Reversal};
use word_bits::Shift;

/// 32 bits, the lowest first.
pub type BitVector = [Bit; 32];

/// The same bit at each place.
pub fn filled(bit: &Bit) -> BitVector
    ensures { result ≡ filled bit.now }
{
    [*bit; 32]
}

/// The bits of a number.
pub fn constant(number: u32) -> BitVector
    ensures { result ≡ constant number }
{
    let mut bits = [Bit::Constant(false); 32];
    let mut rest = number;
    for i in 0..32 {
        bits[i] = Bit::Constant(rest % 2 == 1);
        rest /= 2;
    }
    bits
}

/// The complement of each bit.
pub fn inverted(x: &BitVector) -> BitVector
    ensures { result ≡ inverted x.now }
{
    let mut bits = [Bit::Constant(false); 32];
    for i in 0..32 {
        bits[i] = x[i].not();
    }
    bits
}

/// A copy of the word.
pub fn copied(x: &BitVector) -> BitVector
    ensures { result ≡ x.now }
{
    let mut bits = [Bit::Constant(false); 32];
    for i in 0..32 {
        bits[i] = x[i];
    }
    bits
}

/// The word with these lower and upper bits.
fn joined(low: &[Bit], high: &[Bit]) -> BitVector
    requires { length low.now + length high.now ≡ 32 }
    ensures { result ≡ low.now ++ high.now }
{
    let mut word = [Bit::Constant(false); 32];
    for i in 0..32 {
        word[i] = if i < low.len() {
            low[i]
        } else {
            high[i - low.len()]
        };
    }
    word
}

/// The bit that a shift fills with: the highest bit for ASR, and otherwise False.
pub fn fill(kind: Shift, x: &BitVector) -> Bit
    ensures { result ≡ fill kind x.now }
{
    match kind {
        Shift::Asr => x[31],
        _ => Bit::Constant(false),
    }
}

/// The word shifted or rotated by `n` places, at most 32.
pub fn moved(kind: Shift, n: usize, x: &BitVector) -> BitVector
    requires { n ≤ 32 }
    ensures { result ≡ moved kind n x.now }
{
    let rest = filled(&fill(kind, x));
    let rest = &rest[..];
    let bits = &x[..];
    match kind {
        Shift::Lsl => joined(&rest[..n], &bits[..32 - n]),
        Shift::Lsr => joined(&bits[n..], &rest[..n]),
        Shift::Asr => joined(&bits[n..], &rest[..n]),
        Shift::Ror => joined(&bits[n..], &bits[..n]),
    }
}

/// The last bit that a shift by `n` places, from 1 to 32, moves out.
pub fn moved_out(kind: Shift, n: usize, x: &BitVector) -> Bit
    requires some { 0 < n }
    requires within { n ≤ 32 }
    ensures { result ≡ moved_out kind n x.now }
{
    match kind {
        Shift::Lsl => x[32 - n],
        _ => x[n - 1],
    }
}

/// A byte or a halfword, extended to a word.
pub fn extended(extension: Extension, x: &BitVector) -> BitVector
    ensures { result ≡ extended extension x.now }
{
    match extension {
        Extension::Sxth => joined(&x[..16], &[x[15]; 16]),
        Extension::Sxtb => joined(&x[..8], &[x[7]; 24]),
        Extension::Uxth => joined(&x[..16], &[Bit::Constant(false); 16]),
        Extension::Uxtb => joined(&x[..8], &[Bit::Constant(false); 24]),
    }
}

/// REV, REV16 or REVSH: the bytes reordered, and for REVSH the sign extended.
pub fn turned(reversal: Reversal, x: &BitVector) -> BitVector
    ensures { result ≡ turned reversal x.now }
{
    let bits = &x[..];
    let (first, second) = (&bits[..8], &bits[8..16]);
    let (third, fourth) = (&bits[16..24], &bits[24..]);
    let sign = &[x[7]; 8];
    match reversal {
        Reversal::Rev => of_bytes(fourth, third, second, first),
        Reversal::Rev16 => of_bytes(second, first, fourth, third),
        Reversal::Revsh => of_bytes(second, first, sign, sign),
    }
}

/// A word of four bytes, the lowest first.
fn of_bytes(a: &[Bit], b: &[Bit], c: &[Bit], d: &[Bit]) -> BitVector
    requires a { length a.now ≡ 8 }
    requires b { length b.now ≡ 8 }
    requires c { length c.now ≡ 8 }
    requires d { length d.now ≡ 8 }
    ensures { result ≡ a.now ++ b.now ++ c.now ++ d.now }
{
    let mut word = [Bit::Constant(false); 32];
    for i in 0..32 {
        word[i] = match i / 8 {
            0 => a[i % 8],
            1 => b[i % 8],
            2 => c[i % 8],
            _ => d[i % 8],
        };
    }
    word
}
