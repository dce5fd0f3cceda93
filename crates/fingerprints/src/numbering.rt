//! The sequence of a number over a given list of instructions, as tables of outcomes number them.
ghost use Rattle.std.specs.Prelude.{◌≡◌, ◌≤◌, ◌<◌, length, slice_get};
ghost use Rattle.seq_enum.specs.Alphabet.{sequences_of};

use seq_enum::instrs_at;
use thumb_instr::{Instr, Seq};

/// The sequence of a number: None exactly where the number is of a sequence longer than five instructions.
pub(crate) fn sequence_of(alphabet: &[Instr], number: u64) -> Option<Seq>
    requires some { 0 < length alphabet.now }
    requires few { length alphabet.now ≤ 1952 }
    ensures { result ≡ slice_get (sequences_of alphabet.now) number }
{
    let size = alphabet.len() as u64;
    let mut left = number;
    for n in 0..6u32 {
        let count = size.pow(n);
        if left < count {
            return Seq::from_slice(instrs_at(alphabet, n, left).as_slice());
        }
        left -= count;
    }
    None
}
