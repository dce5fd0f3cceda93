//! What is proved of encoding and decoding together, as functions' contracts.
ghost use Rattle.std.specs.Prelude.{◌≡◌, Some};
ghost use Rattle.thumb_table.specs.Decoding.{AreApart};

use crate::code::{decode, encode};
use crate::row::Code;
use thumb_instr::Instr;

/// An instruction's code is decoded as that instruction, whatever halfword follows a code of one halfword.
#[tactic(auto, using(crate::proofs::Codes::code_encodes))]
pub fn decoding_reads_back(instr: &Instr, following: u16) -> Option<Instr>
    ensures { result ≡ Some instr.now }
{
    match encode(instr) {
        Code::One(first) => decode(first, following),
        Code::Two(first, second) => decode(first, second),
    }
}

/// No halfword, or pair of halfwords, agrees with two rows.
#[tactic(auto, using(crate::proofs::Apart::one_row))]
pub fn rows_are_apart()
    ensures { AreApart }
{}
