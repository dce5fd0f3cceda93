//! Encodes instructions and decodes halfwords, both by the rows of `table`.
ghost use Rattle.std.specs.Prelude.{◌≡◌, ◌+◌, ◌*◌, ◌^◌, ◌==◌, ◌<◌, ◌≤◌, Some, IfSome, IfNone, if◌then◌else◌};
ghost use Rattle.thumb_instr.specs.declared.instr.Instr.{Instr};
ghost use Rattle.thumb_table.specs.Table.{width, packed, pieces, Encodes};
ghost use Rattle.thumb_table.specs.Decoding.{begins_with, halfwords, whole_of, read_parts, IsCode, IsNoCode, IsNotOf};

use crate::bits::{agrees, packed, read, width};
use crate::row::{Code, OperandPosition, Piece};
use crate::table::{kinds_at, pieces};
use thumb_instr::{Instr, Kind, Parts, parts, rebuilt};

/// The code of an instruction, by its kind's row.
#[tactic(auto, using(crate::proofs::Apart::width_most, crate::proofs::Apart::narrow, crate::proofs::Apart::packed_half, crate::proofs::Apart::width_long))]
fn coded(parts: &Parts) -> Code
    ensures long { width (pieces parts.now.kind) ≡ 16 * halfwords result }
    ensures is { packed (pieces parts.now.kind) parts.now ≡ whole_of result }
{
    let row = pieces(parts.kind);
    let wide = width(row);
    let number = packed(row, wide, parts);
    if wide == 16 {
        Code::One(number as u16)
    } else {
        Code::Two((number >> 16) as u16, (number & 65535) as u16)
    }
}

/// The code of an instruction.
pub fn encode(instr: &Instr) -> Code
    ensures { IsCode instr.now result }
{
    coded(&parts(instr))
}

/// Whether a first halfword has the row's leading fixed bits: a quick test before the whole row is compared.
fn begins_with(row: &[Piece], first: u16) -> bool
    ensures { result ≡ begins_with row.now first }
{
    match row {
        [Piece::Fixed(width, bits), ..] => *width > 16 || first as u32 >> (16 - *width) == *bits,
        _ => true,
    }
}

/// The code in two halfwords by a row, whose width in bits is `wide`: a row of 16 bits has only the first halfword.
fn whole(wide: u32, first: u16, second: u16) -> u32
    ensures { result ≡ (if wide == 16 then first else first * 65536 + second) }
{
    if wide == 16 {
        first as u32
    } else {
        ((first as u32) << 16) + second as u32
    }
}

/// The registers and numbers that a code holds by a kind's row.
#[tactic(auto, using(crate::proofs::Apart::narrow, crate::proofs::Apart::most_small))]
fn read_parts(kind: Kind, row: &[Piece], wide: u32, code: u32) -> Parts
    requires row { row.now ≡ pieces kind }
    requires wide { wide ≡ width row.now }
    requires long { wide ≤ 32 }
    requires below { code < 2 ^ wide }
    ensures { result ≡ read_parts kind code }
{
    Parts {
        kind,
        first: read(OperandPosition::First, row, wide, code),
        second: read(OperandPosition::Second, row, wide, code),
        third: read(OperandPosition::Third, row, wide, code),
    }
}

/// The instruction of this kind that two halfwords encode, if any.
#[tactic(auto, using(crate::proofs::Apart::width_most, crate::proofs::Apart::narrow, crate::proofs::Apart::whole_word, crate::proofs::Codes::unbegun_is_not, crate::proofs::Codes::unlike_is_not, crate::proofs::Codes::unmade_is_not, crate::proofs::Codes::made_encodes, crate::proofs::Codes::other_is_not))]
fn read_as(kind: Kind, first: u16, second: u16) -> Option<Instr>
    ensures some { IfSome result (λ i. Encodes i first second) }
    ensures none { IfNone result (IsNotOf kind first second) }
{
    let row = pieces(kind);
    if !begins_with(row, first) {
        return None;
    }
    let wide = width(row);
    let code = whole(wide, first, second);
    if !agrees(row, wide, code) {
        return None;
    }
    let found = read_parts(kind, row, wide, code);
    match rebuilt(&found) {
        None => None,
        Some(instr) => {
            if packed(row, wide, &found) == code {
                Some(instr)
            } else {
                None
            }
        }
    }
}

/// The instruction that two halfwords encode, if any. Where the first alone is a code, the second is ignored.
pub fn decode(first: u16, second: u16) -> Option<Instr>
    ensures some { IfSome result (λ i. Encodes i first second) }
    ensures none { IfNone result (IsNoCode first second) }
    ensures exact { (i : Instr) → Encodes i first second → result ≡ Some i }
{
    for kind in kinds_at(first as u32 >> 12) {
        if let Some(instr) = read_as(*kind, first, second) {
            return Some(instr);
        }
    }
    None
}
