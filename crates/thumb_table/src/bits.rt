//! Packs instructions into codes by rows of bits, and unpacks them. That these are inverse is proved here once, for every row.
ghost use Rattle.std.specs.Prelude.{◌≡◌, ◌+◌, ◌%◌, ◌<◌, ◌≤◌, ◌^◌, true, if◌then◌else◌};
ghost use Rattle.thumb_table.specs.Table.{width_of, width, number, same, value_of, packed};
ghost use Rattle.thumb_table.specs.ReadBits.{holds, agrees, is_operand, is_about, told, read_on, is_narrow, are_narrow, most_of, most};

use crate::row::{OperandPosition, Piece};
use thumb_instr::Parts;

/// How many bits a piece has.
fn width_of(piece: &Piece) -> u32
    ensures { result ≡ width_of piece.now }
{
    match *piece {
        Piece::Fixed(width, _) => width,
        Piece::Bits(width, _, _, _) => width,
        Piece::Amount(width, _) => width,
        Piece::Same(_, _, _) => 1,
    }
}

/// How many bits a row has.
pub fn width(pieces: &[Piece]) -> u32
    requires { width pieces.now ≤ 32 }
    ensures { result ≡ width pieces.now }
{
    let mut sum = 0;
    for piece in pieces {
        sum += width_of(piece);
    }
    sum
}

/// Whether a piece can hold a number.
fn holds(piece: &Piece, value: u64) -> bool
    ensures { result ≡ holds piece.now value }
{
    match *piece {
        Piece::Fixed(_, bits) => value == bits as u64,
        Piece::Bits(_, _, _, least) => least as u64 <= value,
        _ => true,
    }
}

/// The lowest bits of a number.
fn lowest(number: u64, bits: u32) -> u64
    requires { bits ≤ 32 }
    ensures is { result ≡ number % 2 ^ bits }
    ensures below { result < 2 ^ bits }
{
    number % (1 << bits)
}

/// Whether a number agrees with a row, whose width in bits is `wide`: it has the row's fixed bits and least values.
#[tactic(auto, unfolding(crate::specs::ReadBits::agrees))]
pub fn agrees(pieces: &[Piece], wide: u32, code: u32) -> bool
    requires wide { wide ≡ width pieces.now }
    requires long { wide ≤ 32 }
    ensures { result ≡ agrees pieces.now code }
{
    let mut left = wide;
    let mut rest = code as u64;
    for piece in pieces {
        left -= width_of(piece);
        if !holds(piece, rest >> left) {
            return false;
        }
        rest = lowest(rest, left);
    }
    true
}

/// A register or number of an instruction.
fn number(operand: OperandPosition, parts: &Parts) -> u32
    ensures { result ≡ number operand parts.now }
{
    match operand {
        OperandPosition::First => parts.first,
        OperandPosition::Second => parts.second,
        OperandPosition::Third => parts.third,
    }
}

/// 1 where two bits are equal.
fn same(a: u64, b: u64) -> u64
    ensures value { result ≡ same a b }
    ensures bit { result ≤ 1 }
{
    if a == b { 1 } else { 0 }
}

/// The value of a piece in the code of an instruction.
fn value_of(piece: &Piece, parts: &Parts) -> u64
    requires narrow { is_narrow piece.now ≡ true }
    ensures value { result ≡ value_of piece.now parts.now }
    ensures below { result < 2 ^ width_of piece.now }
{
    match *piece {
        Piece::Fixed(_, bits) => bits as u64,
        Piece::Bits(width, operand, from, _) => (number(operand, parts) as u64 >> from)
            % (1 << width),
        Piece::Amount(width, operand) => number(operand, parts) as u64 % (1 << width),
        Piece::Same(operand, bit, other) => {
            let number = number(operand, parts) as u64;
            same((number >> bit) % 2, (number >> other) % 2)
        }
    }
}

/// The code of an instruction by a row, whose width in bits is `wide`.
#[tactic(auto, using(crate::proofs::Rows::packed_word), unfolding(crate::specs::Table::packed, crate::specs::ReadBits::are_narrow))]
pub fn packed(pieces: &[Piece], wide: u32, parts: &Parts) -> u32
    requires wide { wide ≡ width pieces.now }
    requires long { wide ≤ 32 }
    requires narrow { are_narrow pieces.now ≡ true }
    ensures { result ≡ packed pieces.now parts.now }
{
    let mut left = wide;
    let mut code = 0u64;
    for piece in pieces {
        left -= width_of(piece);
        code += value_of(piece, parts) << left;
    }
    code as u32
}

/// Whether a piece holds bits of this register or number.
fn is_about(operand: OperandPosition, piece: &Piece) -> bool
    ensures { result ≡ is_about operand piece.now }
{
    match *piece {
        Piece::Fixed(_, _) => false,
        Piece::Bits(_, other, _, _) => is_operand(operand, other),
        Piece::Amount(_, other) => is_operand(operand, other),
        Piece::Same(other, _, _) => is_operand(operand, other),
    }
}

fn is_operand(one: OperandPosition, other: OperandPosition) -> bool
    ensures { result ≡ is_operand one other }
{
    match (one, other) {
        (OperandPosition::First, OperandPosition::First) => true,
        (OperandPosition::Second, OperandPosition::Second) => true,
        (OperandPosition::Third, OperandPosition::Third) => true,
        _ => false,
    }
}

/// A register or number so far, after a piece with this value; `known` is what earlier pieces gave.
fn told(operand: OperandPosition, piece: &Piece, value: u64, known: u64) -> u64
    requires narrow { is_narrow piece.now ≡ true }
    requires value { value < 2 ^ width_of piece.now }
    requires known { known < 2 ^ 32 }
    ensures told { result ≡ (if is_about operand piece.now then told piece.now value known else known) }
    ensures most { result ≤ known + most_of piece.now }
{
    if !is_about(operand, piece) {
        return known;
    }
    match *piece {
        Piece::Fixed(_, _) => known,
        Piece::Bits(_, _, from, _) => known + (value << from),
        Piece::Amount(width, _) => known + if value == 0 { 1 << width } else { value },
        Piece::Same(_, bit, other) => known + (same(value, (known >> other) % 2) << bit),
    }
}

/// The register or number in a code by a row, whose width in bits is `wide`.
#[tactic(auto, unfolding(crate::specs::ReadBits::read_on, crate::specs::ReadBits::are_narrow))]
pub fn read(operand: OperandPosition, pieces: &[Piece], wide: u32, code: u32) -> u32
    requires wide { wide ≡ width pieces.now }
    requires long { wide ≤ 32 }
    requires narrow { are_narrow pieces.now ≡ true }
    requires most { most pieces.now < 2 ^ 32 }
    requires below { code < 2 ^ wide }
    ensures { result ≡ read_on operand pieces.now code 0 }
{
    let mut left = wide;
    let mut rest = code as u64;
    let mut known = 0u64;
    for piece in pieces {
        left -= width_of(piece);
        known = told(operand, piece, rest >> left, known);
        rest = lowest(rest, left);
    }
    known as u32
}
