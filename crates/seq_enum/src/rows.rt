//! The order of the rows, the kinds of instructions, in one list: the numbers in a table depend on it.
ghost use Rattle.std.specs.Prelude.{◌≡◌, ◌<◌, length, IfSome, IsSome, All};
ghost use Rattle.seq_enum.specs.Places.{rank};
ghost use Rattle.seq_enum.specs.Alphabet.{rows};

use thumb_instr::{ByteOperation, Extension, Kind, Operation, Reversal, Right, SumOperation};

static ROWS: [Kind; 37] = [
    Kind::Three(SumOperation::Add),
    Kind::Three(SumOperation::Sub),
    Kind::ThreeNumber(SumOperation::Add),
    Kind::ThreeNumber(SumOperation::Sub),
    Kind::TwoNumber(ByteOperation::Mov),
    Kind::TwoNumber(ByteOperation::Cmp),
    Kind::TwoNumber(ByteOperation::Add),
    Kind::TwoNumber(ByteOperation::Sub),
    Kind::ShiftLeft,
    Kind::ShiftRight(Right::Lsr),
    Kind::ShiftRight(Right::Asr),
    Kind::Two(Operation::And),
    Kind::Two(Operation::Eor),
    Kind::Two(Operation::Lsl),
    Kind::Two(Operation::Lsr),
    Kind::Two(Operation::Asr),
    Kind::Two(Operation::Adc),
    Kind::Two(Operation::Sbc),
    Kind::Two(Operation::Ror),
    Kind::Two(Operation::Tst),
    Kind::Two(Operation::Rsb),
    Kind::Two(Operation::Cmp),
    Kind::Two(Operation::Cmn),
    Kind::Two(Operation::Orr),
    Kind::Two(Operation::Mul),
    Kind::Two(Operation::Bic),
    Kind::Two(Operation::Mvn),
    Kind::Movs,
    Kind::Mov,
    Kind::Add,
    Kind::Extend(Extension::Sxth),
    Kind::Extend(Extension::Sxtb),
    Kind::Extend(Extension::Uxth),
    Kind::Extend(Extension::Uxtb),
    Kind::Reverse(Reversal::Rev),
    Kind::Reverse(Reversal::Rev16),
    Kind::Reverse(Reversal::Revsh),
];

/// The kinds of instructions in an alphabet, in order.
#[tactic(auto, unfolding(crate::specs::Alphabet::rows), using(crate::proofs::Mnemonics::rows_listed))]
pub(crate) fn rows() -> &'static [Kind]
    ensures value { result.now ≡ rows }
    ensures len { length result.now ≡ 37 }
    ensures listed { All (λ t. IsSome (rank t)) result.now }
{
    &ROWS
}

/// The place of a kind among the 37 kinds of instructions in alphabets, from 0; None for any other kind.
pub fn rank(kind: Kind) -> Option<usize>
    ensures value { result ≡ rank kind }
    ensures within { IfSome result (λ i. i < 37) }
{
    match kind {
        Kind::Three(sum) => Some(sum as usize),
        Kind::ThreeNumber(sum) => Some(2 + sum as usize),
        Kind::TwoNumber(operation) => Some(4 + operation as usize),
        Kind::ShiftLeft => Some(8),
        Kind::ShiftRight(shift) => Some(9 + shift as usize),
        Kind::Two(operation) => Some(11 + operation as usize),
        Kind::Movs => Some(27),
        Kind::Mov => Some(28),
        Kind::Add => Some(29),
        Kind::Extend(extension) => Some(30 + extension as usize),
        Kind::Reverse(reversal) => Some(34 + reversal as usize),
        _ => None,
    }
}
