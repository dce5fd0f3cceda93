//! The manual's encodings as rows, one for each kind of instruction: its fixed bits, and where its registers and numbers lie. Encoding and decoding use the
//! same rows, so neither can differ from the other.
ghost use Rattle.std.specs.Prelude.{◌≡◌, ◌<◌};
ghost use Rattle.thumb_instr.specs.declared.kind.Kind.TheVariants.{Two, BranchIf};
ghost use Rattle.thumb_table.specs.Table.{pieces};
ghost use Rattle.thumb_table.specs.Kinds.{kinds_at};

use crate::row::OperandPosition::{First, Second, Third};
use crate::row::Piece::{self, Amount, Bits, Fixed, Same};
use thumb_instr::{
    Access, Barrier, ByteOperation, Condition, Extension, HintOperation, Interrupts, Kind,
    OffsetAccess, Operation, Reversal, Right, Special, SumOperation, WordAccess,
};

/// A low register that is the first operand of its instruction's text.
const FIRST: Piece = Bits(3, First, 0, 0);

/// A low register that is the second.
const SECOND: Piece = Bits(3, Second, 0, 0);

/// A low register that is the third.
const THIRD: Piece = Bits(3, Third, 0, 0);

/// The highest bit of the first register, where the encoding keeps it apart from the others.
const HIGH: Piece = Bits(1, First, 3, 0);

/// A number or a list of eight bits that is the second.
const NUMBER: Piece = Bits(8, Second, 0, 0);

/// An offset of five bits that is the third.
const OFFSET: Piece = Bits(5, Third, 0, 0);

/// The kinds whose codes begin with these four bits.
#[tactic(auto, unfolding(crate::specs::Kinds::kinds))]
pub fn kinds_at(upper: u32) -> &'static [Kind]
    requires { upper < 16 }
    ensures { result.now ≡ kinds_at upper }
{
    match upper {
        0 => &[Kind::Movs, Kind::ShiftLeft, Kind::ShiftRight(Right::Lsr)],
        1 => &[
            Kind::ShiftRight(Right::Asr),
            Kind::Three(SumOperation::Add),
            Kind::Three(SumOperation::Sub),
            Kind::ThreeNumber(SumOperation::Add),
            Kind::ThreeNumber(SumOperation::Sub),
        ],
        2 => &[
            Kind::TwoNumber(ByteOperation::Mov),
            Kind::TwoNumber(ByteOperation::Cmp),
        ],
        3 => &[
            Kind::TwoNumber(ByteOperation::Add),
            Kind::TwoNumber(ByteOperation::Sub),
        ],
        4 => &[
            Kind::Two(Operation::And),
            Kind::Two(Operation::Eor),
            Kind::Two(Operation::Lsl),
            Kind::Two(Operation::Lsr),
            Kind::Two(Operation::Asr),
            Kind::Two(Operation::Adc),
            Kind::Two(Operation::Sbc),
            Kind::Two(Operation::Ror),
            Kind::Two(Operation::Tst),
            Kind::Two(Operation::Rsb),
            Kind::Two(Operation::Cmp),
            Kind::Two(Operation::Cmn),
            Kind::Two(Operation::Orr),
            Kind::Two(Operation::Mul),
            Kind::Two(Operation::Bic),
            Kind::Two(Operation::Mvn),
            Kind::Add,
            Kind::Compare,
            Kind::Mov,
            Kind::Bx,
            Kind::Blx,
            Kind::Literal,
        ],
        5 => &[
            Kind::Indexed(Access::Str),
            Kind::Indexed(Access::Strh),
            Kind::Indexed(Access::Strb),
            Kind::Indexed(Access::Ldrsb),
            Kind::Indexed(Access::Ldr),
            Kind::Indexed(Access::Ldrh),
            Kind::Indexed(Access::Ldrb),
            Kind::Indexed(Access::Ldrsh),
        ],
        6 => &[
            Kind::Offset(OffsetAccess::Str),
            Kind::Offset(OffsetAccess::Ldr),
        ],
        7 => &[
            Kind::Offset(OffsetAccess::Strb),
            Kind::Offset(OffsetAccess::Ldrb),
        ],
        8 => &[
            Kind::Offset(OffsetAccess::Strh),
            Kind::Offset(OffsetAccess::Ldrh),
        ],
        9 => &[Kind::Stack(WordAccess::Str), Kind::Stack(WordAccess::Ldr)],
        10 => &[Kind::Address, Kind::StackAddress],
        11 => &[
            Kind::StackMove(SumOperation::Add),
            Kind::StackMove(SumOperation::Sub),
            Kind::Extend(Extension::Sxth),
            Kind::Extend(Extension::Sxtb),
            Kind::Extend(Extension::Uxth),
            Kind::Extend(Extension::Uxtb),
            Kind::Push,
            Kind::ChangeState(Interrupts::Enable),
            Kind::ChangeState(Interrupts::Disable),
            Kind::Reverse(Reversal::Rev),
            Kind::Reverse(Reversal::Rev16),
            Kind::Reverse(Reversal::Revsh),
            Kind::Pop,
            Kind::Breakpoint,
            Kind::Hint(HintOperation::Nop),
            Kind::Hint(HintOperation::Yield),
            Kind::Hint(HintOperation::Wfe),
            Kind::Hint(HintOperation::Wfi),
            Kind::Hint(HintOperation::Sev),
        ],
        12 => &[Kind::StoreMany, Kind::LoadMany],
        13 => &[
            Kind::BranchIf(Condition::Eq),
            Kind::BranchIf(Condition::Ne),
            Kind::BranchIf(Condition::Cs),
            Kind::BranchIf(Condition::Cc),
            Kind::BranchIf(Condition::Mi),
            Kind::BranchIf(Condition::Pl),
            Kind::BranchIf(Condition::Vs),
            Kind::BranchIf(Condition::Vc),
            Kind::BranchIf(Condition::Hi),
            Kind::BranchIf(Condition::Ls),
            Kind::BranchIf(Condition::Ge),
            Kind::BranchIf(Condition::Lt),
            Kind::BranchIf(Condition::Gt),
            Kind::BranchIf(Condition::Le),
            Kind::Service,
        ],
        14 => &[Kind::Branch],
        _ => &[
            Kind::Call,
            Kind::Barrier(Barrier::Dsb),
            Kind::Barrier(Barrier::Dmb),
            Kind::Barrier(Barrier::Isb),
            Kind::ReadSpecial(Special::Primask),
            Kind::ReadSpecial(Special::Ipsr),
            Kind::WriteMask,
        ],
    }
}

/// A row of the table: its pieces from the highest bit.
struct Row {
    pieces: &'static [Piece],
}

/// A row of these pieces.
macro_rules! row {
    ($($piece:expr),+) => {
        &Row { pieces: &[$($piece),+] }
    };
}

/// The row of an operation on two low registers.
#[tactic(auto, unfolding(crate::specs::Table::pieces))]
fn two_row(operation: Operation) -> &'static Row
    ensures { result.now.pieces.now ≡ pieces (Two operation) }
{
    match operation {
        Operation::And => row![Fixed(10, 0b010000_0000), SECOND, FIRST],
        Operation::Eor => row![Fixed(10, 0b010000_0001), SECOND, FIRST],
        Operation::Lsl => row![Fixed(10, 0b010000_0010), SECOND, FIRST],
        Operation::Lsr => row![Fixed(10, 0b010000_0011), SECOND, FIRST],
        Operation::Asr => row![Fixed(10, 0b010000_0100), SECOND, FIRST],
        Operation::Adc => row![Fixed(10, 0b010000_0101), SECOND, FIRST],
        Operation::Sbc => row![Fixed(10, 0b010000_0110), SECOND, FIRST],
        Operation::Ror => row![Fixed(10, 0b010000_0111), SECOND, FIRST],
        Operation::Tst => row![Fixed(10, 0b010000_1000), SECOND, FIRST],
        Operation::Rsb => row![Fixed(10, 0b010000_1001), SECOND, FIRST],
        Operation::Cmp => row![Fixed(10, 0b010000_1010), SECOND, FIRST],
        Operation::Cmn => row![Fixed(10, 0b010000_1011), SECOND, FIRST],
        Operation::Orr => row![Fixed(10, 0b010000_1100), SECOND, FIRST],
        Operation::Mul => row![Fixed(10, 0b010000_1101), SECOND, FIRST],
        Operation::Bic => row![Fixed(10, 0b010000_1110), SECOND, FIRST],
        Operation::Mvn => row![Fixed(10, 0b010000_1111), SECOND, FIRST],
    }
}

/// The row of a branch on a condition.
#[tactic(auto, unfolding(crate::specs::Table::pieces))]
fn branch_row(condition: Condition) -> &'static Row
    ensures { result.now.pieces.now ≡ pieces (BranchIf condition) }
{
    match condition {
        Condition::Eq => row![Fixed(8, 0b1101_0000), Bits(8, First, 0, 0)],
        Condition::Ne => row![Fixed(8, 0b1101_0001), Bits(8, First, 0, 0)],
        Condition::Cs => row![Fixed(8, 0b1101_0010), Bits(8, First, 0, 0)],
        Condition::Cc => row![Fixed(8, 0b1101_0011), Bits(8, First, 0, 0)],
        Condition::Mi => row![Fixed(8, 0b1101_0100), Bits(8, First, 0, 0)],
        Condition::Pl => row![Fixed(8, 0b1101_0101), Bits(8, First, 0, 0)],
        Condition::Vs => row![Fixed(8, 0b1101_0110), Bits(8, First, 0, 0)],
        Condition::Vc => row![Fixed(8, 0b1101_0111), Bits(8, First, 0, 0)],
        Condition::Hi => row![Fixed(8, 0b1101_1000), Bits(8, First, 0, 0)],
        Condition::Ls => row![Fixed(8, 0b1101_1001), Bits(8, First, 0, 0)],
        Condition::Ge => row![Fixed(8, 0b1101_1010), Bits(8, First, 0, 0)],
        Condition::Lt => row![Fixed(8, 0b1101_1011), Bits(8, First, 0, 0)],
        Condition::Gt => row![Fixed(8, 0b1101_1100), Bits(8, First, 0, 0)],
        Condition::Le => row![Fixed(8, 0b1101_1101), Bits(8, First, 0, 0)],
    }
}

/// The row of a kind.
#[tactic(auto, unfolding(crate::specs::Table::pieces))]
fn row_of(kind: Kind) -> &'static Row
    ensures { result.now.pieces.now ≡ pieces kind }
{
    match kind {
        Kind::Movs => row![Fixed(10, 0b0000000000), SECOND, FIRST],
        Kind::ShiftLeft => row![Fixed(5, 0b00000), Bits(5, Third, 0, 1), SECOND, FIRST],
        Kind::ShiftRight(Right::Lsr) => row![Fixed(5, 0b00001), Amount(5, Third), SECOND, FIRST],
        Kind::ShiftRight(Right::Asr) => row![Fixed(5, 0b00010), Amount(5, Third), SECOND, FIRST],
        Kind::Three(SumOperation::Add) => row![Fixed(7, 0b000110_0), THIRD, SECOND, FIRST],
        Kind::Three(SumOperation::Sub) => row![Fixed(7, 0b000110_1), THIRD, SECOND, FIRST],
        Kind::ThreeNumber(SumOperation::Add) => row![Fixed(7, 0b000111_0), THIRD, SECOND, FIRST],
        Kind::ThreeNumber(SumOperation::Sub) => row![Fixed(7, 0b000111_1), THIRD, SECOND, FIRST],
        Kind::TwoNumber(ByteOperation::Mov) => row![Fixed(5, 0b00100), FIRST, NUMBER],
        Kind::TwoNumber(ByteOperation::Cmp) => row![Fixed(5, 0b00101), FIRST, NUMBER],
        Kind::TwoNumber(ByteOperation::Add) => row![Fixed(5, 0b00110), FIRST, NUMBER],
        Kind::TwoNumber(ByteOperation::Sub) => row![Fixed(5, 0b00111), FIRST, NUMBER],
        Kind::Two(operation) => two_row(operation),
        Kind::Add => row![Fixed(8, 0b01000100), HIGH, Bits(4, Second, 0, 0), FIRST],
        Kind::Compare => row![Fixed(8, 0b01000101), HIGH, Bits(4, Second, 0, 0), FIRST],
        Kind::Mov => row![Fixed(8, 0b01000110), HIGH, Bits(4, Second, 0, 0), FIRST],
        Kind::Bx => row![Fixed(9, 0b010001110), Bits(4, First, 0, 0), Fixed(3, 0b000)],
        Kind::Blx => row![Fixed(9, 0b010001111), Bits(4, First, 0, 0), Fixed(3, 0b000)],
        Kind::Literal => row![Fixed(5, 0b01001), FIRST, NUMBER],
        Kind::Indexed(Access::Str) => row![Fixed(7, 0b0101_000), THIRD, SECOND, FIRST],
        Kind::Indexed(Access::Strh) => row![Fixed(7, 0b0101_001), THIRD, SECOND, FIRST],
        Kind::Indexed(Access::Strb) => row![Fixed(7, 0b0101_010), THIRD, SECOND, FIRST],
        Kind::Indexed(Access::Ldrsb) => row![Fixed(7, 0b0101_011), THIRD, SECOND, FIRST],
        Kind::Indexed(Access::Ldr) => row![Fixed(7, 0b0101_100), THIRD, SECOND, FIRST],
        Kind::Indexed(Access::Ldrh) => row![Fixed(7, 0b0101_101), THIRD, SECOND, FIRST],
        Kind::Indexed(Access::Ldrb) => row![Fixed(7, 0b0101_110), THIRD, SECOND, FIRST],
        Kind::Indexed(Access::Ldrsh) => row![Fixed(7, 0b0101_111), THIRD, SECOND, FIRST],
        Kind::Offset(OffsetAccess::Str) => row![Fixed(5, 0b01100), OFFSET, SECOND, FIRST],
        Kind::Offset(OffsetAccess::Ldr) => row![Fixed(5, 0b01101), OFFSET, SECOND, FIRST],
        Kind::Offset(OffsetAccess::Strb) => row![Fixed(5, 0b01110), OFFSET, SECOND, FIRST],
        Kind::Offset(OffsetAccess::Ldrb) => row![Fixed(5, 0b01111), OFFSET, SECOND, FIRST],
        Kind::Offset(OffsetAccess::Strh) => row![Fixed(5, 0b10000), OFFSET, SECOND, FIRST],
        Kind::Offset(OffsetAccess::Ldrh) => row![Fixed(5, 0b10001), OFFSET, SECOND, FIRST],
        Kind::Stack(WordAccess::Str) => row![Fixed(5, 0b10010), FIRST, NUMBER],
        Kind::Stack(WordAccess::Ldr) => row![Fixed(5, 0b10011), FIRST, NUMBER],
        Kind::Address => row![Fixed(5, 0b10100), FIRST, NUMBER],
        Kind::StackAddress => row![Fixed(5, 0b10101), FIRST, NUMBER],
        Kind::StackMove(SumOperation::Add) => row![Fixed(9, 0b10110000_0), Bits(7, First, 0, 0)],
        Kind::StackMove(SumOperation::Sub) => row![Fixed(9, 0b10110000_1), Bits(7, First, 0, 0)],
        Kind::Extend(Extension::Sxth) => row![Fixed(10, 0b10110010_00), SECOND, FIRST],
        Kind::Extend(Extension::Sxtb) => row![Fixed(10, 0b10110010_01), SECOND, FIRST],
        Kind::Extend(Extension::Uxth) => row![Fixed(10, 0b10110010_10), SECOND, FIRST],
        Kind::Extend(Extension::Uxtb) => row![Fixed(10, 0b10110010_11), SECOND, FIRST],
        Kind::Push => row![Fixed(7, 0b1011010), Bits(9, First, 0, 0)],
        Kind::ChangeState(Interrupts::Enable) => row![Fixed(16, 0b10110110011_0_0010)],
        Kind::ChangeState(Interrupts::Disable) => row![Fixed(16, 0b10110110011_1_0010)],
        Kind::Reverse(Reversal::Rev) => row![Fixed(10, 0b10111010_00), SECOND, FIRST],
        Kind::Reverse(Reversal::Rev16) => row![Fixed(10, 0b10111010_01), SECOND, FIRST],
        Kind::Reverse(Reversal::Revsh) => row![Fixed(10, 0b10111010_11), SECOND, FIRST],
        Kind::Pop => row![Fixed(7, 0b1011110), Bits(9, First, 0, 0)],
        Kind::Breakpoint => row![Fixed(8, 0b10111110), Bits(8, First, 0, 0)],
        Kind::Hint(HintOperation::Nop) => row![Fixed(16, 0b10111111_0000_0000)],
        Kind::Hint(HintOperation::Yield) => row![Fixed(16, 0b10111111_0001_0000)],
        Kind::Hint(HintOperation::Wfe) => row![Fixed(16, 0b10111111_0010_0000)],
        Kind::Hint(HintOperation::Wfi) => row![Fixed(16, 0b10111111_0011_0000)],
        Kind::Hint(HintOperation::Sev) => row![Fixed(16, 0b10111111_0100_0000)],
        Kind::StoreMany => row![Fixed(5, 0b11000), FIRST, NUMBER],
        Kind::LoadMany => row![Fixed(5, 0b11001), FIRST, NUMBER],
        Kind::BranchIf(condition) => branch_row(condition),
        Kind::Service => row![Fixed(8, 0b11011111), Bits(8, First, 0, 0)],
        Kind::Branch => row![Fixed(5, 0b11100), Bits(11, First, 0, 0)],
        Kind::Call => row![
            Fixed(5, 0b11110),
            Bits(1, First, 23, 0),
            Bits(10, First, 11, 0),
            Fixed(2, 0b11),
            Same(First, 22, 23),
            Fixed(1, 0b1),
            Same(First, 21, 23),
            Bits(11, First, 0, 0)
        ],
        Kind::Barrier(Barrier::Dsb) => row![Fixed(16, 0xF3BF), Fixed(16, 0b10001111_0100_1111)],
        Kind::Barrier(Barrier::Dmb) => row![Fixed(16, 0xF3BF), Fixed(16, 0b10001111_0101_1111)],
        Kind::Barrier(Barrier::Isb) => row![Fixed(16, 0xF3BF), Fixed(16, 0b10001111_0110_1111)],
        Kind::ReadSpecial(Special::Primask) => row![
            Fixed(16, 0xF3EF),
            Fixed(4, 0b1000),
            Bits(4, First, 0, 0),
            Fixed(8, 0b00010000)
        ],
        Kind::ReadSpecial(Special::Ipsr) => row![
            Fixed(16, 0xF3EF),
            Fixed(4, 0b1000),
            Bits(4, First, 0, 0),
            Fixed(8, 0b00000101)
        ],
        Kind::WriteMask => row![
            Fixed(12, 0b111100111000),
            Bits(4, First, 0, 0),
            Fixed(16, 0x8810)
        ],
    }
}

/// The pieces of a kind's row, from the highest bit.
pub fn pieces(kind: Kind) -> &'static [Piece]
    ensures { result.now ≡ pieces kind }
{
    row_of(kind).pieces
}
