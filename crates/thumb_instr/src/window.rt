//! Which instructions may be in a window, and which of two encodings with one effect rules are written with.
ghost use Rattle.std.specs.Prelude.{◌≡◌};
ghost use Rattle.thumb_instr.specs.Window.{is_in_window, normal_of, byte_sum};

use crate::instr::Instr;
use crate::operation::{ByteOperation, SumOperation};
use crate::within::Within;

/// Whether the instruction may be in a window: control goes on to the next instruction, it affects no memory and no state but registers and flags,
/// and names low registers alone.
pub fn in_window(instr: &Instr) -> bool
    ensures { result ≡ is_in_window instr.now }
{
    match *instr {
        Instr::Mov { target, source } => target.number < 8 && source.number < 8,
        Instr::Add { registers } => registers.target.number < 8 && registers.source.number < 8,
        Instr::Three { .. } => true,
        Instr::Two { .. } => true,
        Instr::Movs { .. } => true,
        Instr::ShiftLeft { .. } => true,
        Instr::ShiftRight { .. } => true,
        Instr::ThreeNumber { .. } => true,
        Instr::TwoNumber { .. } => true,
        Instr::Extend { .. } => true,
        Instr::Reverse { .. } => true,
        _ => false,
    }
}

/// The operation with an 8-bit immediate that adds or subtracts as this one does.
fn byte_sum(sum: SumOperation) -> ByteOperation
    ensures { result ≡ byte_sum sum }
{
    match sum {
        SumOperation::Add => ByteOperation::Add,
        SumOperation::Sub => ByteOperation::Sub,
    }
}

/// The instruction that represents both encodings of one effect, where it has two: ADDS and SUBS of a 3-bit number to the source
/// register itself become those of an 8-bit number.
pub fn normal(instr: Instr) -> Instr
    ensures { result ≡ normal_of instr }
{
    match instr {
        Instr::ThreeNumber {
            sum,
            target,
            source,
            number,
        } => {
            if target.number != source.number {
                return instr;
            }
            Instr::TwoNumber {
                operation: byte_sum(sum),
                target,
                number: Within::of(number.number),
            }
        }
        _ => instr,
    }
}
