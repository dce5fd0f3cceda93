//! An instruction's kind (its constructor and operation), and an instruction as its kind with plain numbers, which the tables of rows use.
use crate::operation::{
    Access, Barrier, ByteOperation, Condition, Extension, HintOperation, Interrupts, OffsetAccess,
    Operation, Reversal, Right, Special, SumOperation, WordAccess,
};

/// What an instruction is, without its registers and numbers: the constructors of `Instr`, with the operation.
#[derive(Clone, Copy, Debug, PartialEq, Eq)]
pub enum Kind {
    Mov,
    Three(SumOperation),
    Two(Operation),
    Bx,
    Movs,
    ShiftLeft,
    ShiftRight(Right),
    ThreeNumber(SumOperation),
    TwoNumber(ByteOperation),
    Add,
    Compare,
    Blx,
    Literal,
    Indexed(Access),
    Offset(OffsetAccess),
    Stack(WordAccess),
    Address,
    StackAddress,
    StackMove(SumOperation),
    Extend(Extension),
    Reverse(Reversal),
    Push,
    Pop,
    StoreMany,
    LoadMany,
    Breakpoint,
    Service,
    Hint(HintOperation),
    ChangeState(Interrupts),
    BranchIf(Condition),
    Branch,
    Call,
    Barrier(Barrier),
    ReadSpecial(Special),
    WriteMask,
}

/// An instruction as its kind and its registers and numbers, in the order of its canonical text; a number that the kind doesn't have is 0.
/// Lists of registers are their bits, offsets are in the units of the encoding, and distances are the fields of the encoding.
#[derive(Clone, Copy, Debug, PartialEq, Eq)]
pub struct Parts {
    pub kind: Kind,
    pub first: u32,
    pub second: u32,
    pub third: u32,
}
