//! The forms of an instruction's text: for each mnemonic, which operands follow it in which order. The reader goes by them.
use thumb_instr::Kind;

/// A register or number of an instruction, in the order of its canonical text.
#[derive(Clone, Copy)]
pub enum OperandPosition {
    First,
    Second,
    Third,
}

/// An element of a form: an operand, a mark, or a condition on the operands.
#[derive(Clone, Copy)]
pub enum Slot {
    /// a register
    Register(OperandPosition),
    /// one register, written once, that is two of the instruction's registers
    Twice(OperandPosition, OperandPosition),
    /// the register of an earlier slot once more
    Same(OperandPosition),
    /// sp
    Sp,
    /// a register and `!`
    Base(OperandPosition),
    /// a number from the second field to the third, a multiple of the fourth; it is stored in units of the fourth
    Number(OperandPosition, u32, u32, u32),
    /// this number
    Exactly(u32),
    /// a comma or a bracket
    Mark(u8),
    /// `sy` in lower case, the option of a barrier
    Sy,
    /// `i` in lower case, of CPS
    I,
    /// `primask` in either case
    Primask,
    /// `ipsr` in either case
    Ipsr,
    /// a label
    Label,
    /// a label, or a label and a number that is added to it
    LabelSum,
    /// a list of low registers
    LowList(OperandPosition),
    /// a list of low registers and perhaps one more register, whose number is the second field
    StackList(OperandPosition, u32),
    /// no text: the first is a register in the list that is the second
    InList(OperandPosition, OperandPosition),
    /// no text: the first is a register that isn't in the list that is the second
    NotInList(OperandPosition, OperandPosition),
}

/// A form: a mnemonic, what follows it, and the kind of instruction that it is read as.
pub struct Form {
    pub mnemonic: &'static [u8],
    pub slots: &'static [Slot],
    pub kind: Kind,
}

/// A mnemonic, with all its forms.
pub struct Mnemonic {
    pub name: &'static [u8],
    pub forms: &'static [Form],
}

/// How instructions of a kind are written: their mnemonic, and the forms that may follow it.
pub struct Spelling {
    pub mnemonic: &'static [u8],
    pub forms: &'static [&'static [Slot]],
}
