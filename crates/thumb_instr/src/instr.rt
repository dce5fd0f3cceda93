//! The instructions of Armv6-M that this program knows. Their fields hold only what can be encoded, so every value has an encoding.
use crate::distance::{Far, Farthest, Near};
use crate::operation::{
    Access, Barrier, ByteOperation, Condition, Extension, HintOperation, Interrupts, OffsetAccess,
    Operation, Reversal, Right, Special, SumOperation, WordAccess,
};
use crate::within::{
    Byte, General, Low, LowList, NotBothLow, NotBothSp, Reg, StackList, Stored, Within,
};

/// An instruction. Registers are in the order of its text, and each field holds only what its encoding can hold.
#[derive(Clone, Copy, Debug, PartialEq, Eq)]
pub enum Instr {
    /// `mov target, source` (MOV register, encoding T1)
    Mov {
        target: Reg,
        source: Reg,
    },
    /// `adds target, left, right` (ADD and SUB register, encoding T1)
    Three {
        sum: SumOperation,
        target: Low,
        left: Low,
        right: Low,
    },
    /// `ands target, other` (data processing on two registers, encoding T1), also `muls target, other, target` and `rsbs target, other, #0`
    Two {
        operation: Operation,
        target: Low,
        other: Low,
    },
    /// `bx source` (BX, encoding T1)
    Bx {
        source: General,
    },
    /// `movs target, source` (MOV register, encoding T2)
    Movs {
        target: Low,
        source: Low,
    },
    /// `lsls target, source, #amount` (LSL immediate, encoding T1)
    ShiftLeft {
        target: Low,
        source: Low,
        amount: Within<1, 32>,
    },
    /// `lsrs target, source, #amount` (LSR and ASR immediate, encoding T1)
    ShiftRight {
        shift: Right,
        target: Low,
        source: Low,
        amount: Within<1, 33>,
    },
    /// `adds target, source, #number` (ADD and SUB immediate, encoding T1)
    ThreeNumber {
        sum: SumOperation,
        target: Low,
        source: Low,
        number: Within<0, 8>,
    },
    /// `movs target, #number` (MOV immediate and CMP immediate, encoding T1, ADD and SUB immediate, encoding T2)
    TwoNumber {
        operation: ByteOperation,
        target: Low,
        number: Byte,
    },
    /// `add target, source` (ADD register, encoding T2)
    Add {
        registers: NotBothSp,
    },
    /// `cmp left, right` (CMP register, encoding T2)
    Compare {
        registers: NotBothLow,
    },
    /// `blx source` (BLX register, encoding T1)
    Blx {
        source: General,
    },
    /// `ldr target, label` (LDR literal, encoding T1); the distance in words
    Literal {
        target: Low,
        distance: Byte,
    },
    /// `ldr target, [base, index]` (loads and stores by register, encoding T1)
    Indexed {
        access: Access,
        target: Low,
        base: Low,
        index: Low,
    },
    /// `ldr target, [base, #offset]` (loads and stores by immediate, encoding T1); the offset in units of what is loaded or stored
    Offset {
        access: OffsetAccess,
        target: Low,
        base: Low,
        offset: Within<0, 32>,
    },
    /// `ldr target, [sp, #offset]` (STR and LDR immediate, encoding T2); the offset in words
    Stack {
        access: WordAccess,
        target: Low,
        offset: Byte,
    },
    /// `adr target, label` (ADR, encoding T1); the distance in words
    Address {
        target: Low,
        distance: Byte,
    },
    /// `add target, sp, #offset` (ADD SP plus immediate, encoding T1); the offset in words
    StackAddress {
        target: Low,
        offset: Byte,
    },
    /// `add sp, sp, #offset` (ADD SP plus immediate, encoding T2, SUB SP minus immediate, encoding T1); the offset in words
    StackMove {
        sum: SumOperation,
        offset: Within<0, 128>,
    },
    /// `sxth target, source` (SXTH, SXTB, UXTH and UXTB, encoding T1)
    Extend {
        extension: Extension,
        target: Low,
        source: Low,
    },
    /// `rev target, source` (REV, REV16 and REVSH, encoding T1)
    Reverse {
        reversal: Reversal,
        target: Low,
        source: Low,
    },
    /// `push {list}` (PUSH, encoding T1); bit 8 of the list is lr
    Push {
        list: StackList,
    },
    /// `pop {list}` (POP, encoding T1); bit 8 of the list is pc
    Pop {
        list: StackList,
    },
    /// `stm base!, {list}` (STM, encoding T1)
    StoreMany {
        stored: Stored,
    },
    /// `ldm base!, {list}`, or `ldm base, {list}` where the list has the base (LDM, encoding T1)
    LoadMany {
        base: Low,
        list: LowList,
    },
    /// `bkpt #number` (BKPT, encoding T1)
    Breakpoint {
        number: Byte,
    },
    /// `svc #number` (SVC, encoding T1)
    Service {
        number: Byte,
    },
    /// `nop` (hints, encoding T1)
    Hint {
        hint: HintOperation,
    },
    /// `cpsie i` (CPS, encoding T1)
    ChangeState {
        interrupts: Interrupts,
    },
    /// `beq label` (B, encoding T1)
    BranchIf {
        condition: Condition,
        distance: Near,
    },
    /// `b label` (B, encoding T2)
    Branch {
        distance: Far,
    },
    /// `bl label` (BL, encoding T1)
    Call {
        distance: Farthest,
    },
    /// `dsb sy` (DSB, DMB and ISB, encoding T1)
    Barrier {
        barrier: Barrier,
    },
    /// `mrs target, primask` (MRS, encoding T1)
    ReadSpecial {
        target: General,
        special: Special,
    },
    /// `msr primask, source` (MSR register, encoding T1)
    WriteMask {
        source: General,
    },
}

impl Default for Instr {
    ghost use Rattle.std.specs.Prelude.{◌≡◌};
    ghost use Rattle.thumb_instr.specs.declared.instr.Instr.TheVariants.{Hint};
    ghost use Rattle.thumb_instr.specs.declared.operation.HintOperation.TheVariants.{Nop};

    ghost is_default = { λ i. i ≡ Hint Nop };

    /// `nop`
    fn default() -> Self {
        Instr::Hint {
            hint: HintOperation::Nop,
        }
    }
}
