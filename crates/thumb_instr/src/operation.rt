//! Operations that share one encoding and differ in a field of it, so that they need one row together and not one each.
/// A sum or a difference.
#[derive(Clone, Copy, Debug, PartialEq, Eq)]
pub enum SumOperation {
    /// ADDS, or ADD of sp
    Add,
    /// SUBS, or SUB of sp
    Sub,
}

/// A shift right by an immediate.
#[derive(Clone, Copy, Debug, PartialEq, Eq)]
pub enum Right {
    /// LSRS
    Lsr,
    /// ASRS
    Asr,
}

/// An operation on a low register and an 8-bit immediate, by the two bits of its encoding.
#[derive(Clone, Copy, Debug, PartialEq, Eq)]
pub enum ByteOperation {
    /// MOVS
    Mov,
    /// CMP
    Cmp,
    /// ADDS
    Add,
    /// SUBS
    Sub,
}

/// An operation on two low registers, by the four bits of its encoding.
#[derive(Clone, Copy, Debug, PartialEq, Eq)]
pub enum Operation {
    /// ANDS
    And,
    /// EORS
    Eor,
    /// LSLS
    Lsl,
    /// LSRS
    Lsr,
    /// ASRS
    Asr,
    /// ADCS
    Adc,
    /// SBCS
    Sbc,
    /// RORS
    Ror,
    /// TST
    Tst,
    /// RSBS from 0
    Rsb,
    /// CMP
    Cmp,
    /// CMN
    Cmn,
    /// ORRS
    Orr,
    /// MULS
    Mul,
    /// BICS
    Bic,
    /// MVNS
    Mvn,
}

/// An extension of a byte or a halfword, by the two bits of its encoding.
#[derive(Clone, Copy, Debug, PartialEq, Eq)]
pub enum Extension {
    /// SXTH
    Sxth,
    /// SXTB
    Sxtb,
    /// UXTH
    Uxth,
    /// UXTB
    Uxtb,
}

/// A reversal of bytes.
#[derive(Clone, Copy, Debug, PartialEq, Eq)]
pub enum Reversal {
    /// REV
    Rev,
    /// REV16
    Rev16,
    /// REVSH
    Revsh,
}

/// A load or a store at a base and an index in registers, by the three bits of its encoding.
#[derive(Clone, Copy, Debug, PartialEq, Eq)]
pub enum Access {
    /// STR
    Str,
    /// STRH
    Strh,
    /// STRB
    Strb,
    /// LDRSB
    Ldrsb,
    /// LDR
    Ldr,
    /// LDRH
    Ldrh,
    /// LDRB
    Ldrb,
    /// LDRSH
    Ldrsh,
}

/// A load or a store at a base and an immediate offset, in the order of its encoding.
#[derive(Clone, Copy, Debug, PartialEq, Eq)]
pub enum OffsetAccess {
    /// STR
    Str,
    /// LDR
    Ldr,
    /// STRB
    Strb,
    /// LDRB
    Ldrb,
    /// STRH
    Strh,
    /// LDRH
    Ldrh,
}

/// A load or a store of a word.
#[derive(Clone, Copy, Debug, PartialEq, Eq)]
pub enum WordAccess {
    /// STR
    Str,
    /// LDR
    Ldr,
}

/// A condition of a branch, by the four bits of its encoding.
#[derive(Clone, Copy, Debug, PartialEq, Eq)]
pub enum Condition {
    /// Z
    Eq,
    /// not Z
    Ne,
    /// C
    Cs,
    /// not C
    Cc,
    /// N
    Mi,
    /// not N
    Pl,
    /// V
    Vs,
    /// not V
    Vc,
    /// C and not Z
    Hi,
    /// not C, or Z
    Ls,
    /// N = V
    Ge,
    /// not N = V
    Lt,
    /// not Z, and N = V
    Gt,
    /// Z, or not N = V
    Le,
}

/// A hint, by the four bits of its encoding.
#[derive(Clone, Copy, Debug, PartialEq, Eq)]
pub enum HintOperation {
    /// NOP
    Nop,
    /// YIELD
    Yield,
    /// WFE
    Wfe,
    /// WFI
    Wfi,
    /// SEV
    Sev,
}

/// What CPS does with interrupts.
#[derive(Clone, Copy, Debug, PartialEq, Eq)]
pub enum Interrupts {
    /// CPSIE i
    Enable,
    /// CPSID i
    Disable,
}

/// A barrier, with the option SY.
#[derive(Clone, Copy, Debug, PartialEq, Eq)]
pub enum Barrier {
    /// DSB
    Dsb,
    /// DMB
    Dmb,
    /// ISB
    Isb,
}

/// A special register that is read.
#[derive(Clone, Copy, Debug, PartialEq, Eq)]
pub enum Special {
    /// PRIMASK
    Primask,
    /// IPSR
    Ipsr,
}
