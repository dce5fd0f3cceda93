//! The one table of texts: each mnemonic with its kinds of instructions, and what may follow it. Reader and writer both use it.
ghost use Rattle.std.specs.Prelude.{◌≡◌, ◌<◌, true, map, length};
ghost use Rattle.thumb_syntax.specs.Mnemonics.{are_there, are_there_at, forms_of, group_of, named_forms, groups_at};
ghost use Rattle.thumb_syntax.specs.Forms.{mnemonic, forms, spelling};
ghost use Rattle.thumb_syntax.specs.FieldViews.{forms_at, spelling_at};

use crate::form::{Form, Mnemonic, OperandPosition, Slot, Spelling};
use thumb_instr::{
    Access, Barrier, ByteOperation, Condition, Extension, HintOperation, Interrupts, Kind,
    OffsetAccess, Operation, Reversal, Right, Special, SumOperation, WordAccess,
};

const FIRST: Slot = Slot::Register(OperandPosition::First);

const SECOND: Slot = Slot::Register(OperandPosition::Second);

const THIRD: Slot = Slot::Register(OperandPosition::Third);

/// One register that is both the first and the second.
const TWICE: Slot = Slot::Twice(OperandPosition::First, OperandPosition::Second);

/// The first register once more.
const SAME: Slot = Slot::Same(OperandPosition::First);

const COMMA: Slot = Slot::Mark(b',');

const OPEN: Slot = Slot::Mark(b'[');

const CLOSE: Slot = Slot::Mark(b']');

/// A register.
const ONE: &[Slot] = &[FIRST];

/// Two registers.
const TWO: &[Slot] = &[FIRST, COMMA, SECOND];

/// Two registers, the first of which is written twice, before the second.
const SAME_FIRST: &[Slot] = &[FIRST, COMMA, SAME, COMMA, SECOND];

/// The same, where the repetition of the first comes after the second.
const SAME_LAST: &[Slot] = &[FIRST, COMMA, SECOND, COMMA, SAME];

/// Three registers.
const THREE: &[Slot] = &[FIRST, COMMA, SECOND, COMMA, THIRD];

/// Three registers, the first two of which are the same and written once.
const TWICE_AND_THIRD: &[Slot] = &[TWICE, COMMA, THIRD];

/// Two registers and a number.
macro_rules! amount {
    ($least:literal, $most:literal) => {
        &[FIRST, COMMA, SECOND, COMMA, Slot::Number(OperandPosition::Third, $least, $most, 1)]
    };
}

/// The same, where the two registers are the same and written once.
macro_rules! twice_amount {
    ($least:literal, $most:literal) => {
        &[TWICE, COMMA, Slot::Number(OperandPosition::Third, $least, $most, 1)]
    };
}

/// A register and a byte.
const BYTE_NUMBER: &[Slot] = &[
    FIRST,
    COMMA,
    Slot::Number(OperandPosition::Second, 0, 255, 1),
];

/// A register twice and a byte that is too large for the form with two registers and a number.
const SAME_AND_BYTE: &[Slot] = &[
    FIRST,
    COMMA,
    SAME,
    COMMA,
    Slot::Number(OperandPosition::Second, 8, 255, 1),
];

/// A byte.
const BYTE_ALONE: &[Slot] = &[Slot::Number(OperandPosition::First, 0, 255, 1)];

/// A label.
const LABEL: &[Slot] = &[Slot::Label];

/// A register and a label, to which a number may be added.
const LABELLED: &[Slot] = &[FIRST, COMMA, Slot::LabelSum];

/// A register, and an address of a base and an index register.
const INDEXED: &[Slot] = &[FIRST, COMMA, OPEN, SECOND, COMMA, THIRD, CLOSE];

/// A register, and an address of a base register and an offset.
macro_rules! with_offset {
    ($most:literal, $step:literal) => {
        &[FIRST, COMMA, OPEN, SECOND, COMMA, Slot::Number(OperandPosition::Third, 0, $most, $step), CLOSE]
    };
}

/// The same without an offset.
const WITHOUT_OFFSET: &[Slot] = &[FIRST, COMMA, OPEN, SECOND, CLOSE];

/// A register, and an address of sp and an offset.
const FROM_SP: &[Slot] = &[
    FIRST,
    COMMA,
    OPEN,
    Slot::Sp,
    COMMA,
    Slot::Number(OperandPosition::Second, 0, 1020, 4),
    CLOSE,
];

/// The same without an offset.
const AT_SP: &[Slot] = &[FIRST, COMMA, OPEN, Slot::Sp, CLOSE];

/// sp twice and a number.
const SP_AGAIN: &[Slot] = &[
    Slot::Sp,
    COMMA,
    Slot::Sp,
    COMMA,
    Slot::Number(OperandPosition::First, 0, 508, 4),
];

/// sp once and a number.
const SP_ALONE: &[Slot] = &[
    Slot::Sp,
    COMMA,
    Slot::Number(OperandPosition::First, 0, 508, 4),
];

/// A base register with write-back, and a list.
const WRITTEN_BACK: &[Slot] = &[
    Slot::Base(OperandPosition::First),
    COMMA,
    Slot::LowList(OperandPosition::Second),
];

/// The same, where the list doesn't have the base.
const LOAD_APART: &[Slot] = &[
    Slot::Base(OperandPosition::First),
    COMMA,
    Slot::LowList(OperandPosition::Second),
    Slot::NotInList(OperandPosition::First, OperandPosition::Second),
];

/// A base register without `!`, and a list that has it.
const LOAD_WITHIN: &[Slot] = &[
    FIRST,
    COMMA,
    Slot::LowList(OperandPosition::Second),
    Slot::InList(OperandPosition::First, OperandPosition::Second),
];

/// The table, as arguments of another macro: four parts, by first letters; for each letter its mnemonics, those that compilers write most often first.
/// A mnemonic has a row for each kind that is written with it: its forms, the one that is written first (or second, where `is_second` says so).
/// After `also` come kinds that are read from this mnemonic but written with another.
macro_rules! spellings {
    ($then:ident $($kind:ident)?) => {
        $then! {
            $($kind)?
            {
                [],
                [
                    b"adds" {
                        Kind::Three(SumOperation::Add) => THREE, TWICE_AND_THIRD;
                        Kind::ThreeNumber(SumOperation::Add) => amount!(0, 7);
                        Kind::TwoNumber(ByteOperation::Add) => BYTE_NUMBER, SAME_AND_BYTE;
                    },
                    b"add" {
                        Kind::Add => TWO, SAME_FIRST, SAME_LAST;
                        Kind::StackAddress => &[FIRST, COMMA, Slot::Sp, COMMA, Slot::Number(OperandPosition::Second, 0, 1020, 4)];
                        Kind::StackMove(SumOperation::Add) => SP_AGAIN, SP_ALONE;
                    },
                    b"ands" { Kind::Two(Operation::And) => TWO, SAME_FIRST, SAME_LAST; },
                    b"asrs" {
                        Kind::ShiftRight(Right::Asr) => amount!(1, 32), twice_amount!(1, 32);
                        Kind::Two(Operation::Asr) => TWO, SAME_FIRST;
                    },
                    b"adcs" { Kind::Two(Operation::Adc) => TWO, SAME_FIRST, SAME_LAST; },
                    b"adr" { Kind::Address => LABELLED; },
                ],
                [
                    b"bl" { Kind::Call => LABEL; },
                    b"b" { Kind::Branch => LABEL; },
                    b"bne" { Kind::BranchIf(Condition::Ne) => LABEL; },
                    b"beq" { Kind::BranchIf(Condition::Eq) => LABEL; },
                    b"bhi" { Kind::BranchIf(Condition::Hi) => LABEL; },
                    b"bls" { Kind::BranchIf(Condition::Ls) => LABEL; },
                    b"ble" { Kind::BranchIf(Condition::Le) => LABEL; },
                    b"blx" { Kind::Blx => ONE; },
                    b"bge" { Kind::BranchIf(Condition::Ge) => LABEL; },
                    b"blt" { Kind::BranchIf(Condition::Lt) => LABEL; },
                    b"bcs" { Kind::BranchIf(Condition::Cs) => LABEL; },
                    b"bics" { Kind::Two(Operation::Bic) => TWO, SAME_FIRST; },
                    b"bgt" { Kind::BranchIf(Condition::Gt) => LABEL; },
                    b"bx" { Kind::Bx => ONE; },
                    b"bcc" { Kind::BranchIf(Condition::Cc) => LABEL; },
                    b"bpl" { Kind::BranchIf(Condition::Pl) => LABEL; },
                    b"bkpt" { Kind::Breakpoint => BYTE_ALONE; },
                    b"bmi" { Kind::BranchIf(Condition::Mi) => LABEL; },
                    b"bvs" { Kind::BranchIf(Condition::Vs) => LABEL; },
                    b"bvc" { Kind::BranchIf(Condition::Vc) => LABEL; },
                    b"bhs" {} also { Kind::BranchIf(Condition::Cs) => LABEL; },
                    b"blo" {} also { Kind::BranchIf(Condition::Cc) => LABEL; },
                ],
            }
            {
                [
                    b"cmp" {
                        Kind::TwoNumber(ByteOperation::Cmp) => BYTE_NUMBER;
                        Kind::Two(Operation::Cmp) => TWO;
                        Kind::Compare => TWO;
                    },
                    b"cmn" { Kind::Two(Operation::Cmn) => TWO; },
                    b"cpsie" { Kind::ChangeState(Interrupts::Enable) => &[Slot::I]; },
                    b"cpsid" { Kind::ChangeState(Interrupts::Disable) => &[Slot::I]; },
                ],
                [
                    b"dsb" { Kind::Barrier(Barrier::Dsb) => &[Slot::Sy], &[]; },
                    b"dmb" { Kind::Barrier(Barrier::Dmb) => &[Slot::Sy], &[]; },
                ],
                [b"eors" { Kind::Two(Operation::Eor) => TWO, SAME_FIRST, SAME_LAST; }],
                [],
                [],
                [],
                [b"isb" { Kind::Barrier(Barrier::Isb) => &[Slot::Sy], &[]; }],
                [],
                [],
                [
                    b"ldr" {
                        Kind::Literal => LABELLED;
                        Kind::Indexed(Access::Ldr) => INDEXED;
                        Kind::Offset(OffsetAccess::Ldr) => with_offset!(124, 4), WITHOUT_OFFSET;
                        Kind::Stack(WordAccess::Ldr) => FROM_SP, AT_SP;
                    },
                    b"lsls" {
                        Kind::ShiftLeft => amount!(1, 31), twice_amount!(1, 31);
                        Kind::Two(Operation::Lsl) => TWO, SAME_FIRST;
                    } also {
                        Kind::Movs => &[FIRST, COMMA, SECOND, COMMA, Slot::Exactly(0)], &[TWICE, COMMA, Slot::Exactly(0)];
                    },
                    b"lsrs" {
                        Kind::ShiftRight(Right::Lsr) => amount!(1, 32), twice_amount!(1, 32);
                        Kind::Two(Operation::Lsr) => TWO, SAME_FIRST;
                    },
                    b"ldrb" {
                        Kind::Indexed(Access::Ldrb) => INDEXED;
                        Kind::Offset(OffsetAccess::Ldrb) => with_offset!(31, 1), WITHOUT_OFFSET;
                    },
                    b"ldrh" {
                        Kind::Indexed(Access::Ldrh) => INDEXED;
                        Kind::Offset(OffsetAccess::Ldrh) => with_offset!(62, 2), WITHOUT_OFFSET;
                    },
                    b"ldrsh" { Kind::Indexed(Access::Ldrsh) => INDEXED; },
                    b"ldmia" {} also { Kind::LoadMany => LOAD_APART, LOAD_WITHIN; },
                    b"ldrsb" { Kind::Indexed(Access::Ldrsb) => INDEXED; },
                    b"ldm" { Kind::LoadMany => LOAD_APART, LOAD_WITHIN; },
                ],
            }
            {
                [
                    b"movs" {
                        Kind::Movs => TWO;
                        Kind::TwoNumber(ByteOperation::Mov) => BYTE_NUMBER;
                    },
                    b"mov" { Kind::Mov => TWO; },
                    b"muls" { Kind::Two(Operation::Mul) => SAME_LAST, TWO, SAME_FIRST; },
                    b"mvns" { Kind::Two(Operation::Mvn) => TWO; },
                    b"mrs" {
                        Kind::ReadSpecial(Special::Primask) => &[FIRST, COMMA, Slot::Primask];
                        Kind::ReadSpecial(Special::Ipsr) => &[FIRST, COMMA, Slot::Ipsr];
                    },
                    b"msr" { Kind::WriteMask => &[Slot::Primask, COMMA, FIRST]; },
                ],
                [
                    b"negs" {} also { Kind::Two(Operation::Rsb) => TWO; },
                    b"nop" { Kind::Hint(HintOperation::Nop) => &[]; },
                ],
                [b"orrs" { Kind::Two(Operation::Orr) => TWO, SAME_FIRST, SAME_LAST; }],
                [
                    b"push" { Kind::Push => &[Slot::StackList(OperandPosition::First, 14)]; },
                    b"pop" { Kind::Pop => &[Slot::StackList(OperandPosition::First, 15)]; },
                ],
                [],
                [
                    b"rsbs" { Kind::Two(Operation::Rsb) => &[FIRST, COMMA, SECOND, COMMA, Slot::Exactly(0)]; },
                    b"rors" { Kind::Two(Operation::Ror) => TWO, SAME_FIRST; },
                    b"rev" { Kind::Reverse(Reversal::Rev) => TWO; },
                    b"rev16" { Kind::Reverse(Reversal::Rev16) => TWO; },
                    b"revsh" { Kind::Reverse(Reversal::Revsh) => TWO; },
                ],
            }
            {
                [
                    b"str" {
                        Kind::Indexed(Access::Str) => INDEXED;
                        Kind::Offset(OffsetAccess::Str) => with_offset!(124, 4), WITHOUT_OFFSET;
                        Kind::Stack(WordAccess::Str) => FROM_SP, AT_SP;
                    },
                    b"subs" {
                        Kind::Three(SumOperation::Sub) => THREE, TWICE_AND_THIRD;
                        Kind::ThreeNumber(SumOperation::Sub) => amount!(0, 7);
                        Kind::TwoNumber(ByteOperation::Sub) => BYTE_NUMBER, SAME_AND_BYTE;
                    },
                    b"strh" {
                        Kind::Indexed(Access::Strh) => INDEXED;
                        Kind::Offset(OffsetAccess::Strh) => with_offset!(62, 2), WITHOUT_OFFSET;
                    },
                    b"strb" {
                        Kind::Indexed(Access::Strb) => INDEXED;
                        Kind::Offset(OffsetAccess::Strb) => with_offset!(31, 1), WITHOUT_OFFSET;
                    },
                    b"sub" { Kind::StackMove(SumOperation::Sub) => SP_AGAIN, SP_ALONE; },
                    b"sxth" { Kind::Extend(Extension::Sxth) => TWO; },
                    b"stmia" {} also { Kind::StoreMany => WRITTEN_BACK; },
                    b"sbcs" { Kind::Two(Operation::Sbc) => TWO, SAME_FIRST; },
                    b"sxtb" { Kind::Extend(Extension::Sxtb) => TWO; },
                    b"stm" { Kind::StoreMany => WRITTEN_BACK; },
                    b"svc" { Kind::Service => BYTE_ALONE; },
                    b"sev" { Kind::Hint(HintOperation::Sev) => &[]; },
                ],
                [b"tst" { Kind::Two(Operation::Tst) => TWO; }],
                [
                    b"uxth" { Kind::Extend(Extension::Uxth) => TWO; },
                    b"uxtb" { Kind::Extend(Extension::Uxtb) => TWO; },
                ],
                [],
                [
                    b"wfe" { Kind::Hint(HintOperation::Wfe) => &[]; },
                    b"wfi" { Kind::Hint(HintOperation::Wfi) => &[]; },
                ],
                [],
                [b"yield" { Kind::Hint(HintOperation::Yield) => &[]; }],
                [],
                [],
                [],
                [],
                [],
                [],
            }
        }
    };
}

/// Makes a part of the table into mnemonics with their forms.
macro_rules! mnemonics {
    ($([$(
        $name:literal { $($kind:expr => $($slots:expr),+;)* }
        $(also { $($other:expr => $($form:expr),+;)* })?
    ),* $(,)?],)*) => {
        [$(&[$(Mnemonic {
            name: $name,
            forms: &[
                $($(Form { mnemonic: $name, slots: $slots, kind: $kind },)+)*
                $($($(Form { mnemonic: $name, slots: $form, kind: $other },)+)*)?
            ],
        }),*]),*]
    };
}

macro_rules! first_part {
    ({ $($part:tt)* } $($rest:tt)*) => { mnemonics! { $($part)* } };
}

macro_rules! second_part {
    ($first:tt { $($part:tt)* } $($rest:tt)*) => { mnemonics! { $($part)* } };
}

macro_rules! third_part {
    ($first:tt $second:tt { $($part:tt)* } $($rest:tt)*) => { mnemonics! { $($part)* } };
}

macro_rules! last_part {
    ($first:tt $second:tt $third:tt { $($part:tt)* }) => { mnemonics! { $($part)* } };
}

/// Makes the table into a match from kind to mnemonic and forms.
macro_rules! spelling_of {
    ($of:ident $({ $([$(
        $name:literal { $($kind:pat => $($slots:expr),+;)* } $(also $other:tt)?
    ),* $(,)?],)* })*) => {
        match $of { $($($($($kind => &Spelling { mnemonic: $name, forms: &[$($slots),+] },)*)*)*)* }
    };
}

/// The mnemonics that begin with `a` and `b`, each at the index of its first letter. Index 0 has none.
static A_TO_B: [&[Mnemonic]; 3] = spellings!(first_part);

/// The mnemonics that begin with `c` to `l`, by first letter.
static C_TO_L: [&[Mnemonic]; 10] = spellings!(second_part);

/// The mnemonics that begin with `m` to `r`, by first letter.
static M_TO_R: [&[Mnemonic]; 6] = spellings!(third_part);

/// The mnemonics that begin with `s` to `z`, by first letter.
static S_TO_Z: [&[Mnemonic]; 13] = spellings!(last_part);

/// The mnemonics that begin with `a` and `b`, each with its forms in the order of all forms.
#[tactic(auto, unfolding(crate::specs::RowLaws::rows, crate::specs::Rows::data_rows, crate::specs::Rows::memory_rows, crate::specs::Rows::control_rows))]
fn a_to_b() -> &'static [&'static [Mnemonic]]
    ensures forms { map (map forms_of) (groups_at result.now) ≡ map (map named_forms) (groups_at result.now) }
    ensures all { are_there 0 3 (groups_at result.now) ≡ true }
    ensures places { length result.now ≡ 3 }
{
    &A_TO_B
}

/// The mnemonics that begin with `c` to `l`, each with its forms in the order of all forms.
#[tactic(auto, unfolding(crate::specs::RowLaws::rows, crate::specs::Rows::data_rows, crate::specs::Rows::memory_rows, crate::specs::Rows::control_rows))]
fn c_to_l() -> &'static [&'static [Mnemonic]]
    ensures forms { map (map forms_of) (groups_at result.now) ≡ map (map named_forms) (groups_at result.now) }
    ensures all { are_there 3 13 (groups_at result.now) ≡ true }
    ensures places { length result.now ≡ 10 }
{
    &C_TO_L
}

/// The mnemonics that begin with `m` to `r`, each with its forms in the order of all forms.
#[tactic(auto, unfolding(crate::specs::RowLaws::rows, crate::specs::Rows::data_rows, crate::specs::Rows::memory_rows, crate::specs::Rows::control_rows))]
fn m_to_r() -> &'static [&'static [Mnemonic]]
    ensures forms { map (map forms_of) (groups_at result.now) ≡ map (map named_forms) (groups_at result.now) }
    ensures all { are_there 13 19 (groups_at result.now) ≡ true }
    ensures places { length result.now ≡ 6 }
{
    &M_TO_R
}

/// The mnemonics that begin with `s` to `z`, each with its forms in the order of all forms.
#[tactic(auto, unfolding(crate::specs::RowLaws::rows, crate::specs::Rows::data_rows, crate::specs::Rows::memory_rows, crate::specs::Rows::control_rows))]
fn s_to_z() -> &'static [&'static [Mnemonic]]
    ensures forms { map (map forms_of) (groups_at result.now) ≡ map (map named_forms) (groups_at result.now) }
    ensures all { are_there 19 32 (groups_at result.now) ≡ true }
    ensures places { length result.now ≡ 13 }
{
    &S_TO_Z
}

/// The mnemonics at an index: a first letter's index is its byte modulo 32, 1 for `a` and `A`.
pub fn mnemonics(place: usize) -> &'static [Mnemonic]
    requires { place < 32 }
    ensures forms { map forms_of (map group_of result.now) ≡ map named_forms (map group_of result.now) }
    ensures all { are_there_at place (map group_of result.now) ≡ true }
{
    if place < 3 {
        a_to_b()[place]
    } else if place < 13 {
        c_to_l()[place - 3]
    } else if place < 19 {
        m_to_r()[place - 13]
    } else {
        s_to_z()[place - 19]
    }
}

/// How instructions of a kind are written.
fn spelling(kind: Kind) -> &'static Spelling
    ensures { spelling_at result.now ≡ spelling kind }
{
    spellings!(spelling_of kind)
}

/// The mnemonic of a kind.
pub fn mnemonic(kind: Kind) -> &'static [u8]
    ensures { result.now ≡ mnemonic kind }
{
    spelling(kind).mnemonic
}

/// The forms that may follow the mnemonic of a kind.
pub fn forms(kind: Kind) -> &'static [&'static [Slot]]
    ensures { forms_at result.now ≡ forms kind }
{
    spelling(kind).forms
}
