//! The role of each register and number of an instruction's text: how it is used and its range. Finding named registers and enumeration rest on it.
ghost use Rattle.std.specs.Prelude.{◌≡◌};
ghost use Rattle.thumb_instr.specs.declared.role.Role.TheVariants.{Nothing};
ghost use Rattle.thumb_instr.specs.Roles.{two_usage, byte_usage, access_usage, offset_usage, word_usage, three, roles};

use crate::kind::Kind;
use crate::operation::{Access, ByteOperation, OffsetAccess, Operation, WordAccess};

/// What is done with a register.
#[derive(Clone, Copy, Debug, PartialEq, Eq)]
pub enum Usage {
    Read,
    Written,
    /// read and written
    Updated,
}

/// Which registers may be an operand.
#[derive(Clone, Copy, Debug, PartialEq, Eq)]
pub enum Class {
    /// r0 to r7
    Low,
    /// all but pc
    Any,
    /// all but sp and pc
    General,
}

/// What an operand of an instruction is.
#[derive(Clone, Copy, Debug, PartialEq, Eq)]
pub enum Role {
    /// a register
    Register(Usage, Class),
    /// a number from the first to below the second
    Number(u32, u32),
    /// a list of registers as their bits: from 1 to below this number
    List(u32),
    /// the field of a distance to a label, below this number
    Distance(u32),
    /// there is no such operand
    Nothing,
}

/// The roles of a kind's registers and numbers, in the order of its canonical text.
#[derive(Clone, Copy, Debug, PartialEq, Eq)]
pub struct Operands {
    pub first: Role,
    pub second: Role,
    pub third: Role,
}

/// A low register that is read.
const LOW: Role = Role::Register(Usage::Read, Class::Low);

/// A low register that is written.
const TARGET: Role = Role::Register(Usage::Written, Class::Low);

fn none() -> Operands
    ensures { result ≡ three Nothing Nothing Nothing }
{
    one(Role::Nothing)
}

fn one(first: Role) -> Operands
    ensures { result ≡ three first Nothing Nothing }
{
    two(first, Role::Nothing)
}

fn two(first: Role, second: Role) -> Operands
    ensures { result ≡ three first second Nothing }
{
    three(first, second, Role::Nothing)
}

fn three(first: Role, second: Role, third: Role) -> Operands
    ensures { result ≡ three first second third }
{
    Operands {
        first,
        second,
        third,
    }
}

/// What an operation on two low registers does with its target.
fn two_usage(operation: Operation) -> Usage
    ensures { result ≡ two_usage operation }
{
    match operation {
        Operation::Tst | Operation::Cmp | Operation::Cmn => Usage::Read,
        Operation::Rsb | Operation::Mvn => Usage::Written,
        _ => Usage::Updated,
    }
}

/// What an operation on a low register and a number does with its target.
fn byte_usage(operation: ByteOperation) -> Usage
    ensures { result ≡ byte_usage operation }
{
    match operation {
        ByteOperation::Mov => Usage::Written,
        ByteOperation::Cmp => Usage::Read,
        _ => Usage::Updated,
    }
}

/// What a load or a store does with its target.
fn access_usage(access: Access) -> Usage
    ensures { result ≡ access_usage access }
{
    match access {
        Access::Str | Access::Strh | Access::Strb => Usage::Read,
        _ => Usage::Written,
    }
}

/// What a load or a store does with its target.
fn offset_usage(access: OffsetAccess) -> Usage
    ensures { result ≡ offset_usage access }
{
    match access {
        OffsetAccess::Str | OffsetAccess::Strb | OffsetAccess::Strh => Usage::Read,
        _ => Usage::Written,
    }
}

/// What a load or a store does with its target.
fn word_usage(access: WordAccess) -> Usage
    ensures { result ≡ word_usage access }
{
    match access {
        WordAccess::Str => Usage::Read,
        WordAccess::Ldr => Usage::Written,
    }
}

/// The roles of a kind's registers and numbers, in the order of its canonical text.
pub fn roles(kind: Kind) -> Operands
    ensures { result ≡ roles kind }
{
    match kind {
        Kind::Mov => two(
            Role::Register(Usage::Written, Class::Any),
            Role::Register(Usage::Read, Class::Any),
        ),
        Kind::Three(_) => three(TARGET, LOW, LOW),
        Kind::Two(operation) => two(Role::Register(two_usage(operation), Class::Low), LOW),
        Kind::Bx => one(Role::Register(Usage::Read, Class::General)),
        Kind::Movs => two(TARGET, LOW),
        Kind::ShiftLeft => three(TARGET, LOW, Role::Number(1, 32)),
        Kind::ShiftRight(_) => three(TARGET, LOW, Role::Number(1, 33)),
        Kind::ThreeNumber(_) => three(TARGET, LOW, Role::Number(0, 8)),
        Kind::TwoNumber(operation) => two(
            Role::Register(byte_usage(operation), Class::Low),
            Role::Number(0, 256),
        ),
        Kind::Add => two(
            Role::Register(Usage::Updated, Class::Any),
            Role::Register(Usage::Read, Class::Any),
        ),
        Kind::Compare => two(
            Role::Register(Usage::Read, Class::Any),
            Role::Register(Usage::Read, Class::Any),
        ),
        Kind::Blx => one(Role::Register(Usage::Read, Class::General)),
        Kind::Literal => two(TARGET, Role::Distance(256)),
        Kind::Indexed(access) => three(Role::Register(access_usage(access), Class::Low), LOW, LOW),
        Kind::Offset(access) => three(
            Role::Register(offset_usage(access), Class::Low),
            LOW,
            Role::Number(0, 32),
        ),
        Kind::Stack(access) => two(
            Role::Register(word_usage(access), Class::Low),
            Role::Number(0, 256),
        ),
        Kind::Address => two(TARGET, Role::Distance(256)),
        Kind::StackAddress => two(TARGET, Role::Number(0, 256)),
        Kind::StackMove(_) => one(Role::Number(0, 128)),
        Kind::Extend(_) => two(TARGET, LOW),
        Kind::Reverse(_) => two(TARGET, LOW),
        Kind::Push => one(Role::List(512)),
        Kind::Pop => one(Role::List(512)),
        Kind::StoreMany => two(Role::Register(Usage::Updated, Class::Low), Role::List(256)),
        Kind::LoadMany => two(Role::Register(Usage::Updated, Class::Low), Role::List(256)),
        Kind::Breakpoint => one(Role::Number(0, 256)),
        Kind::Service => one(Role::Number(0, 256)),
        Kind::Hint(_) => none(),
        Kind::ChangeState(_) => none(),
        Kind::BranchIf(_) => one(Role::Distance(256)),
        Kind::Branch => one(Role::Distance(2048)),
        Kind::Call => one(Role::Distance(16777216)),
        Kind::Barrier(_) => none(),
        Kind::ReadSpecial(_) => one(Role::Register(Usage::Written, Class::General)),
        Kind::WriteMask => one(Role::Register(Usage::Read, Class::General)),
    }
}
