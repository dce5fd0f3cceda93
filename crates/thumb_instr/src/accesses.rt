//! What each instruction reads and writes, one row for each form: `code_flow` and `liveness` take it from these rows alone.
ghost use Rattle.std.specs.Prelude.{◌≡◌, ℕ, ◌<◌};
ghost use Rattle.thumb_instr.specs.Items.{one_of, has};
ghost use Rattle.thumb_instr.specs.Shape.{uses_of, writes_of, two_uses, two_writes, byte_uses, byte_writes, access_uses, access_writes, offset_access, word_access, condition_uses, registers_in, pushed};

use crate::instr::Instr;
use crate::items::{C, Items, LR, N, SP, Shape, V, Z};
use crate::operation::{Access, ByteOperation, Condition, OffsetAccess, Operation, WordAccess};
use crate::within::Low;

/// What an instruction reads and writes. For one that can continue in several ways, this describes the first: to a label or a code point of the listing.
/// A shift by register also reads C, since a shift by 0 leaves C unchanged.
pub fn shape(instr: &Instr) -> Shape
    ensures uses { (x : ℕ) → has result.uses.bits x ≡ one_of x (uses_of instr.now) }
    ensures writes { (x : ℕ) → has result.writes.bits x ≡ one_of x (writes_of instr.now) }
{
    Shape {
        uses: uses(instr),
        writes: writes(instr),
    }
}

/// The items that an instruction reads.
fn uses(instr: &Instr) -> Items
    ensures { (x : ℕ) → has result.bits x ≡ one_of x (uses_of instr.now) }
{
    match *instr {
        Instr::Mov { source, .. } => Items::of(&[source.number as u8]),
        Instr::Three { left, right, .. } => Items::of(&[left.number as u8, right.number as u8]),
        Instr::Two {
            operation,
            target,
            other,
        } => two_uses(operation, target, other),
        Instr::Bx { source } => Items::of(&[source.number as u8]),
        Instr::Movs { source, .. } => Items::of(&[source.number as u8]),
        Instr::ShiftLeft { source, .. } => Items::of(&[source.number as u8]),
        Instr::ShiftRight { source, .. } => Items::of(&[source.number as u8]),
        Instr::ThreeNumber { source, .. } => Items::of(&[source.number as u8]),
        Instr::TwoNumber {
            operation,
            target,
            ..
        } => byte_uses(operation, target),
        Instr::Add { registers } => Items::of(&[
            registers.target.number as u8,
            registers.source.number as u8,
        ]),
        Instr::Compare { registers } => Items::of(&[
            registers.left.number as u8,
            registers.right.number as u8,
        ]),
        Instr::Blx { source } => Items::of(&[source.number as u8]),
        Instr::Indexed {
            access,
            target,
            base,
            index,
        } => Items::of(&[base.number as u8, index.number as u8]).union(access_uses(access, target)),
        Instr::Offset {
            access,
            target,
            base,
            ..
        } => Items::of(&[base.number as u8]).union(access_uses(offset_access(access), target)),
        Instr::Stack { access, target, .. } => {
            Items::one(SP).union(access_uses(word_access(access), target))
        }
        Instr::StackAddress { .. } => Items::one(SP),
        Instr::StackMove { .. } => Items::one(SP),
        Instr::Extend { source, .. } => Items::of(&[source.number as u8]),
        Instr::Reverse { source, .. } => Items::of(&[source.number as u8]),
        Instr::Push { list } => Items::one(SP).union(pushed(list.number)),
        Instr::Pop { .. } => Items::one(SP),
        Instr::StoreMany { stored } => {
            Items::of(&[stored.base.number as u8]).union(registers_in(stored.list.number))
        }
        Instr::LoadMany { base, .. } => Items::of(&[base.number as u8]),
        Instr::Service { .. } => Items::of(&[0, 1, 2, 3, 12, SP]),
        Instr::BranchIf { condition, .. } => condition_uses(condition),
        Instr::WriteMask { source } => Items::of(&[source.number as u8]),
        _ => Items::none(),
    }
}

/// The items that an instruction writes.
fn writes(instr: &Instr) -> Items
    ensures { (x : ℕ) → has result.bits x ≡ one_of x (writes_of instr.now) }
{
    match *instr {
        Instr::Mov { target, .. } => Items::of(&[target.number as u8]),
        Instr::Three { target, .. } => Items::of(&[target.number as u8, N, Z, C, V]),
        Instr::Two {
            operation,
            target,
            ..
        } => two_writes(operation, target),
        Instr::Movs { target, .. } => Items::of(&[target.number as u8, N, Z]),
        Instr::ShiftLeft { target, .. } => Items::of(&[target.number as u8, N, Z, C]),
        Instr::ShiftRight { target, .. } => Items::of(&[target.number as u8, N, Z, C]),
        Instr::ThreeNumber { target, .. } => Items::of(&[target.number as u8, N, Z, C, V]),
        Instr::TwoNumber {
            operation,
            target,
            ..
        } => byte_writes(operation, target),
        Instr::Add { registers } => Items::of(&[registers.target.number as u8]),
        Instr::Compare { .. } => Items::of(&[N, Z, C, V]),
        Instr::Blx { .. } => Items::one(LR),
        Instr::Literal { target, .. } => Items::of(&[target.number as u8]),
        Instr::Indexed { access, target, .. } => access_writes(access, target),
        Instr::Offset { access, target, .. } => access_writes(offset_access(access), target),
        Instr::Stack { access, target, .. } => access_writes(word_access(access), target),
        Instr::Address { target, .. } => Items::of(&[target.number as u8]),
        Instr::StackAddress { target, .. } => Items::of(&[target.number as u8]),
        Instr::StackMove { .. } => Items::one(SP),
        Instr::Extend { target, .. } => Items::of(&[target.number as u8]),
        Instr::Reverse { target, .. } => Items::of(&[target.number as u8]),
        Instr::Push { .. } => Items::one(SP),
        Instr::Pop { list } => Items::one(SP).union(registers_in(list.number)),
        Instr::StoreMany { stored } => Items::of(&[stored.base.number as u8]),
        Instr::LoadMany { base, list } => {
            Items::of(&[base.number as u8]).union(registers_in(list.number))
        }
        Instr::Service { .. } => Items::of(&[0, 1, 2, 3, 12]),
        Instr::Call { .. } => Items::one(LR),
        Instr::ReadSpecial { target, .. } => Items::of(&[target.number as u8]),
        _ => Items::none(),
    }
}

/// What an operation on two low registers reads.
fn two_uses(operation: Operation, target: Low, other: Low) -> Items
    ensures { (x : ℕ) → has result.bits x ≡ one_of x (two_uses operation target.number other.number) }
{
    let target = target.number as u8;
    let other = other.number as u8;
    match operation {
        Operation::Lsl
        | Operation::Lsr
        | Operation::Asr
        | Operation::Adc
        | Operation::Sbc
        | Operation::Ror => Items::of(&[target, other, C]),
        Operation::Rsb | Operation::Mvn => Items::of(&[other]),
        _ => Items::of(&[target, other]),
    }
}

/// What an operation on two low registers writes.
fn two_writes(operation: Operation, target: Low) -> Items
    ensures { (x : ℕ) → has result.bits x ≡ one_of x (two_writes operation target.number) }
{
    let target = target.number as u8;
    match operation {
        Operation::Lsl | Operation::Lsr | Operation::Asr | Operation::Ror => {
            Items::of(&[target, N, Z, C])
        }
        Operation::Adc | Operation::Sbc | Operation::Rsb => Items::of(&[target, N, Z, C, V]),
        Operation::Cmp | Operation::Cmn => Items::of(&[N, Z, C, V]),
        Operation::Tst => Items::of(&[N, Z]),
        _ => Items::of(&[target, N, Z]),
    }
}

/// What an operation on a low register and a number reads.
fn byte_uses(operation: ByteOperation, target: Low) -> Items
    ensures { (x : ℕ) → has result.bits x ≡ one_of x (byte_uses operation target.number) }
{
    match operation {
        ByteOperation::Mov => Items::none(),
        ByteOperation::Cmp => Items::of(&[target.number as u8]),
        ByteOperation::Add => Items::of(&[target.number as u8]),
        ByteOperation::Sub => Items::of(&[target.number as u8]),
    }
}

/// What an operation on a low register and a number writes.
fn byte_writes(operation: ByteOperation, target: Low) -> Items
    ensures { (x : ℕ) → has result.bits x ≡ one_of x (byte_writes operation target.number) }
{
    match operation {
        ByteOperation::Mov => Items::of(&[target.number as u8, N, Z]),
        ByteOperation::Cmp => Items::of(&[N, Z, C, V]),
        ByteOperation::Add => Items::of(&[target.number as u8, N, Z, C, V]),
        ByteOperation::Sub => Items::of(&[target.number as u8, N, Z, C, V]),
    }
}

/// The access by register that loads or stores the same unit.
pub fn offset_access(access: OffsetAccess) -> Access
    ensures { result ≡ offset_access access }
{
    match access {
        OffsetAccess::Str => Access::Str,
        OffsetAccess::Ldr => Access::Ldr,
        OffsetAccess::Strb => Access::Strb,
        OffsetAccess::Ldrb => Access::Ldrb,
        OffsetAccess::Strh => Access::Strh,
        OffsetAccess::Ldrh => Access::Ldrh,
    }
}

/// The access by register that loads or stores a word in the same direction.
pub fn word_access(access: WordAccess) -> Access
    ensures { result ≡ word_access access }
{
    match access {
        WordAccess::Str => Access::Str,
        WordAccess::Ldr => Access::Ldr,
    }
}

/// What a load or a store reads besides its address.
fn access_uses(access: Access, target: Low) -> Items
    ensures { (x : ℕ) → has result.bits x ≡ one_of x (access_uses access target.number) }
{
    match access {
        Access::Str => Items::of(&[target.number as u8]),
        Access::Strh => Items::of(&[target.number as u8]),
        Access::Strb => Items::of(&[target.number as u8]),
        Access::Ldrsb => Items::none(),
        Access::Ldr => Items::none(),
        Access::Ldrh => Items::none(),
        Access::Ldrb => Items::none(),
        Access::Ldrsh => Items::none(),
    }
}

/// What a load or a store writes.
fn access_writes(access: Access, target: Low) -> Items
    ensures { (x : ℕ) → has result.bits x ≡ one_of x (access_writes access target.number) }
{
    match access {
        Access::Str => Items::none(),
        Access::Strh => Items::none(),
        Access::Strb => Items::none(),
        Access::Ldrsb => Items::of(&[target.number as u8]),
        Access::Ldr => Items::of(&[target.number as u8]),
        Access::Ldrh => Items::of(&[target.number as u8]),
        Access::Ldrb => Items::of(&[target.number as u8]),
        Access::Ldrsh => Items::of(&[target.number as u8]),
    }
}

/// The flags that a condition reads.
fn condition_uses(condition: Condition) -> Items
    ensures { (x : ℕ) → has result.bits x ≡ one_of x (condition_uses condition) }
{
    match condition {
        Condition::Eq => Items::one(Z),
        Condition::Ne => Items::one(Z),
        Condition::Cs => Items::one(C),
        Condition::Cc => Items::one(C),
        Condition::Mi => Items::one(N),
        Condition::Pl => Items::one(N),
        Condition::Vs => Items::one(V),
        Condition::Vc => Items::one(V),
        Condition::Hi => Items::of(&[Z, C]),
        Condition::Ls => Items::of(&[Z, C]),
        Condition::Ge => Items::of(&[N, V]),
        Condition::Lt => Items::of(&[N, V]),
        Condition::Gt => Items::of(&[N, Z, V]),
        Condition::Le => Items::of(&[N, Z, V]),
    }
}

/// The low registers of a list.
fn registers_in(list: u32) -> Items
    requires { list < 512 }
    ensures { (x : ℕ) → has result.bits x ≡ one_of x (registers_in list) }
{
    Items { bits: list % 256 }
}

/// What PUSH stores.
fn pushed(list: u32) -> Items
    requires { list < 512 }
    ensures { (x : ℕ) → has result.bits x ≡ one_of x (pushed list) }
{
    if list >= 256 {
        registers_in(list).union(Items::one(LR))
    } else {
        registers_in(list)
    }
}
