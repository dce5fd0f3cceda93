//! Takes instructions apart into a kind, registers and numbers, so that codes, texts and the search for named registers can each be a table of rows.
ghost use Rattle.std.specs.Prelude.{◌≡◌};
ghost use Rattle.thumb_instr.specs.Parts.{of, parts_of};

use crate::instr::Instr;
use crate::kind::{Kind, Parts};

fn of(kind: Kind, first: u32, second: u32, third: u32) -> Parts
    ensures { result ≡ of kind first second third }
{
    Parts {
        kind,
        first,
        second,
        third,
    }
}

/// The kind, registers and numbers of an instruction.
pub fn parts(instr: &Instr) -> Parts
    ensures { result ≡ parts_of instr.now }
{
    match *instr {
        Instr::Mov { target, source } => of(Kind::Mov, target.number, source.number, 0),
        Instr::Three {
            sum,
            target,
            left,
            right,
        } => of(Kind::Three(sum), target.number, left.number, right.number),
        Instr::Two {
            operation,
            target,
            other,
        } => of(Kind::Two(operation), target.number, other.number, 0),
        Instr::Bx { source } => of(Kind::Bx, source.number, 0, 0),
        Instr::Movs { target, source } => of(Kind::Movs, target.number, source.number, 0),
        Instr::ShiftLeft {
            target,
            source,
            amount,
        } => of(Kind::ShiftLeft, target.number, source.number, amount.number),
        Instr::ShiftRight {
            shift,
            target,
            source,
            amount,
        } => of(
            Kind::ShiftRight(shift),
            target.number,
            source.number,
            amount.number,
        ),
        Instr::ThreeNumber {
            sum,
            target,
            source,
            number,
        } => of(
            Kind::ThreeNumber(sum),
            target.number,
            source.number,
            number.number,
        ),
        Instr::TwoNumber {
            operation,
            target,
            number,
        } => of(Kind::TwoNumber(operation), target.number, number.number, 0),
        Instr::Add { registers } => of(
            Kind::Add,
            registers.target.number,
            registers.source.number,
            0,
        ),
        Instr::Compare { registers } => of(
            Kind::Compare,
            registers.left.number,
            registers.right.number,
            0,
        ),
        Instr::Blx { source } => of(Kind::Blx, source.number, 0, 0),
        Instr::Literal { target, distance } => of(Kind::Literal, target.number, distance.number, 0),
        Instr::Indexed {
            access,
            target,
            base,
            index,
        } => of(
            Kind::Indexed(access),
            target.number,
            base.number,
            index.number,
        ),
        Instr::Offset {
            access,
            target,
            base,
            offset,
        } => of(
            Kind::Offset(access),
            target.number,
            base.number,
            offset.number,
        ),
        Instr::Stack {
            access,
            target,
            offset,
        } => of(Kind::Stack(access), target.number, offset.number, 0),
        Instr::Address { target, distance } => of(Kind::Address, target.number, distance.number, 0),
        Instr::StackAddress { target, offset } => of(
            Kind::StackAddress,
            target.number,
            offset.number,
            0,
        ),
        Instr::StackMove { sum, offset } => of(Kind::StackMove(sum), offset.number, 0, 0),
        Instr::Extend {
            extension,
            target,
            source,
        } => of(Kind::Extend(extension), target.number, source.number, 0),
        Instr::Reverse {
            reversal,
            target,
            source,
        } => of(Kind::Reverse(reversal), target.number, source.number, 0),
        Instr::Push { list } => of(Kind::Push, list.number, 0, 0),
        Instr::Pop { list } => of(Kind::Pop, list.number, 0, 0),
        Instr::StoreMany { stored } => of(
            Kind::StoreMany,
            stored.base.number,
            stored.list.number,
            0,
        ),
        Instr::LoadMany { base, list } => of(Kind::LoadMany, base.number, list.number, 0),
        Instr::Breakpoint { number } => of(Kind::Breakpoint, number.number, 0, 0),
        Instr::Service { number } => of(Kind::Service, number.number, 0, 0),
        Instr::Hint { hint } => of(Kind::Hint(hint), 0, 0, 0),
        Instr::ChangeState { interrupts } => of(Kind::ChangeState(interrupts), 0, 0, 0),
        Instr::BranchIf {
            condition,
            distance,
        } => of(Kind::BranchIf(condition), distance.field, 0, 0),
        Instr::Branch { distance } => of(Kind::Branch, distance.field, 0, 0),
        Instr::Call { distance } => of(Kind::Call, distance.field, 0, 0),
        Instr::Barrier { barrier } => of(Kind::Barrier(barrier), 0, 0, 0),
        Instr::ReadSpecial { target, special } => of(
            Kind::ReadSpecial(special),
            target.number,
            0,
            0,
        ),
        Instr::WriteMask { source } => of(Kind::WriteMask, source.number, 0, 0),
    }
}
