//! Builds instructions from their kind, registers and numbers, and refuses those that have no encoding: the inverse of `parts`.
ghost use Rattle.std.specs.Prelude.{◌≡◌, ◌<◌, ◌*◌, ◌^◌, ◌&&◌, not, true, false, nat_lt, ◌==◌, ◌↔◌, IsTrue, MatchOption, option_map};
ghost use Rattle.thumb_instr.specs.declared.instr.Instr.{Instr};
ghost use Rattle.thumb_instr.specs.Parts.{parts_of, made, is_within, are_low, are_registers, are_three_low, is_general, low_and, two_low_and, is_stored};

use crate::apart::parts;
use crate::distance::Distance;
use crate::instr::Instr;
use crate::kind::{Kind, Parts};
use crate::within::{General, Low, NotBothLow, NotBothSp, Reg, Stored, Within};

fn within<const LEAST: u32, const END: u32>(number: u32) -> Option<Within<LEAST, END>>
    ensures { MatchOption result (is_within LEAST END number ≡ false) (λ r. (is_within LEAST END number ≡ true) × (r.number ≡ number)) }
{
    Within::new(number)
}

fn general(number: u32) -> Option<General>
    ensures { MatchOption result (is_general number ≡ false) (λ r. (is_general number ≡ true) × (r.number ≡ number)) }
{
    General::new(number)
}

fn two_low(a: u32, b: u32) -> Option<(Low, Low)>
    ensures { MatchOption result (are_low a b ≡ false) (λ r. (are_low a b ≡ true) × (r.0.number ≡ a) × (r.1.number ≡ b)) }
{
    Some((within(a)?, within(b)?))
}

fn two_registers(a: u32, b: u32) -> Option<(Reg, Reg)>
    ensures { MatchOption result (are_registers a b ≡ false) (λ r. (are_registers a b ≡ true) × (r.0.number ≡ a) × (r.1.number ≡ b)) }
{
    Some((within(a)?, within(b)?))
}

fn three_low(a: u32, b: u32, c: u32) -> Option<(Low, Low, Low)>
    ensures { MatchOption result (are_three_low a b c ≡ false) (λ r. (are_three_low a b c ≡ true) × (r.0.number ≡ a) × (r.1.number ≡ b) × (r.2.number ≡ c)) }
{
    let first = within(a)?;
    let (second, third) = two_low(b, c)?;
    Some((first, second, third))
}

fn low_and<const LEAST: u32, const END: u32>(a: u32, n: u32) -> Option<(Low, Within<LEAST, END>)>
    ensures { MatchOption result (low_and LEAST END a n ≡ false) (λ r. (low_and LEAST END a n ≡ true) × (r.0.number ≡ a) × (r.1.number ≡ n)) }
{
    Some((within(a)?, within(n)?))
}

fn two_low_and<const LEAST: u32, const END: u32>(
    a: u32,
    b: u32,
    n: u32,
) -> Option<(Low, Low, Within<LEAST, END>)>
    ensures { MatchOption result (two_low_and LEAST END a b n ≡ false) (λ r. (two_low_and LEAST END a b n ≡ true) × (r.0.number ≡ a) × (r.1.number ≡ b) × (r.2.number ≡ n)) }
{
    let first = within(a)?;
    let (second, number) = low_and(b, n)?;
    Some((first, second, number))
}

fn not_both_sp(a: u32, b: u32) -> Option<NotBothSp>
    ensures { MatchOption result ((are_registers a b && not (a == 13 && b == 13)) ≡ false) (λ r. ((are_registers a b && not (a == 13 && b == 13)) ≡ true) × (r.target.number ≡ a) × (r.source.number ≡ b)) }
{
    let (target, source) = two_registers(a, b)?;
    NotBothSp::new(target, source)
}

fn not_both_low(a: u32, b: u32) -> Option<NotBothLow>
    ensures { MatchOption result ((are_registers a b && not (nat_lt a 8 && nat_lt b 8)) ≡ false) (λ r. ((are_registers a b && not (nat_lt a 8 && nat_lt b 8)) ≡ true) × (r.left.number ≡ a) × (r.right.number ≡ b)) }
{
    let (left, right) = two_registers(a, b)?;
    NotBothLow::new(left, right)
}

fn stored(a: u32, b: u32) -> Option<Stored>
    ensures { MatchOption result ((low_and 1 256 a b && is_stored a b) ≡ false) (λ r. ((low_and 1 256 a b && is_stored a b) ≡ true) × (r.base.number ≡ a) × (r.list.number ≡ b)) }
{
    let (base, list) = low_and(a, b)?;
    Stored::new(base, list)
}

fn distance<const HALF: u32>(field: u32) -> Option<Distance<HALF>>
    requires { 2 * HALF < 2 ^ 32 }
    ensures { MatchOption result (is_within 0 (2 * HALF) field ≡ false) (λ r. (is_within 0 (2 * HALF) field ≡ true) × (r.field ≡ field)) }
{
    if field < 2 * HALF {
        Some(Distance::of(field))
    } else {
        None
    }
}

/// The instruction of a kind with these registers and numbers, in the order of its text; numbers that the kind doesn't have are ignored.
/// None where no instruction has them.
pub fn made(kind: Kind, a: u32, b: u32, c: u32) -> Option<Instr>
    ensures { option_map parts_of result ≡ made kind a b c }
{
    match kind {
        Kind::Mov => {
            let (target, source) = two_registers(a, b)?;
            Some(Instr::Mov { target, source })
        }
        Kind::Three(sum) => {
            let (target, left, right) = three_low(a, b, c)?;
            Some(Instr::Three {
                sum,
                target,
                left,
                right,
            })
        }
        Kind::Two(operation) => {
            let (target, other) = two_low(a, b)?;
            Some(Instr::Two {
                operation,
                target,
                other,
            })
        }
        Kind::Bx => {
            let source = general(a)?;
            Some(Instr::Bx { source })
        }
        Kind::Movs => {
            let (target, source) = two_low(a, b)?;
            Some(Instr::Movs { target, source })
        }
        Kind::ShiftLeft => {
            let (target, source, amount) = two_low_and(a, b, c)?;
            Some(Instr::ShiftLeft {
                target,
                source,
                amount,
            })
        }
        Kind::ShiftRight(shift) => {
            let (target, source, amount) = two_low_and(a, b, c)?;
            Some(Instr::ShiftRight {
                shift,
                target,
                source,
                amount,
            })
        }
        Kind::ThreeNumber(sum) => {
            let (target, source, number) = two_low_and(a, b, c)?;
            Some(Instr::ThreeNumber {
                sum,
                target,
                source,
                number,
            })
        }
        Kind::TwoNumber(operation) => {
            let (target, number) = low_and(a, b)?;
            Some(Instr::TwoNumber {
                operation,
                target,
                number,
            })
        }
        Kind::Add => {
            let registers = not_both_sp(a, b)?;
            Some(Instr::Add { registers })
        }
        Kind::Compare => {
            let registers = not_both_low(a, b)?;
            Some(Instr::Compare { registers })
        }
        Kind::Blx => {
            let source = general(a)?;
            Some(Instr::Blx { source })
        }
        Kind::Literal => {
            let (target, distance) = low_and(a, b)?;
            Some(Instr::Literal { target, distance })
        }
        Kind::Indexed(access) => {
            let (target, base, index) = three_low(a, b, c)?;
            Some(Instr::Indexed {
                access,
                target,
                base,
                index,
            })
        }
        Kind::Offset(access) => {
            let (target, base, offset) = two_low_and(a, b, c)?;
            Some(Instr::Offset {
                access,
                target,
                base,
                offset,
            })
        }
        Kind::Stack(access) => {
            let (target, offset) = low_and(a, b)?;
            Some(Instr::Stack {
                access,
                target,
                offset,
            })
        }
        Kind::Address => {
            let (target, distance) = low_and(a, b)?;
            Some(Instr::Address { target, distance })
        }
        Kind::StackAddress => {
            let (target, offset) = low_and(a, b)?;
            Some(Instr::StackAddress { target, offset })
        }
        Kind::StackMove(sum) => {
            let offset = within(a)?;
            Some(Instr::StackMove { sum, offset })
        }
        Kind::Extend(extension) => {
            let (target, source) = two_low(a, b)?;
            Some(Instr::Extend {
                extension,
                target,
                source,
            })
        }
        Kind::Reverse(reversal) => {
            let (target, source) = two_low(a, b)?;
            Some(Instr::Reverse {
                reversal,
                target,
                source,
            })
        }
        Kind::Push => {
            let list = within(a)?;
            Some(Instr::Push { list })
        }
        Kind::Pop => {
            let list = within(a)?;
            Some(Instr::Pop { list })
        }
        Kind::StoreMany => {
            let stored = stored(a, b)?;
            Some(Instr::StoreMany { stored })
        }
        Kind::LoadMany => {
            let (base, list) = low_and(a, b)?;
            Some(Instr::LoadMany { base, list })
        }
        Kind::Breakpoint => {
            let number = within(a)?;
            Some(Instr::Breakpoint { number })
        }
        Kind::Service => {
            let number = within(a)?;
            Some(Instr::Service { number })
        }
        Kind::Hint(hint) => Some(Instr::Hint { hint }),
        Kind::ChangeState(interrupts) => Some(Instr::ChangeState { interrupts }),
        Kind::BranchIf(condition) => {
            let distance = distance(a)?;
            Some(Instr::BranchIf {
                condition,
                distance,
            })
        }
        Kind::Branch => {
            let distance = distance(a)?;
            Some(Instr::Branch { distance })
        }
        Kind::Call => {
            let distance = distance(a)?;
            Some(Instr::Call { distance })
        }
        Kind::Barrier(barrier) => Some(Instr::Barrier { barrier }),
        Kind::ReadSpecial(special) => {
            let target = general(a)?;
            Some(Instr::ReadSpecial { target, special })
        }
        Kind::WriteMask => {
            let source = general(a)?;
            Some(Instr::WriteMask { source })
        }
    }
}

fn have_same_numbers(one: &Parts, other: &Parts) -> bool
    ensures { IsTrue result ↔ ((one.now.first ≡ other.now.first) × (one.now.second ≡ other.now.second) × (one.now.third ≡ other.now.third)) }
{
    one.first == other.first && one.second == other.second && one.third == other.third
}

/// The instruction of these parts. None exactly where no instruction has them.
pub fn rebuilt(of: &Parts) -> Option<Instr>
    ensures { MatchOption result ((i : Instr) → parts_of i ≡ of.now → ⊥) (λ i. parts_of i ≡ of.now) }
{
    match made(of.kind, of.first, of.second, of.third) {
        None => None,
        Some(instr) => {
            if have_same_numbers(&parts(&instr), of) {
                Some(instr)
            } else {
                None
            }
        }
    }
}
