//! The registers that an instruction names, and renaming them, so that one table entry serves for every choice of registers.
ghost use Rattle.std.specs.Prelude.{◌≡◌, ◌+◌, ◌<◌, ◌≤◌, ◌++◌, true, length, map, slice_get};
ghost use Rattle.thumb_instr.specs.Window.{named_by, named, AreBelow, low_under, wide_or, reg_under, both_under, renamed, is_in_window};

use crate::apart::parts;
use crate::instr::Instr;
use crate::role::{Role, roles};
use crate::within::{Low, NotBothSp, Reg};
use arrayvec::ArrayVec;

/// The registers found so far, and the operand with this role where it is a register.
fn and_named(found: ArrayVec<Low, 3>, role: Role, number: u32) -> ArrayVec<Low, 3>
    requires room { length found.items < 3 }
    requires low { AreBelow 8 (named_by role number) }
    ensures found { map (λ r. r.number) result.items ≡ map (λ r. r.number) found.items ++ named_by role number }
    ensures few { length result.items ≤ length found.items + 1 }
{
    match role {
        Role::Register(_, _) => {
            let mut more = found;
            more.push(Low::of(number));
            more
        }
        _ => found,
    }
}

/// The registers that an instruction of a window names, in the order of its canonical text. A register named twice is listed twice.
pub fn registers_of(instr: &Instr) -> ArrayVec<Low, 3>
    requires { is_in_window instr.now ≡ true }
    ensures { map (λ r. r.number) result.items ≡ named instr.now }
{
    let parts = parts(instr);
    let roles = roles(parts.kind);
    let found = and_named(ArrayVec::new(), roles.first, parts.first);
    let found = and_named(found, roles.second, parts.second);
    and_named(found, roles.third, parts.third)
}

/// The register that a map has for the register of this number, if any.
fn mapped(map: &[Low], number: u32) -> Option<Low>
    ensures { result ≡ slice_get map.now number }
{
    map.get(number as usize).copied()
}

/// The register that a map gives in place of one: its n-th entry stands for register n, and registers beyond its end stay.
fn low_under(map: &[Low], register: Low) -> Low
    ensures { result ≡ low_under map.now register }
{
    match mapped(map, register.number) {
        Some(other) => other,
        None => register,
    }
}

/// The low register as a general one where there is one, else `register`.
fn wide_or(low: Option<Low>, register: Reg) -> Reg
    ensures { result ≡ wide_or low register }
{
    match low {
        Some(other) => Reg::of(other.number),
        None => register,
    }
}

/// The register that a map gives in place of one.
fn reg_under(map: &[Low], register: Reg) -> Reg
    ensures { result ≡ reg_under map.now register }
{
    wide_or(mapped(map, register.number), register)
}

/// The two registers of an `add`, renamed by a map.
fn both_under(map: &[Low], registers: NotBothSp) -> NotBothSp
    ensures { result ≡ both_under map.now registers }
{
    let target = reg_under(map, registers.target);
    let source = reg_under(map, registers.source);
    NotBothSp { target, source }
}

/// An instruction renamed by a map, whose n-th entry stands for register n; registers beyond its end stay.
/// An instruction whose kind can't be in a window stays as it is.
pub fn renamed(instr: &Instr, map: &[Low]) -> Instr
    ensures { result ≡ renamed map.now instr.now }
{
    match *instr {
        Instr::Mov { target, source } => Instr::Mov {
            target: reg_under(map, target),
            source: reg_under(map, source),
        },
        Instr::Three {
            sum,
            target,
            left,
            right,
        } => Instr::Three {
            sum,
            target: low_under(map, target),
            left: low_under(map, left),
            right: low_under(map, right),
        },
        Instr::Two {
            operation,
            target,
            other,
        } => Instr::Two {
            operation,
            target: low_under(map, target),
            other: low_under(map, other),
        },
        Instr::Movs { target, source } => Instr::Movs {
            target: low_under(map, target),
            source: low_under(map, source),
        },
        Instr::ShiftLeft {
            target,
            source,
            amount,
        } => Instr::ShiftLeft {
            target: low_under(map, target),
            source: low_under(map, source),
            amount,
        },
        Instr::ShiftRight {
            shift,
            target,
            source,
            amount,
        } => Instr::ShiftRight {
            shift,
            target: low_under(map, target),
            source: low_under(map, source),
            amount,
        },
        Instr::ThreeNumber {
            sum,
            target,
            source,
            number,
        } => Instr::ThreeNumber {
            sum,
            target: low_under(map, target),
            source: low_under(map, source),
            number,
        },
        Instr::TwoNumber {
            operation,
            target,
            number,
        } => Instr::TwoNumber {
            operation,
            target: low_under(map, target),
            number,
        },
        Instr::Add { registers } => Instr::Add {
            registers: both_under(map, registers),
        },
        Instr::Extend {
            extension,
            target,
            source,
        } => Instr::Extend {
            extension,
            target: low_under(map, target),
            source: low_under(map, source),
        },
        Instr::Reverse {
            reversal,
            target,
            source,
        } => Instr::Reverse {
            reversal,
            target: low_under(map, target),
            source: low_under(map, source),
        },
        _ => *instr,
    }
}
