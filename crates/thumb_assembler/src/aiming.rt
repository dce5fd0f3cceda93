//! Sets the distances of branches and literal loads, which a listing gives as names.
ghost use Rattle.std.specs.Prelude.{◌≡◌, ◌+◌, ◌*◌, ◌%◌, ◌<◌, ◌≤◌, ◌^◌, Some, None};
ghost use Rattle.thumb_model.specs.Layout.{aim_fault, branch_fault, distance as distance_of, literal_base, literal_fault};
ghost use Rattle.thumb_assembler.specs.Bytes.{Aims};
ghost use Rattle.thumb_instr.specs.Items.{bytes_of};

use thumb_instr::{Byte, Distance, Instr};

/// The distance of a literal in words, from the instruction's address + 4, rounded down to a multiple of 4.
fn words_to(at: u32, to: u32) -> Byte
    requires reached { literal_fault at (Some to) 0 ≡ None }
    requires in_code { at ≤ 2 ^ 29 }
    ensures { to ≡ literal_base at + 4 * result.number }
{
    Byte::of((to - (at + 4) / 4 * 4) / 4)
}

/// The distance of a branch from its address + 4 to its target, which its encoding can reach.
fn distance_to<const HALF: u32>(at: u32, to: u32) -> Distance<HALF>
    requires reached { branch_fault HALF at (Some to) ≡ None }
    requires at_even { at % 2 ≡ 0 }
    requires to_even { to % 2 ≡ 0 }
    requires in_code { at ≤ 2 ^ 29 }
    requires half { HALF ≤ 2 ^ 23 }
    ensures { distance_of at to ≡ bytes_of HALF result.field }
{
    match Distance::new(to as i32 - (at as i32 + 4)) {
        Some(distance) => distance,
        None => unreachable!(),
    }
}

/// The instruction at an address with its distance to what it mentions, which must be in reach. An instruction without a distance stays as it is.
pub(crate) fn aimed(instr: &Instr, at: u32, to: u32) -> Instr
    requires reached { aim_fault at instr.now (Some to) 0 ≡ None }
    requires at_even { at % 2 ≡ 0 }
    requires to_even { to % 2 ≡ 0 }
    requires in_code { at ≤ 2 ^ 29 }
    ensures { Aims at to instr.now result }
{
    match *instr {
        Instr::Literal { target, .. } => Instr::Literal {
            target,
            distance: words_to(at, to),
        },
        Instr::Address { target, .. } => Instr::Address {
            target,
            distance: words_to(at, to),
        },
        Instr::BranchIf { condition, .. } => Instr::BranchIf {
            condition,
            distance: distance_to(at, to),
        },
        Instr::Branch { .. } => Instr::Branch {
            distance: distance_to(at, to),
        },
        Instr::Call { .. } => Instr::Call {
            distance: distance_to(at, to),
        },
        other => other,
    }
}
