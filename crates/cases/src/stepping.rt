//! Cases of steps: `step HALFWORD R0 R1 R2 R3 NZCV`.
ghost use Rattle.std.specs.Prelude.{◌≡◌, true, map, IsTrue, IfSome};
ghost use Rattle.thumb_instr.specs.Window.{is_in_window, named, AreBelow};

use crate::case::Case;
use thumb_instr::{Instr, Low, in_window, registers_of};
use thumb_table::decode;
use window_exec::{WState, step};

/// Whether all registers are among r0 to r3.
fn are_first_four(registers: &[Low]) -> bool
    ensures { IsTrue result → AreBelow 4 (map (λ r. r.number) registers.now) }
{
    match registers {
        [first] => first.number < 4,
        [first, second] => first.number < 4 && second.number < 4,
        [first, second, third] => first.number < 4 && second.number < 4 && third.number < 4,
        _ => false,
    }
}

/// The instruction that a halfword encodes, if it may stand in a window and names only r0 to r3.
fn window_instr(halfword: u16) -> Option<Instr>
    ensures window { IfSome result (λ i. is_in_window i ≡ true) }
    ensures registers { IfSome result (λ i. AreBelow 4 (named i)) }
{
    let instr = decode(halfword, 0)?;
    if in_window(&instr) && are_first_four(registers_of(&instr).as_slice()) {
        Some(instr)
    } else {
        None
    }
}

/// r0 to r3 and the flags after the instruction.
pub(crate) fn stepped(case: &mut Case<'_>) -> Option<()> {
    let instr = window_instr(case.halfword())?;
    let r = [case.hex(), case.hex(), case.hex(), case.hex()];
    let nzcv = u8::try_from(case.number()).ok()?;
    let after = step(&instr, WState { r, nzcv });
    case.add_hexes(&after.r);
    case.add(after.nzcv);
    Some(())
}
