//! Sequences of instructions on one state, and whether a state tells two of them apart: what the audit and the learner call most.
ghost use Rattle.std.specs.Prelude.{◌≡◌, ◌<◌, ◌≤◌, ◌↔◌, ◌==◌, ◌&&◌, not, IsTrue};
ghost use Rattle.thumb_instr.specs.Items.{has};
ghost use Rattle.thumb_model.specs.Effect.{after_all, AreOver};
ghost use Rattle.window_exec.specs.State.{values_of, Differ, Tells};

use crate::state::WState;
use crate::stepping::step;
use thumb_instr::items::{C, N, V, Z};
use thumb_instr::{Mask, Seq};

/// The registers and flags after a sequence of instructions that may stand in a window and name r0 to r3 alone, from the first to the last.
/// The bits above the flags are 0.
pub fn run_seq(seq: &Seq, mut state: WState) -> WState
    requires { AreOver 4 seq.now }
    ensures values { values_of result ≡ after_all seq.now (values_of state) }
    ensures flags { result.nzcv < 16 }
{
    for instr in seq.as_slice() {
        state = step(instr, state);
    }
    state.with_flags_alone()
}

/// Whether some item of the mask differs after the two sequences, each run from the state. Both are of instructions that may stand in a
/// window and name r0 to r3 alone.
pub fn tells(state: &WState, left: &Seq, right: &Seq, mask: Mask) -> bool
    requires left { AreOver 4 left.now }
    requires right { AreOver 4 right.now }
    ensures { IsTrue result ↔ Tells (values_of state.now) left.now right.now mask.items.bits }
{
    differ(&run_seq(left, *state), &run_seq(right, *state), mask)
}

/// Whether some item of the mask differs between the states.
pub fn differ(left: &WState, right: &WState, mask: Mask) -> bool
    ensures { IsTrue result ↔ Differ (values_of left.now) (values_of right.now) mask.items.bits }
{
    differ_in_register(left, right, mask, 0)
        | differ_in_register(left, right, mask, 1)
        | differ_in_register(left, right, mask, 2)
        | differ_in_register(left, right, mask, 3)
        | differ_in_flag(left, right, mask, N)
        | differ_in_flag(left, right, mask, Z)
        | differ_in_flag(left, right, mask, C)
        | differ_in_flag(left, right, mask, V)
}

/// Whether a register is in the mask and differs between the states.
fn differ_in_register(left: &WState, right: &WState, mask: Mask, register: u8) -> bool
    requires { register < 4 }
    ensures { result ≡ (has mask.items.bits register && not (values_of left.now register == values_of right.now register)) }
{
    mask.has(register) && left.get(u32::from(register)) != right.get(u32::from(register))
}

/// Whether a flag is in the mask and differs between the states.
fn differ_in_flag(left: &WState, right: &WState, mask: Mask, flag: u8) -> bool
    requires first { 15 ≤ flag }
    requires last { flag < 19 }
    ensures { result ≡ (has mask.items.bits flag && not (values_of left.now flag == values_of right.now flag)) }
{
    mask.has(flag) && left.flag(flag) != right.flag(flag)
}
