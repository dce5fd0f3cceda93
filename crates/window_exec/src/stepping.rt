//! One instruction on one state of a window.
ghost use Rattle.std.specs.Prelude.{◌≡◌, ◌<◌, true};
ghost use Rattle.thumb_instr.specs.Window.{is_in_window, named, AreBelow};
ghost use Rattle.thumb_model.specs.Effect.{after};
ghost use Rattle.window_exec.specs.State.{values_of};

use crate::computing::compute;
use crate::state::WState;
use thumb_instr::Instr;

/// The registers and flags after an instruction that may stand in a window and names r0 to r3 alone.
/// The bits above the flags are 0.
#[tactic(auto, using(crate::proofs::WindowForms::window_computes))]
pub fn step(instr: &Instr, mut state: WState) -> WState
    requires window { is_in_window instr.now ≡ true }
    requires registers { AreBelow 4 (named instr.now) }
    ensures values { values_of result ≡ after instr.now (values_of state) }
    ensures flags { result.nzcv < 16 }
{
    compute(&mut state, instr);
    state.with_flags_alone()
}
