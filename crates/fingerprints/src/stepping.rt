//! One instruction on eight states: what it computes is defined once, in `window_exec`, for any kind of word.
ghost use Rattle.std.specs.Prelude.{◌≡◌, ℕ, ◌<◌, true};
ghost use Rattle.thumb_instr.specs.Window.{is_in_window, named, AreBelow};
ghost use Rattle.thumb_model.specs.Effect.{after};
ghost use Rattle.fingerprints.specs.Lanes.{values_at};

use crate::lanes::Lanes;
use thumb_instr::Instr;
use window_exec::compute;

/// Each state after an instruction that may stand in a window and names r0 to r3 alone.
#[tactic(auto, using(window_exec::proofs::WindowForms::window_computes))]
pub fn step8(instr: &Instr, lanes: &Lanes) -> Lanes
    requires window { is_in_window instr.now ≡ true }
    requires registers { AreBelow 4 (named instr.now) }
    ensures { (i : ℕ) → i < 8 → values_at result i ≡ after instr.now (values_at lanes.now i) }
{
    let mut after = *lanes;
    compute(&mut after, instr);
    after
}
