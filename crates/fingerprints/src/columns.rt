//! Up to eight states side by side, run together through instructions.

ghost use Rattle.std.specs.Prelude.{◌≡◌, ℕ, ◌≤◌, Some, slice_get, map, length, true};
ghost use Rattle.thumb_instr.specs.Window.{is_in_window, named, AreBelow};
ghost use Rattle.thumb_model.specs.Effect.{after, after_all, AreOver};
ghost use Rattle.window_exec.specs.State.{values_of};

use crate::lanes::Lanes;
use crate::stepping::step8;
use std::alloc::{AllocError, Global};
use thumb_instr::Instr;
use window_exec::WState;

/// At most eight states side by side.
#[derive(Clone, Copy)]
pub(crate) struct Column {
    pub(crate) lanes: Lanes,
    pub(crate) count: usize,
    ghost most: { count ≤ 8 },
}

impl Column {
    ghost use Rattle.std.specs.Prelude.{◌≡◌, ◌≤◌, map, length, true};
    ghost use Rattle.thumb_instr.specs.Window.{is_in_window};
    ghost use Rattle.thumb_instr.specs.Window.{named, AreBelow};
    ghost use Rattle.thumb_model.specs.Effect.{after, after_all};
    ghost use Rattle.thumb_model.specs.Effect.{AreOver};
    ghost use Rattle.window_exec.specs.State.{values_of};
    ghost use Rattle.fingerprints.specs.Columns.{states_of};

    /// A column of the given states, from lane 0 on.
    pub(crate) fn of(states: &[WState]) -> Column
        requires { length states.now ≤ 8 }
        ensures { states_of result ≡ map values_of states.now }
    {
        Column {
            lanes: Lanes::of(&eight_of(states)),
            count: states.len(),
        }
    }

    /// The states after an instruction.
    #[inline(always)]
    pub(crate) fn after(&self, instr: &Instr) -> Column
        requires window { is_in_window instr.now ≡ true }
        requires registers { AreBelow 4 (named instr.now) }
        ensures { states_of result ≡ map (after instr.now) (states_of self.now) }
    {
        Column {
            lanes: step8(instr, &self.lanes),
            count: self.count,
        }
    }

    /// The states after a sequence.
    pub(crate) fn run(&self, instrs: &[Instr]) -> Column
        requires { AreOver 4 instrs.now }
        ensures { states_of result ≡ map (after_all instrs.now) (states_of self.now) }
    {
        let mut column = *self;
        for instr in instrs {
            column = column.after(instr);
        }
        column
    }
}

/// The states, filled up to eight with states of zeros.
fn eight_of(states: &[WState]) -> [WState; 8]
    requires { length states.now ≤ 8 }
    ensures { (i : ℕ) (s : WState) → slice_get states.now i ≡ Some s → slice_get result i ≡ Some s }
{
    let mut eight = [WState { r: [0; 4], nzcv: 0 }; 8];
    for (i, state) in states.iter().enumerate() {
        eight[i] = *state;
    }
    eight
}
