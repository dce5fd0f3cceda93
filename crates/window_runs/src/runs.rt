//! Runs of instructions that may stand in a window: no label and no alignment line lies inside.
ghost use Rattle.std.specs.Prelude.{◌≡◌, ◌≤◌, ◌<◌, ◌^◌, drop, true};
ghost use Rattle.window_runs.specs.Runs.{instr_at, run};

use crate::rows::WindowPlace;
use thumb_instr::{Instr, Seq};

/// The instruction at a place with which a run goes on, or begins if `begins`.
fn instr_at(rows: &[WindowPlace], at: usize, begins: bool) -> Option<Instr>
    ensures { result ≡ instr_at begins (drop at rows.now) }
{
    match rows.get(at) {
        None => None,
        Some(row) => {
            if begins || row.is_joined {
                row.instr
            } else {
                None
            }
        }
    }
}

/// The instructions that stand one behind the other from a place on and may stand in a window, with no label and no alignment line between them:
/// as many as there are, and at most `most`.
pub fn run(rows: &[WindowPlace], place: usize, most: usize) -> Seq
    requires place { place < 2 ^ 32 }
    requires most { most ≤ 5 }
    ensures { result ≡ run true most (drop place rows.now) }
{
    let mut seq = Seq::new();
    while seq.len() < most {
        let count = seq.len();
        match instr_at(rows, place + count, count == 0) {
            None => return seq,
            Some(instr) => seq.push(instr),
        }
    }
    seq
}
