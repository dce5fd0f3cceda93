//! A run of a machine for `trace`, of at most `most` steps: it also ends when a step needs more answers than the outside has left.
ghost use Rattle.std.specs.Prelude.{◌≡◌, false, IfOk};
ghost use Rattle.thumb_model.specs.Listing.{Code};
ghost use Rattle.thumb_model.specs.Naming.{Naming};
ghost use Rattle.thumb_model.specs.Steps.{step, times};
ghost use Rattle.thumb_model.specs.Same.{has_ended};
ghost use Rattle.thumb_machine.specs.Outside.{events_of};
ghost use Rattle.thumb_machine.specs.Positions.{at_of, state_of};
ghost use Rattle.thumb_machine.specs.Running.{IsProgram};
ghost use Rattle.audit_cli.specs.Trace.{IsRun};

use std::alloc::AllocError;
use thumb_machine::{Answers, Machine, Stage};

/// Runs a machine until `most` steps were taken, a step ended the run, or a step needs more answers. Returns how many were taken and how the run then stands.
pub(crate) fn run(
    machine: &mut Machine,
    answers: &mut Answers,
    most: u32,
) -> Result<(u32, Stage), AllocError>
    requires { has_ended (at_of machine.old.at) ≡ false }
    ensures run { IfOk result (λ r. (names : Naming) (code : Code) → IsProgram names code machine.old.program → IsRun names code (state_of machine.old.world machine.old.at answers.old) most r.0 r.1) }
    ensures events { IfOk result (λ r. (names : Naming) (code : Code) → IsProgram names code machine.old.program →
        events_of machine.new.world.events.items ≡ (times (step names code) r.0 (state_of machine.old.world machine.old.at answers.old)).events) }
{
    for taken in 0..most {
        match machine.step(answers)? {
            Stage::Going => {}
            Stage::Wants => return Ok((taken, Stage::Wants)),
            stage => return Ok((taken + 1, stage)),
        }
    }
    Ok((most, Stage::Going))
}
