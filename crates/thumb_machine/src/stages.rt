//! The words that name how a step ended, for what prints runs.
ghost use Rattle.std.specs.Prelude.{◌≡◌};
ghost use Rattle.thumb_machine.specs.Stages.{stage_word};

use crate::Stage;

/// The word for how a run stands.
pub fn stage_word(stage: Stage) -> &'static str
    ensures { result.now ≡ stage_word stage }
{
    match stage {
        Stage::Going => "going",
        Stage::Left => "left",
        Stage::Fault => "fault",
        Stage::Astray => "astray",
        Stage::Fell => "fell",
        Stage::Wants => "wants",
    }
}
