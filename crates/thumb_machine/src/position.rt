//! Where a run is, in a listing or in an image, and how a step of it ends.
ghost use Rattle.std.specs.Prelude.{◌≡◌, [], ◌∷◌, ℕ, IfOk, OnErr};
ghost use Rattle.thumb_model.specs.States.{Fell};
ghost use Rattle.thumb_model.specs.Steps.{arrives};
ghost use Rattle.thumb_machine.specs.Memory.{memory_of};
ghost use Rattle.thumb_machine.specs.Acting.{Changes, next_of};
ghost use Rattle.thumb_machine.specs.Positions.{IsStage, LeadsTo, at_of};
ghost use Rattle.thumb_machine.specs.Stages.{stage_of};

use crate::event::Event;
use crate::world::{Continuation, End, World};
use std::alloc::AllocError;

/// Where a run is.
#[derive(Clone, Copy, Debug, PartialEq, Eq)]
pub enum Position {
    /// At a place of a listing, or at an address of an image.
    Here { at: u32 },
    /// At the end of its run.
    Ended { end: End },
}

/// How a step ended.
#[derive(Clone, Copy, Debug, PartialEq, Eq)]
pub enum Stage {
    /// The run goes on.
    Going,
    /// The run left the listing.
    Left,
    /// The run ended by an unaligned access.
    Fault,
    /// The run ended by a branch that leads nowhere.
    Astray,
    /// The run ended where no instruction is.
    Fell,
    /// The step needs more answers than are left, and nothing changed.
    Wants,
}

/// The stage that reports this end.
pub fn stage_of(end: End) -> Stage
    ensures { result ≡ stage_of end }
{
    match end {
        End::Left => Stage::Left,
        End::Fault => Stage::Fault,
        End::Astray => Stage::Astray,
        End::Fell => Stage::Fell,
    }
}

impl Position {
    /// Goes on after an instruction; `following` is where the next one is.
    pub fn arrive(&mut self, following: u32, next: Continuation) -> Stage
        ensures at { (here : ℕ) → self.old ≡ Position.Here here → at_of self.new ≡ arrives here following (next_of next) }
        ensures stage { IsStage result (next_of next) self.new }
        ensures ends { LeadsTo next self.new }
    {
        match next {
            Continuation::On => {
                *self = Position::Here { at: following };
                Stage::Going
            }
            Continuation::Stay => Stage::Wants,
            Continuation::To { at } => {
                *self = Position::Here { at };
                Stage::Going
            }
            Continuation::Over { end } => {
                *self = Position::Ended { end };
                stage_of(end)
            }
        }
    }

    /// Ends the run where no instruction is.
    pub fn fall(&mut self, world: &mut World) -> Result<Stage, AllocError>
        ensures told { Changes [] (memory_of world.old.memory) (Fell ∷ []) world.old world.new result }
        ensures ended { IfOk result (λ s. (s ≡ Stage.Fell) × (self.new ≡ Position.Ended End.Fell)) }
        ensures kept { OnErr result (self.new ≡ self.old) }
    {
        world.tell(Event::Fell)?;
        *self = Position::Ended { end: End::Fell };
        Ok(Stage::Fell)
    }
}
