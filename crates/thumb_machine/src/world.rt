//! What the runs of listings and of images share: the state that instructions change, and what each place supplies to its instruction.
ghost use Rattle.std.specs.Prelude.{◌≡◌, ◌<◌, ◌==◌, ◌%◌, [], ◌∷◌, List, Some, map, if◌then◌else◌};
ghost use Rattle.thumb_model.specs.States.{ends, tells, puts, registers_left, Left, On};
ghost use Rattle.thumb_model.specs.Acts.{holds, jumps, branches};
ghost use Rattle.thumb_machine.specs.declared.answers.Answer.{Answer};
ghost use Rattle.thumb_machine.specs.Registers.{values_of};
ghost use Rattle.thumb_machine.specs.Memory.{memory_of};
ghost use Rattle.thumb_machine.specs.Outside.{event_of};
ghost use Rattle.thumb_machine.specs.Acting.{Acts, Changes, landing_of, target_of};
ghost use Rattle.thumb_machine.specs.Stages.{end_of};

use crate::event::Event;
use crate::memory::Memory;
use crate::registers::Registers;
use std::alloc::AllocError;
use thumb_instr::Condition;

/// The state of a run, but for its place and its answers.
#[derive(Drop)]
pub struct World {
    pub registers: Registers,
    pub memory: Memory,
    pub events: Vec<Event>,
}

/// How a run ended.
#[derive(Clone, Copy, Debug, PartialEq, Eq)]
pub enum End {
    /// It left the listing.
    Left,
    /// An access was unaligned.
    Fault,
    /// A branch led nowhere.
    Astray,
    /// No instruction was there.
    Fell,
}

/// Where a run goes on after an instruction.
#[derive(Clone, Copy, Debug, PartialEq, Eq)]
pub enum Continuation {
    /// Behind the instruction.
    On,
    /// At the instruction again, for want of answers.
    Stay,
    /// At a place, or at an address of an image.
    To { at: u32 },
    /// Nowhere.
    Over { end: End },
}

/// Where a direct branch goes.
#[derive(Clone, Copy, Debug, PartialEq, Eq)]
pub enum Target {
    /// To a place, or to an address of an image.
    Inside { at: u32 },
    /// Out of the listing, to a word.
    External { word: u32 },
}

/// Where an indirect branch to a word goes.
#[derive(Clone, Copy, Debug, PartialEq, Eq)]
pub enum Landing {
    /// To a place, or to an address of an image.
    Goes { at: u32 },
    /// Out of the listing.
    Leaves,
    /// Nowhere.
    Strays,
}

/// What a place supplies to its instruction, beside where words land: the target of a direct branch, the value that a literal load or ADR gets, and
/// the word of the return point of a call.
#[derive(Clone, Copy, Debug, PartialEq, Eq)]
pub struct Around {
    pub target: Target,
    pub literal: u32,
    pub link: u32,
}

/// What decides where words land, that is where indirect branches go: a listing under a naming, or an image.
pub trait Lands {
    ghost use Rattle.std.specs.Prelude.{◌≡◌, ℕ};
    ghost use Rattle.thumb_model.specs.States.{Landing as Lands};
    ghost use Rattle.thumb_machine.specs.Acting.{landing_of};

    ghost lands: { Self → ℕ → Lands };

    /// Where an indirect branch to a word goes.
    fn lands(&self, word: u32) -> Landing
        ensures { landing_of result ≡ lands self.now word };
}

/// Whether an address is a multiple of a size.
pub(crate) fn is_aligned(address: u32, size: u32) -> bool
    requires { 0 < size }
    ensures { result ≡ (address % size == 0) }
{
    address % size == 0
}

impl World {
    /// The value of a register, of r0 to r12, sp as 13 and lr as 14.
    pub(crate) fn get(&self, register: u32) -> u32
        requires { register < 15 }
        ensures { result ≡ values_of self.now.registers register }
    {
        self.registers.get(register)
    }

    /// Whether a condition holds: the manual's ConditionHolds.
    fn holds(&self, condition: Condition) -> bool
        ensures { result ≡ holds condition (values_of self.now.registers) }
    {
        self.registers.holds(condition)
    }

    /// The event of leaving the listing to a word.
    pub(crate) fn left_by(&self, word: u32) -> Event
        ensures { event_of result ≡ Left word (map (values_of self.now.registers) registers_left) }
    {
        let r = &self.registers.r;
        Event::Left {
            word,
            registers: [
                r[0], r[1], r[2], r[3], r[4], r[5], r[6], r[7], r[8], r[9], r[10], r[11], r[13],
                r[14],
            ],
        }
    }

    /// Adds an event.
    pub(crate) fn tell(&mut self, event: Event) -> Result<(), AllocError>
        ensures told { Changes [] (memory_of self.old.memory) (event_of event ∷ []) self.old self.new result }
        ensures memory { self.new.memory ≡ self.old.memory }
    {
        self.events.push(event)?;
        Ok(())
    }

    /// Adds an event and goes on.
    pub(crate) fn tell_on(&mut self, event: Event) -> Result<Continuation, AllocError>
        ensures { (left : List Answer) → Acts (tells (event_of event)) self.old left self.new left result }
    {
        self.tell(event)?;
        Ok(Continuation::On)
    }

    /// Ends the run by an event.
    pub(crate) fn finish(&mut self, event: Event, end: End) -> Result<Continuation, AllocError>
        requires { end_of (event_of event) ≡ Some end }
        ensures { (left : List Answer) → Acts (ends (event_of event)) self.old left self.new left result }
    {
        self.tell(event)?;
        Ok(Continuation::Over { end })
    }

    /// Ends the run by leaving the listing to a word.
    fn leave(&mut self, word: u32) -> Result<Continuation, AllocError>
        ensures { (left : List Answer) → Acts (ends (Left word (map (values_of self.old.registers) registers_left))) self.old left self.new left result }
    {
        let event = self.left_by(word);
        self.finish(event, End::Left)
    }

    /// Branches by a word, given where it lands.
    pub(crate) fn branch(&mut self, landing: Landing, word: u32) -> Result<Continuation, AllocError>
        ensures { (left : List Answer) → Acts (branches (landing_of landing) word) self.old left self.new left result }
    {
        match landing {
            Landing::Goes { at } => Ok(Continuation::To { at }),
            Landing::Leaves => self.leave(word),
            Landing::Strays => self.finish(Event::Astray { word }, End::Astray),
        }
    }

    /// Branches to a target.
    pub(crate) fn jump(&mut self, target: Target) -> Result<Continuation, AllocError>
        ensures { (left : List Answer) → Acts (jumps (target_of target)) self.old left self.new left result }
    {
        match target {
            Target::Inside { at } => Ok(Continuation::To { at }),
            Target::External { word } => self.leave(word),
        }
    }

    /// Branches to a target where a condition holds, and goes on where it doesn't.
    pub(crate) fn jump_if(
        &mut self,
        condition: Condition,
        target: Target,
    ) -> Result<Continuation, AllocError>
        ensures { (left : List Answer) → Acts (λ w. if holds condition w.values then jumps (target_of target) w else puts [] On w) self.old left self.new left result }
    {
        if !self.holds(condition) {
            return Ok(Continuation::On);
        }
        self.jump(target)
    }
}
