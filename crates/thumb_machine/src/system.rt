//! Calls, SVC, MRS and hints: instructions that add an event for the outside, and that may take an answer.
ghost use Rattle.std.specs.Prelude.{◌≡◌, ◌<◌, ◌≤◌, [], ◌∷◌, ◌++◌, List, length, map};
ghost use Rattle.thumb_model.specs.Effect.{sp};
ghost use Rattle.thumb_model.specs.States.{Sys, Call, answers_with, handed, served, takes, tells};
ghost use Rattle.thumb_model.specs.Acts.{calls, calls_by, calls_out, hints, interrupts_code, barrier_code, reads_special, special_code};
ghost use Rattle.thumb_machine.specs.declared.answers.Answer.{Answer};
ghost use Rattle.thumb_machine.specs.Registers.{values_of};
ghost use Rattle.thumb_machine.specs.Outside.{brought, event_of};
ghost use Rattle.thumb_machine.specs.Acting.{Acts, landing_of, target_of};

use crate::answers::{Answers, Asked};
use crate::event::Event;
use crate::world::{Continuation, End, Landing, Target, World};
use arrayvec::ArrayVec;
use std::alloc::AllocError;
use thumb_instr::items::LR;
use thumb_instr::{Barrier, HintOperation, Interrupts, Special};

/// The event of a code and up to six values.
pub(crate) fn sys(code: u32, values: &[u32]) -> Event
    requires { length values.now ≤ 6 }
    ensures { event_of result ≡ Sys code values.now }
{
    let mut list = ArrayVec::new();
    for value in values {
        list.push(*value);
    }
    Event::Sys { code, values: list }
}

/// The event code of CPS.
pub(crate) fn interrupts_code(interrupts: Interrupts) -> u32
    ensures { result ≡ interrupts_code interrupts }
{
    match interrupts {
        Interrupts::Enable => 516,
        Interrupts::Disable => 517,
    }
}

/// The event code of a barrier.
pub(crate) fn barrier_code(barrier: Barrier) -> u32
    ensures { result ≡ barrier_code barrier }
{
    match barrier {
        Barrier::Dsb => 518,
        Barrier::Dmb => 519,
        Barrier::Isb => 520,
    }
}

/// The event code of a read of a special register.
pub(crate) fn special_code(special: Special) -> u32
    ensures { result ≡ special_code special }
{
    match special {
        Special::Primask => 521,
        Special::Ipsr => 522,
    }
}

impl World {
    /// Adds the event of a code and up to six values, and goes on.
    pub(crate) fn tell_sys(&mut self, code: u32, values: &[u32]) -> Result<Continuation, AllocError>
        requires { length values.now ≤ 6 }
        ensures { (left : List Answer) → Acts (tells (Sys code values.now)) self.old left self.new left result }
    {
        self.tell_on(sys(code, values))
    }

    /// The event of a call that leaves the listing to a word.
    fn called_by(&self, word: u32) -> Event
        ensures { event_of result ≡ Call word (map (values_of self.now.registers) handed) }
    {
        let r = &self.registers.r;
        Event::Call {
            word,
            arguments: [r[0], r[1], r[2], r[3], r[13]],
        }
    }

    /// The event of SVC by its number.
    fn served_by(&self, number: u32) -> Event
        ensures { event_of result ≡ Sys number (map (values_of self.now.registers) (served ++ (sp ∷ []))) }
    {
        let r = &self.registers.r;
        sys(number, &[r[0], r[1], r[2], r[3], r[12], r[13]])
    }

    /// Adds an event and takes the next answer; stays if there is none.
    fn answered(
        &mut self,
        answers: &mut Answers,
        asked: Asked,
        event: Event,
    ) -> Result<Continuation, AllocError>
        ensures { Acts (λ w. takes (answers_with (brought asked) (event_of event) w) w w.answers) self.old answers.old self.new answers.new result }
    {
        let Some(answer) = answers.next() else {
            return Ok(Continuation::Stay);
        };
        let bytes = answer.bytes.as_slice();
        self.memory.reserve(bytes.len())?;
        self.tell(event)?;
        self.memory.put_bytes(bytes);
        self.registers.answer(asked, answer);
        answers.pass();
        Ok(Continuation::On)
    }

    /// Calls a word outside the listing.
    fn call_out(&mut self, answers: &mut Answers, word: u32) -> Result<Continuation, AllocError>
        ensures { Acts (calls_out word) self.old answers.old self.new answers.new result }
    {
        let event = self.called_by(word);
        self.answered(answers, Asked::Call, event)
    }

    /// Calls a target.
    pub(crate) fn call(
        &mut self,
        answers: &mut Answers,
        target: Target,
        link: u32,
    ) -> Result<Continuation, AllocError>
        ensures { Acts (calls (target_of target) link) self.old answers.old self.new answers.new result }
    {
        match target {
            Target::Inside { at } => {
                self.registers.set(u32::from(LR), link);
                Ok(Continuation::To { at })
            }
            Target::External { word } => self.call_out(answers, word),
        }
    }

    /// Calls by a word, given where it lands.
    pub(crate) fn call_by(
        &mut self,
        answers: &mut Answers,
        landing: Landing,
        word: u32,
        link: u32,
    ) -> Result<Continuation, AllocError>
        ensures { Acts (calls_by (landing_of landing) word link) self.old answers.old self.new answers.new result }
    {
        match landing {
            Landing::Goes { at } => {
                self.registers.set(u32::from(LR), link);
                Ok(Continuation::To { at })
            }
            Landing::Leaves => self.call_out(answers, word),
            Landing::Strays => self.finish(Event::Astray { word }, End::Astray),
        }
    }

    /// SVC
    pub(crate) fn service(
        &mut self,
        answers: &mut Answers,
        number: u32,
    ) -> Result<Continuation, AllocError>
        ensures { Acts (λ w. takes (answers_with served (Sys number (map w.values (served ++ (sp ∷ [])))) w) w w.answers) self.old answers.old self.new answers.new result }
    {
        let event = self.served_by(number);
        self.answered(answers, Asked::Service, event)
    }

    /// MRS, of a special register by its code.
    pub(crate) fn read_special(
        &mut self,
        answers: &mut Answers,
        target: u32,
        code: u32,
    ) -> Result<Continuation, AllocError>
        requires { target < 15 }
        ensures { Acts (λ w. takes (reads_special target code w) w w.answers) self.old answers.old self.new answers.new result }
    {
        let Some(answer) = answers.next() else {
            return Ok(Continuation::Stay);
        };
        let word = answer.words[0];
        self.tell(sys(code, &[]))?;
        self.registers.set(target, word);
        answers.pass();
        Ok(Continuation::On)
    }

    /// A hint: an event, but for NOP.
    pub(crate) fn hint(&mut self, hint: HintOperation) -> Result<Continuation, AllocError>
        ensures { (left : List Answer) → Acts (hints hint) self.old left self.new left result }
    {
        match hint {
            HintOperation::Nop => Ok(Continuation::On),
            HintOperation::Yield => self.tell_sys(512, &[]),
            HintOperation::Wfe => self.tell_sys(513, &[]),
            HintOperation::Wfi => self.tell_sys(514, &[]),
            HintOperation::Sev => self.tell_sys(515, &[]),
        }
    }
}
