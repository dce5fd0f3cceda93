//! LDM and POP. POP with pc is the one load that is also a branch: its event of leaving shows the registers that it has just loaded.
ghost use Rattle.std.specs.Prelude.{◌≡◌, ◌<◌, ◌≤◌, ◌+◌, ◌++◌, ◌∷◌, [], length, nat_le, if◌then◌else◌};
ghost use Rattle.thumb_instr.specs.Items.{has};
ghost use Rattle.thumb_instr.specs.Shape.{registers_in};
ghost use Rattle.thumb_model.specs.Effect.{assigned, one_of, sp, written_to};
ghost use Rattle.thumb_model.specs.Accesses.{behind, device_words, left_from, loads_many, many_outputs};
ghost use Rattle.thumb_model.specs.Acts.{popped_word, pops, pops_to, with_pc};
ghost use Rattle.thumb_machine.specs.Registers.{values_of};
ghost use Rattle.thumb_machine.specs.Outside.{answers_of, events_of};
ghost use Rattle.thumb_machine.specs.Acting.{Acted, Acts, EndsBy, landing_of, next_of, world_of};
ghost use Rattle.thumb_machine.specs.Lists.{AreRegisters};
ghost use Rattle.thumb_machine.specs.Landings.{landed_events, landed_next};

use crate::answers::Answers;
use crate::event::Event;
use crate::lists::{behind, contains, device_words, registers_in, tell_loads, with_pc};
use crate::world::{Continuation, End, Landing, Lands, World, is_aligned};
use std::alloc::AllocError;
use thumb_instr::items::SP;

/// Whether there are answers for all words at devices.
fn is_enough(answers: &Answers, address: u32, list: &[u32]) -> bool
    requires { length list.now ≤ 9 }
    ensures { result ≡ nat_le (device_words address list.now) (length (answers_of answers.now)) }
{
    device_words(address, list) <= answers.left().len()
}

impl World {
    /// Writes an address back to the base; a base that is in the list keeps the word that was loaded.
    fn write_back(&mut self, base: u32, back: u32, list: &[u32])
        requires { base < 15 }
        ensures registers { values_of self.new.registers ≡ assigned ((base, written_to base (if one_of base list.now then values_of self.old.registers base else back)) ∷ []) (values_of self.old.registers) }
        ensures memory { self.new.memory ≡ self.old.memory }
        ensures events { self.new.events ≡ self.old.events }
    {
        let word = if contains(list, base) {
            self.get(base)
        } else {
            back
        };
        self.registers.write(base, word);
    }

    /// Reads words into registers, and writes an address back to the base if it isn't among them.
    fn fill(&mut self, answers: &mut Answers, base: u32, back: u32, address: u32, list: &[u32])
        requires base { base < 15 }
        requires enough { device_words address list.now ≤ length answers.old }
        requires registers { AreRegisters list.now }
        ensures registers { values_of self.new.registers ≡ assigned (many_outputs base back address list.now (world_of self.old answers.old)) (values_of self.old.registers) }
        ensures left { answers_of answers.new ≡ left_from (answers_of answers.old) address list.now }
        ensures memory { self.new.memory ≡ self.old.memory }
        ensures events { self.new.events ≡ self.old.events }
    {
        self.read_many(answers, address, list);
        self.write_back(base, back, list);
    }

    /// LDM, and POP without pc: loads words from an address on, and writes the address after them to the base if it isn't among the registers.
    pub(crate) fn load_many(
        &mut self,
        answers: &mut Answers,
        base: u32,
        address: u32,
        list: &[u32],
    ) -> Result<Continuation, AllocError>
        requires base { base < 15 }
        requires few { length list.now ≤ 9 }
        requires registers { AreRegisters list.now }
        ensures { Acts (loads_many base address list.now) self.old answers.old self.new answers.new result }
    {
        if !is_aligned(address, 4) {
            return self.finish(Event::Fault { address }, End::Fault);
        }
        if !is_enough(answers, address, list) {
            return Ok(Continuation::Stay);
        }
        self.events.reserve(list.len())?;
        tell_loads(&mut self.events, address, list);
        self.fill(answers, base, behind(list, address), address, list);
        Ok(Continuation::On)
    }

    /// Goes where a word lands; where it leaves or strays, adds the event, for which there must be room.
    fn arrive(&mut self, landing: Landing, word: u32) -> Continuation
        requires { self.old.events.len < self.old.events.cap }
        ensures next { next_of result ≡ landed_next (landing_of landing) }
        ensures ends { EndsBy result (landed_events (landing_of landing) word (values_of self.old.registers)) }
        ensures registers { self.new.registers ≡ self.old.registers }
        ensures memory { self.new.memory ≡ self.old.memory }
        ensures events { events_of self.new.events.items ≡ events_of self.old.events.items ++ landed_events (landing_of landing) word (values_of self.old.registers) }
    {
        match landing {
            Landing::Goes { at } => Continuation::To { at },
            Landing::Leaves => {
                let event = self.left_by(word);
                self.events.push_reserved(event);
                Continuation::Over { end: End::Left }
            }
            Landing::Strays => {
                self.events.push_reserved(Event::Astray { word });
                Continuation::Over { end: End::Astray }
            }
        }
    }

    /// Reads words into registers, and one more, to which it branches. There is room for their events and one more.
    fn fill_and_branch<P: Lands>(
        &mut self,
        answers: &mut Answers,
        place: &P,
        address: u32,
        list: &[u32],
        all: &[u32],
    ) -> Continuation
        requires few { length list.now ≤ 8 }
        requires all { all.now ≡ with_pc list.now }
        requires enough { device_words address (with_pc list.now) ≤ length answers.old }
        requires registers { AreRegisters list.now }
        requires room { self.old.events.len + length all.now < self.old.events.cap }
        ensures { Acted (pops_to (P.lands place.now (popped_word address list.now (world_of self.old answers.old))) address list.now (world_of self.old answers.old)) self.old self.new answers.new result }
    {
        tell_loads(&mut self.events, address, all);
        self.fill(answers, u32::from(SP), behind(all, address), address, list);
        let word = self.read(answers, behind(list, address));
        self.arrive(place.lands(word), word)
    }

    /// POP with pc: loads words and one more, to which it branches.
    pub(crate) fn pop_away<P: Lands>(
        &mut self,
        answers: &mut Answers,
        place: &P,
        address: u32,
        list: &[u32],
    ) -> Result<Continuation, AllocError>
        requires few { length list.now ≤ 8 }
        requires registers { AreRegisters list.now }
        ensures { Acts (λ w. pops (P.lands place.now (popped_word address list.now w)) address list.now w) self.old answers.old self.new answers.new result }
    {
        if !is_aligned(address, 4) {
            return self.finish(Event::Fault { address }, End::Fault);
        }
        let all = with_pc(list);
        if !is_enough(answers, address, all.as_slice()) {
            return Ok(Continuation::Stay);
        }
        self.events.reserve(all.len() + 1)?;
        Ok(self.fill_and_branch(answers, place, address, list, all.as_slice()))
    }

    /// POP, of a list of bits: bit 8 is pc.
    pub(crate) fn pop<P: Lands>(
        &mut self,
        answers: &mut Answers,
        place: &P,
        bits: u32,
    ) -> Result<Continuation, AllocError>
        requires { bits < 512 }
        ensures { Acts (λ w. if has bits 8 then pops (P.lands place.now (popped_word (w.values sp) (registers_in bits) w)) (w.values sp) (registers_in bits) w else loads_many sp (w.values sp) (registers_in bits) w) self.old answers.old self.new answers.new result }
    {
        let list = registers_in(bits);
        let address = self.get(u32::from(SP));
        if bits >> 8 == 1 {
            return self.pop_away(answers, place, address, list.as_slice());
        }
        self.load_many(answers, u32::from(SP), address, list.as_slice())
    }
}
