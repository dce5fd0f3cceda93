//! PUSH and STM, and what POP and LDM need too. The accesses of one instruction happen in ascending order of address, all of them or none.
ghost use Rattle.std.specs.Prelude.{◌≡◌, ◌<◌, ◌≤◌, ◌+◌, ◌*◌, [], ◌∷◌, ◌++◌, List, filter, true, length, map, if◌then◌else◌};
ghost use Rattle.thumb_instr.specs.Items.{has};
ghost use Rattle.thumb_instr.specs.Shape.{registers_in, pushed};
ghost use Rattle.thumb_model.specs.Effect.{assigned, one_of, sp};
ghost use Rattle.thumb_model.specs.Accesses.{behind, below, device_words, left_from, load_events, next_word, store_events, stored_words, stores_many, is_device, left_at, word_at, words_from};
ghost use Rattle.thumb_model.specs.Acts.{with_pc};
ghost use Rattle.thumb_machine.specs.declared.answers.Answer.{Answer};
ghost use Rattle.thumb_machine.specs.Registers.{values_of};
ghost use Rattle.thumb_machine.specs.Memory.{memory_of, room_of};
ghost use Rattle.thumb_machine.specs.Outside.{answers_of, events_of};
ghost use Rattle.thumb_machine.specs.Acting.{Acts};
ghost use Rattle.thumb_machine.specs.Lists.{AreRegisters};

use crate::answers::Answers;
use crate::event::Event;
use crate::memory::{Memory, is_device};
use crate::world::{Continuation, End, World, is_aligned};
use arrayvec::ArrayVec;
use std::alloc::AllocError;
use thumb_instr::items::{LR, SP};

/// Up to nine registers by number, or their words.
pub(crate) type List = ArrayVec<u32, 9>;

/// Appends a register where its bit is set in the list.
fn find(found: &mut List, list: u32, register: u32)
    requires room { length found.old.items < 9 }
    requires register { register < 15 }
    ensures items { found.new.items ≡ found.old.items ++ (if has list register then register ∷ [] else []) }
    ensures few { length found.new.items ≤ length found.old.items + 1 }
    ensures registers { AreRegisters found.old.items → AreRegisters found.new.items }
{
    if (list >> register) & 1 == 1 {
        found.push(register);
    }
}

/// The registers whose bits are set in the list.
fn found_in(list: u32, registers: &[u32]) -> List
    requires few { length registers.now ≤ 8 }
    requires registers { AreRegisters registers.now }
    ensures items { result.items ≡ filter (has list) registers.now }
    ensures few { length result.items ≤ 8 }
    ensures registers { AreRegisters result.items }
{
    let mut found = ArrayVec::new();
    for register in registers {
        find(&mut found, list, *register);
    }
    found
}

/// The low registers of a list of bits, ascending.
pub(crate) fn registers_in(list: u32) -> List
    ensures items { result.items ≡ registers_in list }
    ensures few { length result.items ≤ 8 }
    ensures registers { AreRegisters result.items }
{
    found_in(list, &[0, 1, 2, 3, 4, 5, 6, 7])
}

/// What PUSH stores: bit 8 is lr.
fn pushed(list: u32) -> List
    requires { list < 512 }
    ensures items { result.items ≡ pushed list }
    ensures registers { AreRegisters result.items }
{
    let mut found = registers_in(list);
    if list >> 8 == 1 {
        found.push(u32::from(LR));
    }
    found
}

/// The registers, and pc as 15 after them.
pub(crate) fn with_pc(list: &[u32]) -> List
    requires { length list.now ≤ 8 }
    ensures { result.items ≡ with_pc list.now }
{
    let mut all = ArrayVec::new();
    for register in list {
        all.push(*register);
    }
    all.push(15);
    all
}

/// Whether a register is in a list.
pub(crate) fn contains(list: &[u32], register: u32) -> bool
    ensures { result ≡ one_of register list.now }
{
    match list {
        [] => false,
        [first, rest @ ..] => register == *first || contains(rest, register),
    }
}

/// The address of the next word.
fn next_word(address: u32) -> u32
    ensures { result ≡ next_word address }
{
    address.wrapping_add(4)
}

/// The address after as many words as the list has elements.
pub(crate) fn behind(list: &[u32], address: u32) -> u32
    ensures { result ≡ behind list.now address }
{
    let mut at = address;
    for _word in list {
        at = next_word(at);
    }
    at
}

/// The address as many words below as the list has elements.
fn below(list: &[u32], address: u32) -> u32
    requires { length list.now ≤ 9 }
    ensures { result ≡ below list.now address }
{
    address.wrapping_sub(4 * list.len() as u32)
}

/// 1 for an address of a device, and 0 for another.
fn device_count(address: u32) -> usize
    ensures { result ≡ (if is_device address then 1 else 0) }
{
    if is_device(address) { 1 } else { 0 }
}

/// How many of the words from an address on are at devices.
pub(crate) fn device_words(address: u32, list: &[u32]) -> usize
    requires { length list.now ≤ 9 }
    ensures { result ≡ device_words address list.now }
{
    let mut at = address;
    let mut count = 0;
    for _word in list {
        count += device_count(at);
        at = next_word(at);
    }
    count
}

/// Adds the events of loads of words, for which there is room.
pub(crate) fn tell_loads(events: &mut Vec<Event>, address: u32, list: &[u32])
    requires { events.old.len + length list.now ≤ events.old.cap }
    ensures told { events_of events.new.items ≡ events_of events.old.items ++ load_events address list.now }
    ensures len { events.new.len ≡ events.old.len + length list.now }
    ensures cap { events.new.cap ≡ events.old.cap }
{
    let mut at = address;
    for _word in list {
        events.push_reserved(Event::Load {
            address: at,
            size: 4,
        });
        at = next_word(at);
    }
}

/// Adds the events of stores of words, for which there is room.
fn tell_stores(events: &mut Vec<Event>, address: u32, words: &[u32])
    requires { events.old.len + length words.now ≤ events.old.cap }
    ensures { events_of events.new.items ≡ events_of events.old.items ++ store_events address words.now }
{
    let mut at = address;
    for word in words {
        events.push_reserved(Event::Store {
            address: at,
            size: 4,
            value: *word,
        });
        at = next_word(at);
    }
}

impl Memory {
    /// Stores words for which there is room, from an address on.
    fn store_words(&mut self, address: u32, words: &[u32])
        requires { 4 * length words.now ≤ room_of self.old }
        ensures { memory_of self.new ≡ stored_words (memory_of self.old) address words.now }
    {
        let mut at = address;
        for word in words {
            self.store(at, 4, *word);
            at = next_word(at);
        }
    }
}

impl World {
    /// The values of registers.
    fn values(&self, list: &[u32]) -> List
        requires few { length list.now ≤ 9 }
        requires registers { AreRegisters list.now }
        ensures { result.items ≡ map (values_of self.now.registers) list.now }
    {
        let mut words = ArrayVec::new();
        for register in list {
            words.push(self.get(*register));
        }
        words
    }

    /// Stores words from an address on, and writes an address back to the base.
    fn store_many(
        &mut self,
        base: u32,
        back: u32,
        address: u32,
        words: &[u32],
    ) -> Result<Continuation, AllocError>
        requires base { base < 15 }
        requires few { length words.now ≤ 9 }
        ensures { (left : List Answer) → Acts (stores_many base back address words.now) self.old left self.new left result }
    {
        if !is_aligned(address, 4) {
            return self.finish(Event::Fault { address }, End::Fault);
        }
        self.memory.reserve(4 * words.len())?;
        self.events.reserve(words.len())?;
        tell_stores(&mut self.events, address, words);
        self.memory.store_words(address, words);
        self.registers.write(base, back);
        Ok(Continuation::On)
    }

    /// PUSH, of a list of bits: bit 8 is lr.
    pub(crate) fn push(&mut self, bits: u32) -> Result<Continuation, AllocError>
        requires { bits < 512 }
        ensures { (left : List Answer) → Acts (λ w. stores_many sp (below (pushed bits) (w.values sp)) (below (pushed bits) (w.values sp)) (map w.values (pushed bits)) w) self.old left self.new left result }
    {
        let list = pushed(bits);
        let words = self.values(list.as_slice());
        let address = below(list.as_slice(), self.get(u32::from(SP)));
        self.store_many(u32::from(SP), address, address, words.as_slice())
    }

    /// STM, of a list of bits.
    pub(crate) fn store_list(&mut self, base: u32, bits: u32) -> Result<Continuation, AllocError>
        requires { base < 15 }
        ensures { (left : List Answer) → Acts (λ w. stores_many base (behind (registers_in bits) (w.values base)) (w.values base) (map w.values (registers_in bits)) w) self.old left self.new left result }
    {
        let list = registers_in(bits);
        let words = self.values(list.as_slice());
        let address = self.get(base);
        self.store_many(
            base,
            behind(list.as_slice(), address),
            address,
            words.as_slice(),
        )
    }

    /// The word at an address: at a device it is the first word of the next answer.
    fn word(&self, answers: &Answers, address: u32) -> u32
        requires { is_device address ≡ true → 0 < length answers.now }
        ensures { result ≡ word_at (memory_of self.now.memory) (answers_of answers.now) address }
    {
        if !is_device(address) {
            return self.value(address, 4);
        }
        match answers.next() {
            Some(answer) => answer.words[0],
            None => unreachable!(),
        }
    }

    /// Reads the word at an address, which consumes an answer where a device is there.
    pub(crate) fn read(&mut self, answers: &mut Answers, address: u32) -> u32
        requires { is_device address ≡ true → 0 < length answers.old }
        ensures word { result ≡ word_at (memory_of self.old.memory) (answers_of answers.old) address }
        ensures left { answers_of answers.new ≡ left_at (answers_of answers.old) address }
        ensures world { self.new ≡ self.old }
    {
        let word = self.word(answers, address);
        if is_device(address) {
            answers.pass();
        }
        word
    }

    /// Reads words from an address on into registers.
    pub(crate) fn read_many(&mut self, answers: &mut Answers, address: u32, list: &[u32])
        requires enough { device_words address list.now ≤ length answers.old }
        requires registers { AreRegisters list.now }
        ensures registers { values_of self.new.registers ≡ assigned (words_from (memory_of self.old.memory) (answers_of answers.old) address list.now) (values_of self.old.registers) }
        ensures left { answers_of answers.new ≡ left_from (answers_of answers.old) address list.now }
        ensures memory { self.new.memory ≡ self.old.memory }
        ensures events { self.new.events ≡ self.old.events }
    {
        let [register, rest @ ..] = list else {
            return;
        };
        let word = self.read(answers, address);
        self.read_many(answers, next_word(address), rest);
        self.registers.set(*register, word);
    }
}
