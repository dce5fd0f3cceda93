//! Loads and stores. All room that an access needs is asked for before anything is written, so that a refusal of memory changes nothing.
ghost use Rattle.std.specs.Prelude.{◌≡◌, ◌<◌, ◌≤◌, ◌%◌, ◌^◌, [], ◌∷◌, List, true, false};
ghost use Rattle.thumb_model.specs.States.{Load, Store, takes};
ghost use Rattle.thumb_model.specs.Accesses.{access_size, accesses, gets, is_device, loaded, loads, stored, stores, value_at};
ghost use Rattle.thumb_machine.specs.declared.answers.Answer.{Answer};
ghost use Rattle.thumb_machine.specs.Memory.{memory_of};
ghost use Rattle.thumb_machine.specs.Acting.{Acts, Changes};
ghost use Rattle.thumb_machine.specs.Accesses.{is_store};

use crate::answers::Answers;
use crate::event::Event;
use crate::memory::is_device;
use crate::world::{Continuation, End, World, is_aligned};
use std::alloc::AllocError;
use thumb_instr::Access;
use word_bits::sign_extend;

/// How many bytes an access has.
pub(crate) fn access_size(access: Access) -> u32
    ensures value { result ≡ access_size access }
    ensures some { 0 < result }
    ensures few { result ≤ 4 }
{
    match access {
        Access::Str => 4,
        Access::Strh => 2,
        Access::Strb => 1,
        Access::Ldrsb => 1,
        Access::Ldr => 4,
        Access::Ldrh => 2,
        Access::Ldrb => 1,
        Access::Ldrsh => 2,
    }
}

/// Whether an access is a store.
fn is_store(access: Access) -> bool
    ensures { result ≡ is_store access }
{
    match access {
        Access::Str => true,
        Access::Strh => true,
        Access::Strb => true,
        Access::Ldrsb => false,
        Access::Ldr => false,
        Access::Ldrh => false,
        Access::Ldrb => false,
        Access::Ldrsh => false,
    }
}

/// What a load puts into its register: the value cut to its size and extended.
fn loaded(access: Access, value: u32) -> u32
    ensures { result ≡ loaded access value }
{
    match access {
        Access::Str => value,
        Access::Strh => value & 0xffff,
        Access::Strb => value & 0xff,
        Access::Ldrsb => sign_extend(value, 8),
        Access::Ldr => value,
        Access::Ldrh => value & 0xffff,
        Access::Ldrb => value & 0xff,
        Access::Ldrsh => sign_extend(value, 16),
    }
}

/// A value cut to the size of an access.
fn cut(access: Access, value: u32) -> u32
    ensures { result ≡ value % 256 ^ access_size access }
{
    match access {
        Access::Str => value,
        Access::Strh => value & 0xffff,
        Access::Strb => value & 0xff,
        Access::Ldrsb => value & 0xff,
        Access::Ldr => value,
        Access::Ldrh => value & 0xffff,
        Access::Ldrb => value & 0xff,
        Access::Ldrsh => value & 0xffff,
    }
}

impl World {
    /// The little-endian number of up to four bytes from an address on that isn't a device's.
    pub(crate) fn value(&self, address: u32, size: u32) -> u32
        requires few { size ≤ 4 }
        requires low { address < 2 ^ 30 }
        ensures { result ≡ value_at (memory_of self.now.memory) address size }
    {
        self.memory.value(address, size)
    }

    /// Puts a value that was loaded into a register.
    fn receive(
        &mut self,
        access: Access,
        target: u32,
        address: u32,
        value: u32,
    ) -> Result<(), AllocError>
        requires { target < 15 }
        ensures { Changes ((target, loaded access value) ∷ []) (memory_of self.old.memory) (Load address (access_size access) ∷ []) self.old self.new result }
    {
        let size = access_size(access);
        self.tell(Event::Load { address, size })?;
        self.registers.set(target, loaded(access, value));
        Ok(())
    }

    /// Loads from the memory.
    fn load_memory(
        &mut self,
        access: Access,
        target: u32,
        address: u32,
    ) -> Result<Continuation, AllocError>
        requires target { target < 15 }
        requires memory { address < 2 ^ 30 }
        ensures { (left : List Answer) → Acts (λ w. gets access target address (value_at w.memory address (access_size access)) w w.answers) self.old left self.new left result }
    {
        let value = self.value(address, access_size(access));
        self.receive(access, target, address, value)?;
        Ok(Continuation::On)
    }

    /// Loads from a device, which consumes an answer.
    fn load_device(
        &mut self,
        answers: &mut Answers,
        access: Access,
        target: u32,
        address: u32,
    ) -> Result<Continuation, AllocError>
        requires { target < 15 }
        ensures { Acts (λ w. takes (λ answer rest. gets access target address (answer.values 0) w rest) w w.answers) self.old answers.old self.new answers.new result }
    {
        let Some(answer) = answers.next() else {
            return Ok(Continuation::Stay);
        };
        let value = answer.words[0];
        self.receive(access, target, address, value)?;
        answers.pass();
        Ok(Continuation::On)
    }

    /// Loads into a register, or ends the run by a fault where the address isn't aligned.
    fn load(
        &mut self,
        answers: &mut Answers,
        access: Access,
        target: u32,
        address: u32,
    ) -> Result<Continuation, AllocError>
        requires { target < 15 }
        ensures { Acts (loads access target address) self.old answers.old self.new answers.new result }
    {
        if !is_aligned(address, access_size(access)) {
            return self.finish(Event::Fault { address }, End::Fault);
        }
        if is_device(address) {
            return self.load_device(answers, access, target, address);
        }
        self.load_memory(access, target, address)
    }

    /// Stores a value at an aligned address.
    fn put(&mut self, access: Access, address: u32, value: u32) -> Result<(), AllocError>
        ensures { Changes [] (stored (memory_of self.old.memory) address (access_size access) value) (Store address (access_size access) (value % 256 ^ access_size access) ∷ []) self.old self.new result }
    {
        let size = access_size(access);
        self.memory.reserve(size as usize)?;
        let value_cut = cut(access, value);
        self.tell(Event::Store {
            address,
            size,
            value: value_cut,
        })?;
        self.memory.store(address, size, value);
        Ok(())
    }

    /// Stores a value, or ends the run by a fault where the address isn't aligned.
    fn store(
        &mut self,
        access: Access,
        address: u32,
        value: u32,
    ) -> Result<Continuation, AllocError>
        ensures { (left : List Answer) → Acts (stores access address value) self.old left self.new left result }
    {
        if !is_aligned(address, access_size(access)) {
            return self.finish(Event::Fault { address }, End::Fault);
        }
        self.put(access, address, value)?;
        Ok(Continuation::On)
    }

    /// Loads into a register, or stores the value that it has.
    pub(crate) fn access(
        &mut self,
        answers: &mut Answers,
        access: Access,
        target: u32,
        address: u32,
    ) -> Result<Continuation, AllocError>
        requires { target < 15 }
        ensures { Acts (λ w. accesses access target address (w.values target) w) self.old answers.old self.new answers.new result }
    {
        if is_store(access) {
            let value = self.get(target);
            return self.store(access, address, value);
        }
        self.load(answers, access, target, address)
    }
}
