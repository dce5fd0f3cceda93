//! Memory: the model's function from addresses to bytes as a table of the bytes written, changed in place.
ghost use Rattle.std.specs.Prelude.{◌≡◌, ◌<◌, ◌≤◌, ◌+◌, ◌^◌, [], ◌∷◌, length, false, OnOk, ℕ};
ghost use Rattle.thumb_model.specs.Effect.{assigned};
ghost use Rattle.thumb_model.specs.States.{with_bytes};
ghost use Rattle.thumb_model.specs.Accesses.{value_at, with_value, stored, is_device};
ghost use Rattle.thumb_machine.specs.Memory.{memory_of, room_of};

use std::alloc::{AllocError, Global};
use std::collections::HashMap;

/// All addresses from this one up are devices'.
const DEVICES: u32 = 0x4000_0000;

/// Whether an address is a device's.
pub(crate) fn is_device(address: u32) -> bool
    ensures value { result ≡ is_device address }
    ensures low { result ≡ false → address < 2 ^ 30 }
{
    address >= DEVICES
}

/// The bytes of the memory. A byte that was never written is 0.
#[derive(Drop)]
pub struct Memory {
    bytes: HashMap<u32, u8>,
}

impl Memory {
    /// A memory of zeros.
    pub fn new(alloc: Global) -> Memory
        ensures { memory_of result ≡ (λ (a : ℕ). 0) }
    {
        Memory {
            bytes: HashMap::new(alloc),
        }
    }

    /// The byte at an address.
    pub fn byte(&self, address: u32) -> u8
        ensures { result ≡ memory_of self.now address }
    {
        self.bytes.get(&address).copied().unwrap_or(0)
    }

    /// The little-endian number of up to four bytes from an address on.
    pub(crate) fn value(&self, address: u32, size: u32) -> u32
        requires few { size ≤ 4 }
        requires fits { address + size < 2 ^ 32 }
        ensures value { result ≡ value_at (memory_of self.now) address size }
        ensures small { result < 256 ^ size }
    {
        if size == 0 {
            return 0;
        }
        u32::from(self.byte(address)) + 256 * self.value(address + 1, size - 1)
    }

    /// Makes room for so many new bytes; no byte changes.
    pub(crate) fn reserve(&mut self, count: usize) -> Result<(), AllocError>
        ensures same { memory_of self.new ≡ memory_of self.old }
        ensures room { OnOk result (count ≤ room_of self.new) }
    {
        self.bytes.reserve(count)
    }

    /// Writes a byte for which there is room.
    pub(crate) fn put_byte(&mut self, address: u32, byte: u8)
        requires { 0 < room_of self.old }
        ensures put { memory_of self.new ≡ assigned ((address, byte) ∷ []) (memory_of self.old) }
        ensures room { room_of self.old ≤ room_of self.new + 1 }
    {
        let _ = self.bytes.insert(address, byte);
    }

    /// Writes the low bytes of a number, little-endian. There must be room for them.
    pub(crate) fn put(&mut self, address: u32, size: u32, value: u32)
        requires room { size ≤ room_of self.old }
        requires fits { address + size < 2 ^ 32 }
        ensures put { memory_of self.new ≡ with_value (memory_of self.old) address size value }
        ensures room { room_of self.old ≤ room_of self.new + size }
    {
        if size == 0 {
            return;
        }
        self.put(address + 1, size - 1, value / 256);
        self.put_byte(address, (value % 256) as u8);
    }

    /// Stores the low bytes of a number, for which there must be room. A store to a device changes no memory.
    pub(crate) fn store(&mut self, address: u32, size: u32, value: u32)
        requires room { size ≤ room_of self.old }
        requires few { size ≤ 4 }
        ensures put { memory_of self.new ≡ stored (memory_of self.old) address size value }
        ensures room { room_of self.old ≤ room_of self.new + size }
    {
        if is_device(address) {
            return;
        }
        self.put(address, size, value);
    }

    /// Writes bytes by address for which there is room, one after another.
    pub(crate) fn put_bytes(&mut self, bytes: &[(u32, u8)])
        requires { length bytes.now ≤ room_of self.old }
        ensures { memory_of self.new ≡ with_bytes bytes.now (memory_of self.old) }
    {
        for byte in bytes {
            self.put_byte(byte.0, byte.1);
        }
    }
}
