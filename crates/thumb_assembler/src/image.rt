//! An image in memory, and the surroundings of an instruction in it (its target, literal and return address), which the model of a step takes.
ghost use Rattle.std.specs.Prelude.{◌≡◌, ◌+◌, ◌*◌, ◌<◌, ◌^◌, MatchOption};
ghost use Rattle.thumb_instr.specs.declared.instr.Instr.{Instr};
ghost use Rattle.thumb_model.specs.Layout.{literal_base};
ghost use Rattle.thumb_model.specs.Steps.{set_bit};
ghost use Rattle.thumb_machine.specs.Acting.{target_of};
ghost use Rattle.thumb_assembler.specs.Machines.{loaded_of};
ghost use Rattle.thumb_assembler.specs.Runs.{IsFetched, aim_from, byte_at, following, goes_to, half_at, is_code_address, literal_in, target_in, word_at};

use label_layout::instr_size;
use thumb_instr::{Byte, Instr};
use thumb_machine::{Around, Landing, Lands, Target};
use thumb_table::decode;

/// The bytes of an image from a base on, and where its code ends, in byte addresses.
#[derive(Drop)]
pub(crate) struct Image {
    pub(crate) bytes: Vec<u8>,
    pub(crate) base: u32,
    pub(crate) high: u32,
}

impl Image {
    /// The byte at an address: 0 outside the image.
    fn byte(&self, address: u64) -> u8
        ensures { result ≡ byte_at (loaded_of self.now) address }
    {
        match address.checked_sub(u64::from(self.base)) {
            None => 0,
            Some(offset) => self.bytes.get(offset as usize).copied().unwrap_or(0),
        }
    }

    /// The halfword at an address, its lower byte first.
    fn half(&self, address: u64) -> u16
        requires { address < 2 ^ 34 }
        ensures { result ≡ half_at (loaded_of self.now) address }
    {
        u16::from(self.byte(address)) + 256 * u16::from(self.byte(address + 1))
    }

    /// The word at an address, its lowest byte first.
    fn word(&self, address: u64) -> u32
        requires { address < 2 ^ 33 }
        ensures { result ≡ word_at (loaded_of self.now) address }
    {
        u32::from(self.half(address)) + 65536 * u32::from(self.half(address + 2))
    }

    /// The instruction that is encoded at an address of the image, if any.
    pub(crate) fn fetch(&self, address: u32) -> Option<Instr>
        ensures { MatchOption result ((i : Instr) → IsFetched (loaded_of self.now) address i → ⊥) (IsFetched (loaded_of self.now) address) }
    {
        let at = u64::from(address);
        if self.base <= address && ((address - self.base) as usize) < self.bytes.len() {
            decode(self.half(at), self.half(at + 2))
        } else {
            None
        }
    }

    /// Whether code may stand at an address.
    fn is_code(&self, address: u32) -> bool
        ensures { result ≡ is_code_address (loaded_of self.now) address }
    {
        self.base <= address && address < self.high
    }

    /// Where a direct branch to an address goes.
    fn target_at(&self, address: u32) -> Target
        ensures { target_of result ≡ goes_to (loaded_of self.now) address }
    {
        if self.is_code(address) {
            Target::Inside { at: address }
        } else {
            Target::External {
                word: address / 2 * 2 + 1,
            }
        }
    }

    /// Where the branch at an address goes. Another instruction gets the external target 0.
    fn target(&self, address: u32, instr: &Instr) -> Target
        ensures { target_of result ≡ target_in (loaded_of self.now) address instr.now }
    {
        match instr {
            Instr::BranchIf { distance, .. } => self.target_at(aim(address, distance.bytes())),
            Instr::Branch { distance } => self.target_at(aim(address, distance.bytes())),
            Instr::Call { distance } => self.target_at(aim(address, distance.bytes())),
            _ => Target::External { word: 0 },
        }
    }

    /// The word that a literal load at an address reads, or the address that ADR gives; 0 for another instruction.
    fn literal(&self, address: u32, instr: &Instr) -> u32
        ensures { result ≡ literal_in (loaded_of self.now) address instr.now }
    {
        match instr {
            Instr::Literal { distance, .. } => self.word(literal_address(address, *distance)),
            Instr::Address { distance, .. } => {
                (literal_address(address, *distance) % (1 << 32)) as u32
            }
            _ => 0,
        }
    }

    /// The surroundings of an instruction at an address.
    pub(crate) fn around(&self, address: u32, instr: &Instr) -> Around
        ensures target { target_of result.target ≡ target_in (loaded_of self.now) address instr.now }
        ensures literal { result.literal ≡ literal_in (loaded_of self.now) address instr.now }
        ensures link { result.link ≡ set_bit (following address instr.now) }
    {
        Around {
            target: self.target(address, instr),
            literal: self.literal(address, instr),
            link: behind(address, instr) / 2 * 2 + 1,
        }
    }
}

/// The address after an instruction.
pub(crate) fn behind(address: u32, instr: &Instr) -> u32
    ensures { result ≡ following address instr.now }
{
    address.wrapping_add(instr_size(instr))
}

/// The target address of a branch, from its own address and its distance in bytes.
fn aim(address: u32, bytes: i32) -> u32
    ensures { result ≡ aim_from address bytes }
{
    ((i64::from(address) + 4 + i64::from(bytes) + (1 << 32)) % (1 << 32)) as u32
}

/// The address of a literal: a distance in words from the instruction's address + 4, rounded down to a multiple of 4.
fn literal_address(address: u32, distance: Byte) -> u64
    ensures { result ≡ literal_base address + 4 * distance.number }
{
    (u64::from(address) + 4) / 4 * 4 + 4 * u64::from(distance.number)
}

impl Lands for Image {
    ghost use Rattle.thumb_assembler.specs.Machines.{loaded_of};
    ghost use Rattle.thumb_assembler.specs.Runs.{lands_at};

    ghost lands = { λ m. lands_at (loaded_of m) };

    fn lands(&self, word: u32) -> Landing {
        if word % 2 == 0 {
            return Landing::Strays;
        }
        let address = word - 1;
        if self.is_code(address) {
            Landing::Goes { at: address }
        } else {
            Landing::Leaves
        }
    }
}
