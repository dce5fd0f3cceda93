//! The sides of a family: each 8-bit number that equals the symbol's number is a hole, which takes the symbol's value.
ghost use Rattle.std.specs.Prelude.{◌≡◌, ◌<◌, IfOk, map};
ghost use Rattle.bit_blast.specs.declared.slots.Slot.TheVariants.{Plain};
ghost use Rattle.bit_blast.specs.Slots.{slot, slots, slot_target};

use cnf_gates::Memory;
use std::alloc::Global;
use thumb_instr::{ByteOperation, Instr, Low, Seq, parts};

/// An instruction, or one of the four operations with an 8-bit number with a hole for that number, which takes the symbol's value.
#[derive(Clone, Copy, Debug, PartialEq, Eq)]
pub enum Slot {
    Plain(Instr),
    Hole {
        operation: ByteOperation,
        target: Low,
    },
}

/// The number of the sides that stands for a symbol, and the least and the greatest value that the symbol may have.
#[derive(Clone, Copy, Debug, PartialEq, Eq)]
pub struct Symbol {
    pub number: u8,
    pub low: u8,
    pub high: u8,
}

impl Slot {
    /// An instruction as a slot: a hole where its 8-bit number is `number`.
    fn new(instr: &Instr, number: u8) -> Slot
        ensures { result ≡ slot number instr.now }
    {
        match *instr {
            Instr::TwoNumber {
                operation,
                target,
                number: held,
            } => {
                if held.number == u32::from(number) {
                    Slot::Hole { operation, target }
                } else {
                    Slot::Plain(*instr)
                }
            }
            _ => Slot::Plain(*instr),
        }
    }

    /// The number of the target register, which a compare leaves unchanged.
    pub fn target(&self) -> u32
        ensures { result ≡ slot_target self.now }
    {
        match self {
            Slot::Plain(instr) => parts(instr).first,
            Slot::Hole { target, .. } => target.number,
        }
    }
}

/// A side without holes.
pub fn plain(alloc: Global, side: &Seq) -> Result<Vec<Slot>, Memory>
    ensures { IfOk result (λ s. s.items ≡ map Plain side.now) }
{
    let mut slots = Vec::new(alloc);
    for instr in side.as_slice() {
        slots.push(Slot::Plain(*instr))?;
    }
    Ok(slots)
}

/// A side with a hole at each 8-bit number that is `number`.
pub fn slots(alloc: Global, side: &Seq, number: u8) -> Result<Vec<Slot>, Memory>
    ensures { IfOk result (λ s. s.items ≡ slots number side.now) }
{
    let mut slots = Vec::new(alloc);
    for instr in side.as_slice() {
        slots.push(Slot::new(instr, number))?;
    }
    Ok(slots)
}
