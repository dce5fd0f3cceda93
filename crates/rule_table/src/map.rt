//! Maps from the registers of a canonical sequence or a left side to the registers of a window.
ghost use Rattle.std.specs.Prelude.{◌≡◌, ◌≤◌, length, map, slice_get, Some};
ghost use Rattle.std.specs.Option.{option_and_then};
ghost use Rattle.rule_table.specs.Scratch.{has_register, is_register};

use arrayvec::ArrayVec;
use std::marker::Model;
use thumb_instr::Low;

/// Whether `given` is this register.
fn is_register(register: Low, given: Option<Low>) -> bool
    ensures { result ≡ is_register register.number given }
{
    match given {
        None => false,
        Some(own) => register.number == own.number,
    }
}

/// The window's registers that stand in place of r0, r1 and so on; None for those that have none.
#[derive(Drop)]
pub struct Map {
    registers: ArrayVec<Option<Low>, 8>,
}

impl Model for Map {
    ghost use Rattle.std.specs.Prelude.{List, Option};
    ghost use Rattle.thumb_instr.specs.declared.within.Within.{Within};

    ghost Value = { List (Option (Within 0 8)) };

    ghost view = { λ m. m.registers.items };
}

impl Map {
    /// The map of r0, r1 and so on to these registers, in order.
    pub(crate) fn to(registers: &[Low]) -> Map
        requires { length registers.now ≤ 8 }
        ensures { result ≡ map Some registers.now }
    {
        let mut given = ArrayVec::new();
        for register in registers {
            given.push(Some(*register));
        }
        Map { registers: given }
    }

    /// The map of r0, r1 and so on to these, where given.
    pub fn of(given: &[Option<Low>]) -> Map
        requires { length given.now ≤ 8 }
        ensures { result ≡ given.now }
    {
        let mut registers = ArrayVec::new();
        for register in given {
            registers.push(*register);
        }
        Map { registers }
    }

    /// How many registers it has an item for, those without one in their place included.
    pub fn len(&self) -> usize
        ensures { result ≡ length self.now }
    {
        self.registers.len()
    }

    /// The register in place of a canonical one; None if and only if the map has none for it.
    pub fn get(&self, canonical: u8) -> Option<Low>
        ensures { result ≡ option_and_then (λ o. o) (slice_get self.now canonical) }
    {
        match self.registers.get(usize::from(canonical)) {
            None => None,
            Some(given) => *given,
        }
    }

    /// Whether the map has this register in place of some other.
    pub(crate) fn has(&self, register: Low) -> bool
        ensures { result ≡ has_register self.now register.number }
    {
        self.registers
            .iter()
            .any(|given| is_register(register, *given))
    }
}
