//! The symbolic state of a window, where each bit is a constant or a literal, and how an instruction or a sequence changes it by building gates.
ghost use Rattle.std.specs.Prelude.{◌≡◌, ◌<◌, ◌≤◌, ◌+◌, IfOk, length, true};
ghost use Rattle.thumb_instr.specs.Window.{is_in_window, named, AreBelow};
ghost use Rattle.bit_blast.specs.Slots.{IsSlotOver, AreSlotsOver};
ghost use Rattle.bit_blast.specs.Forming.{Bits, word, outcome_of, slot_outcome, written, formed, formed_all};
ghost use Rattle.bit_blast.specs.Differences.{input_word, low_inputs, start_bits, start_built};
ghost use Rattle.cnf_gates.specs.Gates.{nothing_built};

use crate::circuits::{Total, add};
use crate::forming::{ResultBits, byte, number_shift, result, right, three, two, unflagged};
use crate::slots::Slot;
use crate::words::{BitVector, constant, copied, extended, turned};
use cnf_gates::{Bit, Builder, GateError};
use std::alloc::Global;
use std::marker::Model;
use thumb_instr::Instr;
use word_bits::Shift;

/// The registers and flags as bits.
#[derive(Drop)]
pub struct Bits {
    pub registers: Vec<BitVector>,
    pub n: Bit,
    pub z: Bit,
    pub c: Bit,
    pub v: Bit,
}

impl Model for Bits {
    ghost use Rattle.bit_blast.specs.Forming.{Bits};

    ghost Value = { Bits };

    ghost view = { λ s. record { r = s.registers.items; n = s.n; z = s.z; c = s.c; v = s.v } };
}

/// A word whose low `n` bits are new input variables, and whose others are False.
pub fn low_inputs(builder: &mut Builder, n: usize) -> Result<BitVector, GateError>
    requires { n ≤ 32 }
    ensures { IfOk result (λ w. (builder.new ≡ record builder.old { variables = builder.old.variables + n }) × (w ≡ low_inputs builder.old.variables n)) }
{
    let mut word = [Bit::Constant(false); 32];
    for i in 0..n {
        word[i] = builder.input()?;
    }
    Ok(word)
}

/// A word of 32 new input variables.
fn input_bits(builder: &mut Builder) -> Result<BitVector, GateError>
    ensures { IfOk result (λ w. (builder.new ≡ record builder.old { variables = builder.old.variables + 32 }) × (w ≡ input_word builder.old.variables)) }
{
    low_inputs(builder, 32)
}

impl Bits {
    /// The state before both sides, as new input variables: 32 bits of each of `k` registers, then N, Z, C and V.
    pub fn inputs(alloc: Global, builder: &mut Builder, k: u8) -> Result<Bits, GateError>
        requires { builder.old ≡ nothing_built }
        ensures built { IfOk result (λ _. builder.new ≡ start_built k) }
        ensures bits { IfOk result (λ s. s ≡ start_bits k) }
    {
        let mut registers = Vec::new(alloc);
        for i in 0..k {
            registers.push(input_bits(builder)?)?;
        }
        let n = builder.input()?;
        let z = builder.input()?;
        let c = builder.input()?;
        let v = builder.input()?;
        Ok(Bits {
            registers,
            n,
            z,
            c,
            v,
        })
    }

    /// A copy of the bits.
    pub fn copied(&self, alloc: Global) -> Result<Bits, GateError>
        ensures { IfOk result (λ s. s ≡ self.now) }
    {
        Ok(Bits {
            registers: Vec::from_slice(alloc, &self.registers)?,
            n: self.n,
            z: self.z,
            c: self.c,
            v: self.v,
        })
    }

    /// The bits of a register.
    fn word(&self, register: u32) -> &BitVector
        requires { register < length self.now.r }
        ensures { result.now ≡ word self.now.r register }
    {
        &self.registers[register as usize]
    }

    /// Builds the gates of an instruction: the bits of its result and the flags after it.
    fn outcome(&self, builder: &mut Builder, instr: &Instr) -> Result<ResultBits, GateError>
        requires window { is_in_window instr.now ≡ true }
        requires registers { AreBelow (length self.now.r) (named instr.now) }
        ensures { IfOk result (λ o. (builder.new, o) ≡ outcome_of builder.old instr.now self.now) }
    {
        match *instr {
            Instr::Mov { source, .. } => Ok(unflagged(copied(self.word(source.number)), self)),
            Instr::Three {
                sum,
                left,
                right,
                ..
            } => three(
                builder,
                sum,
                self.word(left.number),
                self.word(right.number),
            ),
            Instr::Two {
                operation,
                target,
                other,
            } => two(
                builder,
                operation,
                self.word(target.number),
                self.word(other.number),
                self,
            ),
            Instr::Movs { source, .. } => {
                result(builder, copied(self.word(source.number)), &self.c, &self.v)
            }
            Instr::ShiftLeft { source, amount, .. } => number_shift(
                builder,
                Shift::Lsl,
                self.word(source.number),
                amount.number,
                self,
            ),
            Instr::ShiftRight {
                shift,
                source,
                amount,
                ..
            } => number_shift(
                builder,
                right(shift),
                self.word(source.number),
                amount.number,
                self,
            ),
            Instr::ThreeNumber {
                sum,
                source,
                number,
                ..
            } => three(
                builder,
                sum,
                self.word(source.number),
                &constant(number.number),
            ),
            Instr::TwoNumber {
                operation,
                target,
                number,
            } => byte(
                builder,
                operation,
                self.word(target.number),
                &constant(number.number),
                self,
            ),
            Instr::Add { registers } => {
                let Total { value, .. } = add(
                    builder,
                    self.word(registers.target.number),
                    self.word(registers.source.number),
                    &Bit::Constant(false),
                )?;
                Ok(unflagged(value, self))
            }
            Instr::Extend {
                extension,
                source,
                ..
            } => Ok(unflagged(extended(extension, self.word(source.number)), self)),
            Instr::Reverse {
                reversal,
                source,
                ..
            } => Ok(unflagged(turned(reversal, self.word(source.number)), self)),
            _ => unreachable!(),
        }
    }

    /// Writes the outcome of an instruction to its target register and the flags.
    fn write(&mut self, target: u32, outcome: ResultBits)
        requires { target < length self.old.r }
        ensures count { length self.new.r ≡ length self.old.r }
        ensures exact { self.new ≡ written target outcome self.old }
    {
        let ResultBits { value, n, z, c, v } = outcome;
        self.registers[target as usize] = value;
        self.n = n;
        self.z = z;
        self.c = c;
        self.v = v;
    }

    /// The outcome of a slot, where `symbol` holds the bits of the symbol's value.
    fn slot_outcome(
        &self,
        builder: &mut Builder,
        slot: &Slot,
        symbol: &BitVector,
    ) -> Result<ResultBits, GateError>
        requires { IsSlotOver (length self.now.r) slot.now }
        ensures { IfOk result (λ o. (builder.new, o) ≡ slot_outcome symbol.now builder.old slot.now self.now) }
    {
        match slot {
            Slot::Plain(instr) => self.outcome(builder, instr),
            Slot::Hole { operation, target } => byte(
                builder,
                *operation,
                self.word(target.number),
                symbol,
                self,
            ),
        }
    }

    /// Updates the registers and flags by one slot.
    fn form(
        &mut self,
        builder: &mut Builder,
        slot: &Slot,
        symbol: &BitVector,
    ) -> Result<(), GateError>
        requires { IsSlotOver (length self.old.r) slot.now }
        ensures count { IfOk result (λ _. length self.new.r ≡ length self.old.r) }
        ensures exact { IfOk result (λ _. (builder.new, self.new) ≡ formed symbol.now builder.old slot.now self.old) }
    {
        let outcome = self.slot_outcome(builder, slot, symbol)?;
        self.write(slot.target(), outcome);
        Ok(())
    }

    /// Updates the registers and flags by all slots of a side, in order.
    pub fn form_all(
        &mut self,
        builder: &mut Builder,
        side: &[Slot],
        symbol: &BitVector,
    ) -> Result<(), GateError>
        requires { AreSlotsOver (length self.old.r) side.now }
        ensures count { IfOk result (λ _. length self.new.r ≡ length self.old.r) }
        ensures exact { IfOk result (λ _. (builder.new, self.new) ≡ formed_all symbol.now builder.old side.now self.old) }
    {
        for slot in side {
            self.form(builder, slot, symbol)?;
        }
        Ok(())
    }
}
