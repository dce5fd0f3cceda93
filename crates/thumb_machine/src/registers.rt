//! The registers of a machine. They are a `RegisterFile`, so that instructions which only compute have one implementation here and in windows.
ghost use Rattle.std.specs.Prelude.{◌≡◌, ◌<◌, ◌≤◌, [], ◌∷◌};
ghost use Rattle.std.specs.Int.{bit_at, from_bool};
ghost use Rattle.thumb_model.specs.Effect.{assigned, written_to, n_flag, z_flag, c_flag, v_flag};
ghost use Rattle.thumb_model.specs.States.{all_at};
ghost use Rattle.thumb_model.specs.Acts.{holds};
ghost use Rattle.thumb_machine.specs.Registers.{values_of};
ghost use Rattle.thumb_machine.specs.Outside.{answer_values, brought};
ghost use Rattle.thumb_machine.specs.declared.answers.Asked.TheVariants as asked;

use crate::answers::{Answer, Asked};
use thumb_instr::Condition;
use thumb_instr::items::{C, N, V, Z};
use window_exec::{RegisterFile, flags, written};
use word_bits::Sum;

/// The registers r0 to r12, sp and lr, in this order, and the flags: N is 8, Z is 4, C is 2 and V is 1. The bits above these mean nothing.
#[derive(Clone, Copy, Debug, PartialEq, Eq)]
pub struct Registers {
    pub r: [u32; 15],
    pub nzcv: u8,
}

impl Registers {
    /// The value of a register, of r0 to r12, sp as 13 and lr as 14.
    pub fn get(&self, register: u32) -> u32
        requires { register < 15 }
        ensures { result ≡ values_of self.now register }
    {
        self.r[register as usize]
    }

    /// The value of a flag, 0 or 1, by its number among the items.
    pub fn flag(&self, flag: u8) -> u8
        requires first { 15 ≤ flag }
        requires last { flag < 19 }
        ensures { result ≡ values_of self.now flag }
    {
        (self.nzcv >> (V - flag)) & 1
    }

    /// V.
    fn overflow(&self) -> bool
        ensures { from_bool result ≡ values_of self.now v_flag }
    {
        self.flag(V) == 1
    }

    /// Gives a register another value.
    pub(crate) fn set(&mut self, target: u32, value: u32)
        requires { target < 15 }
        ensures { values_of self.new ≡ assigned ((target, value) ∷ []) (values_of self.old) }
    {
        self.r[target as usize] = value;
    }

    /// Writes a word to a register; of sp the two low bits stay zero.
    pub(crate) fn write(&mut self, target: u32, word: u32)
        requires { target < 15 }
        ensures { values_of self.new ≡ assigned ((target, written_to target word) ∷ []) (values_of self.old) }
    {
        self.set(target, written(target, word));
    }

    /// Sets all flags: N is 8, Z is 4, C is 2 and V is 1.
    fn set_flags(&mut self, nzcv: u8)
        ensures { values_of self.new ≡ assigned ((n_flag, bit_at nzcv 3) ∷ (z_flag, bit_at nzcv 2) ∷ (c_flag, bit_at nzcv 1) ∷ (v_flag, bit_at nzcv 0) ∷ []) (values_of self.old) }
    {
        self.nzcv = nzcv;
    }

    /// Takes r0 to r3 and r12 from an answer.
    fn take_words(&mut self, answer: &Answer)
        ensures { values_of self.new ≡ assigned (all_at (brought asked.Service) (answer_values answer.now)) (values_of self.old) }
    {
        self.set(12, answer.words[4]);
        self.set(3, answer.words[3]);
        self.set(2, answer.words[2]);
        self.set(1, answer.words[1]);
        self.set(0, answer.words[0]);
    }

    /// Takes the registers of an answer: r0 to r3 and r12, and after a call also lr and the flags.
    pub(crate) fn answer(&mut self, asked: Asked, answer: &Answer)
        ensures { values_of self.new ≡ assigned (all_at (brought asked) (answer_values answer.now)) (values_of self.old) }
    {
        match asked {
            Asked::Call => {
                self.set_flags(answer.nzcv);
                self.set(14, answer.words[5]);
                self.take_words(answer);
            }
            Asked::Service => self.take_words(answer),
        }
    }

    /// Whether a condition holds: the manual's ConditionHolds.
    pub(crate) fn holds(&self, condition: Condition) -> bool
        ensures { result ≡ holds condition (values_of self.now) }
    {
        let n = self.flag(N);
        let z = self.flag(Z) == 1;
        let c = self.flag(C) == 1;
        let v = self.flag(V);
        match condition {
            Condition::Eq => z,
            Condition::Ne => !z,
            Condition::Cs => c,
            Condition::Cc => !c,
            Condition::Mi => n == 1,
            Condition::Pl => n != 1,
            Condition::Vs => v == 1,
            Condition::Vc => v != 1,
            Condition::Hi => c & !z,
            Condition::Ls => !(c & !z),
            Condition::Ge => n == v,
            Condition::Lt => n != v,
            Condition::Gt => !z & (n == v),
            Condition::Le => !(!z & (n == v)),
        }
    }
}

impl RegisterFile for Registers {
    type Value = u32;

    ghost values = { λ s i. values_of s };

    ghost count = { 15 };

    fn register(&self, number: u32) -> u32 {
        self.get(number)
    }

    fn set_register(&mut self, number: u32, value: u32) {
        self.set(number, value);
    }

    fn carry(&self) -> bool {
        self.flag(C) == 1
    }

    fn set_result_flags(&mut self, value: u32) {
        self.nzcv = flags(value, self.flag(C) == 1, self.overflow());
    }

    fn set_shift_flags(&mut self, moved: (u32, bool)) {
        let (value, c) = moved;
        self.nzcv = flags(value, c, self.overflow());
    }

    fn set_sum_flags(&mut self, sum: Sum) {
        self.nzcv = flags(sum.value, sum.c, sum.v);
    }
}
