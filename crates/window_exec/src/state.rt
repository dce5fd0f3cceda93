//! A window's state is small: four registers and the flags, as no rule names more.
ghost use Rattle.std.specs.Prelude.{◌≡◌, ◌<◌, ◌≤◌, ◌==◌};
ghost use Rattle.std.specs.Int.{from_bool};
ghost use Rattle.thumb_model.specs.Effect.{v_flag};
ghost use Rattle.window_exec.specs.State.{values_of};

use crate::register_file::{RegisterFile, flags};
use thumb_instr::items::{C, V};
use word_bits::Sum;

/// The registers r0 to r3 and the flags: N is 8, Z is 4, C is 2 and V is 1. The bits above these mean nothing.
#[derive(Clone, Copy, Debug, PartialEq, Eq)]
pub struct WState {
    pub r: [u32; 4],
    pub nzcv: u8,
}

impl WState {
    /// The value of a register.
    pub fn get(&self, register: u32) -> u32
        requires { register < 4 }
        ensures { result ≡ values_of self.now register }
    {
        self.r[register as usize]
    }

    /// The value of a flag, by its number among the items.
    pub(crate) fn flag(&self, flag: u8) -> u8
        requires first { 15 ≤ flag }
        requires last { flag < 19 }
        ensures { result ≡ values_of self.now flag }
    {
        (self.nzcv >> (V - flag)) & 1
    }

    /// The state with 0 in the bits above its flags.
    #[tactic(auto, using(crate::proofs::FlagLemmas::flags_alone))]
    pub(crate) fn with_flags_alone(mut self) -> WState
        ensures values { values_of result ≡ values_of self }
        ensures flags { result.nzcv < 16 }
    {
        self.nzcv %= 16;
        self
    }

    /// V.
    fn overflow(&self) -> bool
        ensures { from_bool result ≡ values_of self.now v_flag }
    {
        self.flag(V) == 1
    }
}

impl RegisterFile for WState {
    type Value = u32;

    ghost values = { λ s i. values_of s };

    ghost count = { 4 };

    fn register(&self, number: u32) -> u32 {
        self.get(number)
    }

    fn set_register(&mut self, number: u32, value: u32) {
        self.r[number as usize] = value;
    }

    fn carry(&self) -> bool {
        self.flag(C) == 1
    }

    fn set_result_flags(&mut self, value: u32) {
        self.nzcv = flags(value, self.flag(C) == 1, self.overflow());
    }

    fn set_shift_flags(&mut self, moved: (u32, bool)) {
        let (value, c) = moved;
        self.nzcv = flags(value, c, self.overflow());
    }

    fn set_sum_flags(&mut self, sum: Sum) {
        self.nzcv = flags(sum.value, sum.c, sum.v);
    }
}
