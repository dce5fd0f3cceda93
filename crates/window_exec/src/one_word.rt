//! The operations of instructions on the word of one state. Instructions are written once, over any kind of word: `fingerprints` computes on the words
//! of eight states side by side.

use crate::words::Word;
use word_bits::{Shift, Sum, shift_c};

/// The word stands for one state, whatever its number.
impl Word for u32 {
    type Flag = bool;

    type Sum = Sum;

    type Moved = (u32, bool);

    ghost number = { λ x i. x };

    ghost is_set = { λ c i. c };

    ghost sum_in = { λ s i. s };

    ghost moved_in = { λ m i. m };

    #[inline(always)]
    fn same(word: u32) -> u32 {
        word
    }

    #[inline(always)]
    fn flag(set: bool) -> bool {
        set
    }

    #[inline(always)]
    fn not(self) -> u32 {
        !self
    }

    #[inline(always)]
    fn and(self, other: u32) -> u32 {
        self & other
    }

    #[inline(always)]
    fn or(self, other: u32) -> u32 {
        self | other
    }

    #[inline(always)]
    fn xor(self, other: u32) -> u32 {
        self ^ other
    }

    #[inline(always)]
    fn multiplied(self, other: u32) -> u32 {
        self.wrapping_mul(other)
    }

    #[inline(always)]
    fn low_byte(self) -> u32 {
        self % 256
    }

    #[inline(always)]
    fn low_half(self) -> u32 {
        self % 65536
    }

    #[inline(always)]
    fn aligned(self) -> u32 {
        self / 4 * 4
    }

    #[inline(always)]
    fn add_with_carry(self, other: u32, carry: bool) -> Sum {
        word_bits::add_with_carry(self, other, carry)
    }

    #[inline(always)]
    fn sum_value(sum: Sum) -> u32 {
        sum.value
    }

    #[inline(always)]
    fn lsl(self, amount: u32) -> (u32, bool) {
        shift_c(Shift::Lsl, self, amount, false)
    }

    #[inline(always)]
    fn lsr(self, amount: u32) -> (u32, bool) {
        shift_c(Shift::Lsr, self, amount, false)
    }

    #[inline(always)]
    fn asr(self, amount: u32) -> (u32, bool) {
        shift_c(Shift::Asr, self, amount, false)
    }

    #[inline(always)]
    fn shift(self, kind: Shift, amount: u32, carry: bool) -> (u32, bool) {
        shift_c(kind, self, amount, carry)
    }

    #[inline(always)]
    fn moved_value(moved: (u32, bool)) -> u32 {
        moved.0
    }

    #[inline(always)]
    fn sign_extend(self, bits: u32) -> u32 {
        word_bits::sign_extend(self, bits)
    }

    #[inline(always)]
    fn rev(self) -> u32 {
        word_bits::rev(self)
    }

    #[inline(always)]
    fn rev16(self) -> u32 {
        word_bits::rev16(self)
    }

    #[inline(always)]
    fn revsh(self) -> u32 {
        word_bits::revsh(self)
    }
}
