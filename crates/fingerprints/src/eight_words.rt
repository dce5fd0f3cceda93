//! A word of each of eight states, as an implementation of `Word`, so that `window_exec`'s one definition of a step runs eight states together.
ghost use Rattle.std.specs.Prelude.{◌%◌, slice_index};
ghost use Rattle.fingerprints.specs.WordLanes.{set_at, sum_at, moved_at};

use crate::shifts::Moved;
use crate::sums::Sums;
use crate::{basic, bytes, shifts, sums};
use std::simd::prelude::*;
use window_exec::Word;
use word_bits::Shift;

/// Eight words, one of each state.
#[derive(Clone, Copy)]
pub struct EightWords {
    pub words: u32x8,
}

/// The word of a state is its lane, its flag bit 31 of a lane. State 8 is state 0 again.
impl Word for EightWords {
    type Flag = u32x8;

    type Sum = Sums;

    type Moved = Moved;

    ghost number = { λ x i. slice_index x.words (i % 8) };

    ghost is_set = { λ c i. set_at c (i % 8) };

    ghost sum_in = { λ s i. sum_at s (i % 8) };

    ghost moved_in = { λ m i. moved_at m (i % 8) };

    #[inline(always)]
    fn same(word: u32) -> EightWords {
        EightWords {
            words: basic::same(word),
        }
    }

    #[inline(always)]
    fn flag(set: bool) -> u32x8 {
        basic::same(if set { 0x8000_0000 } else { 0 })
    }

    #[inline(always)]
    fn not(self) -> EightWords {
        EightWords {
            words: basic::not(self.words),
        }
    }

    #[inline(always)]
    fn and(self, other: EightWords) -> EightWords {
        EightWords {
            words: basic::and(self.words, other.words),
        }
    }

    #[inline(always)]
    fn or(self, other: EightWords) -> EightWords {
        EightWords {
            words: basic::or(self.words, other.words),
        }
    }

    #[inline(always)]
    fn xor(self, other: EightWords) -> EightWords {
        EightWords {
            words: basic::xor(self.words, other.words),
        }
    }

    #[inline(always)]
    fn multiplied(self, other: EightWords) -> EightWords {
        EightWords {
            words: basic::multiplied(self.words, other.words),
        }
    }

    #[inline(always)]
    fn low_byte(self) -> EightWords {
        EightWords {
            words: basic::low_byte(self.words),
        }
    }

    #[inline(always)]
    fn low_half(self) -> EightWords {
        EightWords {
            words: bytes::zero_extend(self.words, 16),
        }
    }

    #[inline(always)]
    fn aligned(self) -> EightWords {
        EightWords {
            words: basic::left(basic::right(self.words, 2), 2),
        }
    }

    #[inline(always)]
    fn add_with_carry(self, other: EightWords, carry: u32x8) -> Sums {
        sums::add_with_carry(self.words, other.words, carry)
    }

    #[inline(always)]
    fn sum_value(sum: Sums) -> EightWords {
        EightWords { words: sum.value }
    }

    #[inline(always)]
    fn lsl(self, amount: u32) -> Moved {
        shifts::lsl(self.words, amount)
    }

    #[inline(always)]
    fn lsr(self, amount: u32) -> Moved {
        shifts::lsr(self.words, amount)
    }

    #[inline(always)]
    fn asr(self, amount: u32) -> Moved {
        shifts::asr(self.words, amount)
    }

    #[inline(always)]
    fn shift(self, kind: Shift, amount: EightWords, carry: u32x8) -> Moved {
        shifts::shift(kind, self.words, amount.words, carry)
    }

    #[inline(always)]
    fn moved_value(moved: Moved) -> EightWords {
        EightWords { words: moved.value }
    }

    #[inline(always)]
    fn sign_extend(self, bits: u32) -> EightWords {
        EightWords {
            words: bytes::sign_extend(self.words, bits),
        }
    }

    #[inline(always)]
    fn rev(self) -> EightWords {
        EightWords {
            words: bytes::rev(self.words),
        }
    }

    #[inline(always)]
    fn rev16(self) -> EightWords {
        EightWords {
            words: bytes::rev16(self.words),
        }
    }

    #[inline(always)]
    fn revsh(self) -> EightWords {
        EightWords {
            words: bytes::revsh(self.words),
        }
    }
}
