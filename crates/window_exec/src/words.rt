//! What the computation of an instruction needs of words: those of one state, or of several side by side.
ghost use Rattle.std.specs.Prelude.{◌≡◌, ℕ, Bool, false, ◌<◌, ◌≤◌, ◌-◌, ◌*◌, ◌/◌, ◌%◌, ◌^◌, bit_and, bit_or, bit_xor};
ghost use Rattle.word_bits.specs.declared.Sum.{Sum as WordSum};
ghost use Rattle.word_bits.specs.declared.Shift.TheVariants as kinds;
ghost use Rattle.word_bits.specs.Word.{sum_of, shift_of, sign_extended, reversed, reversed_halves, reversed_signed};

use word_bits::Shift;

/// A word of each of some states, and the operations on it. The states are numbered from 0 on, cyclically: after the last the first comes again, so that
/// each number is a state's.
pub trait Word: Copy {
    /// A flag of each state.
    type Flag: Copy;

    /// What AddWithCarry gives in each state.
    type Sum: Copy;

    /// The value and the carry out of a shift in each state.
    type Moved: Copy;

    // the word, the flag, the sum and the shift of a state
    ghost number: { Self → ℕ → ℕ };

    ghost is_set: { Self.Flag → ℕ → Bool };

    ghost sum_in: { Self.Sum → ℕ → WordSum };

    ghost moved_in: { Self.Moved → ℕ → ℕ × Bool };

    /// One word in all states.
    fn same(word: u32) -> Self
        ensures { (i : ℕ) → number result i ≡ word };

    /// One flag in all states.
    fn flag(set: bool) -> Self::Flag
        ensures { (i : ℕ) → is_set result i ≡ set };

    fn not(self) -> Self
        ensures { (i : ℕ) → number result i ≡ 2 ^ 32 - 1 - number self i };

    fn and(self, other: Self) -> Self
        ensures { (i : ℕ) → number result i ≡ bit_and (number self i) (number other i) };

    fn or(self, other: Self) -> Self
        ensures { (i : ℕ) → number result i ≡ bit_or (number self i) (number other i) };

    fn xor(self, other: Self) -> Self
        ensures { (i : ℕ) → number result i ≡ bit_xor (number self i) (number other i) };

    fn multiplied(self, other: Self) -> Self
        ensures { (i : ℕ) → number result i ≡ number self i * number other i % 2 ^ 32 };

    /// The low byte.
    fn low_byte(self) -> Self
        ensures { (i : ℕ) → number result i ≡ number self i % 256 };

    /// The low halfword.
    fn low_half(self) -> Self
        ensures { (i : ℕ) → number result i ≡ number self i % 65536 };

    /// The word with its two low bits cleared.
    fn aligned(self) -> Self
        ensures { (i : ℕ) → number result i ≡ number self i / 4 * 4 };

    /// AddWithCarry(self, other, carry)
    fn add_with_carry(self, other: Self, carry: Self::Flag) -> Self::Sum
        ensures { (i : ℕ) → sum_in result i ≡ sum_of (number self i) (number other i) (is_set carry i) };

    /// The low 32 bits of a sum.
    fn sum_value(sum: Self::Sum) -> Self
        ensures { (i : ℕ) → number result i ≡ (sum_in sum i).value };

    /// LSL_C by one amount, from 1 to 32.
    fn lsl(self, amount: u32) -> Self::Moved
        requires some { 1 ≤ amount }
        requires most { amount ≤ 32 }
        ensures { (i : ℕ) → moved_in result i ≡ shift_of kinds.Lsl (number self i) amount false };

    /// LSR_C by one amount, from 1 to 32.
    fn lsr(self, amount: u32) -> Self::Moved
        requires some { 1 ≤ amount }
        requires most { amount ≤ 32 }
        ensures { (i : ℕ) → moved_in result i ≡ shift_of kinds.Lsr (number self i) amount false };

    /// ASR_C by one amount, from 1 to 32.
    fn asr(self, amount: u32) -> Self::Moved
        requires some { 1 ≤ amount }
        requires most { amount ≤ 32 }
        ensures { (i : ℕ) → moved_in result i ≡ shift_of kinds.Asr (number self i) amount false };

    /// LSL_C, LSR_C, ASR_C or ROR_C by the amount of each state.
    fn shift(self, kind: Shift, amount: Self, carry: Self::Flag) -> Self::Moved
        ensures { (i : ℕ) → moved_in result i ≡ shift_of kind (number self i) (number amount i) (is_set carry i) };

    /// The value of a shift.
    fn moved_value(moved: Self::Moved) -> Self
        ensures { (i : ℕ) → number result i ≡ (moved_in moved i).0 };

    /// The low bits, from 1 to 31 of them, as a signed number.
    fn sign_extend(self, bits: u32) -> Self
        requires some { 1 ≤ bits }
        requires within { bits < 32 }
        ensures { (i : ℕ) → number result i ≡ sign_extended (number self i) bits };

    fn rev(self) -> Self
        ensures { (i : ℕ) → number result i ≡ reversed (number self i) };

    fn rev16(self) -> Self
        ensures { (i : ℕ) → number result i ≡ reversed_halves (number self i) };

    fn revsh(self) -> Self
        ensures { (i : ℕ) → number result i ≡ reversed_signed (number self i) };
}
