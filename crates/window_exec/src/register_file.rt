//! What the computation of an instruction needs of registers and flags: so it's written once for a window's, a machine's, and those of several states.
ghost use Rattle.std.specs.Prelude.{◌≡◌, ℕ, ◌<◌, ◌==◌, [], ◌∷◌};
ghost use Rattle.std.specs.Int.{bit_at, from_bool};
ghost use Rattle.thumb_model.specs.Effect.{Values, assigned, c_flag, result_flags, sum_flags};

use crate::words::Word;

/// N and Z of a value, with C and V: N is 8, Z is 4, C is 2 and V is 1.
pub fn flags(value: u32, c: bool, v: bool) -> u8
    ensures n { bit_at result 3 ≡ bit_at value 31 }
    ensures z { bit_at result 2 ≡ from_bool (value == 0) }
    ensures c { bit_at result 1 ≡ from_bool c }
    ensures v { bit_at result 0 ≡ from_bool v }
{
    u8::from(value >> 31 == 1) << 3 | u8::from(value == 0) << 2 | u8::from(c) << 1 | u8::from(v)
}

/// The first `count` registers from r0 on, and the flags N, Z, C and V, of each of some states.
pub trait RegisterFile {
    /// What a register holds.
    type Value: Word;

    // the values in a state, by its number, which counts as that of `Word` does
    ghost values: { Self → ℕ → Values };

    // how many registers there are
    ghost count: { ℕ };

    /// The value of a register.
    fn register(&self, number: u32) -> Self::Value
        requires { number < count }
        ensures { (i : ℕ) → Self.Value.number result i ≡ values self.now i number };

    /// Gives a register another value.
    fn set_register(&mut self, number: u32, value: Self::Value)
        requires { number < count }
        ensures { (i : ℕ) → values self.new i ≡ assigned ((number, Self.Value.number value i) ∷ []) (values self.old i) };

    /// C.
    fn carry(&self) -> <Self::Value as Word>::Flag
        ensures { (i : ℕ) → Self.Value.is_set result i ≡ (values self.now i c_flag == 1) };

    /// Sets N and Z by a result.
    fn set_result_flags(&mut self, value: Self::Value)
        ensures { (i : ℕ) → values self.new i ≡ assigned (result_flags (Self.Value.number value i)) (values self.old i) };

    /// Sets N and Z by a shift's result, and C to its carry out.
    fn set_shift_flags(&mut self, moved: <Self::Value as Word>::Moved)
        ensures { (i : ℕ) → values self.new i ≡ assigned (result_flags (Self.Value.moved_in moved i).0) (assigned ((c_flag, from_bool (Self.Value.moved_in moved i).1) ∷ []) (values self.old i)) };

    /// Sets all flags by a sum.
    fn set_sum_flags(&mut self, sum: <Self::Value as Word>::Sum)
        ensures { (i : ℕ) → values self.new i ≡ assigned (sum_flags (Self.Value.sum_in sum i)) (values self.old i) };
}
