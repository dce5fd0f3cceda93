//! The law by which one shift may replace two, for arguments on shifts that follow one another.
ghost use Rattle.std.specs.Prelude.{◌≡◌, ◌<◌, ◌+◌, ◌^◌, ℕ, Bool};
ghost use Rattle.word_bits.specs.declared.Shift.{Shift};
ghost use Rattle.word_bits.specs.Word.{shift_of};

/// Two successive shifts of one kind equal one by the sum of their amounts, in the value
/// and in the carry, where the carry out of the first is the carry in of the second.
pub fn successive_shifts_are_one()
    ensures { (kind : Shift) (x i j : ℕ) (c : Bool) → x < 2 ^ 32 → shift_of kind (shift_of kind x i c).0 j (shift_of kind x i c).1 ≡ shift_of kind x (i + j) c }
{}
