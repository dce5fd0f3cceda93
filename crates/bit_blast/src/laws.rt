//! Laws of formulas, stated as contracts of functions with empty bodies.

ghost use Rattle.std.specs.Prelude.{◌≡◌, ◌≤◌, ◌<◌, ℕ, Bool, true, List, length, map};
ghost use Rattle.thumb_instr.specs.declared.instr.Instr.{Instr};
ghost use Rattle.thumb_instr.specs.Window.{is_in_window, named};
ghost use Rattle.thumb_model.specs.Effect.{Values, AreOver};
ghost use Rattle.window_exec.specs.State.{Tells};
ghost use Rattle.cnf_gates.specs.Meaning.{all_true};
ghost use Rattle.bit_blast.specs.declared.slots.Symbol.{Symbol};
ghost use Rattle.bit_blast.specs.Slots.{Byte, instance};
ghost use Rattle.bit_blast.specs.Differences.{sides_formula, family_formula};
ghost use Rattle.bit_blast.specs.Exactness.{start_values, IsMask, IsMaskOver, SameOver, EndsInEmpty, value_at};

/// The formula of two sequences of at most five instructions has fewer than 200,000 variables, so no limit is met.
pub fn ten_instructions_need_few_variables()
    ensures { (left right : List Instr) (mask k : ℕ) → length left ≤ 5 → length right ≤ 5 → k < 256 → AreOver k left → AreOver k right → (sides_formula left right mask k).variables < 200000 }
{}

/// The formula of a sequence against itself ends in the empty clause, which the empty proof refutes.
pub fn a_side_against_itself_is_refuted()
    ensures { (side : List Instr) (mask k : ℕ) → AreOver k side → EndsInEmpty (sides_formula side side mask k) }
{}

/// A state that has r0 to r3 and the flags as a model gives them tells the sides apart.
pub fn states_of_models_tell()
    ensures { (left right : List Instr) (mask k : ℕ) → AreOver k left → AreOver k right → IsMask mask → IsMaskOver k mask → k ≤ 4 → (m : ℕ → Bool) → all_true m (sides_formula left right mask k).clauses ≡ true → (v : Values) → SameOver 4 v (start_values m k) → Tells v left right mask }
{}

/// A side whose holes get the number that they stand for is the side itself.
pub fn sides_are_their_own_instances()
    ensures { (n : Byte) (side : List Instr) → instance n.number side n ≡ side }
{}

/// Whatever value its holes get, a side keeps the number of its instructions and the registers that they name, and an instruction that may stand in a
/// window still may.
pub fn values_change_numbers_alone()
    ensures length { (n : ℕ) (side : List Instr) (x : Byte) → length (instance n side x) ≡ length side }
    ensures names { (n : ℕ) (side : List Instr) (x : Byte) → map named (instance n side x) ≡ map named side }
    ensures windows { (n : ℕ) (side : List Instr) (x : Byte) → map is_in_window (instance n side x) ≡ map is_in_window side }
    ensures over { (k n : ℕ) (side : List Instr) (x : Byte) → AreOver k side → AreOver k (instance n side x) }
{}

/// The formula of two sequences of at most five instructions with holes has fewer than 200,000 variables, so no limit is met.
pub fn families_need_few_variables()
    ensures { (left right : List Instr) (s : Symbol) (mask k : ℕ) → length left ≤ 5 → length right ≤ 5 → k < 256 → AreOver k left → AreOver k right → (family_formula left right s mask k).variables < 200000 }
{}

/// A state that has r0 to r3 and the flags as a model of a family's formula gives them tells the sides with the model's value apart.
pub fn states_of_family_models_tell()
    ensures { (left right : List Instr) (s : Symbol) (mask k : ℕ) → s.low < 256 → AreOver k left → AreOver k right → IsMask mask → IsMaskOver k mask → k ≤ 4 → (m : ℕ → Bool) → all_true m (family_formula left right s mask k).clauses ≡ true → (x : Byte) → x.number ≡ value_at m k → (v : Values) → SameOver 4 v (start_values m k) → Tells v (instance s.number left x) (instance s.number right x) mask }
{}
