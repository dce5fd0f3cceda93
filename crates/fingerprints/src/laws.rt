//! What follows from the definitions, each as the contract of a function that does nothing.

ghost use Rattle.std.specs.Prelude.{◌≡◌, ℕ, ◌≤◌, ◌↔◌, List, Some, All, Contains, slice_get, length, map};
ghost use Rattle.thumb_instr.specs.declared.instr.Instr.{Instr};
ghost use Rattle.thumb_model.specs.Effect.{Values};
ghost use Rattle.seq_enum.specs.Alphabet.{sequences_of};
ghost use Rattle.window_exec.specs.declared.state.WState.{WState};
ghost use Rattle.window_exec.specs.State.{values_of};
ghost use Rattle.fingerprints.specs.Print.{print_after};
ghost use Rattle.fingerprints.specs.Sequences.{prints_within};
ghost use Rattle.fingerprints.specs.Index.{scanned};
ghost use Rattle.fingerprints.specs.Laws.{IsState, AreUntold};

/// The candidates of a print are the numbers of the sequences of at most `longest` instructions
/// that have it.
pub fn candidates_are_sequences()
    ensures { (mask longest print number : ℕ) (states : List Values) (alphabet : List Instr) → longest ≤ 5 → Contains (scanned print 0 (prints_within mask states alphabet longest)) number ↔ ((seq : List Instr) × (slice_get (sequences_of alphabet) number ≡ Some seq) × (length seq ≤ longest) × (print_after mask states seq ≡ print)) }
{}

/// Sequences that no state tells apart have equal prints.
pub fn untold_sequences_print_alike()
    ensures { (states : List WState) (left right : List Instr) (mask : ℕ) → All IsState states → AreUntold states left right mask → print_after mask (map values_of states) left ≡ print_after mask (map values_of states) right }
{}
