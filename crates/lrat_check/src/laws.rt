//! What follows from the definitions, each as the contract of a function that does nothing.

ghost use Rattle.std.specs.Prelude.{◌≡◌, ℕ, ℤ, List, Bool, true, Option, None};
ghost use Rattle.cnf_gates.specs.Meaning.{all_true};
ghost use Rattle.clause_model.specs.Clauses.{codes_of};
ghost use Rattle.lrat_check.specs.Text.{Content, text_of, HasGoodParts, IsLine, IsTrimmed, EachIsNamed};
ghost use Rattle.lrat_check.specs.Checking.{State, Accepts, Reached};
ghost use Rattle.lrat_check.specs.Faults.{IsFaultOf};
ghost use Rattle.lrat_check.specs.Runs.{IsRefutation};
ghost use Rattle.lrat_check.specs.declared.fault.LineFault.{LineFault};
ghost use Rattle.lrat_check.specs.Proofs.{ProofVerdict};
ghost use Rattle.lrat_check.specs.declared.proof_fault.ProofFault.{ProofFault};

/// A formula from whose clauses accepted lines lead to an empty clause has no model.
pub fn refuted_formulas_have_no_model()
    ensures { (clauses : List (List ℤ)) (state : State) → Reached (codes_of clauses) state → state.refuted ≡ true → (v : ℕ → Bool) → all_true v clauses ≡ true → ⊥ }
{}

/// A line isn't both accepted and refused, and it is refused for one fault.
pub fn lines_have_one_outcome()
    ensures accepted { (old new : State) (content : Content) (fault : LineFault) → HasGoodParts content → Accepts old content new → IsFaultOf old content fault → ⊥ }
    ensures refused { (old : State) (content : Content) (f g : LineFault) → HasGoodParts content → IsFaultOf old content f → IsFaultOf old content g → f ≡ g }
{}

/// Different lines have different texts, so what was written is read back.
pub fn texts_tell_lines_apart()
    ensures { (a b : Content) → IsLine a → IsLine b → text_of a ≡ text_of b → a ≡ b }
{}

/// Lines are trimmed in one way.
pub fn lines_have_one_trimming()
    ensures { (clauses : List (List ℕ)) (lines a b : List Content) → IsTrimmed clauses lines a → IsTrimmed clauses lines b → a ≡ b }
{}

/// A trimmed refutation refutes too; each of its lines but the last is named by a later hint; and trimming it again changes nothing.
pub fn trimmed_lines_are_needed()
    ensures refute { (clauses : List (List ℕ)) (lines trimmed : List Content) → IsRefutation clauses lines → IsTrimmed clauses lines trimmed → IsRefutation clauses trimmed }
    ensures named { (clauses : List (List ℕ)) (lines trimmed : List Content) → IsRefutation clauses lines → IsTrimmed clauses lines trimmed → EachIsNamed trimmed }
    ensures stay { (clauses : List (List ℕ)) (lines trimmed : List Content) → IsRefutation clauses lines → IsTrimmed clauses lines trimmed → IsTrimmed clauses trimmed trimmed }
{}

/// A formula of which a proof is accepted has no model.
pub fn proved_formulas_have_no_model()
    ensures { (clauses : List (List ℤ)) (lines : List Content) → ProofVerdict ProofFault.Line ProofFault.Unfinished (codes_of clauses) lines None → (v : ℕ → Bool) → all_true v clauses ≡ true → ⊥ }
{}

/// A proof has one answer.
pub fn proofs_have_one_answer()
    ensures { (clauses : List (List ℕ)) (lines : List Content) (a b : Option ProofFault) → ProofVerdict ProofFault.Line ProofFault.Unfinished clauses lines a → ProofVerdict ProofFault.Line ProofFault.Unfinished clauses lines b → a ≡ b }
{}
