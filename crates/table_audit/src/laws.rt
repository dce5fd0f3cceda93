//! What follows from the definitions, each as the contract of a function that does nothing.
ghost use Rattle.std.specs.Prelude.{◌≡◌, Option, Result, IfErr};
ghost use Rattle.rule_table.specs.declared.table.Table as code;
ghost use Rattle.rule_table.specs.Table.{Table, IsTable};
ghost use Rattle.lrat_check.specs.Proofs.{Answers};
ghost use Rattle.table_audit.specs.declared.errors.AuditError.{AuditError};
ghost use Rattle.table_audit.specs.Acceptance.{TableVerdict, IsAccepted};
ghost use Rattle.table_audit.specs.Soundness.{IsSound, CheapestIsShortest};
ghost use Rattle.table_audit.specs.Canonical.{CanonicalFormIsSide};

/// A table has at most one verdict.
pub fn audit_has_one_answer()
    ensures { (t : Table) (a b : Option AuditError) → TableVerdict t a → TableVerdict t b → a ≡ b }
{}

/// An acceptable table is refused for want of memory alone.
#[tactic(auto, using(crate::proofs::Determined::accepted_answers))]
pub fn accepted_tables_are_not_refused()
    ensures { (t : Table) (r : Result code.Table AuditError) → IsAccepted t → Answers AuditError.Memory r (TableVerdict t) → IfErr r (λ e. e ≡ AuditError.Memory) }
{}

/// The rules of an accepted table are sound, and shortest, or with costs cheapest, but for what they rightly name open; and its
/// families hold for each of their values.
#[tactic(auto, using(crate::proofs::Sound::accepted_sound))]
pub fn accepted_tables_are_sound()
    ensures { (t : Table) → IsTable t → IsAccepted t → IsSound t }
{}

/// Where each mnemonic costs 1, a right side is cheapest exactly where it would be shortest without costs.
pub fn cheapest_is_shortest_at_costs_of_one()
    ensures { CheapestIsShortest }
{}

/// The canonical form of a window is a canonical side, as long as the window, and its mask has no register but those that it names.
pub fn canonical_forms_are_sides()
    ensures { CanonicalFormIsSide }
{}
