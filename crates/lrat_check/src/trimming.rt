//! A proof without the lines and hints that it doesn't need. Trimming goes back from the first empty clause, and only the lines that this clause depends
//! on are checked once more: the proof was accepted already.
ghost use Rattle.std.specs.Prelude.{◌≡◌, ℕ, ◌+◌, ◌<◌, ◌≤◌, List, [], AllPairs, IfOk, length};
ghost use Rattle.clause_model.specs.Clauses.{codes_of, hint_lengths};
ghost use Rattle.step_ledger.specs.Counts.{RisesByAtLeast, RisesBy};
ghost use Rattle.lrat_check.specs.Text.{Content, content_of, names_of, IsTrimmed, IsUsedPart, EachIsNamed, used_lengths};
ghost use Rattle.lrat_check.specs.Checking.{State, Starts};
ghost use Rattle.lrat_check.specs.Runs.{contents_of, IsRefutation, Costs};
ghost use Rattle.lrat_check.specs.Ending.{adds_of, up_to_empty};
ghost use Rattle.lrat_check.specs.Shown.{cut_of, MarksNamed};
ghost use Rattle.lrat_check.specs.Meant.{IsMeant, LooksAtFewest, ShowsAt, meant_by};

use crate::line::{Addition, Line};
use crate::meanings::{Meanings, given_clauses, has_empty, place_of};
use crate::propagation::check;
use crate::shown::Shown;
use clause_model::Assignment;
use cnf_gates::{Formula, Memory};
use std::alloc::{AllocError, Global};
use step_ledger::{Ledger, Steps};

/// The lines that a proof needs, each with the hints that it needs: the first addition of the empty
/// clause, and the additions that it depends on. No line is needed where the formula has an empty clause. The lines must be a refutation.
pub fn trim<L: Ledger>(
    alloc: Global,
    formula: &Formula,
    lines: &[Line],
    steps: &mut Steps<L>,
) -> Result<Vec<Line>, Memory>
    requires { IsRefutation (codes_of formula.now.clauses) (contents_of lines.now) }
    ensures trimmed { IfOk result (λ trimmed. IsTrimmed (codes_of formula.now.clauses) (contents_of lines.now) (contents_of trimmed.items)) }
    ensures refutes { IfOk result (λ trimmed. IsRefutation (codes_of formula.now.clauses) (contents_of trimmed.items)) }
    ensures named { IfOk result (λ trimmed. EachIsNamed (contents_of trimmed.items)) }
    ensures cost { (first : State) (n : ℕ) → Starts (codes_of formula.now.clauses) first → Costs first (contents_of lines.now) n → steps.new ≤ steps.old + n }
    ensures count { IfOk result (λ trimmed. RisesByAtLeast steps.old steps.new (used_lengths (codes_of formula.now.clauses) (contents_of lines.now) (contents_of trimmed.items))) }
{
    let given = given_clauses(alloc, formula)?;
    if has_empty(&given) {
        return Ok(Vec::new(alloc));
    }
    let additions = additions_of(alloc, lines)?;
    let meanings = Meanings::new(alloc, given, additions)?;
    Ok(keep_used(alloc, &meanings, steps)?)
}

/// The additions up to the first of the empty clause.
fn additions_of<'a>(alloc: Global, lines: &'a [Line]) -> Result<Vec<&'a Addition>, AllocError>
    ensures { IfOk result (λ additions. adds_of additions.items ≡ up_to_empty (contents_of lines.now)) }
{
    let mut additions = Vec::new(alloc);
    for line in lines {
        match line {
            Line::Addition(addition) => {
                additions.push(addition)?;
                if addition.literals.is_empty() {
                    return Ok(additions);
                }
            }
            Line::Deletion(_) => {}
        }
    }
    Ok(additions)
}

/// The additions that a chain of hints leads to from the last one, each with the hints that suffice for it.
fn keep_used<L: Ledger>(
    alloc: Global,
    meanings: &Meanings,
    steps: &mut Steps<L>,
) -> Result<Vec<Line>, Memory>
    ensures part { IfOk result (λ kept. (clauses : List (List ℕ)) (lines : List Content) → IsMeant clauses lines meanings.now → IsUsedPart clauses lines (contents_of kept.items)) }
    ensures cost { (clauses : List (List ℕ)) (lines : List Content) (first : State) (n : ℕ) → IsMeant clauses lines meanings.now → Starts clauses first → Costs first lines n → steps.new ≤ steps.old + n }
    ensures count { IfOk result (λ kept. (clauses : List (List ℕ)) (lines : List Content) → IsMeant clauses lines meanings.now → RisesBy steps.old steps.new (used_lengths clauses lines (contents_of kept.items))) }
{
    let count = meanings.additions.len();
    let mut marks = vec![in alloc; false; count]?;
    if count > 0 {
        marks[count - 1] = true;
    }
    let mut assignment = Assignment::new(alloc);
    let mut kept = Vec::new(alloc);
    for place in (0..count).rev() {
        if marks[place] {
            let shown = look_at(meanings, place, &mut assignment, steps)?;
            mark_named(&shown, &meanings.ids, &mut marks);
            kept.push(shortened(alloc, &shown)?)?;
        }
    }
    kept.reverse();
    Ok(kept)
}

/// Follows the hints of an addition up to the one whose clause becomes false.
fn look_at<'a, L: Ledger>(
    meanings: &Meanings<'a>,
    place: usize,
    assignment: &mut Assignment,
    steps: &mut Steps<L>,
) -> Result<Shown<'a>, Memory>
    requires place { place < length meanings.now.additions.items }
    requires empty { assignment.old ≡ [] }
    ensures empty { assignment.new ≡ [] }
    ensures shows { IfOk result (λ shown. ShowsAt meanings.now place shown) }
    ensures count { IfOk result (λ shown. RisesBy steps.old steps.new (hint_lengths (meant_by meanings.now) (names_of (cut_of shown)))) }
    ensures fewest { LooksAtFewest meanings.now place steps.old steps.new }
{
    let addition = meanings.additions[place];
    let outcome = check(
        meanings,
        &addition.literals,
        &addition.hints,
        assignment,
        steps,
    );
    assignment.truncate(0);
    match outcome {
        Ok(hints) => Ok(Shown { addition, hints }),
        Err(_) => Err(Memory),
    }
}

/// Marks the additions that the needed hints of one name.
fn mark_named(shown: &Shown, ids: &[u64], marks: &mut [bool])
    requires { length marks.old ≡ length ids.now }
    ensures { AllPairs (λ id later. id < later) ids.now → MarksNamed ids.now (names_of (cut_of shown.now)) marks.old marks.new }
{
    let hints = &shown.addition.hints[..shown.hints];
    for hint in hints {
        if let Some(place) = place_of(ids, hint.id()) {
            marks[place] = true;
        }
    }
}

/// The addition with only the hints that it needs.
fn shortened(alloc: Global, shown: &Shown) -> Result<Line, AllocError>
    ensures { IfOk result (λ line. content_of line ≡ cut_of shown.now) }
{
    Ok(Line::Addition(Addition {
        id: shown.addition.id,
        literals: Vec::from_slice(alloc, &shown.addition.literals)?,
        hints: Vec::from_slice(alloc, &shown.addition.hints[..shown.hints])?,
    }))
}
