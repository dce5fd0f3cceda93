//! Reading and writing a proof's line in the LRAT text format. Words are read in place, so that a long line needs no list of its words.
ghost use Rattle.std.specs.Prelude.{◌≡◌, ◌≢◌, ℕ, ℤ, List, [], ◌∷◌, ◌++◌, ◌==◌, ◌≤◌, ◌+◌, ◌^◌, map, length, decimal, All, Any, MatchOption, OnOk, IfOk, IsTrue, ◌↔◌, true, false};
ghost use Rattle.std.specs.Fmt.{signed_decimal};
ghost use Rattle.std.specs.List.{slice_split};
ghost use Rattle.clause_model.specs.Clauses.{HasDistinctVariables, variable_of};
ghost use Rattle.lrat_check.specs.Numbers.{IsId, AllWithin};
ghost use Rattle.lrat_check.specs.Text.{Content, content_of, addition, deletion, text_of, words_of, middle_of, id_of, spaced, literal_text, end_word, deletion_word, HasGoodParts, IsLine};
ghost use Rattle.lrat_check.specs.Reading.{IsLineWith, words_left};

use crate::entry::{ProofNumber, length_of_all, write_all};
use crate::line::{Addition, Deletion, Id, Line};
use crate::words::{next_word, read_last, read_list, split_word};
use clause_model::Literal;
use cnf_gates::Memory;
use std::alloc::{AllocError, Global};
use std::collections::HashSet;

/// The line whose text, without the newline, the bytes are. None where they aren't a line.
pub fn read_line(alloc: Global, bytes: &[u8]) -> Result<Option<Line>, Memory>
    ensures { IfOk result (λ r. MatchOption r ((content : Content) → IsLine content → text_of content ≡ bytes.now → ⊥) (λ line. IsLine (content_of line) × (text_of (content_of line) ≡ bytes.now))) }
{
    line_of(alloc, bytes)
}

/// The text of a line, with a newline at its end.
pub fn write_line(alloc: Global, line: &Line) -> Result<Vec<u8>, Memory>
    ensures { IfOk result (λ text. text.items ≡ text_of (content_of line.now) ++ 10 ∷ []) }
{
    let mut out = Vec::with_capacity(alloc, expected_bytes(line))?;
    write_front(line, &mut out)?;
    out.extend_from_slice(b"0\n")?;
    Ok(out)
}

/// How many bytes the text of a line has, with the newline at its end; None where that isn't below 2^64.
#[tactic(auto, using(crate::proofs::Texts::deletion_length))]
pub fn length_of_line(line: &Line) -> Option<u64>
    ensures { MatchOption result (2 ^ 64 ≤ length (text_of (content_of line.now)) + 1) (λ n. n ≡ length (text_of (content_of line.now)) + 1) }
{
    match line {
        Line::Addition(addition) => length_of_addition(addition),
        Line::Deletion(deletion) => length_of_all(deletion.id.length() + 5, &deletion.ids),
    }
}

#[tactic(auto, using(crate::proofs::Texts::addition_length))]
fn length_of_addition(line: &Addition) -> Option<u64>
    ensures { MatchOption result (2 ^ 64 ≤ length (text_of (addition line.now.id line.now.literals.items line.now.hints.items)) + 1) (λ n. n ≡ length (text_of (addition line.now.id line.now.literals.items line.now.hints.items)) + 1) }
{
    match length_of_all(line.id.length() + 5, &line.literals) {
        None => None,
        Some(length) => length_of_all(length, &line.hints),
    }
}

/// About how many bytes the text of a line has, so that it seldom has to grow while it is written.
fn expected_bytes(line: &Line) -> usize {
    let numbers = match line {
        Line::Addition(addition) => addition.literals.len().saturating_add(addition.hints.len()),
        Line::Deletion(deletion) => deletion.ids.len(),
    };
    numbers.saturating_mul(6).saturating_add(16)
}

/// Writes all words but the last, each followed by a blank.
fn write_front(line: &Line, out: &mut Vec<u8>) -> Result<(), AllocError>
    ensures { OnOk result (out.new.items ≡ out.old.items ++ spaced (decimal (id_of (content_of line.now)) ∷ middle_of (content_of line.now))) }
{
    match line {
        Line::Addition(addition) => write_addition(addition, out),
        Line::Deletion(deletion) => write_deletion(deletion, out),
    }
}

fn write_addition(line: &Addition, out: &mut Vec<u8>) -> Result<(), AllocError>
    ensures { OnOk result (out.new.items ≡ out.old.items ++ spaced (decimal line.now.id ∷ middle_of (addition line.now.id line.now.literals.items line.now.hints.items))) }
{
    line.id.write(out)?;
    out.push(b' ')?;
    write_all(&line.literals, out)?;
    out.extend_from_slice(b"0 ")?;
    write_all(&line.hints, out)
}

fn write_deletion(line: &Deletion, out: &mut Vec<u8>) -> Result<(), AllocError>
    ensures { OnOk result (out.new.items ≡ out.old.items ++ spaced (decimal line.now.id ∷ middle_of (deletion line.now.id line.now.ids.items))) }
{
    line.id.write(out)?;
    out.extend_from_slice(b" d ")?;
    write_all(&line.ids, out)
}

/// Whether the word is `d`.
fn is_deletion(word: &[u8]) -> bool
    ensures { IsTrue result ↔ (word.now ≡ deletion_word) }
{
    word == b"d".as_slice()
}

/// The line whose words, separated by single blanks, the bytes are.
fn line_of(alloc: Global, bytes: &[u8]) -> Result<Option<Line>, AllocError>
    ensures { IfOk result (λ r. MatchOption r ((content : Content) → IsLine content → words_of content ≡ slice_split (λ b. b == 32) bytes.now → ⊥) (λ line. IsLine (content_of line) × (words_of (content_of line) ≡ slice_split (λ b. b == 32) bytes.now))) }
{
    let (word, rest) = split_word(bytes);
    match Id::read(word) {
        None => Ok(None),
        Some(id) => line_with(alloc, id, rest),
    }
}

/// The line with this id and these words after it.
fn line_with(alloc: Global, id: Id, rest: Option<&[u8]>) -> Result<Option<Line>, AllocError>
    ensures { IfOk result (λ r. MatchOption r ((content : Content) → HasGoodParts content → middle_of content ++ end_word ∷ [] ≡ words_left rest.entry → ⊥) (IsLineWith id (words_left rest.entry))) }
{
    match ids_in(rest) {
        Some(ids) => deletion_with(alloc, id, ids),
        None => addition_with(alloc, id, rest),
    }
}

/// The words after the first, where the first is `d`.
fn ids_in(rest: Option<&[u8]>) -> Option<Option<&[u8]>>
    ensures { MatchOption result ((ids : List (List ℕ)) → words_left rest.entry ≡ deletion_word ∷ ids → ⊥) (λ ids. words_left rest.entry ≡ deletion_word ∷ words_left ids) }
{
    let Some((first, ids)) = next_word(rest) else {
        return None;
    };
    if is_deletion(first) { Some(ids) } else { None }
}

fn deletion_with(alloc: Global, id: Id, rest: Option<&[u8]>) -> Result<Option<Line>, AllocError>
    ensures { IfOk result (λ r. MatchOption r ((ids : List ℕ) → All IsId ids → map decimal ids ++ end_word ∷ [] ≡ words_left rest.entry → ⊥) (IsLineWith id (deletion_word ∷ words_left rest.entry))) }
{
    match read_last(alloc, rest)? {
        None => Ok(None),
        Some(ids) => Ok(Some(Line::Deletion(Deletion { id, ids }))),
    }
}

fn addition_with(alloc: Global, id: Id, rest: Option<&[u8]>) -> Result<Option<Line>, AllocError>
    ensures { IfOk result (λ r. MatchOption r ((literals : List ℕ) (hints : List ℤ) → HasGoodParts (addition id literals hints) → middle_of (addition id literals hints) ++ end_word ∷ [] ≡ words_left rest.entry → ⊥) (IsLineWith id (words_left rest.entry))) }
{
    match read_list(alloc, rest)? {
        None => Ok(None),
        Some((literals, rest)) => addition_of(alloc, id, literals, rest),
    }
}

fn addition_of(
    alloc: Global,
    id: Id,
    literals: Vec<Literal>,
    rest: Option<&[u8]>,
) -> Result<Option<Line>, AllocError>
    requires { AllWithin literals.items }
    ensures { IfOk result (λ r. MatchOption r ((hints : List ℤ) → HasGoodParts (addition id literals.items hints) → map signed_decimal hints ++ end_word ∷ [] ≡ words_left rest.entry → ⊥) (IsLineWith id (map literal_text literals.items ++ end_word ∷ words_left rest.entry))) }
{
    let Some(hints) = read_last(alloc, rest)? else {
        return Ok(None);
    };
    if has_distinct_variables(alloc, &literals)? {
        Ok(Some(Line::Addition(Addition {
            id,
            literals,
            hints,
        })))
    } else {
        Ok(None)
    }
}

/// Up to how many literals comparing all pairs is faster than keeping a set.
const FEW: usize = 16;

/// Whether no variable occurs twice.
fn has_distinct_variables(alloc: Global, literals: &[Literal]) -> Result<bool, AllocError>
    ensures { IfOk result (λ r. IsTrue r ↔ HasDistinctVariables literals.now) }
{
    if literals.len() <= FEW {
        Ok(differ_in_pairs(literals))
    } else {
        differ_in_set(alloc, literals)
    }
}

/// Whether no variable occurs twice, by comparing each with those before it.
fn differ_in_pairs(literals: &[Literal]) -> bool
    ensures { IsTrue result ↔ HasDistinctVariables literals.now }
{
    for (place, literal) in literals.iter().enumerate() {
        if has_variable(&literals[..place], literal.variable()) {
            return false;
        }
    }
    true
}

/// Whether one of the literals is of the variable.
fn has_variable(literals: &[Literal], variable: u32) -> bool
    ensures none { result ≡ false → All (λ l. variable_of l ≢ variable) literals.now }
    ensures some { result ≡ true → Any (λ l. variable_of l ≡ variable) literals.now }
{
    literals
        .iter()
        .any(|literal| literal.variable() == variable)
}

/// Whether no variable occurs twice, by a set of those before.
fn differ_in_set(alloc: Global, literals: &[Literal]) -> Result<bool, AllocError>
    ensures { IfOk result (λ r. IsTrue r ↔ HasDistinctVariables literals.now) }
{
    let mut seen = HashSet::new(alloc);
    for literal in literals {
        if !seen.insert(u64::from(literal.variable()))? {
            return Ok(false);
        }
    }
    Ok(true)
}
