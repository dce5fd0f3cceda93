//! The report lines that commands print, and the outcomes that keep texts and print such lines. `docs/COMMANDS.md` shows the lines.
ghost use Rattle.std.specs.Prelude.{◌≡◌, ◌∷◌, [], IfOk};
ghost use Rattle.audit_cli.specs.Printed.{report_of, image_line, entries_line, learnt_line, demo_line, formula_line, trimmed_line, families_line, tidied_report};
ghost use Rattle.command_runs.specs.Outcomes.{outcome_view};
ghost use Rattle.command_runs.specs.Plans.{Does};

use command_runs::{KeptText, Outcome};
use std::alloc::{AllocError, Global};

/// What is printed of a rewritten listing: how many replacements were made, and how many instructions there were before and after.
pub fn report(alloc: Global, replaced: u64, before: u64, after: u64) -> Result<Vec<u8>, AllocError>
    ensures { IfOk result (λ v. v.items ≡ report_of replaced before after) }
{
    let text = format!(in alloc; "replaced {replaced}\ninstructions {before} {after}\n")?;
    Ok(text.into_bytes())
}

/// What is printed of an image of so many bytes.
pub fn image_report(alloc: Global, bytes: u64) -> Result<Vec<u8>, AllocError>
    ensures { IfOk result (λ v. v.items ≡ image_line bytes) }
{
    let text = format!(in alloc; "image {bytes}\n")?;
    Ok(text.into_bytes())
}

/// What is printed of an accepted table: the counts of its entries and of their open numbers.
pub fn entries_report(alloc: Global, entries: u64, opens: u64) -> Result<Vec<u8>, AllocError>
    ensures { IfOk result (λ v. v.items ≡ entries_line entries opens) }
{
    let text = format!(in alloc; "entries {entries} open {opens}\n")?;
    Ok(text.into_bytes())
}

/// What is printed of a learnt table: the counts of its entries, of their open numbers, and of the states that it lists.
pub fn learnt_report(
    alloc: Global,
    entries: u64,
    opens: u64,
    states: u64,
) -> Result<Vec<u8>, AllocError>
    ensures { IfOk result (λ v. v.items ≡ learnt_line entries opens states) }
{
    let text = format!(in alloc; "entries {entries} open {opens} states {states}\n")?;
    Ok(text.into_bytes())
}

/// The first line that `demo` prints: how many windows the listing has.
pub fn demo_report(alloc: Global, windows: u32) -> Result<Vec<u8>, AllocError>
    ensures { IfOk result (λ v. v.items ≡ demo_line windows) }
{
    let text = format!(in alloc; "demo {windows}\n")?;
    Ok(text.into_bytes())
}

/// What is printed of a formula and a proof: how many variables, clauses and lines they have.
pub fn formula_report(
    alloc: Global,
    variables: u32,
    clauses: u64,
    lines: u64,
) -> Result<Vec<u8>, AllocError>
    ensures { IfOk result (λ v. v.items ≡ formula_line variables clauses lines) }
{
    let text = format!(in alloc; "variables {variables} clauses {clauses} lines {lines}\n")?;
    Ok(text.into_bytes())
}

/// What is printed of trimmed proofs: how many lines they had, and how many they have.
pub fn trimmed_report(alloc: Global, before: u64, after: u64) -> Result<Vec<u8>, AllocError>
    ensures { IfOk result (λ v. v.items ≡ trimmed_line before after) }
{
    let text = format!(in alloc; "lines {before} {after}\n")?;
    Ok(text.into_bytes())
}

/// What is printed of a table that got one more family: how many families it has, and how many lines the new one's proof has.
pub fn families_report(alloc: Global, families: u64, lines: u64) -> Result<Vec<u8>, AllocError>
    ensures { IfOk result (λ v. v.items ≡ families_line families lines) }
{
    let text = format!(in alloc; "families {families} lines {lines}\n")?;
    Ok(text.into_bytes())
}

/// What is printed of a tidied listing: how many changes were made, and how many instructions there were before and after.
pub fn tidied_report(
    alloc: Global,
    changes: u64,
    before: u64,
    after: u64,
) -> Result<Vec<u8>, AllocError>
    ensures { IfOk result (λ v. v.items ≡ tidied_report changes before after) }
{
    let text = format!(in alloc; "tidied {changes}\ninstructions {before} {after}\n")?;
    Ok(text.into_bytes())
}

/// The outcome that keeps nothing and prints the lines.
pub fn prints(alloc: Global, lines: Vec<u8>) -> Outcome
    ensures { outcome_view result ≡ Does [] lines.items }
{
    Outcome::Does {
        keeps: Vec::new(alloc),
        lines,
    }
}

/// The outcome that keeps one text and then prints the lines.
pub fn keeps_text(
    alloc: Global,
    name: &str,
    text: Vec<u8>,
    lines: Vec<u8>,
) -> Result<Outcome, AllocError>
    ensures { IfOk result (λ o. outcome_view o ≡ Does ((name.now, text.items) ∷ []) lines.items) }
{
    let keep = KeptText::new(alloc, name, text)?;
    let mut keeps = Vec::new(alloc);
    keeps.push(keep)?;
    Ok(Outcome::Does { keeps, lines })
}

/// The outcome that keeps a text, then another, and then prints the lines.
pub fn keeps_two(
    alloc: Global,
    name: &str,
    text: Vec<u8>,
    other_name: &str,
    other: Vec<u8>,
    lines: Vec<u8>,
) -> Result<Outcome, AllocError>
    ensures { IfOk result (λ o. outcome_view o ≡ Does ((name.now, text.items) ∷ (other_name.now, other.items) ∷ []) lines.items) }
{
    let keep = KeptText::new(alloc, name, text)?;
    let other_keep = KeptText::new(alloc, other_name, other)?;
    let mut keeps = Vec::new(alloc);
    keeps.push(keep)?;
    keeps.push(other_keep)?;
    Ok(Outcome::Does { keeps, lines })
}
