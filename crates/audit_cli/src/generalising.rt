//! The command `generalise`: keeps an accepted table with one more family, which proves an entry for each value of a range in place of one of its numbers.
ghost use Rattle.std.specs.Prelude.{◌≡◌, ◌+◌, ◌++◌, ◌∷◌, [], List, IfOk, length, map};
ghost use Rattle.std.specs.Result.{result_map_both};
ghost use Rattle.rule_table.specs.Table.{Table as Rules, Family as Raised, IsTable};
ghost use Rattle.rule_table.specs.Views.{family_of, table_of};
ghost use Rattle.command_runs.specs.Outcomes.{outcome_view};
ghost use Rattle.audit_cli.specs.Printed.{families_line};
ghost use Rattle.audit_cli.specs.Commands.{wanted_by};
ghost use Rattle.audit_cli.specs.Generalise.{FailsFor, Generalises, IsUnraised, Raises};

use crate::printing::families_report;
use crate::raising::{FamilyFault, generalise};
use crate::refusal::{Refusal, refused};
use crate::steps::read_audited;
use crate::upgrade::kept;
use command_runs::Outcome;
use rule_table::{Family, Table};
use std::alloc::{AllocError, Global};
use step_ledger::{Ledger, Steps};
use table_audit::Audited;

/// The command `generalise`, with an entry, counted from 1, the number of the pool to be raised, the least and the greatest value to take its place, and the
/// name that the table is kept under.
#[derive(Drop)]
pub(crate) struct Generalise<'a> {
    pub(crate) entry: u32,
    pub(crate) number: u8,
    pub(crate) low: u8,
    pub(crate) high: u8,
    pub(crate) out: &'a str,
}

/// The refusal that a fault becomes, for a table with this budget; `Memory` stays an error.
fn refusal_of(fault: FamilyFault, budget: u32) -> Result<Refusal, AllocError>
    ensures { (t : Rules) (f : Raised) → IsTable t → t.header.budget ≡ budget → FailsFor t f fault → IfOk result (IsUnraised t f) }
{
    match fault {
        FamilyFault::Number => Ok(Refusal::Number),
        FamilyFault::Symbol => Ok(Refusal::Symbol),
        FamilyFault::Differ {
            value,
            state: _state,
        } => Ok(Refusal::Differ { value }),
        FamilyFault::Spent(_log) => Ok(Refusal::Spent { budget }),
        FamilyFault::Memory => Err(AllocError),
    }
}

/// The table with the family, or the refusal.
fn raises<L: Ledger>(
    alloc: Global,
    to: &Generalise<'_>,
    audited: Audited,
    steps: &mut Steps<L>,
) -> Result<Result<Table, Refusal>, AllocError>
    ensures { IfOk result (λ r. Raises (table_of audited) (wanted_by to.now) (result_map_both table_of (λ e. e) r)) }
{
    let budget = audited.table().budget;
    match generalise(
        alloc,
        audited,
        u64::from(to.entry),
        to.number,
        to.low,
        to.high,
        steps,
    ) {
        Err(fault) => Ok(Err(refusal_of(fault, budget)?)),
        Ok(table) => Ok(Ok(table)),
    }
}

/// How many lines the proof of the last family has; 0 if there is no family.
fn last_lines(families: &[Family]) -> u64
    ensures { (front : List Raised) (f : Raised) → map family_of families.now ≡ front ++ f ∷ [] → result ≡ length f.proof }
{
    match families.last() {
        None => 0,
        Some(family) => family.proof.len() as u64,
    }
}

/// What is printed of a table: how many families it has, and how many lines the proof of the last one has.
fn last_report(alloc: Global, table: &Table) -> Result<Vec<u8>, AllocError>
    ensures { (front : List Raised) (f : Raised) → (table_of table.now).families ≡ front ++ f ∷ [] → IfOk result (λ v. v.items ≡ families_line (length front + 1) (length f.proof)) }
{
    let families = &table.families;
    families_report(alloc, families.len() as u64, last_lines(families))
}

/// The outcome for a table's text.
fn outcome<L: Ledger>(
    alloc: Global,
    to: &Generalise<'_>,
    text: &[u8],
    steps: &mut Steps<L>,
) -> Result<Outcome, AllocError>
    ensures { IfOk result (λ o. Generalises to.now.out.now (wanted_by to.now) text.now (outcome_view o)) }
{
    match read_audited(alloc, text, steps)? {
        Err(refusal) => refused(alloc, refusal),
        Ok(audited) => match raises(alloc, to, audited, steps)? {
            Err(refusal) => refused(alloc, refusal),
            Ok(table) => {
                let lines = last_report(alloc, &table)?;
                kept(alloc, to.out, &table, lines)
            }
        },
    }
}

impl command_runs::TextCommand for Generalise<'_> {
    ghost use Rattle.audit_cli.specs.Commands.{wanted_by};
    ghost use Rattle.audit_cli.specs.Generalise.{GeneraliseComesTo};

    ghost takes = { 1 };

    ghost comes = { λ g texts o. GeneraliseComesTo g.out.now (wanted_by g) texts o };

    fn compute<L: Ledger>(
        &self,
        alloc: Global,
        texts: &[Vec<u8>],
        steps: &mut Steps<L>,
    ) -> Result<Outcome, AllocError> {
        match texts {
            [text] => outcome(alloc, self, text, steps),
            _ => unreachable!(),
        }
    }
}
