//! The command `audit`: a table's text is read and audited, and its entries and open numbers are counted.
ghost use Rattle.std.specs.Prelude.{◌≡◌, ◌<◌, ◌^◌, IfOk, length, map, sum_by};
ghost use Rattle.command_runs.specs.Outcomes.{outcome_view};
ghost use Rattle.rule_table.specs.Views.{rule_of, table_of};
ghost use Rattle.audit_cli.specs.Printed.{entries_line};
ghost use Rattle.audit_cli.specs.Tables.{Audits, open_count, opens_of};

use crate::printing::{entries_report, prints};
use crate::refusal::refused;
use crate::steps::read_audited;
use command_runs::Outcome;
use rule_table::Entry;
use std::alloc::{AllocError, Global};
use step_ledger::{Ledger, Steps};
use table_audit::Audited;

/// The command `audit`.
#[derive(Drop)]
pub(crate) struct Audit;

/// How many open numbers the entries have in all.
pub(crate) fn open_count(entries: &[Entry]) -> u64
    requires { sum_by open_count (map rule_of entries.now) < 2 ^ 63 }
    ensures { result ≡ sum_by open_count (map rule_of entries.now) }
{
    let mut count = 0;
    for entry in entries {
        count += entry.opens.len() as u64;
    }
    count
}

/// What is printed of an accepted table: the counts of its entries and of their open numbers.
pub(crate) fn audited_report(alloc: Global, audited: &Audited) -> Result<Vec<u8>, AllocError>
    requires { opens_of (table_of audited.now) < 2 ^ 63 }
    ensures { IfOk result (λ v. v.items ≡ entries_line (length (table_of audited.now).rules) (opens_of (table_of audited.now))) }
{
    let entries = &audited.table().entries;
    entries_report(alloc, entries.len() as u64, open_count(entries))
}

/// The outcome for a table's text.
fn outcome<L: Ledger>(
    alloc: Global,
    text: &[u8],
    steps: &mut Steps<L>,
) -> Result<Outcome, AllocError>
    ensures { IfOk result (λ o. Audits text.now (outcome_view o)) }
{
    match read_audited(alloc, text, steps)? {
        Err(refusal) => refused(alloc, refusal),
        Ok(audited) => {
            let lines = audited_report(alloc, &audited)?;
            let outcome = prints(alloc, lines);
            Ok(outcome)
        }
    }
}

impl command_runs::TextCommand for Audit {
    ghost use Rattle.audit_cli.specs.Tables.{AuditComesTo};

    ghost takes = { 1 };

    ghost comes = { λ _ texts o. AuditComesTo texts o };

    fn compute<L: Ledger>(
        &self,
        alloc: Global,
        texts: &[Vec<u8>],
        steps: &mut Steps<L>,
    ) -> Result<Outcome, AllocError> {
        match texts {
            [text] => outcome(alloc, text, steps),
            _ => unreachable!(),
        }
    }
}
