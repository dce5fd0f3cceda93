//! The command `upgrade`: keeps an accepted table of version 1 in version 2, the first whose rules may use a scratch register; later versions stay.
ghost use Rattle.std.specs.Prelude.{◌≡◌, ◌<◌, IfOk};
ghost use Rattle.command_runs.specs.Outcomes.{outcome_view};
ghost use Rattle.rule_table.specs.Views.{table_of};
ghost use Rattle.audit_cli.specs.Upgrade.{IsKept, Upgrades, upgraded};

use crate::audit::audited_report;
use crate::printing::keeps_text;
use crate::refusal::{Refusal, refused};
use crate::steps::read_audited;
use ascii_scan::TEXT_LIMIT;
use command_runs::Outcome;
use rule_table::{Table, write_table};
use std::alloc::{AllocError, Global};
use step_ledger::{Ledger, Steps};

/// The command `upgrade`, with the name that the table is kept under.
#[derive(Drop)]
pub(crate) struct Upgrade<'a> {
    pub(crate) out: &'a str,
}

/// The table in version 2, or as it is where its version is a later one.
fn upgraded(mut table: Table) -> Table
    ensures { table_of result ≡ upgraded (table_of table) }
{
    table.version = table.version.max(2);
    table
}

/// The outcome that keeps a table's text and prints lines, or the refusal `full` if the text would be too long to be read again.
pub(crate) fn kept(
    alloc: Global,
    out: &str,
    table: &Table,
    lines: Vec<u8>,
) -> Result<Outcome, AllocError>
    ensures { IfOk result (λ o. IsKept out.now (table_of table.now) lines.items (outcome_view o)) }
{
    let text = write_table(alloc, table)?;
    let bytes = text.len() as u64;
    if bytes > TEXT_LIMIT as u64 {
        return refused(alloc, Refusal::Full { bytes });
    }
    keeps_text(alloc, out, text, lines)
}

/// The outcome for a table's text.
fn outcome<L: Ledger>(
    alloc: Global,
    out: &str,
    text: &[u8],
    steps: &mut Steps<L>,
) -> Result<Outcome, AllocError>
    ensures { IfOk result (λ o. Upgrades out.now text.now (outcome_view o)) }
{
    match read_audited(alloc, text, steps)? {
        Err(refusal) => refused(alloc, refusal),
        Ok(audited) => {
            let lines = audited_report(alloc, &audited)?;
            let table = upgraded(audited.into_table());
            kept(alloc, out, &table, lines)
        }
    }
}

impl command_runs::TextCommand for Upgrade<'_> {
    ghost use Rattle.audit_cli.specs.Upgrade.{UpgradeComesTo};

    ghost takes = { 1 };

    ghost comes = { λ u texts o. UpgradeComesTo u.out.now texts o };

    fn compute<L: Ledger>(
        &self,
        alloc: Global,
        texts: &[Vec<u8>],
        steps: &mut Steps<L>,
    ) -> Result<Outcome, AllocError> {
        match texts {
            [text] => outcome(alloc, self.out, text, steps),
            _ => unreachable!(),
        }
    }
}
