//! The command `learn`: learns a table from the windows of a listing, with the instruction costs of a second text if one is named.
ghost use Rattle.std.specs.Prelude.{◌≡◌, ◌≤◌, IfOk};
ghost use Rattle.command_runs.specs.Outcomes.{outcome_view};
ghost use Rattle.rule_table.specs.Table.{IsTable};
ghost use Rattle.rule_table.specs.Views.{table_of};
ghost use Rattle.table_learn.specs.Given.{settings_of, AreInLimits};
ghost use Rattle.ascii_scan.specs.Lines.{text_limit};
ghost use Rattle.table_learn.specs.Learnt.{text_length};
ghost use Rattle.audit_cli.specs.Learn.{Learns, LearnsByCosts, LinesLearn, kept_table, priced};
ghost use Rattle.audit_cli.specs.Commands.{learn_arguments_of, learn_arguments_by_costs, settings_for};

use crate::printing::keeps_text;
use crate::refusal::{Refusal, refused};
use crate::steps::{learnt, read_listing, table_report};
use command_runs::Outcome;
use listing_parser::Listing;
use rule_table::{LearnOptions, Table, write_table};
use seq_enum::{CostLine, Costs, read_costs};
use std::alloc::{AllocError, Global};
use step_ledger::{Ledger, Steps};
use table_learn::Settings;

/// The command `learn`, with the name that the table is kept under, the options, and the costs, if there are any.
#[derive(Drop)]
pub(crate) struct Learn<'a> {
    pub(crate) out: &'a str,
    pub(crate) options: &'a LearnOptions,
    pub(crate) costs: Option<Costs>,
}

/// The command `learn --costs`, with the name that the table is kept under, and the options. The costs are known only once their text is read.
#[derive(Drop)]
pub(crate) struct LearnByCosts<'a> {
    pub(crate) out: &'a str,
    pub(crate) options: &'a LearnOptions,
}

/// The settings of the learner.
fn settings(learn: &Learn<'_>) -> Settings
    ensures same { settings_of result ≡ settings_for learn.now }
    ensures limits { AreInLimits (settings_of result) }
{
    learn.options.header(learn.costs)
}

/// What is kept and printed of a table.
fn kept(alloc: Global, out: &str, table: &Table) -> Result<Outcome, AllocError>
    requires valid { IsTable (table_of table.now) }
    requires fits { text_length (table_of table.now) ≤ text_limit }
    ensures { IfOk result (λ o. outcome_view o ≡ kept_table out.now (table_of table.now)) }
{
    let text = write_table(alloc, table)?;
    let lines = table_report(alloc, table)?;
    keeps_text(alloc, out, text, lines)
}

/// The outcome for a listing.
fn listing_outcome<L: Ledger>(
    alloc: Global,
    to: &Learn<'_>,
    listing: &Listing,
    steps: &mut Steps<L>,
) -> Result<Outcome, AllocError>
    ensures { IfOk result (λ o. LinesLearn (learn_arguments_of to.now) listing.now (outcome_view o)) }
{
    let settings = settings(to);
    match learnt(alloc, listing, settings, steps)? {
        Err(refusal) => refused(alloc, refusal),
        Ok(table) => kept(alloc, to.out, &table),
    }
}

/// The outcome for a listing's text.
fn outcome<L: Ledger>(
    alloc: Global,
    to: &Learn<'_>,
    text: &[u8],
    steps: &mut Steps<L>,
) -> Result<Outcome, AllocError>
    ensures { IfOk result (λ o. Learns (learn_arguments_of to.now) text.now (outcome_view o)) }
{
    match read_listing(alloc, text)? {
        Err(refusal) => refused(alloc, refusal),
        Ok(listing) => listing_outcome(alloc, to, &listing, steps),
    }
}

/// The command with these costs.
fn with_costs<'a>(to: &LearnByCosts<'a>, costs: Costs) -> Learn<'a>
    ensures { learn_arguments_of result ≡ priced costs (learn_arguments_by_costs to.now) }
{
    Learn {
        out: to.out,
        options: to.options,
        costs: Some(costs),
    }
}

/// The outcome for the texts of a listing and of costs.
fn outcome_by_costs<L: Ledger>(
    alloc: Global,
    to: &LearnByCosts<'_>,
    text: &[u8],
    costs: &[u8],
    steps: &mut Steps<L>,
) -> Result<Outcome, AllocError>
    ensures { IfOk result (λ o. LearnsByCosts (learn_arguments_by_costs to.now) text.now costs.now (outcome_view o)) }
{
    match read_costs(costs) {
        Err(CostLine { number: line }) => refused(alloc, Refusal::Costs { line }),
        Ok(costs) => outcome(alloc, &with_costs(to, costs), text, steps),
    }
}

impl command_runs::TextCommand for Learn<'_> {
    ghost use Rattle.audit_cli.specs.Learn.{LearnComesTo};
    ghost use Rattle.audit_cli.specs.Commands.{learn_arguments_of};

    ghost takes = { 1 };

    ghost comes = { λ l texts o. LearnComesTo (learn_arguments_of l) texts o };

    fn compute<L: Ledger>(
        &self,
        alloc: Global,
        texts: &[Vec<u8>],
        steps: &mut Steps<L>,
    ) -> Result<Outcome, AllocError> {
        match texts {
            [text] => outcome(alloc, self, text, steps),
            _ => unreachable!(),
        }
    }
}

impl command_runs::TextCommand for LearnByCosts<'_> {
    ghost use Rattle.audit_cli.specs.Learn.{LearnByCostsComesTo};
    ghost use Rattle.audit_cli.specs.Commands.{learn_arguments_by_costs};

    ghost takes = { 2 };

    ghost comes = { λ l texts o. LearnByCostsComesTo (learn_arguments_by_costs l) texts o };

    fn compute<L: Ledger>(
        &self,
        alloc: Global,
        texts: &[Vec<u8>],
        steps: &mut Steps<L>,
    ) -> Result<Outcome, AllocError> {
        match texts {
            [text, costs] => outcome_by_costs(alloc, self, text, costs, steps),
            _ => unreachable!(),
        }
    }
}
