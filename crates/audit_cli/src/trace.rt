//! The command `trace`: runs a listing, laid out at address 0, from a code label, and prints the run's events.
ghost use Rattle.std.specs.Prelude.{◌≡◌, IfOk, Some};
ghost use Rattle.thumb_model.specs.Listing.{code_of, place_of};
ghost use Rattle.thumb_model.specs.Layout.{Layable};
ghost use Rattle.label_layout.specs.Addresses.{AreAddresses};
ghost use Rattle.command_runs.specs.Outcomes.{outcome_view};
ghost use Rattle.audit_cli.specs.Commands.{trace_arguments_of};
ghost use Rattle.audit_cli.specs.Trace.{LinesTrace, Traces};

use crate::printing::prints;
use crate::refusal::{Refusal, refused};
use crate::running::run;
use crate::start::{answers, state};
use crate::steps::{lay_out, read_listing};
use crate::trace_lines::run_lines;
use command_runs::Outcome;
use label_layout::Layout;
use listing_parser::Listing;
use std::alloc::{AllocError, Global};
use step_ledger::{Ledger, Steps};
use thumb_machine::{Answers, Machine, Naming};

/// The command `trace`, with the label where the run begins and the greatest number of steps.
#[derive(Drop)]
pub(crate) struct Trace<'a> {
    pub(crate) label: &'a str,
    pub(crate) most: u32,
}

/// The outcome of the run of a listing from a place.
fn traced(
    alloc: Global,
    trace: &Trace<'_>,
    listing: &Listing,
    laid: &Layout,
    place: u32,
) -> Result<Outcome, AllocError>
    requires addresses { AreAddresses listing.now laid.now }
    requires base { laid.now.base ≡ 0 }
    requires layable { Layable 0 listing.now }
    requires label { place_of (code_of listing.now) trace.now.label.now ≡ Some place }
    ensures { IfOk result (λ o. LinesTrace (trace_arguments_of trace.now) listing.now (outcome_view o)) }
{
    let naming = Naming::laid(alloc, listing, laid)?;
    let state = state(alloc, place);
    let mut machine = Machine::new(alloc, listing, &naming, &state)?;
    let list = answers(alloc)?;
    let mut answers = Answers::new(list);
    let (taken, stage) = run(&mut machine, &mut answers, trace.most)?;
    let lines = run_lines(alloc, machine.events(), taken, stage)?;
    let outcome = prints(alloc, lines);
    Ok(outcome)
}

/// The outcome for a listing.
fn listing_outcome(
    alloc: Global,
    trace: &Trace<'_>,
    listing: &Listing,
) -> Result<Outcome, AllocError>
    ensures { IfOk result (λ o. LinesTrace (trace_arguments_of trace.now) listing.now (outcome_view o)) }
{
    match lay_out(alloc, listing, 0)? {
        Err(refusal) => refused(alloc, refusal),
        Ok(laid) => match listing.place_of(trace.label.as_bytes()) {
            None => refused(alloc, Refusal::Label),
            Some(place) => traced(alloc, trace, listing, &laid, place),
        },
    }
}

/// The outcome for a listing's text.
fn outcome(alloc: Global, trace: &Trace<'_>, text: &[u8]) -> Result<Outcome, AllocError>
    ensures { IfOk result (λ o. Traces (trace_arguments_of trace.now) text.now (outcome_view o)) }
{
    match read_listing(alloc, text)? {
        Err(refusal) => refused(alloc, refusal),
        Ok(listing) => listing_outcome(alloc, trace, &listing),
    }
}

impl command_runs::TextCommand for Trace<'_> {
    ghost use Rattle.audit_cli.specs.Trace.{TraceComesTo};
    ghost use Rattle.audit_cli.specs.Commands.{trace_arguments_of};

    ghost takes = { 1 };

    ghost comes = { λ t texts o. TraceComesTo (trace_arguments_of t) texts o };

    fn compute<L: Ledger>(
        &self,
        alloc: Global,
        texts: &[Vec<u8>],
        _steps: &mut Steps<L>,
    ) -> Result<Outcome, AllocError> {
        match texts {
            [text] => outcome(alloc, self, text),
            _ => unreachable!(),
        }
    }
}
