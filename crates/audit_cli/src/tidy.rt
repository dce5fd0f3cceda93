//! The command `tidy`: redirects branches to the ends of their chains, removes idle branches and unreachable code, and keeps the listing. It needs no table.
ghost use Rattle.std.specs.Prelude.{◌≡◌, ◌∷◌, [], IfOk};
ghost use Rattle.thumb_model.specs.Listing.{code_of};
ghost use Rattle.thumb_model.specs.Literals.{HasLiterals};
ghost use Rattle.listing_parser.specs.Parsing.{text_of_lines};
ghost use Rattle.command_runs.specs.Outcomes.{outcome_view};
ghost use Rattle.command_runs.specs.Plans.{Does};
ghost use Rattle.audit_cli.specs.Printed.{tidied_report};
ghost use Rattle.audit_cli.specs.Rewrite.{instruction_count};
ghost use Rattle.audit_cli.specs.Tidy.{LinesTidy, Tidies};

use crate::printing::{keeps_text, tidied_report};
use crate::refusal::refused;
use crate::steps::{instruction_count, read_listing, unlaid};
use command_line::Base;
use command_runs::Outcome;
use flow_tidy::TidyError;
use listing_parser::{Listing, print};
use std::alloc::{AllocError, Global};
use step_ledger::{Ledger, Steps};

/// The command `tidy`, with the name that the listing is kept under and the base address that it is laid out from.
#[derive(Drop)]
pub(crate) struct Tidy<'a> {
    pub(crate) out: &'a str,
    pub(crate) base: Base,
}

/// The outcome that keeps a tidied listing: `changes` were made, and there were `before` instructions before them.
fn kept(
    alloc: Global,
    out: &str,
    listing: &Listing,
    changes: u64,
    before: u64,
) -> Result<Outcome, AllocError>
    ensures { IfOk result (λ o. outcome_view o ≡ Does ((out.now, text_of_lines listing.now) ∷ []) (tidied_report changes before (instruction_count listing.now))) }
{
    let text = print(alloc, listing)?;
    let after = instruction_count(listing.lines());
    let lines = tidied_report(alloc, changes, before, after)?;
    keeps_text(alloc, out, text, lines)
}

/// The outcome for the lines of a listing.
fn lines_outcome<L: Ledger>(
    alloc: Global,
    to: &Tidy<'_>,
    listing: Listing,
    steps: &mut Steps<L>,
) -> Result<Outcome, AllocError>
    requires { HasLiterals (code_of listing) }
    ensures { IfOk result (λ o. LinesTidy to.now.base.address to.now.out.now listing (outcome_view o)) }
{
    let before = instruction_count(listing.lines());
    match flow_tidy::tidy(alloc, listing, to.base.address, steps) {
        Err(TidyError::Memory) => Err(AllocError),
        Err(TidyError::Line { number, kind }) => refused(alloc, unlaid(number, kind)),
        Ok(tidied) => kept(alloc, to.out, &tidied.listing, tidied.changes, before),
    }
}

/// The outcome for a listing's text.
fn outcome<L: Ledger>(
    alloc: Global,
    to: &Tidy<'_>,
    text: &[u8],
    steps: &mut Steps<L>,
) -> Result<Outcome, AllocError>
    ensures { IfOk result (λ o. Tidies to.now.base.address to.now.out.now text.now (outcome_view o)) }
{
    match read_listing(alloc, text)? {
        Err(refusal) => refused(alloc, refusal),
        Ok(listing) => lines_outcome(alloc, to, listing, steps),
    }
}

impl command_runs::TextCommand for Tidy<'_> {
    ghost use Rattle.audit_cli.specs.Tidy.{TidyComesTo};

    ghost takes = { 1 };

    ghost comes = { λ t texts o. TidyComesTo t.base.address t.out.now texts o };

    fn compute<L: Ledger>(
        &self,
        alloc: Global,
        texts: &[Vec<u8>],
        steps: &mut Steps<L>,
    ) -> Result<Outcome, AllocError> {
        match texts {
            [text] => outcome(alloc, self, text, steps),
            _ => unreachable!(),
        }
    }
}
