//! The command `rewrite`: audits a table, rewrites a listing by it, and keeps the listing and, where one is asked for, its image.
ghost use Rattle.std.specs.Prelude.{◌≡◌, ◌∷◌, ◌++◌, ◌↔◌, [], length, codes, IfOk, IsTrue};
ghost use Rattle.listing_parser.specs.Parsing.{IsListing, text_of_lines};
ghost use Rattle.command_runs.specs.Outcomes.{outcome_view};
ghost use Rattle.thumb_model.specs.Layout.{Layable};
ghost use Rattle.command_runs.specs.Plans.{Does};
ghost use Rattle.rule_table.specs.Views.{table_of};
ghost use Rattle.table_audit.specs.Soundness.{IsSound};
ghost use Rattle.audit_cli.specs.Commands.{counts_of, destination_of};
ghost use Rattle.audit_cli.specs.Printed.{report_of, image_line};
ghost use Rattle.audit_cli.specs.Rewrite.{Comes, Leaves, LinesRewrite, Rewrites};

use crate::printing::{keeps_text, keeps_two, report};
use crate::refusal::refused;
use crate::steps::{
    Counts, image_of, instruction_count, read_audited, read_listing, report_image, unlaid,
};
use command_line::Base;
use command_runs::Outcome;
use listing_parser::{Listing, print};
use std::alloc::{AllocError, Global};
use step_ledger::{Ledger, Steps};
use table_audit::Audited;
use window_rewrite::{RewriteError, Rewritten};

/// The command `rewrite`, with the names that the listing and its image are kept under, and the image's base.
#[derive(Drop)]
pub(crate) struct Rewrite<'a> {
    pub(crate) out: &'a str,
    pub(crate) image: &'a str,
    pub(crate) base: Base,
}

/// Whether the argument IMAGE is `-`, which asks for no image.
fn is_no_image(image: &str) -> bool
    ensures { IsTrue result ↔ (image.now ≡ codes "-") }
{
    image == "-"
}

/// The outcome that keeps a listing.
fn keeps_listing(
    alloc: Global,
    out: &str,
    listing: &Listing,
    counts: Counts,
) -> Result<Outcome, AllocError>
    ensures { IfOk result (λ o. outcome_view o ≡ Does ((out.now, text_of_lines listing.now) ∷ []) (report_of counts.replaced counts.before counts.after)) }
{
    let text = print(alloc, listing)?;
    let lines = report(alloc, counts.replaced, counts.before, counts.after)?;
    keeps_text(alloc, out, text, lines)
}

/// The outcome that keeps a listing and then its image.
fn keeps_both(
    alloc: Global,
    to: &Rewrite<'_>,
    listing: &Listing,
    image: Vec<u8>,
    counts: Counts,
) -> Result<Outcome, AllocError>
    ensures { IfOk result (λ o. outcome_view o ≡ Does ((to.now.out.now, text_of_lines listing.now) ∷ (to.now.image.now, image.items) ∷ []) (report_of counts.replaced counts.before counts.after ++ image_line (length image.items))) }
{
    let text = print(alloc, listing)?;
    let lines = report_image(alloc, counts, image.len() as u64)?;
    keeps_two(alloc, to.out, text, to.image, image, lines)
}

/// The outcome for a rewritten listing.
fn left(
    alloc: Global,
    to: &Rewrite<'_>,
    listing: &Listing,
    counts: Counts,
) -> Result<Outcome, AllocError>
    requires listed { IsListing (text_of_lines listing.now) listing.now }
    requires layable { Layable to.now.base.address listing.now }
    ensures { IfOk result (λ o. Leaves (destination_of to.now) listing.now (counts_of counts) (outcome_view o)) }
{
    if is_no_image(to.image) {
        return keeps_listing(alloc, to.out, listing, counts);
    }
    match image_of(alloc, listing, to.base.address)? {
        Err(refusal) => refused(alloc, refusal),
        Ok(image) => keeps_both(alloc, to, listing, image, counts),
    }
}

/// The outcome for the lines of a listing, with an accepted table.
fn lines_outcome<L: Ledger>(
    alloc: Global,
    to: &Rewrite<'_>,
    table: &Audited,
    listing: Listing,
    steps: &mut Steps<L>,
) -> Result<Outcome, AllocError>
    requires sound { IsSound (table_of table.now) }
    requires listed { IsListing (text_of_lines listing) listing }
    ensures { IfOk result (λ o. LinesRewrite (destination_of to.now) (table_of table.now) listing (outcome_view o)) }
{
    let before = instruction_count(listing.lines());
    match window_rewrite::rewrite(alloc, table, listing, to.base.address, steps) {
        Err(RewriteError::Memory) => Err(AllocError),
        Err(RewriteError::Line { number, kind }) => refused(alloc, unlaid(number, kind)),
        Ok(
            Rewritten {
                listing,
                replacements,
            },
        ) => {
            let counts = Counts {
                replaced: replacements.len() as u64,
                before,
                after: instruction_count(listing.lines()),
            };
            left(alloc, to, &listing, counts)
        }
    }
}

/// The outcome for the text of a listing, with an accepted table.
fn text_outcome<L: Ledger>(
    alloc: Global,
    to: &Rewrite<'_>,
    table: &Audited,
    text: &[u8],
    steps: &mut Steps<L>,
) -> Result<Outcome, AllocError>
    requires { IsSound (table_of table.now) }
    ensures { IfOk result (λ o. Rewrites (destination_of to.now) (table_of table.now) text.now (outcome_view o)) }
{
    match read_listing(alloc, text)? {
        Err(refusal) => refused(alloc, refusal),
        Ok(listing) => lines_outcome(alloc, to, table, listing, steps),
    }
}

/// The outcome for the texts of a table and a listing.
fn outcome<L: Ledger>(
    alloc: Global,
    to: &Rewrite<'_>,
    table: &[u8],
    listing: &[u8],
    steps: &mut Steps<L>,
) -> Result<Outcome, AllocError>
    ensures { IfOk result (λ o. Comes (destination_of to.now) table.now listing.now (outcome_view o)) }
{
    match read_audited(alloc, table, steps)? {
        Err(refusal) => refused(alloc, refusal),
        Ok(audited) => text_outcome(alloc, to, &audited, listing, steps),
    }
}

impl command_runs::TextCommand for Rewrite<'_> {
    ghost use Rattle.audit_cli.specs.Rewrite.{RewriteComesTo};
    ghost use Rattle.audit_cli.specs.Commands.{destination_of};

    ghost takes = { 2 };

    ghost comes = { λ s texts o. RewriteComesTo (destination_of s) texts o };

    fn compute<L: Ledger>(
        &self,
        alloc: Global,
        texts: &[Vec<u8>],
        steps: &mut Steps<L>,
    ) -> Result<Outcome, AllocError> {
        match texts {
            [table, listing] => outcome(alloc, self, table, listing, steps),
            _ => unreachable!(),
        }
    }
}
