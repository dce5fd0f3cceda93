//! The steps that commands share: reading a table's text and auditing it, reading a listing's text, laying it out and making its image, learning from
//! its windows, and the reports of what was learnt or rewritten.
ghost use Rattle.std.specs.Prelude.{◌≡◌, ◌≤◌, ◌%◌, ◌++◌, ℕ, List, IfOk, length, map};
ghost use Rattle.std.specs.Result.{result_map_both};
ghost use Rattle.thumb_model.specs.Layout.{Layable};
ghost use Rattle.thumb_model.specs.Replaced.{is_op};
ghost use Rattle.listing_parser.specs.Parsing.{IsListing, text_of_lines};
ghost use Rattle.listing_parser.specs.Views.{line_view};
ghost use Rattle.rule_table.specs.Refused.{IsText};
ghost use Rattle.rule_table.specs.Table.{IsTable};
ghost use Rattle.rule_table.specs.Views.{table_of};
ghost use Rattle.audit_cli.specs.Printed.{unlaid_refusal, image_line, learnt_line, report_of};
ghost use Rattle.label_layout.specs.Refusals.{fault_of};
ghost use Rattle.table_learn.specs.Given.{settings_of, AreInLimits};
ghost use Rattle.ascii_scan.specs.Lines.{text_limit};
ghost use Rattle.table_learn.specs.Learnt.{text_length};
ghost use Rattle.window_harvest.specs.Harvest.{AreHarvest, pair_of};
ghost use Rattle.audit_cli.specs.Tables.{opens_of};
ghost use Rattle.audit_cli.specs.Answers.{Teach, AuditsTable, LaysOut, MakesImage, ReadsListing, ReadsTable};
ghost use Rattle.audit_cli.specs.Learn.{limits_of};
ghost use Rattle.audit_cli.specs.Rewrite.{instruction_count};

use crate::audit::open_count;
use crate::printing::{image_report, learnt_report, report};
use crate::refusal::Refusal;
use label_layout::{Layout, LayoutError, LayoutFault, layout};
use listing_parser::{Listing, ListingError, ListingLine, Statement, parse};
use liveness::live;
use rule_table::{Table, TableError, read_table};
use std::alloc::{AllocError, Global};
use step_ledger::{Ledger, Steps};
use table_audit::{AuditError, Audited, audit};
use table_learn::{LearnError, Settings};
use thumb_assembler::{ImageError, assemble};
use thumb_instr::{Mask, Seq};
use window_harvest::windows;

/// The table of a text, or the refusal if it is none.
#[tactic(auto, using(crate::proofs::StepLemmas::is_unlisted))]
pub(crate) fn read_rules(alloc: Global, text: &[u8]) -> Result<Result<Table, Refusal>, AllocError>
    ensures { IfOk result (λ r. ReadsTable text.now (result_map_both table_of (λ e. e) r)) }
{
    match read_table(alloc, text) {
        Err(TableError::Memory) => Err(AllocError),
        Err(TableError::Line(line)) => Ok(Err(Refusal::Table { line })),
        Ok(table) => Ok(Ok(table)),
    }
}

/// The table, audited, or the refusal.
fn audited<L: Ledger>(
    alloc: Global,
    table: Table,
    steps: &mut Steps<L>,
) -> Result<Result<Audited, Refusal>, AllocError>
    requires { IsTable (table_of table) }
    ensures { (text : List ℕ) → IsText text (table_of table) → IfOk result (λ r. AuditsTable text (result_map_both table_of (λ e. e) r)) }
{
    match audit(alloc, table, steps) {
        Err(AuditError::Memory) => Err(AllocError),
        Err(AuditError::States(place)) => Ok(Err(Refusal::States { place })),
        Err(AuditError::Wide(count)) => Ok(Err(Refusal::Wide { count })),
        Err(AuditError::Entry { number, kind }) => Ok(Err(Refusal::Entry {
            number,
            fault: kind,
        })),
        Err(AuditError::Family { number, kind }) => Ok(Err(Refusal::Family { number, kind })),
        Ok(audited) => Ok(Ok(audited)),
    }
}

/// The accepted table of a text, or the refusal.
pub(crate) fn read_audited<L: Ledger>(
    alloc: Global,
    text: &[u8],
    steps: &mut Steps<L>,
) -> Result<Result<Audited, Refusal>, AllocError>
    ensures { IfOk result (λ r. AuditsTable text.now (result_map_both table_of (λ e. e) r)) }
{
    match read_rules(alloc, text)? {
        Err(refusal) => Ok(Err(refusal)),
        Ok(table) => audited(alloc, table, steps),
    }
}

/// The listing of a text, or the refusal if it is none.
#[tactic(auto, using(crate::proofs::StepLemmas::is_unread))]
pub(crate) fn read_listing(
    alloc: Global,
    text: &[u8],
) -> Result<Result<Listing, Refusal>, AllocError>
    ensures { IfOk result (λ r. ReadsListing text.now r) }
{
    match parse(alloc, text) {
        Err(ListingError::Memory) => Err(AllocError),
        Err(ListingError::Line { number: line, kind }) => Ok(Err(Refusal::Listing { line, kind })),
        Ok(listing) => Ok(Ok(listing)),
    }
}

/// The refusal of a line that cannot be laid out.
pub(crate) fn unlaid(line: u64, kind: LayoutFault) -> Refusal
    ensures { result ≡ unlaid_refusal line (fault_of kind) }
{
    match kind {
        LayoutFault::Range(distance) => Refusal::Range { line, distance },
        LayoutFault::Align(address) => Refusal::Align { line, address },
    }
}

/// The layout of a listing from a base address on, or the refusal.
#[tactic(auto, using(crate::proofs::StepLemmas::is_unlaid))]
pub(crate) fn lay_out(
    alloc: Global,
    listing: &Listing,
    base: u32,
) -> Result<Result<Layout, Refusal>, AllocError>
    ensures { IfOk result (λ r. LaysOut base listing.now r) }
{
    match layout(alloc, listing, base) {
        Err(LayoutError::Memory) => Err(AllocError),
        Err(LayoutError::Line { number, kind }) => Ok(Err(unlaid(number, kind))),
        Ok(laid) => Ok(Ok(laid)),
    }
}

/// The image of a listing that can be laid out, or the refusal if a name has no address or an address that is set lies inside the image.
pub(crate) fn image_of(
    alloc: Global,
    listing: &Listing,
    base: u32,
) -> Result<Result<Vec<u8>, Refusal>, AllocError>
    requires listed { IsListing (text_of_lines listing.now) listing.now }
    requires layable { Layable base listing.now }
    requires aligned { base % 4 ≡ 0 }
    ensures { IfOk result (λ r. MakesImage base listing.now (result_map_both (λ bytes. bytes.items) (λ e. e) r)) }
{
    let Ok(layout) = layout(alloc, listing, base) else {
        return Err(AllocError);
    };
    match assemble(alloc, listing, &layout) {
        Err(ImageError::Memory) => Err(AllocError),
        Err(ImageError::NoAddress(line)) => Ok(Err(Refusal::Address {
            line: u64::from(line),
        })),
        Err(ImageError::Inside(line)) => Ok(Err(Refusal::Inside {
            line: u64::from(line),
        })),
        Ok(bytes) => Ok(Ok(bytes)),
    }
}

/// The windows of a listing, each with the mask of what is live after it.
fn harvest<L: Ledger>(
    alloc: Global,
    listing: &Listing,
    settings: &Settings,
    steps: &mut Steps<L>,
) -> Result<Vec<(Seq, Mask)>, listing_parser::Memory>
    requires { AreInLimits (settings_of settings.now) }
    ensures { IfOk result (λ pairs. AreHarvest (limits_of (settings_of settings.now)) listing.now (map pair_of pairs.items)) }
{
    let live = live(alloc, listing, steps)?;
    windows(
        alloc,
        listing,
        &live,
        settings.regs,
        settings.left,
        &settings.pool,
    )
}

/// The table that is learnt from the windows of a listing, or the refusal.
pub(crate) fn learnt<L: Ledger>(
    alloc: Global,
    listing: &Listing,
    settings: Settings,
    steps: &mut Steps<L>,
) -> Result<Result<Table, Refusal>, AllocError>
    requires { AreInLimits (settings_of settings) }
    ensures { IfOk result (λ r. Teach (settings_of settings) listing.now (result_map_both table_of (λ e. e) r)) }
{
    let windows = harvest(alloc, listing, &settings, steps)?;
    match table_learn::learn(alloc, windows, settings, steps) {
        Err(LearnError::Memory) => Err(AllocError),
        Err(LearnError::Wide(count)) => Ok(Err(Refusal::Wide { count })),
        Err(LearnError::Full { bytes, .. }) => Ok(Err(Refusal::Full { bytes })),
        Ok(table) => Ok(Ok(table)),
    }
}

/// The report of a learnt table.
pub(crate) fn table_report(alloc: Global, table: &Table) -> Result<Vec<u8>, AllocError>
    requires valid { IsTable (table_of table.now) }
    requires fits { text_length (table_of table.now) ≤ text_limit }
    ensures { IfOk result (λ v. v.items ≡ learnt_line (length (table_of table.now).rules) (opens_of (table_of table.now)) (length (table_of table.now).states)) }
{
    learnt_report(
        alloc,
        table.entries.len() as u64,
        open_count(&table.entries),
        table.states.as_slice().len() as u64,
    )
}

/// How many replacements were made, and how many instructions there were before and after.
#[derive(Clone, Copy)]
pub(crate) struct Counts {
    pub(crate) replaced: u64,
    pub(crate) before: u64,
    pub(crate) after: u64,
}

/// Whether a line holds an instruction.
fn is_instruction(line: &ListingLine) -> bool
    ensures { result ≡ is_op (line_view line.now).statement }
{
    matches!(line.statement, Statement::Instruction { .. })
}

/// How many instructions the lines hold.
pub(crate) fn instruction_count(lines: &[ListingLine]) -> u64
    ensures { result ≡ instruction_count (map line_view lines.now) }
{
    let mut count = 0;
    for line in lines {
        if is_instruction(line) {
            count += 1;
        }
    }
    count
}

/// The report of a rewritten listing with that of its image.
pub(crate) fn report_image(alloc: Global, counts: Counts, bytes: u64) -> Result<Vec<u8>, AllocError>
    ensures { IfOk result (λ v. v.items ≡ report_of counts.replaced counts.before counts.after ++ image_line bytes) }
{
    let mut lines = report(alloc, counts.replaced, counts.before, counts.after)?;
    let size = image_report(alloc, bytes)?;
    lines.extend_from_slice(&size)?;
    Ok(lines)
}
