//! The command `demo`: makes a listing, learns a table from its windows, audits the table from its own text, rewrites and assembles the listing, and prints
//! the counts. Nothing is fetched or kept.
ghost use Rattle.std.specs.Prelude.{◌≡◌, ◌≤◌, ◌∷◌, ◌++◌, None, IfOk, codes, string_bytes};
ghost use Rattle.std.specs.Fmt.{decimal};
ghost use Rattle.command_runs.specs.Outcomes.{outcome_view};
ghost use Rattle.thumb_model.specs.Layout.{Layable};
ghost use Rattle.listing_parser.specs.Parsing.{IsListing, text_of_lines};
ghost use Rattle.rule_table.specs.Table.{IsTable};
ghost use Rattle.rule_table.specs.Views.{table_of};
ghost use Rattle.table_audit.specs.Acceptance.{IsAccepted};
ghost use Rattle.table_learn.specs.Given.{settings_of};
ghost use Rattle.thumb_assembler.specs.Runs.{IsAssembled};
ghost use Rattle.thumb_assembler.specs.Bytes.{first_flaw};
ghost use Rattle.audit_cli.specs.Demo.{DemoComesTo, IsDemo, IsRewritingTold, demo_settings, demo_text, own, pair, window_text};
ghost use Rattle.audit_cli.specs.Answers.{IsDemoListing};
ghost use Rattle.audit_cli.specs.Learn.{IsLearnt};

use crate::printing::{demo_report, prints};
use crate::refusal::refused;
use crate::steps::{
    Counts, image_of, instruction_count, learnt, read_audited, read_listing, report_image,
    table_report,
};
use command_runs::Outcome;
use listing_parser::Listing;
use rule_table::{LearnOptions, Table, write_table};
use seq_enum::Pool;
use std::alloc::{AllocError, Global};
use step_ledger::{Ledger, Steps};
use table_audit::Audited;
use table_learn::Settings;
use thumb_instr::Within;
use window_rewrite::{RewriteError, Rewritten};

/// The command `demo`, with the number of its windows.
#[derive(Drop)]
pub(crate) struct Demo {
    pub(crate) windows: Within<1, 20_001>,
}

/// A window of one of three kinds: two instructions on register r`d`, and a `nop` that ends the window.
fn window_in(alloc: Global, kind: u32, d: u32) -> Result<String, AllocError>
    ensures { IfOk result (λ t. string_bytes t ≡ pair kind (114 ∷ decimal d) ++ own (codes "nop")) }
{
    if kind == 0 {
        return format!(in alloc; "\tlsls r{d}, r{d}, #24\n\tlsrs r{d}, r{d}, #24\n\tnop\n");
    }
    if kind == 1 {
        return format!(in alloc; "\tmvns r{d}, r{d}\n\tadds r{d}, #1\n\tnop\n");
    }
    format!(in alloc; "\tmov r{d}, r{d}\n\tmov r{d}, r{d}\n\tnop\n")
}

/// The window of number i.
fn window_text(alloc: Global, i: u32) -> Result<Vec<u8>, AllocError>
    ensures { IfOk result (λ v. v.items ≡ window_text i) }
{
    let text = window_in(alloc, i % 3, i % 8)?;
    Ok(text.into_bytes())
}

/// The text of the listing of so many windows.
fn demo_text(alloc: Global, windows: u32) -> Result<Vec<u8>, AllocError>
    ensures { IfOk result (λ v. v.items ≡ demo_text windows) }
{
    let mut text = b"demo:\n".to_vec(alloc)?;
    for i in 0..windows {
        let window = window_text(alloc, i)?;
        text.extend_from_slice(&window)?;
    }
    text.extend_from_slice(b"\tbx lr\n")?;
    Ok(text)
}

/// The listing with so many windows.
fn demo_listing(alloc: Global, windows: u32) -> Result<Listing, AllocError>
    requires { windows ≤ 20000 }
    ensures { IfOk result (IsListing (demo_text windows)) }
{
    let text = demo_text(alloc, windows)?;
    match read_listing(alloc, &text)? {
        Err(_) => unreachable!(),
        Ok(listing) => Ok(listing),
    }
}

/// The pool: the numbers that the instructions of the alphabet may have.
static POOL: [u8; 2] = [1, 24];

/// The settings that the table is learnt with.
fn settings() -> Settings
    ensures { settings_of result ≡ demo_settings }
{
    let Some(pool) = Pool::new(&POOL) else {
        unreachable!();
    };
    let options = LearnOptions {
        regs: Within::of(1),
        left: Within::of(2),
        budget: Within::of(20_000),
        seed: 42,
        scratch: Within::of(0),
        pool,
    };
    options.header(None)
}

/// An accepted table, read back from its own text and audited.
fn audited_again<L: Ledger>(
    alloc: Global,
    table: &Table,
    steps: &mut Steps<L>,
) -> Result<Audited, AllocError>
    requires valid { IsTable (table_of table.now) }
    requires accepted { IsAccepted (table_of table.now) }
    ensures { IfOk result (λ a. table_of a ≡ table_of table.now) }
{
    let text = write_table(alloc, table)?;
    match read_audited(alloc, &text, steps)? {
        Err(_) => unreachable!(),
        Ok(audited) => Ok(audited),
    }
}

/// The image of a listing that has one, from address 0 on.
fn image(alloc: Global, listing: &Listing) -> Result<Vec<u8>, AllocError>
    requires listed { IsListing (text_of_lines listing.now) listing.now }
    requires layable { Layable 0 listing.now }
    requires flawless { first_flaw 0 listing.now ≡ None }
    ensures { IfOk result (λ bytes. IsAssembled 0 listing.now bytes.items) }
{
    match image_of(alloc, listing, 0)? {
        Err(_) => unreachable!(),
        Ok(bytes) => Ok(bytes),
    }
}

/// The lines that report the rewriting of the listing by a table, and its image.
fn rewriting_report<L: Ledger>(
    alloc: Global,
    table: &Audited,
    listing: Listing,
    steps: &mut Steps<L>,
) -> Result<Vec<u8>, AllocError>
    requires valid { IsTable (table_of table.now) }
    requires accepted { IsAccepted (table_of table.now) }
    requires made { IsDemoListing listing }
    ensures { IfOk result (λ v. IsRewritingTold (table_of table.now) listing v.items) }
{
    let before = instruction_count(listing.lines());
    match window_rewrite::rewrite(alloc, table, listing, 0, steps) {
        Err(RewriteError::Memory) => Err(AllocError),
        Err(RewriteError::Line { .. }) => unreachable!(),
        Ok(
            Rewritten {
                listing,
                replacements,
            },
        ) => {
            let counts = Counts {
                replaced: replacements.len() as u64,
                before,
                after: instruction_count(listing.lines()),
            };
            let bytes = image(alloc, &listing)?;
            report_image(alloc, counts, bytes.len() as u64)
        }
    }
}

/// The lines that report the rewriting of the listing by a table, which is read back from its own text and audited, and its image.
fn rewriting_by<L: Ledger>(
    alloc: Global,
    table: &Table,
    listing: Listing,
    steps: &mut Steps<L>,
) -> Result<Vec<u8>, AllocError>
    requires valid { IsTable (table_of table.now) }
    requires accepted { IsAccepted (table_of table.now) }
    requires made { IsDemoListing listing }
    ensures { IfOk result (λ v. IsRewritingTold (table_of table.now) listing v.items) }
{
    let audited = audited_again(alloc, table, steps)?;
    rewriting_report(alloc, &audited, listing, steps)
}

/// All lines that are printed, for a table that was learnt from the listing.
fn told<L: Ledger>(
    alloc: Global,
    windows: u32,
    listing: Listing,
    table: &Table,
    steps: &mut Steps<L>,
) -> Result<Vec<u8>, AllocError>
    requires few { windows ≤ 20000 }
    requires made { IsListing (demo_text windows) listing }
    requires learnt { IsLearnt demo_settings listing (table_of table.now) }
    ensures { IfOk result (λ v. IsDemo windows v.items) }
{
    let rewriting = rewriting_by(alloc, table, listing, steps)?;
    let mut lines = demo_report(alloc, windows)?;
    let learnt = table_report(alloc, table)?;
    lines.extend_from_slice(&learnt)?;
    lines.extend_from_slice(&rewriting)?;
    Ok(lines)
}

/// The outcome for so many windows.
fn outcome<L: Ledger>(
    alloc: Global,
    windows: u32,
    steps: &mut Steps<L>,
) -> Result<Outcome, AllocError>
    requires { windows ≤ 20000 }
    ensures { IfOk result (λ o. DemoComesTo windows (outcome_view o)) }
{
    let listing = demo_listing(alloc, windows)?;
    match learnt(alloc, &listing, settings(), steps)? {
        Err(refusal) => refused(alloc, refusal),
        Ok(table) => {
            let lines = told(alloc, windows, listing, &table, steps)?;
            Ok(prints(alloc, lines))
        }
    }
}

impl command_runs::TextCommand for Demo {
    ghost use Rattle.audit_cli.specs.Demo.{DemoComesTo};

    ghost takes = { 0 };

    ghost comes = { λ d texts o. DemoComesTo d.windows.number o };

    fn compute<L: Ledger>(
        &self,
        alloc: Global,
        _texts: &[Vec<u8>],
        steps: &mut Steps<L>,
    ) -> Result<Outcome, AllocError> {
        outcome(alloc, self.windows.number, steps)
    }
}
