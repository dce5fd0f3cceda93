//! Replaces a window's instructions in a list of lines: the labels before the window stay, and all other lines keep their bytes.
ghost use Rattle.std.specs.Prelude.{◌≡◌, ◌<◌, ◌≤◌, ◌&&◌, ◌∷◌, ◌++◌, [], nat_lt, length, map, take, option_map, IfOk, OnOk};
ghost use Rattle.thumb_model.specs.Listing.{Nothing};
ghost use Rattle.thumb_model.specs.Replaced.{is_op, labels_kept, new_line, replaced_lines, without};
ghost use Rattle.listing_parser.specs.Views.{line_view, mention_view, names_view, statement_view, value_view};
ghost use Rattle.listing_parser.specs.Directives.{Unmarked};
ghost use Rattle.listing_parser.specs.ToldView.{mark_view};
ghost use Rattle.listing_parser.specs.Parsing.{own_line};
ghost use Rattle.thumb_syntax.specs.ParsedView.{shown};
ghost use Rattle.thumb_syntax.specs.Spelling.{text_of};

use crate::errors::Memory;
use crate::line::{FunctionMark, ListingLine, Mention, Statement, Value};
use std::alloc::{AllocError, Global};
use thumb_instr::Instr;
use thumb_syntax::{Parsed, write_instr};

fn copy_mention(alloc: Global, mention: &Mention) -> Result<Mention, AllocError>
    ensures { IfOk result (λ m. mention_view m ≡ mention_view mention.now) }
{
    let name = mention.name.to_vec(alloc)?;
    Ok(Mention {
        name,
        plus: mention.plus,
    })
}

fn copy_mentioned(alloc: Global, mention: &Option<Mention>) -> Result<Option<Mention>, AllocError>
    ensures { IfOk result (λ m. option_map mention_view m ≡ option_map mention_view mention.now) }
{
    match mention {
        None => Ok(None),
        Some(mention) => {
            let mention = copy_mention(alloc, mention)?;
            Ok(Some(mention))
        }
    }
}

fn copy_value(alloc: Global, value: &Value) -> Result<Value, AllocError>
    ensures { IfOk result (λ v. value_view v ≡ value_view value.now) }
{
    match value {
        Value::Number(number) => Ok(Value::Number(*number)),
        Value::OfName(mention) => {
            let mention = copy_mention(alloc, mention)?;
            Ok(Value::OfName(mention))
        }
    }
}

fn copy_values(alloc: Global, values: &[Value]) -> Result<Vec<Value>, AllocError>
    ensures { IfOk result (λ v. map value_view v.items ≡ map value_view values.now) }
{
    let mut copied = Vec::with_capacity(alloc, values.len())?;
    for value in values {
        let value = copy_value(alloc, value)?;
        copied.push(value)?;
    }
    Ok(copied)
}

fn copy_names(alloc: Global, names: &[Vec<u8>]) -> Result<Vec<Vec<u8>>, AllocError>
    ensures { IfOk result (λ v. map (λ n. n.items) v.items ≡ map (λ n. n.items) names.now) }
{
    let mut copied = Vec::with_capacity(alloc, names.len())?;
    for name in names {
        let name = name.to_vec(alloc)?;
        copied.push(name)?;
    }
    Ok(copied)
}

fn copy_statement(alloc: Global, statement: &Statement) -> Result<Statement, AllocError>
    ensures { IfOk result (λ s. statement_view s ≡ statement_view statement.now) }
{
    match statement {
        Statement::Nothing => Ok(Statement::Nothing),
        Statement::Instruction { instr, mention } => {
            let mention = copy_mentioned(alloc, mention)?;
            let instr = *instr;
            Ok(Statement::Instruction { instr, mention })
        }
        Statement::Words(values) => {
            let values = copy_values(alloc, values)?;
            Ok(Statement::Words(values))
        }
        Statement::Aligns { size, most } => Ok(Statement::Aligns {
            size: *size,
            most: *most,
        }),
        Statement::Sets { name, address } => {
            let name = name.to_vec(alloc)?;
            let address = *address;
            Ok(Statement::Sets { name, address })
        }
    }
}

fn copy_mark(alloc: Global, mark: &FunctionMark) -> Result<FunctionMark, AllocError>
    ensures { IfOk result (λ m. mark_view m ≡ mark_view mark.now) }
{
    match mark {
        FunctionMark::Nothing => Ok(FunctionMark::Nothing),
        FunctionMark::Next => Ok(FunctionMark::Next),
        FunctionMark::Named(name) => {
            let name = name.to_vec(alloc)?;
            Ok(FunctionMark::Named(name))
        }
    }
}

/// A copy of a line.
pub fn copy_line(alloc: Global, line: &ListingLine) -> Result<ListingLine, AllocError>
    ensures line { IfOk result (λ l. line_view l ≡ line_view line.now) }
    ensures mark { IfOk result (λ l. mark_view l.mark ≡ mark_view line.now.mark) }
{
    let names = copy_names(alloc, &line.names)?;
    let statement = copy_statement(alloc, &line.statement)?;
    let mark = copy_mark(alloc, &line.mark)?;
    let text = line.text.to_vec(alloc)?;
    Ok(ListingLine {
        names,
        statement,
        mark,
        text,
        front: line.front,
    })
}

/// Copies of lines.
pub fn copy_lines(alloc: Global, lines: &[ListingLine]) -> Result<Vec<ListingLine>, AllocError>
    ensures { IfOk result (λ v. map line_view v.items ≡ map line_view lines.now) }
{
    let mut copied = Vec::with_capacity(alloc, lines.len())?;
    for line in lines {
        let line = copy_line(alloc, line)?;
        copied.push(line)?;
    }
    Ok(copied)
}

/// Whether a line has an instruction.
pub fn is_op(line: &ListingLine) -> bool
    ensures { result ≡ is_op (line_view line.now).statement }
{
    matches!(line.statement, Statement::Instruction { .. })
}

/// The bytes of a line up to and including its last label's colon.
fn front_text(alloc: Global, line: &ListingLine) -> Result<Vec<u8>, AllocError>
    ensures { IfOk result (λ v. v.items ≡ take line.now.front line.now.text.items) }
{
    let front = if line.front < line.text.len() {
        let (front, _) = line.text.split_at(line.front);
        front
    } else {
        &line.text
    };
    front.to_vec(alloc)
}

/// The line of these labels alone. `text` is its bytes up to and including the last label's colon; a newline is added.
pub fn line_of_labels(names: Vec<Vec<u8>>, mut text: Vec<u8>) -> Result<ListingLine, AllocError>
    requires { 0 < length names.items }
    ensures line { IfOk result (λ l. line_view l ≡ record { names = map (λ name. name.items) names.items; statement = Nothing; text = text.items ++ 10 ∷ []; front = text.items ++ 10 ∷ [] }) }
    ensures mark { IfOk result (λ l. mark_view l.mark ≡ Unmarked) }
{
    let front = text.len();
    text.push(b'\n')?;
    Ok(ListingLine {
        names,
        statement: Statement::Nothing,
        mark: FunctionMark::Nothing,
        text,
        front,
    })
}

/// Adds what stays of a line whose instruction goes: its labels.
pub fn add_labels(
    alloc: Global,
    out: &mut Vec<ListingLine>,
    line: &ListingLine,
) -> Result<(), AllocError>
    ensures { OnOk result (map line_view out.new.items ≡ map line_view out.old.items ++ labels_kept (line_view line.now) (names_view line.now)) }
{
    if line.names.is_empty() {
        return Ok(());
    }
    let names = copy_names(alloc, &line.names)?;
    let front = front_text(alloc, line)?;
    out.push(line_of_labels(names, front)?)?;
    Ok(())
}

/// The text of a line of its own for an instruction: a tab, its canonical text and a newline.
pub fn own_text(alloc: Global, parsed: &Parsed<'_>) -> Result<Vec<u8>, Memory>
    ensures { IfOk result (λ v. v.items ≡ 9 ∷ (text_of (shown parsed.now) ++ 10 ∷ [])) }
{
    let written = write_instr(alloc, parsed)?;
    let mut text = Vec::with_capacity(alloc, written.len() + 2)?;
    text.push(b'\t')?;
    text.extend_from_slice(&written)?;
    text.push(b'\n')?;
    Ok(text)
}

/// The line of an instruction that mentions nothing.
#[tactic(auto, unfolding(crate::specs::Parsing::own_line))]
pub fn new_line(alloc: Global, instr: &Instr) -> Result<ListingLine, Memory>
    ensures { IfOk result (λ l. line_view l ≡ new_line own_line instr.now) }
{
    let text = own_text(
        alloc,
        &Parsed {
            instr: *instr,
            label: None,
        },
    )?;
    Ok(ListingLine {
        names: Vec::new(alloc),
        statement: Statement::Instruction {
            instr: *instr,
            mention: None,
        },
        mark: FunctionMark::Nothing,
        text,
        front: 0,
    })
}

/// Adds the lines of new instructions.
pub fn add_new(alloc: Global, out: &mut Vec<ListingLine>, instrs: &[Instr]) -> Result<(), Memory>
    ensures { OnOk result (map line_view out.new.items ≡ map line_view out.old.items ++ map (new_line own_line) instrs.now) }
{
    for instr in instrs {
        let line = new_line(alloc, instr)?;
        out.push(line)?;
    }
    Ok(())
}

/// Whether the line is an instruction's that is left out, where `left` of them are still to be.
fn is_skipped(left: usize, line: &ListingLine) -> bool
    ensures { result ≡ (nat_lt 0 left && is_op (line_view line.now).statement) }
{
    left > 0 && is_op(line)
}

/// Adds copies of lines, without the first `skipped` lines that have an instruction.
#[tactic(auto, using(crate::proofs::ReplaceLemmas::skipping))]
pub fn add_without(
    alloc: Global,
    out: &mut Vec<ListingLine>,
    lines: &[ListingLine],
    skipped: usize,
) -> Result<(), AllocError>
    ensures { OnOk result (map line_view out.new.items ≡ map line_view out.old.items ++ without skipped (map line_view lines.now)) }
{
    let mut left = skipped;
    for line in lines {
        if is_skipped(left, line) {
            left -= 1;
            continue;
        }
        let line = copy_line(alloc, line)?;
        out.push(line)?;
    }
    Ok(())
}

/// The lines with these instructions in place of the `count` instructions from a place on.
pub fn replaced_lines(
    alloc: Global,
    lines: &[ListingLine],
    place: usize,
    count: usize,
    instrs: &[Instr],
) -> Result<Vec<ListingLine>, Memory>
    requires { 1 ≤ count }
    ensures { IfOk result (λ v. map line_view v.items ≡ replaced_lines own_line place count instrs.now (map line_view lines.now)) }
{
    let mut out = Vec::with_capacity(alloc, lines.len())?;
    let mut passing = place;
    for (n, line) in lines.iter().enumerate() {
        if passing == 0 && is_op(line) {
            add_labels(alloc, &mut out, line)?;
            add_new(alloc, &mut out, instrs)?;
            let (_, after) = lines.split_at(n + 1);
            add_without(alloc, &mut out, after, count - 1)?;
            return Ok(out);
        }
        passing = passing.saturating_sub(line.statement.places());
        let line = copy_line(alloc, line)?;
        out.push(line)?;
    }
    Ok(out)
}
