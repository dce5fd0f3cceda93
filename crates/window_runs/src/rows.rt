//! The places of a listing as windows see them: which instruction may stand in one, and whether it goes on from the place before.
ghost use Rattle.std.specs.Prelude.{◌≡◌, ◌++◌, ◌&&◌, false, map, IfOk, OnOk, option_map};
ghost use Rattle.thumb_model.specs.Listing.{Words};
ghost use Rattle.listing_parser.specs.Views.{line_view, mention_view, statement_view, value_view};
ghost use Rattle.window_runs.specs.Rows.{is_unlabelled, rows_from, rows_of, stays_joined, window_instr};

use listing_parser::{ListingLine, Mention, Statement, Value};
use std::alloc::{AllocError, Global};
use thumb_instr::{Instr, in_window};

/// A place as windows see it.
#[derive(Clone, Copy)]
pub struct WindowPlace {
    /// The instruction that stands there, where it may stand in a window.
    pub instr: Option<Instr>,
    /// Whether neither a label nor an alignment line stands between it and an instruction right before it. It says nothing at or behind data words.
    pub is_joined: bool,
}

/// The places of lines, in order.
pub fn rows(alloc: Global, lines: &[ListingLine]) -> Result<Vec<WindowPlace>, AllocError>
    ensures { IfOk result (λ rows. rows.items ≡ rows_from false (map line_view lines.now)) }
{
    let mut rows = Vec::with_capacity(alloc, lines.len())?;
    let mut joined = false;
    for line in lines {
        joined = add_line(&mut rows, line, joined)?;
    }
    Ok(rows)
}

/// Adds the places of a line, and returns whether what follows the line is joined to what stands before.
fn add_line(
    rows: &mut Vec<WindowPlace>,
    line: &ListingLine,
    joined: bool,
) -> Result<bool, AllocError>
    ensures rows { OnOk result (rows.new.items ≡ rows.old.items ++ rows_of (joined && is_unlabelled (line_view line.now).names) (line_view line.now).statement) }
    ensures joined { IfOk result (λ j. j ≡ stays_joined (joined && is_unlabelled (line_view line.now).names) (line_view line.now).statement) }
{
    let joined = joined & line.names.is_empty();
    add_places(rows, &line.statement, joined)?;
    Ok(stays_joined(&line.statement, joined))
}

/// Adds the places of a statement.
fn add_places(
    rows: &mut Vec<WindowPlace>,
    statement: &Statement,
    is_joined: bool,
) -> Result<(), AllocError>
    ensures { OnOk result (rows.new.items ≡ rows.old.items ++ rows_of is_joined (statement_view statement.now)) }
{
    match statement {
        Statement::Instruction { instr, mention } => {
            let instr = window_instr(instr, mention.as_ref());
            rows.push(WindowPlace { instr, is_joined })?;
            Ok(())
        }
        Statement::Words(values) => add_words(rows, values),
        _ => Ok(()),
    }
}

/// Adds data words.
fn add_words(rows: &mut Vec<WindowPlace>, values: &[Value]) -> Result<(), AllocError>
    ensures { OnOk result (rows.new.items ≡ rows.old.items ++ rows_of false (Words (map value_view values.now))) }
{
    for _ in values {
        rows.push(WindowPlace {
            instr: None,
            is_joined: false,
        })?;
    }
    Ok(())
}

/// Whether the place behind a statement is joined to what stands before it.
fn stays_joined(statement: &Statement, joined: bool) -> bool
    ensures { result ≡ stays_joined joined (statement_view statement.now) }
{
    match statement {
        Statement::Instruction { .. } => true,
        Statement::Aligns { .. } => false,
        _ => joined,
    }
}

/// The instruction, if it mentions nothing and may stand in a window.
pub fn window_instr(instr: &Instr, mention: Option<&Mention>) -> Option<Instr>
    ensures { result ≡ window_instr instr.now (option_map (λ r. mention_view r.now) mention.entry) }
{
    match mention {
        Some(_) => None,
        None => { if in_window(instr) { Some(*instr) } else { None } }
    }
}
