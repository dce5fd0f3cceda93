//! Reads a table from its text, in one pass over the lines, up to the first that may not stand where it does.
ghost use Rattle.std.specs.Prelude.{IfOk};
ghost use Rattle.ascii_scan.specs.Source.{line_view};
ghost use Rattle.rule_table.specs.StageView.{stage_of, goes};
ghost use Rattle.rule_table.specs.Steps.{StepsTo};
ghost use Rattle.rule_table.specs.Reading.{Reads};

use crate::draft::Draft;
use crate::errors::TableError;
use crate::table::Table;
use crate::telling::read_item;
use ascii_scan::{Lines, SourceLine};
use std::alloc::{AllocError, Global};

/// Takes one more line; false if it lacks its newline, can't be read, or may not follow here.
fn step_line(alloc: Global, draft: &mut Draft, line: SourceLine<'_>) -> Result<bool, AllocError>
    ensures { IfOk result (λ b. StepsTo (stage_of draft.old) (line_view line.entry) (goes b (stage_of draft.new))) }
{
    if !line.is_ended {
        return Ok(false);
    }
    match read_item(alloc, line.text)? {
        None => Ok(false),
        Some(item) => draft.take(alloc, item),
    }
}

/// The table that the bytes are the text of, or the least n such that no table's text begins with the first n lines: if the text ends too early
/// or its last line lacks the newline, the number of the line that is missing or cut. It takes one pass over the text, and copies nothing but
/// what the table holds.
pub fn read_table(alloc: Global, text: &[u8]) -> Result<Table, TableError>
    ensures { Reads text.now result }
{
    let mut draft = Draft::new(alloc);
    let mut number = 1u64;
    for line in Lines::new(text) {
        if !step_line(alloc, &mut draft, line)? {
            return Err(TableError::Line(number));
        }
        number += 1;
    }
    match draft.finished() {
        Some(table) => Ok(table),
        None => Err(TableError::Line(number)),
    }
}
