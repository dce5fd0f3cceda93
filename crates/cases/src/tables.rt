//! Cases of tables: whether the kept text is a table, or at which line it is refused, and what the audit says of it.
ghost use Rattle.std.specs.Prelude.{IfSome};
ghost use Rattle.rule_table.specs.Views.{table_of};
ghost use Rattle.rule_table.specs.Table.{IsTable};

use crate::case::Case;
use crate::escapes::add_bytes;
use crate::rule_part::Given;
use rule_table::{Table, read_table};
use std::str;
use step_ledger::{Counted, Steps};
use table_audit::audit;

/// The table whose text is the kept one, some more lines, and the line `end`.
pub(crate) fn read(given: &Given, lines: &str) -> Option<Table>
    ensures { IfSome result (λ t. IsTable (table_of t)) }
{
    let mut text = given.text.clone().ok()?;
    add_bytes(&mut text, lines)?;
    text.extend_from_slice(b"end\n").ok()?;
    match read_table(given.alloc, &text) {
        Ok(table) => Some(table),
        Err(_) => None,
    }
}

/// Adds whether the kept text is a table, or at which line it is refused.
pub(crate) fn judge(given: &Given, case: &mut Case<'_>) -> Option<()> {
    case.tell(read_table(given.alloc, &given.text));
    Some(())
}

/// The kept text with a part replaced.
fn changed(given: &Given, edit: &[u8]) -> Option<String> {
    let (old, new) = str::from_utf8(edit).ok()?.split_once(" / ")?;
    let (before, after) = str::from_utf8(&given.text).ok()?.split_once(old)?;
    [before, new, after].concat(given.alloc).ok()
}

/// Adds whether the kept text with a part replaced is a table, or at which line it is refused.
pub(crate) fn change(given: &Given, case: &mut Case<'_>) -> Option<()> {
    let edit = case.text()?;
    let text = changed(given, &edit)?;
    case.tell(read_table(given.alloc, text.as_bytes()));
    Some(())
}

pub(crate) fn audited(given: &Given, case: &mut Case<'_>) -> Option<()> {
    let table = read(given, case.rest())?;
    case.tell(audit(given.alloc, table, &mut Steps::new(Counted::new())));
    Some(())
}
