//! Cases of the learner: what it learns from one given window, without a listing around it.
ghost use Rattle.std.specs.Prelude.{◌≢◌, ◌↔◌, IsTrue};
ghost use Rattle.rule_table.specs.Views.{table_of};
ghost use Rattle.rule_table.specs.Table.{IsTable};

use crate::case::Case;
use crate::rule_part::Given;
use crate::tables::read;
use rule_table::{Table, write_table};
use step_ledger::{Counted, Steps};
use table_audit::sides_fit;
use table_learn::{LearnError, learn};

/// Whether the learner can be given a header of this version: 1 and 2 without costs, 4 with them.
fn is_learnt(version: u8) -> bool
    ensures { IsTrue result ↔ (version ≢ 3) }
{
    version != 3
}

/// The table that is learnt from the left side and the mask of a table's last entry, with that table's header as settings.
fn learnt_table(given: &Given, mut table: Table) -> Option<Result<Table, LearnError>>
    requires { IsTable (table_of table) }
{
    if !is_learnt(table.version) {
        return None;
    }
    let entry = table.entries.pop()?;
    if !sides_fit(&table, &entry) {
        return None;
    }
    let (settings, _, _, _) = table.into_parts();
    let windows = vec![in given.alloc; (entry.left, entry.mask)].ok()?;
    Some(learn(
        given.alloc,
        windows,
        settings,
        &mut Steps::new(Counted::new()),
    ))
}

/// The text of a table without the line `end`.
fn text_of(given: &Given, table: &Table) -> Option<Vec<u8>> {
    let mut text = write_table(given.alloc, table).ok()?;
    text.truncate(text.len().saturating_sub(4));
    Some(text)
}

pub(crate) fn learnt(given: &mut Given, case: &mut Case<'_>) -> Option<()> {
    let learnt = learnt_table(given, read(given, case.rest())?)?;
    if let Ok(table) = &learnt {
        given.text = text_of(given, table)?;
    }
    case.tell(learnt);
    Some(())
}
