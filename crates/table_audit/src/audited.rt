//! Only the audit makes an `Audited`. Rewriting takes nothing else, so that no unchecked rule is ever applied.
ghost use Rattle.std.specs.Prelude.{◌≡◌};
ghost use Rattle.rule_table.specs.Table.{IsTable};
ghost use Rattle.rule_table.specs.Views.{table_of};
ghost use Rattle.table_audit.specs.Acceptance.{IsAccepted};
ghost use Rattle.table_audit.specs.Soundness.{IsSound};

use rule_table::Table;
use std::marker::Model;

/// A table that the audit accepts: its rules are sound, and shortest, or with costs cheapest, but for what they name open, and its families hold for each of
/// their values.
#[derive(Drop)]
pub struct Audited {
    table: Table,
}

impl Model for Audited {
    ghost use Rattle.rule_table.specs.Table.{IsTable};
    ghost use Rattle.rule_table.specs.Views.{table_of};
    ghost use Rattle.rule_table.specs.declared.table.Table.{Table};
    ghost use Rattle.table_audit.specs.Acceptance.{IsAccepted};

    ghost Value = { Table };

    ghost view = { λ a. a.table };

    ghost invariant = { λ a. IsTable (table_of a.table) × IsAccepted (table_of a.table) };
}

impl Audited {
    /// Marks an accepted table as audited.
    pub(crate) fn new(table: Table) -> Audited
        requires table { IsTable (table_of table) }
        requires accepted { IsAccepted (table_of table) }
        ensures { result ≡ table }
    {
        Audited { table }
    }

    /// The table.
    pub fn table(&self) -> &Table
        ensures value { result.now ≡ self.now }
        ensures valid { IsTable (table_of self.now) }
        ensures accepted { IsAccepted (table_of self.now) }
        ensures sound { IsSound (table_of self.now) }
    {
        &self.table
    }

    /// The plain table, without the mark that it was audited.
    pub fn into_table(self) -> Table
        ensures value { result ≡ self }
        ensures valid { IsTable (table_of self) }
        ensures accepted { IsAccepted (table_of self) }
    {
        self.table
    }
}
