//! A cache of one table of outcomes for each number of registers, shared by all windows of a listing or all entries of a table.
ghost use Rattle.std.specs.Prelude.{ℕ, ◌<◌, ◌≤◌, List, IfOk};
ghost use Rattle.window_exec.specs.declared.state.WState.{WState as State};
ghost use Rattle.fingerprints.specs.Tables.{AreTables, IsFor};

use crate::outcomes::Outcomes;
use seq_enum::Pool;
use std::alloc::{AllocError, Global};
use window_exec::WState;

/// The cached tables: at most one for each number of registers from 1 to 4.
#[derive(Drop)]
pub struct Tables {
    pub(crate) one: Option<Outcomes>,
    pub(crate) two: Option<Outcomes>,
    pub(crate) three: Option<Outcomes>,
    pub(crate) four: Option<Outcomes>,
}

impl Tables {
    /// No table yet.
    pub fn new() -> Tables
        ensures { (pool : List ℕ) (start : State) → AreTables pool start result }
    {
        Tables {
            one: None,
            two: None,
            three: None,
            four: None,
        }
    }

    /// Takes out the table of the first `k` registers, or a new one where none is cached.
    pub fn take(
        &mut self,
        alloc: Global,
        k: u8,
        pool: &Pool,
        start: WState,
    ) -> Result<Outcomes, AllocError>
        requires some { 0 < k }
        requires few { k ≤ 4 }
        requires kept { AreTables pool.now start self.old }
        ensures kept { AreTables pool.now start self.new }
        ensures taken { IfOk result (IsFor k pool.now start) }
    {
        let kept = match k {
            1 => self.one.take(),
            2 => self.two.take(),
            3 => self.three.take(),
            _ => self.four.take(),
        };
        match kept {
            Some(table) => Ok(table),
            None => Outcomes::new(alloc, k, pool, start),
        }
    }

    /// Puts a table back into the cache.
    pub fn put(&mut self, table: Outcomes)
        ensures { (pool : List ℕ) (start : State) → AreTables pool start self.old → IsFor table.registers pool start table → AreTables pool start self.new }
    {
        match table.registers() {
            1 => self.one = Some(table),
            2 => self.two = Some(table),
            3 => self.three = Some(table),
            _ => self.four = Some(table),
        }
    }
}
