//! A table as its text has it. Nothing here says that its rules are sound: that is what the audit decides.
ghost use Rattle.std.specs.Prelude.{◌≡◌, map};
ghost use Rattle.window_exec.specs.State.{seen};
ghost use Rattle.rule_table.specs.Views.{family_of, header_of, rule_of, table_of};

use crate::header::Header;
use lrat_check::Line;
use seq_enum::{Costs, Pool};
use thumb_instr::{Mask, Seq};
use window_exec::States;

/// A sequence that is left open: it wasn't decided whether it has the left side's effect. Its number, and the log of the search that spent the budget on it.
#[derive(Drop)]
pub struct Open {
    pub number: u64,
    pub log: Vec<Line>,
}

/// A rule: under the mask the right side has the same effect as the left side, as the proof shows. The open sequences are shorter than the right
/// side, or cheaper if the table has costs, and not shown to differ from the left side.
#[derive(Drop)]
pub struct Entry {
    pub left: Seq,
    pub right: Seq,
    pub mask: Mask,
    pub opens: Vec<Open>,
    pub proof: Vec<Line>,
}

/// A family raises an entry: a number of the pool, where it is an 8-bit operand, may have each value of a range.
#[derive(Drop)]
pub struct Family {
    /// The entry, counted from 1.
    pub entry: u32,
    /// The number of the pool.
    pub number: u32,
    /// The least value.
    pub low: u32,
    /// The greatest value.
    pub high: u32,
    /// The proof that the sides are equal under the mask for each value.
    pub proof: Vec<Line>,
}

/// A table: what its header says, states, entries and families.
#[derive(Drop)]
pub struct Table {
    pub version: u8,
    pub regs: u8,
    pub left: u8,
    pub seed: u32,
    pub budget: u32,
    pub pool: Pool,
    pub scratch: u8,
    /// Some in version 4 alone.
    pub costs: Option<Costs>,
    pub states: States,
    pub entries: Vec<Entry>,
    /// Empty before version 3.
    pub families: Vec<Family>,
}

impl Table {
    /// The table of these parts.
    pub fn new(header: Header, states: States, entries: Vec<Entry>, families: Vec<Family>) -> Table
        ensures { table_of result ≡ record { header = header_of header; states = map seen states; rules = map rule_of entries.items; families = map family_of families.items } }
    {
        Table {
            version: header.version,
            regs: header.regs,
            left: header.left,
            seed: header.seed,
            budget: header.budget,
            pool: header.pool,
            scratch: header.scratch,
            costs: header.costs,
            states,
            entries,
            families,
        }
    }

    /// Its header, states, entries and families.
    pub fn into_parts(self) -> (Header, States, Vec<Entry>, Vec<Family>)
        ensures { table_of self ≡ record { header = header_of result.0; states = map seen result.1; rules = map rule_of result.2.items; families = map family_of result.3.items } }
    {
        let header = Header {
            version: self.version,
            regs: self.regs,
            left: self.left,
            seed: self.seed,
            budget: self.budget,
            pool: self.pool,
            scratch: self.scratch,
            costs: self.costs,
        };
        (header, self.states, self.entries, self.families)
    }
}
