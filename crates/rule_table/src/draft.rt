//! The state of the reader: what has been read of a table so far, and which lines may follow. Each line changes it in place.
ghost use Rattle.std.specs.Prelude.{◌≡◌, ◌<◌, [], IfOk, OnOk, MatchOption};
ghost use Rattle.window_exec.specs.State.{seen};
ghost use Rattle.rule_table.specs.Table.{Table as Held};
ghost use Rattle.rule_table.specs.Views.{header_in, table_of, rule_of, opened_of, family_of};
ghost use Rattle.rule_table.specs.Items.{IsItem};
ghost use Rattle.rule_table.specs.ItemView.{item_of};
ghost use Rattle.rule_table.specs.Header.{blank, with_number, IsWithin};
ghost use Rattle.rule_table.specs.StageView.{stage_of, goes};
ghost use Rattle.rule_table.specs.Grammar.{step, heard, is_empty, with_state, with_rule, with_opened, with_family, raising, Start, Heading as heading, Stated as stated, Sided as sided, Masked as masked, Proved as proved, Opening as opening, Raising as unshown, Shown as shown, Done as done};
ghost use Rattle.rule_table.specs.declared.draft.Part.TheVariants as part;

use crate::header::{Field, HeaderLine, due_in, has_families, heads, is_same};
use crate::item::Item;
use crate::table::{Entry, Family, Open, Table};
use seq_enum::Pool;
use std::alloc::{AllocError, Global};
use std::mem;
use thumb_instr::{Instr, Items, Mask, Seq};
use window_exec::{States, WState};

/// How far the lines have come.
#[derive(Clone, Copy)]
pub(crate) enum Part {
    /// some lines of the header, and these are due
    Heading(&'static [HeaderLine]),
    /// the header and some states
    Stated,
    /// of an entry: some of its sides; its mask; its proof; a number that it leaves open
    Sided,
    Masked,
    Proved,
    Opening,
    /// of a family: its line, with the proof due; its proof
    Raising,
    Shown,
    /// all, up to the line `end`
    Done,
}

/// The table so far, the entry that is being read, the open number that was read last, and the family that is being read. Fields that the
/// current part hasn't reached have no meaning.
#[derive(Drop)]
pub(crate) struct Draft {
    part: Part,
    table: Table,
    entry: Entry,
    last: Open,
    family: Family,
}

/// A table of which nothing was read.
#[tactic(auto, unfolding(seq_enum::specs::Alphabet::is_pool, seq_enum::specs::Alphabet::ascends_from))]
fn blank(alloc: Global) -> Table
    ensures { header_in result ≡ blank }
{
    let Some(pool) = Pool::new(&[0]) else {
        unreachable!();
    };
    Table {
        version: 1,
        regs: 1,
        left: 1,
        seed: 0,
        budget: 1,
        pool,
        scratch: 0,
        costs: None,
        states: States::new(Vec::new(alloc)),
        entries: Vec::new(alloc),
        families: Vec::new(alloc),
    }
}

/// Puts a number into the header of a table.
fn set_number(table: &mut Table, field: Field, number: u32)
    requires { IsWithin field number }
    ensures { header_in table.new ≡ with_number (header_in table.old) field number }
{
    match field {
        Field::Version => table.version = number as u8,
        Field::Regs => table.regs = number as u8,
        Field::Left => table.left = number as u8,
        Field::Seed => table.seed = number,
        Field::Budget => table.budget = number,
        Field::Scratch => table.scratch = number as u8,
    }
}

/// Puts what a line of the header says into a table; false where it isn't the line that is due.
fn hear(table: &mut Table, line: HeaderLine, item: Item) -> bool
    requires { IsItem (item_of item) }
    ensures { goes result (header_in table.new) ≡ heard (header_in table.old) line (item_of item) }
{
    match line {
        HeaderLine::Number(due) => match item {
            Item::Number(field, number) => {
                if !is_same(due, field) {
                    return false;
                }
                set_number(table, field, number);
                true
            }
            _ => false,
        },
        HeaderLine::Pool => match item {
            Item::Pool(pool) => {
                table.pool = pool;
                true
            }
            _ => false,
        },
        HeaderLine::Costs => match item {
            Item::Costs(costs) => {
                table.costs = Some(costs);
                true
            }
            _ => false,
        },
    }
}

/// An entry of which nothing was read.
fn empty(alloc: Global) -> Entry {
    Entry {
        left: Seq::new(),
        right: Seq::new(),
        mask: Mask::of(Items::none()),
        opens: Vec::new(alloc),
        proof: Vec::new(alloc),
    }
}

/// A number that is left open, without its log.
fn opened(alloc: Global, number: u64) -> Open
    ensures { opened_of result ≡ record { number = number; log = [] } }
{
    Open {
        number,
        log: Vec::new(alloc),
    }
}

/// A family without its proof.
fn raised(alloc: Global, entry: u32, number: u32, low: u32, high: u32) -> Family
    ensures { family_of result ≡ record { entry = entry; number = number; low = low; high = high; proof = [] } }
{
    Family {
        entry,
        number,
        low,
        high,
        proof: Vec::new(alloc),
    }
}

/// Whether there is no instruction.
fn is_empty(instrs: &[Instr]) -> bool
    ensures { result ≡ is_empty instrs.now }
{
    match instrs.split_first() {
        None => true,
        Some(_) => false,
    }
}

/// Puts one more state into a table.
fn add_state(alloc: Global, table: &mut Table, state: WState) -> Result<(), AllocError>
    ensures { OnOk result (table_of table.new ≡ with_state (table_of table.old) (seen state)) }
{
    let mut states = mem::replace(&mut table.states, States::new(Vec::new(alloc))).into_vec();
    states.push(state)?;
    table.states = States::new(states);
    Ok(())
}

impl Draft {
    /// Before the first line.
    pub(crate) fn new(alloc: Global) -> Self
        ensures { stage_of result ≡ Start }
    {
        Draft {
            part: Part::Heading(heads()),
            table: blank(alloc),
            entry: empty(alloc),
            last: opened(alloc, 0),
            family: raised(alloc, 0, 0, 0, 0),
        }
    }

    /// Begins a new entry.
    fn begin(&mut self)
        ensures { stage_of self.new ≡ sided (table_of self.old.table) [] [] }
    {
        self.entry.left = Seq::new();
        self.entry.right = Seq::new();
        self.part = Part::Sided;
    }

    /// Appends the entry that was read to the table.
    fn keep_entry(&mut self, alloc: Global) -> Result<(), AllocError>
        ensures { OnOk result (table_of self.new.table ≡ with_rule (table_of self.old.table) (rule_of self.old.entry)) }
    {
        let entry = mem::replace(&mut self.entry, empty(alloc));
        self.table.entries.push(entry)?;
        Ok(())
    }

    /// Appends the open number that was read last to its entry.
    fn keep_open(&mut self, alloc: Global) -> Result<(), AllocError>
        ensures entry { OnOk result (rule_of self.new.entry ≡ with_opened (rule_of self.old.entry) (opened_of self.old.last)) }
        ensures table { OnOk result (table_of self.new.table ≡ table_of self.old.table) }
        ensures part { self.new.part ≡ self.old.part }
    {
        let last = mem::replace(&mut self.last, opened(alloc, 0));
        self.entry.opens.push(last)?;
        Ok(())
    }

    /// Begins a new family; false if the version has no families.
    fn raise(&mut self, alloc: Global, entry: u32, number: u32, low: u32, high: u32) -> bool
        ensures { goes result (stage_of self.new) ≡ raising (table_of self.old.table) entry number low high }
    {
        if !has_families(self.table.version) {
            return false;
        }
        self.family = raised(alloc, entry, number, low, high);
        self.part = Part::Raising;
        true
    }

    /// Appends the family that was read to the table.
    fn keep_family(&mut self, alloc: Global) -> Result<(), AllocError>
        ensures { OnOk result (table_of self.new.table ≡ with_family (table_of self.old.table) (family_of self.old.family)) }
    {
        let family = mem::replace(&mut self.family, raised(alloc, 0, 0, 0, 0));
        self.table.families.push(family)?;
        Ok(())
    }

    /// Takes one more line; false if it may not follow here.
    #[tactic(auto, unfolding(crate::specs::Grammar::step))]
    pub(crate) fn take(&mut self, alloc: Global, item: Item) -> Result<bool, AllocError>
        requires { IsItem (item_of item) }
        ensures { IfOk result (λ b. goes b (stage_of self.new) ≡ step (stage_of self.old) (item_of item)) }
    {
        match self.part {
            Part::Heading(due) => Ok(self.take_heading(alloc, due, item)),
            Part::Stated => self.take_stated(alloc, item),
            Part::Sided => Ok(self.take_sided(item)),
            Part::Masked => Ok(self.take_masked(alloc, item)),
            Part::Proved => self.take_proved(alloc, item),
            Part::Opening => self.take_opening(alloc, item),
            Part::Raising => Ok(self.take_raising(item)),
            Part::Shown => self.take_shown(alloc, item),
            Part::Done => Ok(false),
        }
    }

    /// Takes a line of the header. Lines that the version doesn't have are skipped; after the last that it has, the states begin.
    #[tactic(auto, unfolding(crate::specs::Grammar::step))]
    fn take_heading(&mut self, alloc: Global, due: &'static [HeaderLine], item: Item) -> bool
        requires { IsItem (item_of item) }
        ensures { goes result (stage_of self.new) ≡ step (heading (header_in self.old.table) due.entry.now) (item_of item) }
    {
        let Some((line, rest)) = due.split_first() else {
            return false;
        };
        if !hear(&mut self.table, *line, item) {
            return false;
        }
        let due = due_in(self.table.version, rest);
        if due.is_empty() {
            self.table.states = States::new(Vec::new(alloc));
            self.table.entries = Vec::new(alloc);
            self.table.families = Vec::new(alloc);
            self.part = Part::Stated;
        } else {
            self.part = Part::Heading(due);
        }
        true
    }

    #[tactic(auto, unfolding(crate::specs::Grammar::step))]
    fn take_stated(&mut self, alloc: Global, item: Item) -> Result<bool, AllocError>
        requires { self.old.part ≡ part.Stated }
        ensures { IfOk result (λ b. goes b (stage_of self.new) ≡ step (stated (table_of self.old.table)) (item_of item)) }
    {
        match item {
            Item::State(state) => {
                add_state(alloc, &mut self.table, state)?;
                Ok(true)
            }
            Item::Entry => {
                self.begin();
                Ok(true)
            }
            Item::Family {
                entry,
                number,
                low,
                high,
            } => Ok(self.raise(alloc, entry, number, low, high)),
            Item::End => {
                self.part = Part::Done;
                Ok(true)
            }
            _ => Ok(false),
        }
    }

    #[tactic(auto, unfolding(crate::specs::Grammar::step))]
    fn take_sided(&mut self, item: Item) -> bool
        requires { self.old.part ≡ part.Sided }
        ensures { goes result (stage_of self.new) ≡ step (sided (table_of self.old.table) self.old.entry.left self.old.entry.right) (item_of item) }
    {
        match item {
            Item::Left(instr) => {
                if self.entry.left.len() < 5 && is_empty(self.entry.right.as_slice()) {
                    self.entry.left.push(instr);
                    true
                } else {
                    false
                }
            }
            Item::Right(instr) => {
                if 0 < self.entry.left.len() && self.entry.right.len() < 5 {
                    self.entry.right.push(instr);
                    true
                } else {
                    false
                }
            }
            Item::Mask(mask) => {
                if 0 < self.entry.left.len() {
                    self.entry.mask = mask;
                    self.part = Part::Masked;
                    true
                } else {
                    false
                }
            }
            _ => false,
        }
    }

    #[tactic(auto, unfolding(crate::specs::Grammar::step))]
    fn take_masked(&mut self, alloc: Global, item: Item) -> bool
        requires { self.old.part ≡ part.Masked }
        ensures { goes result (stage_of self.new) ≡ step (masked (table_of self.old.table) self.old.entry.left self.old.entry.right self.old.entry.mask.items.bits) (item_of item) }
    {
        match item {
            Item::Proof => {
                self.entry.opens = Vec::new(alloc);
                self.entry.proof = Vec::new(alloc);
                self.part = Part::Proved;
                true
            }
            _ => false,
        }
    }

    #[tactic(auto, unfolding(crate::specs::Grammar::step))]
    fn take_proved(&mut self, alloc: Global, item: Item) -> Result<bool, AllocError>
        requires { self.old.part ≡ part.Proved }
        ensures { IfOk result (λ b. goes b (stage_of self.new) ≡ step (proved (table_of self.old.table) (rule_of self.old.entry)) (item_of item)) }
    {
        match item {
            Item::Logged(line) => {
                self.entry.proof.push(line)?;
                Ok(true)
            }
            Item::Open(number) => {
                self.last = opened(alloc, number);
                self.part = Part::Opening;
                Ok(true)
            }
            Item::Entry | Item::Family { .. } | Item::End => {
                self.keep_entry(alloc)?;
                self.part = Part::Stated;
                self.take_stated(alloc, item)
            }
            _ => Ok(false),
        }
    }

    #[tactic(auto, unfolding(crate::specs::Grammar::step))]
    fn take_opening(&mut self, alloc: Global, item: Item) -> Result<bool, AllocError>
        requires { self.old.part ≡ part.Opening }
        ensures { IfOk result (λ b. goes b (stage_of self.new) ≡ step (opening (table_of self.old.table) (rule_of self.old.entry) (opened_of self.old.last)) (item_of item)) }
    {
        match item {
            Item::Logged(line) => {
                self.last.log.push(line)?;
                Ok(true)
            }
            Item::Open(number) => {
                if self.last.number < number {
                    self.keep_open(alloc)?;
                    self.last = opened(alloc, number);
                    Ok(true)
                } else {
                    Ok(false)
                }
            }
            Item::Entry | Item::Family { .. } | Item::End => {
                self.keep_open(alloc)?;
                self.part = Part::Proved;
                self.take_proved(alloc, item)
            }
            _ => Ok(false),
        }
    }

    #[tactic(auto, unfolding(crate::specs::Grammar::step))]
    fn take_raising(&mut self, item: Item) -> bool
        requires { self.old.part ≡ part.Raising }
        ensures { goes result (stage_of self.new) ≡ step (unshown (table_of self.old.table) (family_of self.old.family)) (item_of item) }
    {
        match item {
            Item::Proof => {
                self.part = Part::Shown;
                true
            }
            _ => false,
        }
    }

    #[tactic(auto, unfolding(crate::specs::Grammar::step))]
    fn take_shown(&mut self, alloc: Global, item: Item) -> Result<bool, AllocError>
        requires { self.old.part ≡ part.Shown }
        ensures { IfOk result (λ b. goes b (stage_of self.new) ≡ step (shown (table_of self.old.table) (family_of self.old.family)) (item_of item)) }
    {
        match item {
            Item::Logged(line) => {
                self.family.proof.push(line)?;
                Ok(true)
            }
            Item::Family { .. } | Item::End => {
                self.keep_family(alloc)?;
                self.part = Part::Stated;
                self.take_stated(alloc, item)
            }
            _ => Ok(false),
        }
    }

    /// The table, if all of it was read.
    pub(crate) fn finished(self) -> Option<Table>
        ensures { MatchOption result ((t : Held) → stage_of self ≡ done t → ⊥) (λ table. stage_of self ≡ done (table_of table)) }
    {
        match self.part {
            Part::Done => Some(self.table),
            _ => None,
        }
    }
}
