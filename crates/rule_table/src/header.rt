//! The header of a table, and its lines. Tables of rows say with which word each line begins and which numbers it may have; reading and
//! writing go by them. A further line is one more row, with the first version that has it.
ghost use Rattle.std.specs.Prelude.{◌≡◌, ◌≢◌};
ghost use Rattle.rule_table.specs.Header.{IsHeader, due_in, has_families, has_line, heads, is_same, row, since};
ghost use Rattle.rule_table.specs.Views.{header_of, learnt_by, row_of};

use seq_enum::{Costs, Pool};
use thumb_instr::Within;

/// What the first lines of a table say: its version (1 to 4), the most registers (1 to 4) and instructions (1 to 5) of a left side, the seed of
/// the first states, how many clauses the solver may learn in a query (1 to 1,000,000), the pool of the alphabet's numbers, how many registers
/// a right side may name that its left side doesn't (0 or 1; 0 in version 1), and what instructions cost (only in version 4; else each costs 1).
#[derive(Drop)]
pub struct Header {
    pub version: u8,
    pub regs: u8,
    pub left: u8,
    pub seed: u32,
    pub budget: u32,
    pub pool: Pool,
    pub scratch: u8,
    pub costs: Option<Costs>,
}

/// The settings that a table is learnt with, but for costs: the numbers of its header, each within the limits of its line.
#[derive(Drop)]
pub struct LearnOptions {
    /// The most registers of a left side.
    pub regs: Within<1, 5>,
    /// The most instructions of a left side.
    pub left: Within<1, 6>,
    /// How many clauses the solver may learn in a query.
    pub budget: Within<1, 1_000_001>,
    /// The seed of the first states.
    pub seed: u32,
    /// How many registers a right side may name that its left side doesn't.
    pub scratch: Within<0, 2>,
    /// The numbers of the alphabet.
    pub pool: Pool,
}

impl LearnOptions {
    /// The header of a table that is learnt with these options: of version 4 if costs are given, and else of version 2.
    pub fn header(&self, costs: Option<Costs>) -> Header
        ensures same { header_of result ≡ learnt_by self.now costs }
        ensures valid { IsHeader (header_of result) }
        ensures version { result.version ≢ 3 }
    {
        let seed = self.seed;
        let Some(pool) = Pool::new(self.pool.numbers()) else {
            unreachable!();
        };
        Header {
            version: if costs.is_some() { 4 } else { 2 },
            regs: self.regs.number as u8,
            left: self.left.number as u8,
            seed,
            budget: self.budget.number,
            pool,
            scratch: self.scratch.number as u8,
            costs,
        }
    }
}

/// A number of the header.
#[derive(Clone, Copy, PartialEq, Eq)]
pub enum Field {
    Version,
    Regs,
    Left,
    Seed,
    Budget,
    Scratch,
}

/// Whether two fields are the same.
pub(crate) fn is_same(a: Field, b: Field) -> bool
    ensures { result ≡ is_same a b }
{
    a == b
}

/// What a line of the header says.
#[derive(Clone, Copy)]
pub enum HeaderLine {
    Number(Field),
    Pool,
    Costs,
}

/// The lines of the header, in order.
static HEADS: [HeaderLine; 8] = [
    HeaderLine::Number(Field::Version),
    HeaderLine::Number(Field::Regs),
    HeaderLine::Number(Field::Left),
    HeaderLine::Number(Field::Seed),
    HeaderLine::Number(Field::Budget),
    HeaderLine::Pool,
    HeaderLine::Number(Field::Scratch),
    HeaderLine::Costs,
];

pub(crate) fn heads() -> &'static [HeaderLine]
    ensures { result.now ≡ heads }
{
    &HEADS
}

/// The first version that has a line.
fn since(line: HeaderLine) -> u8
    ensures { result ≡ since line }
{
    match line {
        HeaderLine::Number(Field::Scratch) => 2,
        HeaderLine::Costs => 4,
        _ => 1,
    }
}

/// Whether a version has a line.
pub(crate) fn has_line(version: u8, line: HeaderLine) -> bool
    ensures { result ≡ has_line version line }
{
    since(line) <= version
}

/// Whether a version has families.
pub(crate) fn has_families(version: u8) -> bool
    ensures { result ≡ has_families version }
{
    3 <= version
}

/// The given lines, from the first one on that the version has.
pub(crate) fn due_in(version: u8, lines: &'static [HeaderLine]) -> &'static [HeaderLine]
    ensures { result.now ≡ due_in version lines.entry.now }
{
    match lines.split_first() {
        None => lines,
        Some((line, rest)) => {
            if has_line(version, *line) {
                lines
            } else {
                due_in(version, rest)
            }
        }
    }
}

/// What the line of a number begins with, its blank included, and the least and the greatest number that it may have.
#[derive(Clone, Copy)]
pub(crate) struct NumberLine {
    pub word: &'static [u8],
    pub least: u32,
    pub greatest: u32,
}

impl NumberLine {
    fn new(word: &'static [u8], least: u32, greatest: u32) -> NumberLine
        ensures word { result.word.now ≡ word.entry.now }
        ensures least { result.least ≡ least }
        ensures greatest { result.greatest ≡ greatest }
    {
        NumberLine {
            word,
            least,
            greatest,
        }
    }

    /// The row of a field.
    pub(crate) fn of(field: Field) -> NumberLine
        ensures { row_of result ≡ row field }
    {
        match field {
            Field::Version => NumberLine::new(b"peep ", 1, 4),
            Field::Regs => NumberLine::new(b"regs ", 1, 4),
            Field::Left => NumberLine::new(b"left ", 1, 5),
            Field::Seed => NumberLine::new(b"seed ", 0, u32::MAX),
            Field::Budget => NumberLine::new(b"budget ", 1, 1_000_000),
            Field::Scratch => NumberLine::new(b"scratch ", 0, 1),
        }
    }
}
