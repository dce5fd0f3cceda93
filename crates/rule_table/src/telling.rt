//! Reads one line of a table by itself. Whether the line may stand where it does is checked in `draft`.
ghost use Rattle.std.specs.Prelude.{◌≡◌, [], IfOk, MatchOption};
ghost use Rattle.rule_table.specs.Told.{Tells, Says};
ghost use Rattle.rule_table.specs.declared.header.HeaderLine.TheVariants as head;
ghost use Rattle.rule_table.specs.declared.words.FirstWord.TheVariants as word;

use crate::header::{Field, HeaderLine, NumberLine};
use crate::item::Item;
use crate::numbers::{number, number_within};
use crate::tails::{costs, family, instruction, mask, pool, state};
use crate::words::{FirstWord, front};
use lrat_check::read_line;
use std::alloc::{AllocError, Global};

/// The item of a word that has to stand alone, if nothing follows it.
fn alone(tail: &[u8], item: Item) -> Option<Item>
    ensures { MatchOption result (tail.now ≡ [] → ⊥) (λ i. (tail.now ≡ []) × (i ≡ item)) }
{
    if tail.is_empty() { Some(item) } else { None }
}

/// A number of the header, or an instruction of a left side: lines of both kinds begin with `left `.
fn numbered(alloc: Global, field: Field, tail: &[u8]) -> Result<Option<Item>, AllocError>
    ensures { IfOk result (Tells (word.Head (head.Number field)) tail.now) }
{
    let row = NumberLine::of(field);
    match number_within(tail, u64::from(row.least), u64::from(row.greatest)) {
        Some(number) => Ok(Some(Item::Number(field, number as u32))),
        None => match field {
            Field::Left => match instruction(alloc, tail)? {
                Some(instr) => Ok(Some(Item::Left(instr))),
                None => Ok(None),
            },
            _ => Ok(None),
        },
    }
}

fn right(alloc: Global, tail: &[u8]) -> Result<Option<Item>, AllocError>
    ensures { IfOk result (Tells word.Right tail.now) }
{
    match instruction(alloc, tail)? {
        Some(instr) => Ok(Some(Item::Right(instr))),
        None => Ok(None),
    }
}

fn pool_line(alloc: Global, tail: &[u8]) -> Result<Option<Item>, AllocError>
    ensures { IfOk result (Tells (word.Head head.Pool) tail.now) }
{
    match pool(alloc, tail)? {
        None => Ok(None),
        Some(pool) => Ok(Some(Item::Pool(pool))),
    }
}

fn costs_line(alloc: Global, tail: &[u8]) -> Result<Option<Item>, AllocError>
    ensures { IfOk result (Tells (word.Head head.Costs) tail.now) }
{
    match costs(alloc, tail)? {
        None => Ok(None),
        Some(costs) => Ok(Some(Item::Costs(costs))),
    }
}

fn state_line(tail: &[u8]) -> Option<Item>
    ensures { Tells word.State tail.now result }
{
    match state(tail) {
        None => None,
        Some(state) => Some(Item::State(state)),
    }
}

fn mask_line(tail: &[u8]) -> Option<Item>
    ensures { Tells word.Mask tail.now result }
{
    match mask(tail) {
        None => None,
        Some(mask) => Some(Item::Mask(mask)),
    }
}

fn logged(alloc: Global, line: &[u8]) -> Result<Option<Item>, AllocError>
    ensures { IfOk result (Tells word.Digit line.now) }
{
    match read_line(alloc, line)? {
        None => Ok(None),
        Some(line) => Ok(Some(Item::Logged(line))),
    }
}

fn open(tail: &[u8]) -> Option<Item>
    ensures { Tells word.Open tail.now result }
{
    match number(tail) {
        None => None,
        Some(number) => Some(Item::Open(number)),
    }
}

fn family_line(alloc: Global, tail: &[u8]) -> Result<Option<Item>, AllocError>
    ensures { IfOk result (Tells word.Family tail.now) }
{
    match family(alloc, tail)? {
        None => Ok(None),
        Some(raised) => Ok(Some(Item::Family {
            entry: raised.entry,
            number: raised.number,
            low: raised.low,
            high: raised.high,
        })),
    }
}

/// What a line says by its first word and what follows that.
fn told(alloc: Global, word: FirstWord, tail: &[u8]) -> Result<Option<Item>, AllocError>
    ensures { IfOk result (Tells word tail.now) }
{
    match word {
        FirstWord::Head(HeaderLine::Number(field)) => numbered(alloc, field, tail),
        FirstWord::Head(HeaderLine::Pool) => pool_line(alloc, tail),
        FirstWord::Head(HeaderLine::Costs) => costs_line(alloc, tail),
        FirstWord::State => Ok(state_line(tail)),
        FirstWord::Entry => Ok(alone(tail, Item::Entry)),
        FirstWord::Right => right(alloc, tail),
        FirstWord::Mask => Ok(mask_line(tail)),
        FirstWord::Proof => Ok(alone(tail, Item::Proof)),
        FirstWord::Open => Ok(open(tail)),
        FirstWord::Family => family_line(alloc, tail),
        FirstWord::End => Ok(alone(tail, Item::End)),
        FirstWord::Digit => logged(alloc, tail),
    }
}

/// What a line says, which is given without its newline.
pub(crate) fn read_item(alloc: Global, line: &[u8]) -> Result<Option<Item>, AllocError>
    ensures { IfOk result (Says line.now) }
{
    match front(line) {
        None => Ok(None),
        Some((word, tail)) => told(alloc, word, tail),
    }
}
