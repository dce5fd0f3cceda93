//! The lengths in bytes of the lines of a table's text, newlines included, computed without writing the table.
ghost use Rattle.std.specs.Prelude.{◌≡◌, ◌<◌, ◌+◌, ◌*◌, [], ◌∷◌, IfOk, map, sum_by};
ghost use Rattle.lrat_check.specs.Text.{content_of};
ghost use Rattle.rule_table.specs.Text as item;
ghost use Rattle.rule_table.specs.Text.{rule_items, open_items};
ghost use Rattle.rule_table.specs.Views.{rule_of, opened_of};
ghost use Rattle.table_learn.specs.Lengths.{lines_length, log_length, opens_length, instr_length, item_length};

use itoa::Buffer;
use lrat_check::{Line, length_of_line};
use rule_table::{Entry, Open};
use std::alloc::{AllocError, Global};
use thumb_instr::{Instr, Mask};
use thumb_syntax::{Parsed, write_instr};

/// A sum; if it overflows 64 bits, no memory could hold so long a text.
pub(crate) fn plus(total: u64, more: u64) -> Result<u64, AllocError>
    ensures { IfOk result (λ sum. sum ≡ total + more) }
{
    match total.checked_add(more) {
        None => Err(AllocError),
        Some(sum) => Ok(sum),
    }
}

/// A product; if it overflows 64 bits, no memory could hold so long a text.
pub(crate) fn times(count: u64, each: u64) -> Result<u64, AllocError>
    ensures { IfOk result (λ product. product ≡ count * each) }
{
    match count.checked_mul(each) {
        None => Err(AllocError),
        Some(product) => Ok(product),
    }
}

/// A line of a proof.
#[tactic(auto, using(crate::proofs::TextLengths::logged_line))]
fn line_length(line: &Line) -> Result<u64, AllocError>
    ensures { IfOk result (λ n. n ≡ lines_length (item.Logged (content_of line.now) ∷ [])) }
{
    length_of_line(line).ok_or(AllocError)
}

/// The lines of a proof.
fn log_length(lines: &[Line]) -> Result<u64, AllocError>
    ensures { IfOk result (λ n. n ≡ log_length (map content_of lines.now)) }
{
    let mut total = 0;
    for line in lines {
        total = plus(total, line_length(line)?)?;
    }
    Ok(total)
}

/// A line of an instruction, with a first word of `word` bytes, its blank included.
fn instr_length(alloc: Global, word: u64, instr: Instr) -> Result<u64, AllocError>
    requires { word < 10 }
    ensures { IfOk result (λ n. n ≡ instr_length word instr) }
{
    let text = write_instr(alloc, &Parsed { instr, label: None })?;
    Ok(word + text.len() as u64 + 1)
}

/// Lines of an instruction each, with a first word of `word` bytes.
fn side_length(alloc: Global, word: u64, instrs: &[Instr]) -> Result<u64, AllocError>
    requires { word < 10 }
    ensures { IfOk result (λ n. n ≡ sum_by (instr_length word) instrs.now) }
{
    let mut total = 0;
    for instr in instrs {
        total = plus(total, instr_length(alloc, word, *instr)?)?;
    }
    Ok(total)
}

/// The `size` of an item's text if the mask has it, and else 0.
fn item_length(mask: Mask, item: u8, size: u64) -> u64
    requires few { item < 19 }
    requires small { size < 10 }
    ensures value { result ≡ item_length mask.items.bits item size }
    ensures small { result < 10 }
{
    if mask.has(item) { size } else { 0 }
}

/// A line of a mask.
fn mask_length(mask: Mask) -> u64
    ensures value { result ≡ lines_length (item.Mask mask.items.bits ∷ []) }
    ensures small { result < 100 }
{
    5 + item_length(mask, 0, 3)
        + item_length(mask, 1, 3)
        + item_length(mask, 2, 3)
        + item_length(mask, 3, 3)
        + item_length(mask, 15, 2)
        + item_length(mask, 16, 2)
        + item_length(mask, 17, 2)
        + item_length(mask, 18, 2)
}

/// The line of an open number.
fn number_length(number: u64) -> u64
    ensures value { result ≡ lines_length (item.Open number ∷ []) }
    ensures small { result < 100 }
{
    Buffer::new().format(number).len() as u64 + 6
}

/// The lines of an open number with its log.
pub(crate) fn open_length(name: &Open) -> Result<u64, AllocError>
    ensures { IfOk result (λ n. n ≡ lines_length (open_items (opened_of name.entry.now))) }
{
    let log = log_length(&name.log)?;
    plus(log, number_length(name.number))
}

/// The lines of open numbers with their logs.
fn opens_length(opens: &[Open]) -> Result<u64, AllocError>
    ensures { IfOk result (λ n. n ≡ opens_length (map opened_of opens.entry.now)) }
{
    let mut total = 0;
    for name in opens {
        total = plus(total, open_length(name)?)?;
    }
    Ok(total)
}

/// The lines of an entry.
pub(crate) fn entry_length(alloc: Global, entry: &Entry) -> Result<u64, AllocError>
    ensures { IfOk result (λ n. n ≡ lines_length (rule_items (rule_of entry.entry.now))) }
{
    let left = side_length(alloc, 5, entry.left.as_slice())?;
    let right = side_length(alloc, 6, entry.right.as_slice())?;
    let sides = plus(left, right)?;
    let front = plus(sides, 12 + mask_length(entry.mask))?;
    let proof = log_length(&entry.proof)?;
    let opens = opens_length(&entry.opens)?;
    plus(plus(front, proof)?, opens)
}
