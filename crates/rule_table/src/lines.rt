//! Writes the lines of a table's text. Each function appends to what was written before.
ghost use Rattle.std.specs.Prelude.{◌≡◌, ◌++◌, ◌<◌, ◌∷◌, [], ℕ, List, true, nat_lt, decimal, OnOk, map};
ghost use Rattle.std.specs.List.{flat_map, list_all};
ghost use Rattle.lrat_check.specs.Text.{content_of};
ghost use Rattle.window_exec.specs.State.{seen};
ghost use Rattle.rule_table.specs.Text.{hex_of, line_of, instr_text, after_blanks, named};
ghost use Rattle.rule_table.specs.Text as item;
ghost use Rattle.rule_table.specs.MaskView.{row_of};

use crate::tails::{MaskItem, mask_items};
use ascii_scan::hex_digit;
use itoa::Buffer;
use lrat_check::{Line, write_line};
use std::alloc::{AllocError, Global};
use thumb_instr::{Instr, Mask};
use thumb_syntax::{Parsed, write_instr};
use window_exec::WState;

/// Appends a decimal number.
pub(crate) fn write_decimal(out: &mut Vec<u8>, number: u64) -> Result<(), AllocError>
    ensures { OnOk result (out.new.items ≡ out.old.items ++ decimal number) }
{
    out.extend_from_slice(Buffer::new().format(number).as_bytes())
}

/// A word, a blank, a number and a newline.
pub(crate) fn write_number(out: &mut Vec<u8>, word: &[u8], number: u64) -> Result<(), AllocError>
    ensures { OnOk result (out.new.items ≡ out.old.items ++ ((word.entry.now ++ decimal number) ++ 10 ∷ [])) }
{
    out.extend_from_slice(word)?;
    write_decimal(out, number)?;
    out.push(b'\n')?;
    Ok(())
}

/// A word, an instruction and a newline.
pub(crate) fn write_instruction(
    alloc: Global,
    out: &mut Vec<u8>,
    word: &[u8],
    instr: Instr,
) -> Result<(), AllocError>
    ensures { OnOk result (out.new.items ≡ out.old.items ++ ((word.entry.now ++ instr_text instr) ++ 10 ∷ [])) }
{
    let text = write_instr(alloc, &Parsed { instr, label: None })?;
    out.extend_from_slice(word)?;
    out.extend_from_slice(&text)?;
    out.push(b'\n')?;
    Ok(())
}

/// A line of a proof and a newline.
pub(crate) fn write_logged(alloc: Global, out: &mut Vec<u8>, line: &Line) -> Result<(), AllocError>
    ensures { OnOk result (out.new.items ≡ out.old.items ++ (line_of (item.Logged (content_of line.entry.now)) ++ 10 ∷ [])) }
{
    let text = write_line(alloc, line)?;
    out.extend_from_slice(&text)?;
    Ok(())
}

/// The last `digits` hexadecimal digits of a number.
fn write_hex(out: &mut Vec<u8>, digits: u32, number: u32) -> Result<(), AllocError>
    ensures { OnOk result (out.new.items ≡ out.old.items ++ hex_of digits number) }
{
    if digits == 0 {
        return Ok(());
    }
    write_hex(out, digits - 1, number / 16)?;
    out.push(hex_digit(number % 16))?;
    Ok(())
}

/// The line of a state.
pub(crate) fn write_state(out: &mut Vec<u8>, state: WState) -> Result<(), AllocError>
    ensures { OnOk result (out.new.items ≡ out.old.items ++ (line_of (item.State (seen state)) ++ 10 ∷ [])) }
{
    out.extend_from_slice(b"state")?;
    write_words(out, state.r.as_slice())?;
    out.push(b' ')?;
    write_hex(out, 1, u32::from(state.nzcv))?;
    out.push(b'\n')?;
    Ok(())
}

/// Words, each as a blank and eight digits.
fn write_words(out: &mut Vec<u8>, words: &[u32]) -> Result<(), AllocError>
    ensures { OnOk result (out.new.items ≡ out.old.items ++ after_blanks (map (hex_of 8) words.entry.now)) }
{
    for word in words {
        out.push(b' ')?;
        write_hex(out, 8, *word)?;
    }
    Ok(())
}

/// A word, numbers each after a blank, and a newline.
pub(crate) fn write_list(out: &mut Vec<u8>, word: &[u8], numbers: &[u8]) -> Result<(), AllocError>
    ensures { OnOk result (out.new.items ≡ out.old.items ++ ((word.entry.now ++ after_blanks (map decimal numbers.entry.now)) ++ 10 ∷ [])) }
{
    out.extend_from_slice(word)?;
    write_numbers(out, numbers)?;
    out.push(b'\n')?;
    Ok(())
}

/// Numbers, each after a blank.
fn write_numbers(out: &mut Vec<u8>, numbers: &[u8]) -> Result<(), AllocError>
    ensures { OnOk result (out.new.items ≡ out.old.items ++ after_blanks (map decimal numbers.entry.now)) }
{
    for number in numbers {
        out.push(b' ')?;
        write_decimal(out, u64::from(*number))?;
    }
    Ok(())
}

/// The line of a family: the entry, the number of the pool, and the least and the greatest value that may take its place.
pub(crate) fn write_family_line(
    out: &mut Vec<u8>,
    entry: u32,
    number: u32,
    low: u32,
    high: u32,
) -> Result<(), AllocError>
    ensures { OnOk result (out.new.items ≡ out.old.items ++ (line_of (item.Family entry number low high) ++ 10 ∷ [])) }
{
    out.extend_from_slice(b"family")?;
    write_behind_blank(out, entry)?;
    write_behind_blank(out, number)?;
    write_behind_blank(out, low)?;
    write_behind_blank(out, high)?;
    out.push(b'\n')?;
    Ok(())
}

/// A blank and a number.
fn write_behind_blank(out: &mut Vec<u8>, number: u32) -> Result<(), AllocError>
    ensures { OnOk result (out.new.items ≡ out.old.items ++ 32 ∷ decimal number) }
{
    out.push(b' ')?;
    write_decimal(out, u64::from(number))
}

/// The line of a mask.
pub(crate) fn write_mask(out: &mut Vec<u8>, mask: Mask) -> Result<(), AllocError>
    ensures { OnOk result (out.new.items ≡ out.old.items ++ (line_of (item.Mask mask.items.bits) ++ 10 ∷ [])) }
{
    out.extend_from_slice(b"mask")?;
    write_items(out, mask, mask_items())?;
    out.push(b'\n')?;
    Ok(())
}

/// The texts of those of the list's items that the mask has.
fn write_items(out: &mut Vec<u8>, mask: Mask, list: &[MaskItem]) -> Result<(), AllocError>
    requires { list_all (λ r. nat_lt r.item 19) list.now ≡ true }
    ensures { OnOk result (out.new.items ≡ out.old.items ++ flat_map (λ (r : ℕ × List ℕ). named mask.items.bits r.0 r.1) (map row_of list.entry.now)) }
{
    for row in list {
        if mask.has(row.item) {
            out.extend_from_slice(row.text)?;
        }
    }
    Ok(())
}
