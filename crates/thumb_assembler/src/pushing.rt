//! Appends the bytes of each statement to the image: codes, words and padding.
ghost use Rattle.std.specs.Prelude.{◌≡◌, ◌+◌, ◌*◌, ◌%◌, ◌≤◌, ◌^◌, ◌++◌, true, None, OnOk, map};
ghost use Rattle.thumb_model.specs.Listing.{Instruction};
ghost use Rattle.thumb_model.specs.Layout.{fault_at, instr_fault, lies_in};
ghost use Rattle.thumb_assembler.specs.Bytes.{half_bytes, nops, word_bytes, lies_inside};
ghost use Rattle.listing_parser.specs.Views.{mention_view, statement_view, value_view};
ghost use Rattle.thumb_assembler.specs.Fair.{IsReady, is_fair};
ghost use Rattle.thumb_assembler.specs.Pushes.{PushedCode, Pushes, PushesValue, PushesValues};

use crate::aiming::aimed;
use crate::errors::Flaw;
use label_layout::{Layout, padding};
use listing_parser::{Listing, Mention, Statement, Value};
use std::alloc::AllocError;
use thumb_instr::Instr;
use thumb_machine::fixed_word;
use thumb_table::{Code, encode};

/// BF00, the code of `nop`.
const NOP: u16 = 0xBF00;

/// Appends a halfword, its lower byte first.
fn push_half(bytes: &mut Vec<u8>, half: u16) -> Result<(), AllocError>
    ensures { OnOk result (bytes.new.items ≡ bytes.old.items ++ half_bytes half) }
{
    let [low, high] = half.to_le_bytes();
    bytes.push(low)?;
    bytes.push(high)?;
    Ok(())
}

/// Appends a word, its lowest byte first.
fn push_word(bytes: &mut Vec<u8>, word: u32) -> Result<(), AllocError>
    ensures { OnOk result (bytes.new.items ≡ bytes.old.items ++ word_bytes word) }
{
    push_half(bytes, (word % 65536) as u16)?;
    push_half(bytes, (word / 65536) as u16)?;
    Ok(())
}

/// Appends the code of an instruction.
#[tactic(auto, using(crate::proofs::Codes::one_code, crate::proofs::Codes::two_codes))]
fn push_code(bytes: &mut Vec<u8>, instr: &Instr) -> Result<(), AllocError>
    ensures { OnOk result (PushedCode instr.now bytes.old.items bytes.new.items) }
{
    match encode(instr) {
        Code::One(first) => {
            push_half(bytes, first)?;
            Ok(())
        }
        Code::Two(first, second) => {
            push_half(bytes, first)?;
            push_half(bytes, second)?;
            Ok(())
        }
    }
}

/// Appends a `nop` for each two bytes of padding.
#[tactic(auto, using(crate::proofs::Codes::nops_more, crate::proofs::Codes::nops_end))]
fn push_nops(bytes: &mut Vec<u8>, padding: u32) -> Result<(), AllocError>
    ensures { OnOk result (bytes.new.items ≡ bytes.old.items ++ nops padding) }
{
    let mut left = padding;
    while left > 1 {
        push_half(bytes, NOP)?;
        left -= 2;
    }
    Ok(())
}

/// Appends a data word. The layout is the listing's.
fn push_value(
    bytes: &mut Vec<u8>,
    listing: &Listing,
    layout: &Layout,
    value: &Value,
) -> Result<(), Flaw>
    requires { IsReady listing.now layout.now }
    ensures { PushesValue layout.now.base listing.now (value_view value.now) bytes.old.items bytes.new.items result }
{
    match value {
        Value::Number(number) => {
            push_word(bytes, *number)?;
            Ok(())
        }
        Value::OfName(Mention { name, plus }) => match fixed_word(listing, layout, name) {
            None => Err(Flaw::NoAddress),
            Some(word) => {
                push_word(bytes, word.wrapping_add(*plus))?;
                Ok(())
            }
        },
    }
}

/// Appends data words. The layout is the listing's.
fn push_values(
    bytes: &mut Vec<u8>,
    listing: &Listing,
    layout: &Layout,
    values: &[Value],
) -> Result<(), Flaw>
    requires { IsReady listing.now layout.now }
    ensures { PushesValues layout.now.base listing.now (map value_view values.now) bytes.old.items bytes.new.items result }
{
    for value in values {
        push_value(bytes, listing, layout, value)?;
    }
    Ok(())
}

/// Appends an instruction that mentions a name, at the address where the bytes end. The layout is the listing's, and has no fault there.
fn push_aimed(
    bytes: &mut Vec<u8>,
    listing: &Listing,
    layout: &Layout,
    at: u32,
    instr: &Instr,
    mention: &Mention,
) -> Result<(), Flaw>
    requires ready { IsReady listing.now layout.now }
    requires fair { is_fair listing.now (Instruction instr.now (Some (mention_view mention.now))) ≡ true }
    requires reached { instr_fault (lies_in layout.now.base listing.now) at instr.now (Some (mention_view mention.now)) ≡ None }
    requires even { at % 2 ≡ 0 }
    requires in_code { at ≤ 2 ^ 29 }
    ensures { Pushes layout.now.base listing.now at (Instruction instr.now (Some (mention_view mention.now))) bytes.old.items bytes.new.items result }
{
    match layout.target(listing, &mention.name) {
        None => Err(Flaw::NoAddress),
        Some(target) => {
            push_code(bytes, &aimed(instr, at, target + mention.plus))?;
            Ok(())
        }
    }
}

/// Whether an address lies in the image. The layout is the listing's.
fn is_inside(listing: &Listing, layout: &Layout, address: u32) -> bool
    requires { IsReady listing.now layout.now }
    ensures { result ≡ lies_inside layout.now.base listing.now address }
{
    // For the prover alone: the definition names the listing.
    let _ = listing;
    layout.base() <= address && address < layout.end()
}

/// Appends the bytes of a statement, at the address where the bytes of the lines before end. The layout is the listing's, and has no fault there.
pub(crate) fn push_statement(
    bytes: &mut Vec<u8>,
    listing: &Listing,
    layout: &Layout,
    at: u32,
    statement: &Statement,
) -> Result<(), Flaw>
    requires ready { IsReady listing.now layout.now }
    requires fair { is_fair listing.now (statement_view statement.now) ≡ true }
    requires reached { fault_at (lies_in layout.now.base listing.now) at (statement_view statement.now) ≡ None }
    requires even { at % 2 ≡ 0 }
    requires in_code { at ≤ 2 ^ 29 }
    ensures { Pushes layout.now.base listing.now at (statement_view statement.now) bytes.old.items bytes.new.items result }
{
    match statement {
        Statement::Nothing => Ok(()),
        Statement::Instruction {
            instr,
            mention: None,
        } => {
            push_code(bytes, instr)?;
            Ok(())
        }
        Statement::Instruction {
            instr,
            mention: Some(mention),
        } => push_aimed(bytes, listing, layout, at, instr, mention),
        Statement::Words(values) => push_values(bytes, listing, layout, values),
        Statement::Aligns { size, most } => {
            push_nops(bytes, padding(*size, *most, at))?;
            Ok(())
        }
        Statement::Sets { address, .. } => {
            if is_inside(listing, layout, *address) {
                Err(Flaw::Inside)
            } else {
                Ok(())
            }
        }
    }
}
