//! Reads what follows the first word of a table's line, in exactly the form in which it is written: one blank before each part, and nothing left over.
ghost use Rattle.std.specs.Prelude.{◌≡◌, ℕ, List, [], ◌∷◌, ◌<◌, ◌||◌, true, map, decimal, MatchOption, IfOk, IsTrue, ◌↔◌, nat_lt};
ghost use Rattle.std.specs.List.{list_all};
ghost use Rattle.thumb_instr.specs.Items.{has as has_item, one_of};
ghost use Rattle.thumb_instr.specs.declared.instr.Instr.{Instr};
ghost use Rattle.seq_enum.specs.Alphabet.{is_pool};
ghost use Rattle.seq_enum.specs.Costs.{AreCosts};
ghost use Rattle.window_exec.specs.State.{seen, Seen};
ghost use Rattle.rule_table.specs.Text.{after_blanks, instr_text, mask_rows, mask_text, State, Family};
ghost use Rattle.rule_table.specs.Table.{IsState, IsInstr, IsMask};
ghost use Rattle.rule_table.specs.Items.{IsItem};
ghost use Rattle.lrat_check.specs.Reading.{all_now};
ghost use Rattle.rule_table.specs.Fronts.{strip, is_taken, left_of, taken, tail_of};
ghost use Rattle.rule_table.specs.MaskView.{row_of};

use crate::numbers::{blank_digit, blank_words, bytes_in, first_number, words_in};
use crate::words::strip;
use seq_enum::{Costs, Pool};
use std::alloc::{AllocError, Global};
use thumb_instr::{Instr, Items, Low, Mask, in_window, registers_of};
use thumb_syntax::{Parsed, read_instr, write_instr};
use window_exec::WState;

/// A pool of numbers, each after a blank.
pub(crate) fn pool(alloc: Global, tail: &[u8]) -> Result<Option<Pool>, AllocError>
    ensures { IfOk result (λ r. MatchOption r ((ns : List ℕ) → is_pool ns ≡ true → after_blanks (map decimal ns) ≡ tail.now → ⊥) (λ p. (is_pool p ≡ true) × (after_blanks (map decimal p) ≡ tail.now))) }
{
    match bytes_in(alloc, tail)? {
        None => Ok(None),
        Some(numbers) => Ok(Pool::new(&numbers)),
    }
}

/// The costs of instructions, each after a blank.
pub(crate) fn costs(alloc: Global, tail: &[u8]) -> Result<Option<Costs>, AllocError>
    ensures { IfOk result (λ r. MatchOption r ((ns : List ℕ) → AreCosts ns → after_blanks (map decimal ns) ≡ tail.now → ⊥) (λ c. AreCosts c × (after_blanks (map decimal c) ≡ tail.now))) }
{
    match bytes_in(alloc, tail)? {
        None => Ok(None),
        Some(numbers) => Ok(Costs::new(&numbers)),
    }
}

/// The four words of a state and its flags, each after a blank.
pub(crate) fn state(tail: &[u8]) -> Option<WState>
    ensures { MatchOption result ((s : Seen) → IsState s → tail_of (State s) ≡ tail.now → ⊥) (λ s. IsState (seen s) × (tail_of (State (seen s)) ≡ tail.now)) }
{
    let Some((first, second, rest)) = blank_words(tail) else {
        return None;
    };
    let Some((third, fourth, rest)) = blank_words(rest) else {
        return None;
    };
    match blank_digit(rest) {
        None => None,
        Some(nzcv) => Some(WState {
            r: [first, second, third, fourth],
            nzcv,
        }),
    }
}

/// The numbers of a family: the entry, the number of the pool, and the least and the greatest value that may take its place.
#[derive(Clone, Copy)]
pub(crate) struct Raised {
    pub(crate) entry: u32,
    pub(crate) number: u32,
    pub(crate) low: u32,
    pub(crate) high: u32,
}

/// The numbers of a family, if the words are those four numerals.
fn raised_of(words: &[&[u8]]) -> Option<Raised>
    ensures { MatchOption result ((entry number low high : ℕ) → IsItem (Family entry number low high) → map decimal (entry ∷ number ∷ low ∷ high ∷ []) ≡ all_now words.entry.now → ⊥)
        (λ r. IsItem (Family r.entry r.number r.low r.high) × (map decimal (r.entry ∷ r.number ∷ r.low ∷ r.high ∷ []) ≡ all_now words.entry.now)) }
{
    let Some((entry, rest)) = first_number(words) else {
        return None;
    };
    let Some((number, rest)) = first_number(rest) else {
        return None;
    };
    let Some((low, rest)) = first_number(rest) else {
        return None;
    };
    let Some((high, rest)) = first_number(rest) else {
        return None;
    };
    if rest.is_empty() {
        Some(Raised {
            entry,
            number,
            low,
            high,
        })
    } else {
        None
    }
}

/// The numbers of a family, each after a blank.
pub(crate) fn family(alloc: Global, tail: &[u8]) -> Result<Option<Raised>, AllocError>
    ensures { IfOk result (λ r. MatchOption r ((entry number low high : ℕ) → IsItem (Family entry number low high) → tail_of (Family entry number low high) ≡ tail.now → ⊥)
        (λ r. IsItem (Family r.entry r.number r.low r.high) × (tail_of (Family r.entry r.number r.low r.high) ≡ tail.now))) }
{
    match words_in(alloc, tail)? {
        None => Ok(None),
        Some(words) => Ok(raised_of(&words)),
    }
}

/// An item that a mask may have, and its text.
pub(crate) struct MaskItem {
    pub item: u8,
    pub text: &'static [u8],
}

/// The items that a mask may have, in the order in which they are written.
static MASK_ITEMS: [MaskItem; 8] = [
    MaskItem {
        item: 0,
        text: b" r0",
    },
    MaskItem {
        item: 1,
        text: b" r1",
    },
    MaskItem {
        item: 2,
        text: b" r2",
    },
    MaskItem {
        item: 3,
        text: b" r3",
    },
    MaskItem {
        item: 15,
        text: b" n",
    },
    MaskItem {
        item: 16,
        text: b" z",
    },
    MaskItem {
        item: 17,
        text: b" c",
    },
    MaskItem {
        item: 18,
        text: b" v",
    },
];

/// The items that a mask may have, in the order in which they are written.
pub(crate) fn mask_items() -> &'static [MaskItem]
    ensures { map row_of result.now ≡ mask_rows }
{
    &MASK_ITEMS
}

/// If the row's text stands at the front of the bytes: the items with the row's one, and the rest of the bytes; else both as they are.
fn taken_one<'a>(row: &MaskItem, items: Items, bytes: &'a [u8]) -> (Items, &'a [u8])
    requires { row.now.item < 19 }
    ensures items { (x : ℕ) → has_item result.0.bits x ≡ (has_item items.bits x || is_taken row.now.item (strip row.now.text.now bytes.entry.now) x) }
    ensures rest { result.1.now ≡ left_of bytes.entry.now (strip row.now.text.now bytes.entry.now) }
{
    match strip(row.text, bytes) {
        None => (items, bytes),
        Some(after) => (items.union(Items::one(row.item)), after),
    }
}

/// The items whose texts stand at the front of the bytes, in the order of the list, and the rest of the bytes.
#[tactic(auto, unfolding(crate::specs::Fronts::taken))]
fn taken<'a>(list: &[MaskItem], bytes: &'a [u8]) -> (Items, &'a [u8])
    requires { list_all (λ r. nat_lt r.item 19) list.now ≡ true }
    ensures items { (x : ℕ) → has_item result.0.bits x ≡ one_of x (taken (map row_of list.now) bytes.entry.now).0 }
    ensures rest { result.1.now ≡ (taken (map row_of list.now) bytes.entry.now).1 }
{
    let mut items = Items::none();
    let mut rest = bytes;
    for row in list {
        let (more, after) = taken_one(row, items, rest);
        items = more;
        rest = after;
    }
    (items, rest)
}

/// The items of a mask, each after a blank.
pub(crate) fn mask(tail: &[u8]) -> Option<Mask>
    ensures { MatchOption result ((m : ℕ) → IsMask m → mask_text m ≡ tail.now → ⊥) (λ m. IsMask m.items.bits × (mask_text m.items.bits ≡ tail.now)) }
{
    let (items, rest) = taken(mask_items(), tail);
    if rest.is_empty() {
        Some(Mask::of(items))
    } else {
        None
    }
}

/// Whether each register is one of r0 to r3.
fn are_low(registers: &[Low]) -> bool
    ensures { result ≡ list_all (λ r. nat_lt r.number 4) registers.now }
{
    registers.iter().all(|register| register.number < 4)
}

/// Whether an instruction may stand in a table: one that may stand in a window, and names only r0 to r3.
fn is_low(instr: &Instr) -> bool
    ensures { IsTrue result ↔ IsInstr instr.now }
{
    in_window(instr) && are_low(&registers_of(instr))
}

/// Whether the text is the instruction's canonical one.
fn is_canonical(alloc: Global, instr: Instr, text: &[u8]) -> Result<bool, AllocError>
    ensures { IfOk result (λ b. IsTrue b ↔ (instr_text instr ≡ text.now)) }
{
    let written = write_instr(alloc, &Parsed { instr, label: None })?;
    Ok(written.as_slice() == text)
}

/// The instruction that the text is the canonical text of, if it may stand in a table.
pub(crate) fn instruction(alloc: Global, text: &[u8]) -> Result<Option<Instr>, AllocError>
    ensures { IfOk result (λ r. MatchOption r ((i : Instr) → IsInstr i → instr_text i ≡ text.now → ⊥) (λ i. IsInstr i × (instr_text i ≡ text.now))) }
{
    let Some(parsed) = read_instr(text) else {
        return Ok(None);
    };
    if !is_low(&parsed.instr) {
        return Ok(None);
    }
    if is_canonical(alloc, parsed.instr, text)? {
        Ok(Some(parsed.instr))
    } else {
        Ok(None)
    }
}
