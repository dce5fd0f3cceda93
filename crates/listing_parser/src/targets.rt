//! Whether each mentioned name is what its statement needs, as a code label for a branch; and which names are marked as functions.
ghost use Rattle.std.specs.Prelude.{◌≡◌, ◌||◌, ◌++◌, ℕ, List, true, false, map, IfOk, OnOk};
ghost use Rattle.std.specs.Str.{bytes_eq};
ghost use Rattle.thumb_model.specs.Layout.{is_among};
ghost use Rattle.listing_parser.specs.Views.{mention_view, statement_view, value_view};
ghost use Rattle.listing_parser.specs.ToldView.{mark_view, read_view};
ghost use Rattle.listing_parser.specs.Views.{names_view};
ghost use Rattle.listing_parser.specs.Targets.{are_words_of, first_target, from_label, functions, is_aimed, is_aimed_at, is_code_label, is_label, is_literal, is_next, is_on_target, is_word_of, marked_by_name, marked_first, reaches, still_waits};
ghost use Rattle.std.specs.Prelude.{option_map};

use crate::errors::Memory;
use crate::line::{FunctionMark, ListingLine, Mention, Statement, Value};
use crate::listing::Listing;
use crate::twice::add;
use indexmap::IndexSet;
use std::alloc::Global;
use thumb_instr::Instr;

/// Marks a name as a function.
fn mark(alloc: Global, functions: &mut IndexSet<Vec<u8>>, name: &[u8]) -> Result<(), Memory>
    ensures { OnOk result ((q : List ℕ) → is_among q (map (λ k. k.items) functions.new.keys) ≡ (is_among q (map (λ k. k.items) functions.old.keys) || bytes_eq q name.now)) }
{
    let _ = add(alloc, functions, name)?;
    Ok(())
}

/// Marks the first of the names, where a `.thumb_func` waits for its label. Answers whether it still waits.
fn mark_first(
    alloc: Global,
    functions: &mut IndexSet<Vec<u8>>,
    waits: bool,
    names: &[Vec<u8>],
) -> Result<bool, Memory>
    ensures marked { OnOk result ((q : List ℕ) → is_among q (map (λ k. k.items) functions.new.keys) ≡ (is_among q (map (λ k. k.items) functions.old.keys) || is_among q (marked_first waits (map (λ n. n.items) names.now)))) }
    ensures waits { IfOk result (λ b. b ≡ still_waits waits (map (λ n. n.items) names.now)) }
{
    match names.split_first() {
        None => Ok(waits),
        Some((name, _)) => {
            if waits {
                mark(alloc, functions, name)?;
            }
            Ok(false)
        }
    }
}

/// Marks the name that a line marks.
fn mark_named(
    alloc: Global,
    functions: &mut IndexSet<Vec<u8>>,
    by: &FunctionMark,
) -> Result<(), Memory>
    ensures { OnOk result ((q : List ℕ) → is_among q (map (λ k. k.items) functions.new.keys) ≡ (is_among q (map (λ k. k.items) functions.old.keys) || is_among q (marked_by_name (mark_view by.now)))) }
{
    match by {
        FunctionMark::Named(name) => mark(alloc, functions, name),
        _ => Ok(()),
    }
}

fn is_next(mark: &FunctionMark) -> bool
    ensures { result ≡ is_next (mark_view mark.now) }
{
    matches!(mark, FunctionMark::Next)
}

/// Marks what a line marks. Answers whether a `.thumb_func` waits for a label after the line.
fn mark_line(
    alloc: Global,
    functions: &mut IndexSet<Vec<u8>>,
    waits: bool,
    line: &ListingLine,
) -> Result<bool, Memory>
    ensures marked { OnOk result ((q : List ℕ) → is_among q (map (λ k. k.items) functions.new.keys) ≡ (is_among q (map (λ k. k.items) functions.old.keys) || is_among q (marked_first waits (names_view line.now) ++ marked_by_name (mark_view line.now.mark)))) }
    ensures waits { IfOk result (λ b. b ≡ (still_waits waits (names_view line.now) || is_next (mark_view line.now.mark))) }
{
    let waits = mark_first(alloc, functions, waits, &line.names)?;
    mark_named(alloc, functions, &line.mark)?;
    Ok(waits || is_next(&line.mark))
}

/// The names that are marked as functions.
pub fn functions(alloc: Global, lines: &[ListingLine]) -> Result<IndexSet<Vec<u8>>, Memory>
    ensures { IfOk result (λ s. (q : List ℕ) → is_among q (map (λ k. k.items) s.keys) ≡ is_among q (functions false (map read_view lines.now))) }
{
    let mut functions = IndexSet::new(alloc);
    let mut waits = false;
    for line in lines {
        waits = mark_line(alloc, &mut functions, waits, line)?;
    }
    Ok(functions)
}

fn is_function(functions: &IndexSet<Vec<u8>>, name: &[u8]) -> bool
    ensures { result ≡ is_among name.now (map (λ k. k.items) functions.now.keys) }
{
    functions.contains(name)
}

/// Whether at least `words` + 1 data words follow the name's label, with no instruction and no alignment line before the last of them.
fn reaches(listing: &Listing, name: &[u8], words: usize) -> bool
    ensures { result ≡ reaches (from_label name.now listing.now) words }
{
    words < listing.words_from(name)
}

fn is_literal(listing: &Listing, mention: &Mention) -> bool
    ensures { result ≡ is_literal listing.now (mention_view mention.now) }
{
    mention.plus % 4 == 0
        && mention.plus <= 1020
        && reaches(listing, &mention.name, (mention.plus / 4) as usize)
}

fn is_code_label(listing: &Listing, name: &[u8]) -> bool
    ensures { result ≡ is_code_label listing.now name.now }
{
    listing.place_of(name).is_some()
}

fn is_label(listing: &Listing, name: &[u8]) -> bool
    ensures { result ≡ is_label listing.now name.now }
{
    listing.label_line(name).is_some()
}

/// Whether an instruction may mention the name.
fn is_aimed(listing: &Listing, instr: &Instr, mention: &Mention) -> bool
    ensures { result ≡ is_aimed listing.now instr.now (mention_view mention.now) }
{
    match instr {
        Instr::BranchIf { .. } => is_code_label(listing, &mention.name),
        Instr::Branch { .. } => {
            is_code_label(listing, &mention.name) || !is_label(listing, &mention.name)
        }
        Instr::Call { .. } => {
            is_code_label(listing, &mention.name) || !is_label(listing, &mention.name)
        }
        Instr::Literal { .. } => is_literal(listing, mention),
        Instr::Address { .. } => is_literal(listing, mention),
        _ => true,
    }
}

fn is_aimed_at(listing: &Listing, instr: &Instr, mention: &Option<Mention>) -> bool
    ensures { result ≡ is_aimed_at listing.now instr.now (option_map mention_view mention.now) }
{
    match mention {
        None => true,
        Some(mention) => is_aimed(listing, instr, mention),
    }
}

/// Whether a word of data may mention its name: a code label must be marked as a function and have nothing added.
fn is_word_of(listing: &Listing, functions: &IndexSet<Vec<u8>>, value: &Value) -> bool
    ensures { result ≡ is_word_of listing.now (map (λ k. k.items) functions.now.keys) (value_view value.now) }
{
    match value {
        Value::Number(_) => true,
        Value::OfName(mention) => {
            !is_code_label(listing, &mention.name)
                || (mention.plus == 0 && is_function(functions, &mention.name))
        }
    }
}

fn are_words_of(listing: &Listing, functions: &IndexSet<Vec<u8>>, values: &[Value]) -> bool
    ensures { result ≡ are_words_of listing.now (map (λ k. k.items) functions.now.keys) (map value_view values.now) }
{
    for value in values {
        if !is_word_of(listing, functions, value) {
            return false;
        }
    }
    true
}

fn is_on_target(listing: &Listing, functions: &IndexSet<Vec<u8>>, statement: &Statement) -> bool
    ensures { result ≡ is_on_target listing.now (map (λ k. k.items) functions.now.keys) (statement_view statement.now) }
{
    match statement {
        Statement::Instruction { instr, mention } => is_aimed_at(listing, instr, mention),
        Statement::Words(values) => are_words_of(listing, functions, values),
        _ => true,
    }
}

/// The first line, by its number from 1, that mentions a name which isn't what its statement needs.
pub fn first_target(listing: &Listing, functions: &IndexSet<Vec<u8>>) -> Option<u64>
    ensures { result ≡ first_target listing.now (map (λ k. k.items) functions.now.keys) 1 listing.now }
{
    for (n, line) in listing.lines().iter().enumerate() {
        if !is_on_target(listing, functions, &line.statement) {
            return Some(n as u64 + 1);
        }
    }
    None
}
