//! Where each line, label and place lies when lines are laid out one after the other from a base.
ghost use Rattle.std.specs.Prelude.{◌≡◌, ◌+◌, ◌*◌, ◌≤◌, ◌<◌, ◌^◌, ◌++◌, map, length, IfOk, OnOk, OnErr, MatchResult, Some, None, if◌then◌else◌};
ghost use Rattle.std.specs.Map.{lookup};
ghost use Rattle.std.specs.Str.{bytes_eq};
ghost use Rattle.thumb_model.specs.Listing.{Name, places_of};
ghost use Rattle.thumb_model.specs.Layout.{is_among, or_else, size_at, Layable};
ghost use Rattle.label_layout.specs.Addresses.{is_key};
ghost use Rattle.listing_parser.specs.Views.{value_view, statement_view, line_view};
ghost use Rattle.label_layout.specs.Addresses.{word_addresses, addresses_in, AreAddresses};
ghost use Rattle.label_layout.specs.Refusals.{IsRefusal};

use crate::addresses::Layout;
use crate::errors::LayoutError;
use crate::faults::find_fault;
use crate::sizes::{CODE_END, next_address};
use indexmap::IndexMap;
use listing_parser::{Listing, ListingLine, Memory, Statement, Value};
use std::alloc::Global;

/// Notes the address of a label, unless one is noted for its name already.
fn add_label(labels: &mut IndexMap<Vec<u8>, u32>, name: &Vec<u8>, at: u32) -> Result<(), Memory>
    ensures { OnOk result ((q : Name) → lookup (is_key q) labels.new.entries ≡ or_else (lookup (is_key q) labels.old.entries) (if bytes_eq q name.now.items then Some at else None)) }
{
    if labels.get(name.as_slice()).is_none() {
        labels.insert(name.clone()?, at)?;
    }
    Ok(())
}

/// Notes the address of a line's labels.
fn add_labels(labels: &mut IndexMap<Vec<u8>, u32>, names: &[Vec<u8>], at: u32) -> Result<(), Memory>
    ensures { OnOk result ((q : Name) → lookup (is_key q) labels.new.entries ≡ or_else (lookup (is_key q) labels.old.entries) (if is_among q (map (λ name. name.items) names.now) then Some at else None)) }
{
    for name in names {
        add_label(labels, name, at)?;
    }
    Ok(())
}

/// Notes the addresses of data words.
fn add_words(places: &mut Vec<u32>, values: &[Value], mut at: u32) -> Result<(), Memory>
    requires { at + 4 * length values.now ≤ 2 ^ 29 }
    ensures { OnOk result (places.new.items ≡ places.old.items ++ word_addresses at (map value_view values.now)) }
{
    for _ in values {
        places.push(at)?;
        at += 4;
    }
    Ok(())
}

/// Notes the addresses of a statement's places.
fn add_places(places: &mut Vec<u32>, statement: &Statement, at: u32) -> Result<(), Memory>
    requires { at + size_at (statement_view statement.now) at ≤ 2 ^ 29 }
    ensures { OnOk result (places.new.items ≡ places.old.items ++ addresses_in at (statement_view statement.now)) }
{
    match statement {
        Statement::Instruction { .. } => places.push(at)?,
        Statement::Words(values) => add_words(places, values, at)?,
        _ => {}
    }
    Ok(())
}

/// The addresses of lines that begin at the base.
fn lay(alloc: Global, lines: &[ListingLine], base: u32) -> Result<Layout, Memory>
    ensures base { IfOk result (λ l. l.base ≡ base) }
    ensures laid { IfOk result (λ l. AreAddresses (map line_view lines.now) l) }
{
    if base > CODE_END {
        return Err(Memory);
    }
    let mut places = Vec::new(alloc);
    let mut labels = IndexMap::new(alloc);
    let mut at = base;
    for line in lines {
        let Some(next) = next_address(&line.statement, at) else {
            return Err(Memory);
        };
        add_labels(&mut labels, &line.names, at)?;
        add_places(&mut places, &line.statement, at)?;
        at = next;
    }
    Ok(Layout {
        base,
        end: at,
        places,
        labels,
    })
}

/// Lays out a listing from a base, the address of its first byte.
///
/// A line that cannot be laid out is refused: an instruction that mentions what is not where its encoding reaches it. The first such line is reported.
/// Time is linear in the listing's length.
pub fn layout(alloc: Global, listing: &Listing, base: u32) -> Result<Layout, LayoutError>
    ensures base { IfOk result (λ l. l.base ≡ base) }
    ensures laid { IfOk result (λ l. AreAddresses listing.now l) }
    ensures counted { IfOk result (λ l. length l.places ≡ length (places_of listing.now)) }
    ensures verdict { MatchResult result (λ _. Layable base listing.now) (IsRefusal base listing.now) }
{
    let laid = lay(alloc, listing.lines(), base)?;
    match find_fault(&laid, listing) {
        Some((number, kind)) => Err(LayoutError::Line { number, kind }),
        None => Ok(laid),
    }
}

impl Layout {
    /// Lays out a listing in which `new` instructions stand at the place where the layout's own listing had `old`. The result is what `layout` gives from the
    /// same base. All is laid out anew, so the three numbers aren't used.
    ///
    /// A line is refused as `layout` refuses it. Then, and where memory runs out, the layout stays as it was.
    pub fn change(
        &mut self,
        alloc: Global,
        listing: &Listing,
        place: u32,
        old: u32,
        new: u32,
    ) -> Result<(), LayoutError>
        ensures base { self.new.base ≡ self.old.base }
        ensures laid { OnOk result (AreAddresses listing.now self.new) }
        ensures counted { OnOk result (length self.new.places ≡ length (places_of listing.now)) }
        ensures unchanged { OnErr result (self.new ≡ self.old) }
        ensures verdict { MatchResult result (λ _. Layable self.old.base listing.now) (IsRefusal self.old.base listing.now) }
    {
        *self = layout(alloc, listing, self.base)?;
        Ok(())
    }
}
