//! The naming of a layout: which word each name and return point has in an image. External names without an address get words of their own.
ghost use Rattle.std.specs.Prelude.{◌≡◌, ◌<◌, ◌≤◌, ◌+◌, ◌^◌, ◌++◌, ◌∷◌, [], ℕ, true, false, List, Some, map, length, take, option_map, slice_get, IfOk, OnOk, MatchOption};
ghost use Rattle.thumb_model.specs.Listing.{ListingLine as LineModel, Name, call_count, places_of};
ghost use Rattle.thumb_model.specs.Naming.{last_is_call, return_address};
ghost use Rattle.listing_parser.specs.Views.{line_view, place_view, statement_view};
ghost use Rattle.listing_parser.specs.Targets.{defined_in, set_names};
ghost use Rattle.label_layout.specs.Addresses.{AreAddresses};
ghost use Rattle.thumb_machine.specs.Laid.{IsLaid, nowhere, place_name};
ghost use Rattle.thumb_machine.specs.Naming.{naming_of};
ghost use Rattle.thumb_machine.specs.Returns.{AreReturns, is_call_place};
ghost use Rattle.thumb_machine.specs.Words.{AreFixed, AreOwn, with_name, fixed_word as fixed_word_of};

use crate::naming::Naming;
use indexmap::IndexMap;
use label_layout::{Layout, instr_size};
use listing_parser::{Listing, ListingLine, Mention, Place, Statement, Value, is_call};
use std::alloc::{AllocError, Global};

/// The word of the first external name without an address; each further one has 256 more.
const FIRST_WORD: u64 = 0x3000_0000;

/// The word of a name: a label's address, 1 more where it is code, or the address that the listing sets. The layout is the listing's.
pub fn fixed_word(listing: &Listing, layout: &Layout, name: &[u8]) -> Option<u32>
    requires { AreAddresses listing.now layout.now }
    ensures { result ≡ fixed_word_of layout.now.base listing.now name.now }
{
    match layout.find_label(name) {
        None => listing.set_address(name),
        Some(address) => match listing.place_of(name) {
            None => Some(address),
            Some(_) => Some(address + 1),
        },
    }
}

/// Notes the word of a label or a set name.
fn add_name(
    words: &mut IndexMap<Vec<u8>, u32>,
    listing: &Listing,
    layout: &Layout,
    name: &Vec<u8>,
) -> Result<(), AllocError>
    requires { AreAddresses listing.now layout.now }
    ensures { OnOk result ((known : List Name) → AreFixed layout.now.base listing.now known words.old.entries → AreFixed layout.now.base listing.now (known ++ name.now.items ∷ []) words.new.entries) }
{
    match fixed_word(listing, layout, name.as_slice()) {
        None => {}
        Some(word) => {
            words.insert(name.clone()?, word)?;
        }
    }
    Ok(())
}

/// Notes the words of labels.
fn add_names(
    words: &mut IndexMap<Vec<u8>, u32>,
    listing: &Listing,
    layout: &Layout,
    names: &[Vec<u8>],
) -> Result<(), AllocError>
    requires { AreAddresses listing.now layout.now }
    ensures { OnOk result ((known : List Name) → AreFixed layout.now.base listing.now known words.old.entries → AreFixed layout.now.base listing.now (known ++ map (λ name. name.items) names.now) words.new.entries) }
{
    for name in names {
        add_name(words, listing, layout, name)?;
    }
    Ok(())
}

/// The name whose address a statement sets.
fn set_name(statement: &Statement) -> Option<&Vec<u8>>
    ensures { MatchOption result (set_names (statement_view statement.now) ≡ []) (λ n. set_names (statement_view statement.now) ≡ n.now.items ∷ []) }
{
    match statement {
        Statement::Nothing => None,
        Statement::Instruction { .. } => None,
        Statement::Words(_) => None,
        Statement::Aligns { .. } => None,
        Statement::Sets { name, .. } => Some(name),
    }
}

/// Notes the words of the names that a line defines.
fn add_line(
    words: &mut IndexMap<Vec<u8>, u32>,
    listing: &Listing,
    layout: &Layout,
    line: &ListingLine,
) -> Result<(), AllocError>
    requires { AreAddresses listing.now layout.now }
    ensures { OnOk result ((known : List Name) → AreFixed layout.now.base listing.now known words.old.entries → AreFixed layout.now.base listing.now (known ++ defined_in (line_view line.now)) words.new.entries) }
{
    add_names(words, listing, layout, &line.names)?;
    match set_name(&line.statement) {
        None => {}
        Some(name) => add_name(words, listing, layout, name)?,
    }
    Ok(())
}

/// The words of all labels and set names.
fn fixed_words(
    alloc: Global,
    listing: &Listing,
    layout: &Layout,
) -> Result<IndexMap<Vec<u8>, u32>, AllocError>
    requires { AreAddresses listing.now layout.now }
    ensures { IfOk result (λ m. AreOwn layout.now.base listing.now [] m.entries) }
{
    let mut words = IndexMap::new(alloc);
    for line in listing.lines() {
        add_line(&mut words, listing, layout, line)?;
    }
    Ok(words)
}

/// The name that a place mentions.
pub(crate) fn mentioned(place: Place<'_>) -> Option<&Mention>
    ensures { option_map (λ m. m.now.name.items) result ≡ place_name (place_view place.entry) }
{
    match place {
        Place::Op { mention, .. } => mention,
        Place::Word(Value::OfName(mention)) => Some(mention),
        Place::Word(Value::Number(_)) => None,
    }
}

/// Gives a name that has no word yet one of its own; `count` is how many such names came before. Returns their new number.
fn add_own(
    words: &mut IndexMap<Vec<u8>, u32>,
    name: &Vec<u8>,
    count: u64,
) -> Result<u64, AllocError>
    requires { count < 2 ^ 32 }
    ensures own { (base : ℕ) (lines : List LineModel) (known : List Name) → count ≡ length known → AreOwn base lines known words.old.entries →
        IfOk result (λ r. AreOwn base lines (with_name base lines known (Some name.now.items)) words.new.entries × (r ≡ length (with_name base lines known (Some name.now.items)))) }
    ensures few { IfOk result (λ r. r ≤ count + 1) }
{
    if words.get(name.as_slice()).is_some() {
        return Ok(count);
    }
    let word = ((FIRST_WORD + 256 * count) % (1 << 32)) as u32;
    words.insert(name.clone()?, word)?;
    Ok(count + 1)
}

/// The words of all names.
fn all_words(
    alloc: Global,
    listing: &Listing,
    layout: &Layout,
) -> Result<IndexMap<Vec<u8>, u32>, AllocError>
    requires { AreAddresses listing.now layout.now }
    ensures { IfOk result (λ m. AreOwn layout.now.base listing.now (nowhere layout.now.base listing.now) m.entries) }
{
    let mut words = fixed_words(alloc, listing, layout)?;
    let mut count = 0;
    for place in 0..listing.place_count() {
        let Some(found) = listing.place(place) else {
            unreachable!()
        };
        match mentioned(found) {
            None => {}
            Some(mention) => count = add_own(&mut words, &mention.name, count)?,
        }
    }
    Ok(words)
}

/// The word of the return point of a call, where the place is one.
fn return_word(listing: &Listing, layout: &Layout, place: u32) -> Option<u32>
    requires addresses { AreAddresses listing.now layout.now }
    requires place { place < length (places_of listing.now) }
    ensures { MatchOption result (is_call_place (slice_get (places_of listing.now) place) ≡ false)
        (λ w. (is_call_place (slice_get (places_of listing.now) place) ≡ true) × (w ≡ return_address (call_count (take place (places_of listing.now))) layout.now.base listing.now + 1)) }
{
    match listing.place(place) {
        None => None,
        Some(Place::Word(_)) => None,
        Some(Place::Op { instr, .. }) => {
            if is_call(&instr) {
                Some(layout.address(place) + instr_size(&instr) + 1)
            } else {
                None
            }
        }
    }
}

/// The words of the return points of all calls.
fn returns(alloc: Global, listing: &Listing, layout: &Layout) -> Result<Vec<u32>, AllocError>
    requires { AreAddresses listing.now layout.now }
    ensures { IfOk result (λ v. AreReturns layout.now.base listing.now (call_count (places_of listing.now)) v.items) }
{
    let mut words = Vec::new(alloc);
    for place in 0..listing.place_count() {
        match return_word(listing, layout, place) {
            None => {}
            Some(word) => words.push(word)?,
        }
    }
    Ok(words)
}

/// Whether the place is a call.
fn is_call_at(listing: &Listing, place: u32) -> bool
    ensures { result ≡ is_call_place (slice_get (places_of listing.now) place) }
{
    match listing.place(place) {
        None => false,
        Some(found) => found.is_call(),
    }
}

/// Whether the last place is a call.
fn ends_with_call(listing: &Listing) -> bool
    ensures { result ≡ last_is_call (places_of listing.now) }
{
    is_call_at(listing, listing.place_count().saturating_sub(1))
}

impl Naming {
    /// The naming that a listing is laid out with: a label's word is its address, 1 more where it is code, and that of a call's return point is 1 more
    /// than the address behind the call. An external name has the address that is set for it, or else a word of its own from 0x30000000 on. The layout is
    /// the listing's.
    pub fn laid(alloc: Global, listing: &Listing, layout: &Layout) -> Result<Naming, AllocError>
        requires { AreAddresses listing.now layout.now }
        ensures { IfOk result (λ n. IsLaid layout.now.base listing.now (naming_of n)) }
    {
        let words = all_words(alloc, listing, layout)?;
        let returns = returns(alloc, listing, layout)?;
        let high = if ends_with_call(listing) {
            layout.end() + 2
        } else {
            layout.end()
        };
        Ok(Naming::new(words, returns, layout.base(), high))
    }
}
