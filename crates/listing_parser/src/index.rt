//! Tables by which places and names are found without a search.
ghost use Rattle.std.specs.Prelude.{◌≡◌, ◌+◌, ◌<◌, ◌^◌, ◌++◌, ◌∷◌, [], ℕ, List, None, Some, map, length, IfOk, OnOk, if◌then◌else◌};
ghost use Rattle.std.specs.Map.{lookup};
ghost use Rattle.std.specs.Str.{bytes_eq};
ghost use Rattle.thumb_syntax.specs.Operands.{or_else};
ghost use Rattle.thumb_model.specs.Listing.{places_in, places_of};
ghost use Rattle.thumb_model.specs.Layout.{is_among, set_address, set_in};
ghost use Rattle.listing_parser.specs.Views.{line_view, statement_view};
ghost use Rattle.listing_parser.specs.TableWords.{is_key, label_line, passed_from, runs_from, spots_at, spots_from, words_on};

use crate::errors::Memory;
use crate::line::{ListingLine, Statement};
use indexmap::IndexMap;
use std::alloc::{AllocError, Global};

/// Where a place stands.
#[derive(Clone, Copy)]
pub struct Spot {
    /// The index of its line, from 0.
    pub line: usize,
    /// Which of the line's places it is, from 0.
    pub item: usize,
}

/// What comes before a line.
#[derive(Clone, Copy)]
pub struct Passed {
    /// The number of places before the line.
    pub places: usize,
}

/// The tables of a listing's lines.
#[derive(Drop)]
pub struct ListingIndex {
    /// Where each place stands.
    pub spots: Vec<Spot>,
    /// What comes before each line.
    pub passed: Vec<Passed>,
    /// For each line, how many data words follow from it on, up to the next instruction or alignment line.
    pub runs: Vec<usize>,
    /// The index of the first line that has a label of the name.
    pub labels: IndexMap<Vec<u8>, usize>,
    /// The first address that is set for a name.
    pub addresses: IndexMap<Vec<u8>, u32>,
}

/// Adds where the places of a line stand.
fn add_spots(spots: &mut Vec<Spot>, line: usize, statement: &Statement) -> Result<(), AllocError>
    ensures { OnOk result (spots.new.items ≡ spots.old.items ++ spots_at line 0 (places_in (statement_view statement.now))) }
{
    for item in 0..statement.places() {
        spots.push(Spot { line, item })?;
    }
    Ok(())
}

/// How many data words follow from a statement on, where `behind` follow from the next line on.
fn words_on(statement: &Statement, behind: usize) -> usize
    requires { length (places_in (statement_view statement.now)) + behind < 2 ^ 32 }
    ensures { result ≡ words_on (statement_view statement.now) behind }
{
    match statement {
        Statement::Nothing => behind,
        Statement::Sets { .. } => behind,
        Statement::Instruction { .. } => 0,
        Statement::Aligns { .. } => 0,
        Statement::Words(values) => values.len() + behind,
    }
}

/// For each line, how many data words follow from it on, up to the next instruction or alignment line.
fn runs(alloc: Global, lines: &[ListingLine]) -> Result<Vec<usize>, AllocError>
    requires { length (places_of (map line_view lines.now)) < 2 ^ 32 }
    ensures { IfOk result (λ v. v.items ≡ runs_from (map line_view lines.now)) }
{
    let mut runs = vec![in alloc; 0; lines.len()]?;
    let mut behind = 0;
    let mut at = lines.len();
    while at > 0 {
        at -= 1;
        behind = words_on(&lines[at].statement, behind);
        runs[at] = behind;
    }
    Ok(runs)
}

/// Adds a value under a name, unless the name has one already.
fn add<V: Drop>(
    alloc: Global,
    table: &mut IndexMap<Vec<u8>, V>,
    name: &[u8],
    value: V,
) -> Result<(), Memory>
    ensures { OnOk result ((q : List ℕ) → lookup (is_key q) table.new.entries ≡ or_else (lookup (is_key q) table.old.entries) (if bytes_eq q name.now then Some value else None)) }
{
    if table.contains_key(name) {
        return Ok(());
    }
    let key = name.to_vec(alloc)?;
    table.insert(key, value)?;
    Ok(())
}

/// Adds the line under each of its names.
fn add_labels(
    alloc: Global,
    labels: &mut IndexMap<Vec<u8>, usize>,
    names: &[Vec<u8>],
    line: usize,
) -> Result<(), Memory>
    ensures { OnOk result ((q : List ℕ) → lookup (is_key q) labels.new.entries ≡ or_else (lookup (is_key q) labels.old.entries) (if is_among q (map (λ n. n.items) names.now) then Some line else None)) }
{
    for name in names {
        add(alloc, labels, name, line)?;
    }
    Ok(())
}

/// Adds the address that a statement sets.
fn add_address(
    alloc: Global,
    addresses: &mut IndexMap<Vec<u8>, u32>,
    statement: &Statement,
) -> Result<(), Memory>
    ensures { OnOk result ((q : List ℕ) → lookup (is_key q) addresses.new.entries ≡ or_else (lookup (is_key q) addresses.old.entries) (set_in q (statement_view statement.now) None)) }
{
    match statement {
        Statement::Sets { name, address } => add(alloc, addresses, name, *address),
        _ => Ok(()),
    }
}

/// Adds the line at an index, before which there are so many places.
fn add_line(
    alloc: Global,
    index: &mut ListingIndex,
    n: usize,
    line: &ListingLine,
    places: usize,
) -> Result<(), Memory>
    ensures spots { OnOk result (index.new.spots.items ≡ index.old.spots.items ++ spots_at n 0 (places_in (statement_view line.now.statement))) }
    ensures passed { OnOk result (index.new.passed.items ≡ index.old.passed.items ++ record { places = places } ∷ []) }
    ensures labels { OnOk result ((q : List ℕ) → lookup (is_key q) index.new.labels.entries ≡ or_else (lookup (is_key q) index.old.labels.entries) (if is_among q (map (λ n. n.items) line.now.names.items) then Some n else None)) }
    ensures addresses { OnOk result ((q : List ℕ) → lookup (is_key q) index.new.addresses.entries ≡ or_else (lookup (is_key q) index.old.addresses.entries) (set_in q (statement_view line.now.statement) None)) }
{
    index.passed.push(Passed { places })?;
    add_spots(&mut index.spots, n, &line.statement)?;
    add_labels(alloc, &mut index.labels, &line.names, n)?;
    add_address(alloc, &mut index.addresses, &line.statement)
}

/// The tables of lines, but for `runs`, which is left empty.
fn tables(alloc: Global, lines: &[ListingLine]) -> Result<ListingIndex, Memory>
    requires { length (places_of (map line_view lines.now)) < 2 ^ 32 }
    ensures spots { IfOk result (λ i. i.spots.items ≡ spots_from 0 (map line_view lines.now)) }
    ensures passed { IfOk result (λ i. i.passed.items ≡ passed_from 0 (map line_view lines.now)) }
    ensures labels { IfOk result (λ i. (q : List ℕ) → lookup (is_key q) i.labels.entries ≡ label_line q 0 (map line_view lines.now)) }
    ensures addresses { IfOk result (λ i. (q : List ℕ) → lookup (is_key q) i.addresses.entries ≡ set_address q (map line_view lines.now)) }
{
    let mut index = ListingIndex {
        spots: Vec::with_capacity(alloc, lines.len())?,
        passed: Vec::with_capacity(alloc, lines.len())?,
        runs: Vec::new(alloc),
        labels: IndexMap::new(alloc),
        addresses: IndexMap::new(alloc),
    };
    let mut places = 0;
    for (n, line) in lines.iter().enumerate() {
        add_line(alloc, &mut index, n, line, places)?;
        places += line.statement.places();
    }
    Ok(index)
}

impl ListingIndex {
    ghost use Rattle.std.specs.Prelude.{◌<◌, ◌^◌, map, length, IfOk};
    ghost use Rattle.thumb_model.specs.Listing.{places_of};
    ghost use Rattle.listing_parser.specs.Views.{line_view};
    ghost use Rattle.listing_parser.specs.Targets.{DefineOnce};
    ghost use Rattle.listing_parser.specs.Tables.{IsIndex};

    /// The tables of lines that define no name twice.
    pub fn of(alloc: Global, lines: &[ListingLine]) -> Result<ListingIndex, Memory>
        requires few { length (places_of (map line_view lines.now)) < 2 ^ 32 }
        requires once { DefineOnce (map line_view lines.now) }
        ensures { IfOk result (λ i. IsIndex (map line_view lines.now) i) }
    {
        let mut index = tables(alloc, lines)?;
        index.runs = runs(alloc, lines)?;
        Ok(index)
    }
}
