//! The first line that defines a name again. The names so far are in a hashed set, so that none is searched for line by line.
ghost use Rattle.std.specs.Prelude.{◌≡◌, ◌++◌, ◌∷◌, [], true, false, map, Decides, IfOk, MatchOption};
ghost use Rattle.listing_parser.specs.Views.{line_view, statement_view};
ghost use Rattle.thumb_model.specs.Layout.{is_among};
ghost use Rattle.listing_parser.specs.Targets.{defined_in, set_names, DefineOnce, IsAgain, IsFirstAgain};

use crate::errors::Memory;
use crate::line::{ListingLine, Statement};
use indexmap::IndexSet;
use std::alloc::Global;

/// Adds a name, and answers whether it was known.
pub fn add(alloc: Global, known: &mut IndexSet<Vec<u8>>, name: &[u8]) -> Result<bool, Memory>
    ensures again { IfOk result (λ b. b ≡ is_among name.now (map (λ k. k.items) known.old.keys)) }
    ensures known { IfOk result (λ b. b ≡ false → map (λ k. k.items) known.new.keys ≡ map (λ k. k.items) known.old.keys ++ name.now ∷ []) }
    ensures kept { IfOk result (λ b. b ≡ true → known.new.keys ≡ known.old.keys) }
{
    let key = name.to_vec(alloc)?;
    let is_new = known.insert(key)?;
    Ok(!is_new)
}

/// Adds names, and answers whether one was known.
fn add_all(alloc: Global, known: &mut IndexSet<Vec<u8>>, names: &[Vec<u8>]) -> Result<bool, Memory>
    ensures again { IfOk result (λ b. Decides b (IsAgain (map (λ k. k.items) known.old.keys) (map (λ n. n.items) names.now))) }
    ensures known { IfOk result (λ b. b ≡ false → map (λ k. k.items) known.new.keys ≡ map (λ k. k.items) known.old.keys ++ map (λ n. n.items) names.now) }
{
    for name in names {
        if add(alloc, known, name)? {
            return Ok(true);
        }
    }
    Ok(false)
}

/// Adds the name whose address a statement sets, and answers whether it was known.
fn add_set(
    alloc: Global,
    known: &mut IndexSet<Vec<u8>>,
    statement: &Statement,
) -> Result<bool, Memory>
    ensures again { IfOk result (λ b. Decides b (IsAgain (map (λ k. k.items) known.old.keys) (set_names (statement_view statement.now)))) }
    ensures known { IfOk result (λ b. b ≡ false → map (λ k. k.items) known.new.keys ≡ map (λ k. k.items) known.old.keys ++ set_names (statement_view statement.now)) }
{
    match statement {
        Statement::Sets { name, address: _ } => add(alloc, known, name),
        _ => Ok(false),
    }
}

/// Adds the names that a line defines, and answers whether one was known.
fn add_line(
    alloc: Global,
    known: &mut IndexSet<Vec<u8>>,
    line: &ListingLine,
) -> Result<bool, Memory>
    ensures again { IfOk result (λ b. Decides b (IsAgain (map (λ k. k.items) known.old.keys) (defined_in (line_view line.now)))) }
    ensures known { IfOk result (λ b. b ≡ false → map (λ k. k.items) known.new.keys ≡ map (λ k. k.items) known.old.keys ++ defined_in (line_view line.now)) }
{
    if add_all(alloc, known, &line.names)? {
        return Ok(true);
    }
    add_set(alloc, known, &line.statement)
}

/// The first line, by its number from 1, that defines a name again.
pub fn first_twice(alloc: Global, lines: &[ListingLine]) -> Result<Option<u64>, Memory>
    ensures { IfOk result (λ o. MatchOption o (DefineOnce (map line_view lines.now)) (λ n. IsFirstAgain (map line_view lines.now) n)) }
{
    let mut known = IndexSet::new(alloc);
    for (n, line) in lines.iter().enumerate() {
        if add_line(alloc, &mut known, line)? {
            return Ok(Some(n as u64 + 1));
        }
    }
    Ok(None)
}
