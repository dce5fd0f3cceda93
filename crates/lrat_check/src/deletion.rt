//! Deletions, which only save memory. All ids are tested before anything is deleted, so that a refused line changes nothing.
ghost use Rattle.std.specs.Prelude.{ℕ, IfOk, MatchOption, Option, List};
ghost use Rattle.lrat_check.specs.Live.{clause_at};
ghost use Rattle.lrat_check.specs.Text.{Deletes, DeadAt, IsAfter};

use crate::line::Id;
use clause_model::Literal;
use std::alloc::{AllocError, Global};
use std::collections::{HashMap, HashSet};

/// The place, counted from 1, of the first id that isn't live or stood before in the list.
pub fn find_dead(
    alloc: Global,
    live: &HashMap<u64, Vec<Literal>>,
    ids: &[Id],
) -> Result<Option<usize>, AllocError>
    ensures { IfOk result (λ r. MatchOption r ((later : ℕ → Option (List ℕ)) → IsAfter (clause_at live.now) ids.now later → Deletes (clause_at live.now) ids.now later) (DeadAt (clause_at live.now) ids.now 1)) }
{
    let mut seen = HashSet::new(alloc);
    for (i, id) in ids.iter().enumerate() {
        let number = u64::from(id.number());
        if !live.contains_key(&number) {
            return Ok(Some(i + 1));
        }
        if !seen.insert(number)? {
            return Ok(Some(i + 1));
        }
    }
    Ok(None)
}

/// Deletes the clauses under the ids.
pub fn delete(live: &mut HashMap<u64, Vec<Literal>>, ids: &[Id])
    ensures { IsAfter (clause_at live.old) ids.now (clause_at live.new) }
{
    for id in ids {
        live.remove(&u64::from(id.number()));
    }
}
