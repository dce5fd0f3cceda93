//! Links from each place to itself or to a later one, followed to the first that leads to itself, with path compression as in union-find.
ghost use Rattle.std.specs.Prelude.{◌≡◌, ℕ, ◌+◌, ◌<◌, ◌≤◌, length, slice_index, IfOk};
ghost use Rattle.kept_places.specs.Kept.{LeadOn, EndsAt, LeadAlike};

use std::alloc::{AllocError, Global};

/// Links of so many places and of the end, each of which leads to itself.
pub(crate) fn to_themselves(alloc: Global, count: u32) -> Result<Vec<u32>, AllocError>
    ensures as_many { IfOk result (λ next. length next.items ≡ count + 1) }
    ensures same { IfOk result (λ next. (p : ℕ) → p ≤ count → slice_index next.items p ≡ p) }
{
    let mut next = Vec::with_capacity(alloc, count as usize + 1)?;
    for place in 0..count {
        next.push(place)?;
    }
    next.push(count)?;
    Ok(next)
}

/// Where the way from a place ends.
pub(crate) fn end(next: &[u32], place: u32) -> u32
    requires leads { LeadOn next.now }
    requires within { place < length next.now }
    ensures { EndsAt next.now place result }
{
    let mut end = place;
    loop {
        let on = next[end as usize];
        if on == end {
            return end;
        }
        end = on;
    }
}

/// Lets all places on the way from `place` to its end lead straight to that end.
pub(crate) fn shorten(next: &mut Vec<u32>, place: u32, end: u32)
    requires leads { LeadOn next.old.items }
    requires ends { EndsAt next.old.items place end }
    ensures as_many { length next.new.items ≡ length next.old.items }
    ensures leads { LeadOn next.new.items }
    ensures alike { LeadAlike next.old.items next.new.items }
{
    let mut at = place;
    while at != end {
        let on = next[at as usize];
        next[at as usize] = end;
        at = on;
    }
}
