//! Counts of the places that are gone, by groups, so that a place's number among the kept ones takes few additions.
ghost use Rattle.std.specs.Prelude.{◌≡◌, ◌+◌, ◌^◌, ◌<◌, ◌≤◌, length, sum, count_by, slice_index, slice_range, slice_set};

/// The sum of the counts of the groups in `from..to`.
pub(crate) fn total(counts: &[u32], from: usize, to: usize) -> u32
    requires range { from ≤ to }
    requires within { to ≤ length counts.now }
    requires small { sum (slice_range counts.now from to) < 2 ^ 32 }
    ensures { result ≡ sum (slice_range counts.now from to) }
{
    counts[from..to].iter().sum()
}

/// How many of the places in `from..to` are gone.
pub(crate) fn gone_among(gone: &[bool], from: usize, to: usize) -> u32
    requires range { from ≤ to }
    requires within { to ≤ length gone.now }
    requires small { to < 2 ^ 32 }
    ensures { result ≡ count_by (λ g. g) (slice_range gone.now from to) }
{
    gone[from..to].iter().filter(|is_gone| **is_gone).count() as u32
}

/// Counts one place more in a group.
pub(crate) fn add_one(counts: &mut Vec<u32>, group: usize)
    requires within { group < length counts.old.items }
    requires small { slice_index counts.old.items group + 1 < 2 ^ 32 }
    ensures { counts.new.items ≡ slice_set counts.old.items group (slice_index counts.old.items group + 1) }
{
    counts[group] += 1;
}
