//! Words of 64 bits, a bit a place: the next member of a set is found by counting zeros, 64 places at a look.
ghost use Rattle.std.specs.Prelude.{◌≡◌, ◌≢◌, ℕ, ◌+◌, ◌*◌, ◌/◌, ◌<◌, ◌≤◌, nat_lt, true, false, length, slice_index, IfOk};
ghost use Rattle.std.specs.Int.{bit_at};
ghost use Rattle.kept_places.specs.Members.{has};

use std::alloc::{AllocError, Global};

/// Words in which the bits of all places below a number are set.
pub(crate) fn all_below(alloc: Global, count: usize) -> Result<Vec<u64>, AllocError>
    ensures as_many { IfOk result (λ words. length words.items ≡ count / 64 + 1) }
    ensures all { IfOk result (λ words. (p : ℕ) → has words.items p ≡ nat_lt p count) }
{
    let whole = count / 64;
    let mut words = vec![in alloc; u64::MAX; whole]?;
    words.push((1 << (count % 64)) - 1)?;
    Ok(words)
}

/// Whether the bit of a place is set.
pub(crate) fn has(words: &[u64], place: u32) -> bool
    requires { place < length words.now * 64 }
    ensures { result ≡ has words.now place }
{
    (words[place as usize / 64] >> (place % 64)) & 1 == 1
}

/// Sets the bit of a place.
pub(crate) fn set(words: &mut Vec<u64>, place: u32)
    requires { place < length words.old.items * 64 }
    ensures as_many { length words.new.items ≡ length words.old.items }
    ensures here { has words.new.items place ≡ true }
    ensures others { (p : ℕ) → p ≢ place → has words.new.items p ≡ has words.old.items p }
{
    words[place as usize / 64] |= 1 << (place % 64);
}

/// Clears the bit of a place.
pub(crate) fn clear(words: &mut Vec<u64>, place: u32)
    requires { place < length words.old.items * 64 }
    ensures as_many { length words.new.items ≡ length words.old.items }
    ensures here { has words.new.items place ≡ false }
    ensures others { (p : ℕ) → p ≢ place → has words.new.items p ≡ has words.old.items p }
{
    words[place as usize / 64] &= !(1 << (place % 64));
}

/// The index of the lowest bit of a word that is set.
pub(crate) fn lowest(word: u64) -> u32
    requires { 0 < word }
    ensures within { result < 64 }
    ensures here { bit_at word result ≡ 1 }
    ensures lowest { (i : ℕ) → i < result → bit_at word i ≡ 0 }
{
    word.trailing_zeros()
}

/// The index of the highest bit of a word that is set.
pub(crate) fn highest(word: u64) -> u32
    requires { 0 < word }
    ensures within { result < 64 }
    ensures here { bit_at word result ≡ 1 }
    ensures highest { (i : ℕ) → result < i → bit_at word i ≡ 0 }
{
    63 - word.leading_zeros()
}

/// The index of the first word in `from..end` that isn't 0, or `end` where there is none.
pub(crate) fn first_used(words: &[u64], from: usize, end: usize) -> usize
    requires { end ≤ length words.now }
    ensures within { result ≤ end }
    ensures used { result < end → 0 < slice_index words.now result }
    ensures before { (k : ℕ) → from ≤ k → k < result → slice_index words.now k ≡ 0 }
{
    let mut word = from;
    while word < end {
        if words[word] != 0 {
            return word;
        }
        word += 1;
    }
    end
}

/// One past the index of the last word in `from..past` that isn't 0, or the lesser of the two bounds where there is none.
pub(crate) fn past_used(words: &[u64], from: usize, past: usize) -> usize
    requires { past ≤ length words.now }
    ensures within { result ≤ past }
    ensures used { (k : ℕ) → from ≤ k → k + 1 ≡ result → 0 < slice_index words.now k }
    ensures behind { (k : ℕ) → result ≤ k → k < past → slice_index words.now k ≡ 0 }
{
    let mut past = past;
    while past > from {
        if words[past - 1] != 0 {
            return past;
        }
        past -= 1;
    }
    past
}
