//! The words of a proof's line, split off one by one, so that no list of them is made.
ghost use Rattle.std.specs.Prelude.{◌≡◌, ◌==◌, ℕ, List, [], ◌∷◌, ◌++◌, map, All, MatchOption, IfOk, IsTrue, ◌↔◌};
ghost use Rattle.std.specs.List.{position_or_len, slice_split};
ghost use Rattle.lrat_check.specs.Text.{end_word};
ghost use Rattle.lrat_check.specs.Reading.{words_left};

use crate::entry::ProofNumber;
use std::alloc::{AllocError, Global};

/// Whether the word is `0`.
fn is_end(word: &[u8]) -> bool
    ensures { IsTrue result ↔ (word.now ≡ end_word) }
{
    word == b"0".as_slice()
}

/// How many bytes there are before the first blank.
fn word_len(bytes: &[u8]) -> usize
    ensures { result ≡ position_or_len (λ b. b == 32) bytes.now }
{
    bytes.iter().take_while(|b| **b != b' ').count()
}

/// The first word, and what follows the blank after it, if there is a blank.
pub(crate) fn split_word(bytes: &[u8]) -> (&[u8], Option<&[u8]>)
    ensures { slice_split (λ b. b == 32) bytes.entry.now ≡ result.0.now ∷ words_left result.1 }
{
    let len = word_len(bytes);
    if len < bytes.len() {
        (&bytes[..len], Some(&bytes[len + 1..]))
    } else {
        (bytes, None)
    }
}

/// The next word of the rest, and what is left after it.
pub(crate) fn next_word(rest: Option<&[u8]>) -> Option<(&[u8], Option<&[u8]>)>
    ensures { MatchOption result (words_left rest.entry ≡ []) (λ p. words_left rest.entry ≡ p.0.now ∷ words_left p.1) }
{
    match rest {
        None => None,
        Some(bytes) => Some(split_word(bytes)),
    }
}

/// How many words there are before the first `0`.
fn count(mut rest: Option<&[u8]>) -> usize {
    let mut count: usize = 0;
    'words: while let Some((word, after)) = next_word(rest) {
        if is_end(word) {
            return count;
        }
        count = count.saturating_add(1);
        rest = after;
    }
    count
}

/// The numbers that the words before the first `0` name, in a vector of just their count, and what is left after the `0`.
pub(crate) fn read_list<E: ProofNumber + Drop>(
    alloc: Global,
    mut rest: Option<&[u8]>,
) -> Result<Option<(Vec<E>, Option<&[u8]>)>, AllocError>
    ensures { IfOk result (λ r. MatchOption r ((xs : List E) (after : List (List ℕ)) → All E.can_stand xs → words_left rest.entry ≡ map E.text xs ++ end_word ∷ after → ⊥) (λ p. All E.can_stand p.0.items × All (λ w. w ≡ end_word → ⊥) (map E.text p.0.items) × (words_left rest.entry ≡ map E.text p.0.items ++ end_word ∷ words_left p.1))) }
{
    let mut entries = Vec::with_capacity(alloc, count(rest))?;
    'words: while let Some((word, after)) = next_word(rest) {
        if is_end(word) {
            return Ok(Some((entries, after)));
        }
        match E::read(word) {
            None => return Ok(None),
            Some(entry) => entries.push(entry)?,
        }
        rest = after;
    }
    Ok(None)
}

/// The numbers that the words before the first `0` name, where no word is left after it.
pub(crate) fn read_last<E: ProofNumber + Drop>(
    alloc: Global,
    rest: Option<&[u8]>,
) -> Result<Option<Vec<E>>, AllocError>
    ensures { IfOk result (λ r. MatchOption r ((xs : List E) → All E.can_stand xs → All (λ w. w ≡ end_word → ⊥) (map E.text xs) → words_left rest.entry ≡ map E.text xs ++ end_word ∷ [] → ⊥) (λ xs. All E.can_stand xs.items × (words_left rest.entry ≡ map E.text xs.items ++ end_word ∷ []))) }
{
    let Some((entries, rest)) = read_list(alloc, rest)? else {
        return Ok(None);
    };
    if rest.is_none() {
        Ok(Some(entries))
    } else {
        Ok(None)
    }
}
