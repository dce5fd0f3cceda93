//! The numerals of a table's lines. Each is accepted only in the one form in which it is written.
ghost use Rattle.std.specs.Prelude.{◌≡◌, ℕ, List, ◌∷◌, ◌++◌, ◌<◌, ◌≤◌, ◌^◌, map, decimal, MatchOption, IfOk, IfSome, IsSome, IsTrue, ◌↔◌, ◌==◌, length};
ghost use Rattle.std.specs.List.{slice_split};
ghost use Rattle.lrat_check.specs.Reading.{all_now};
ghost use Rattle.rule_table.specs.Text.{after_blanks, hex_of};
ghost use Rattle.rule_table.specs.Words.{AreBytes, AreWords};
ghost use Rattle.rule_table.specs.Digits.{digit_value, pair_text};

use crate::words::strip;
use arrayvec::ArrayVec;
use itoa::Buffer;
use std::alloc::{AllocError, Global};

fn is_numeral_of(number: u64, word: &[u8]) -> bool
    ensures { IsTrue result ↔ (decimal number ≡ word.now) }
{
    Buffer::new().format(number).as_bytes() == word
}

/// The number that the word is the decimal numeral of, below 2^64 and without leading zeros.
pub(crate) fn number(word: &[u8]) -> Option<u64>
    ensures { MatchOption result ((n : ℕ) → n < 2 ^ 64 → decimal n ≡ word.now → ⊥) (λ n. (n < 2 ^ 64) × (decimal n ≡ word.now)) }
{
    let Ok(text) = str::from_utf8(word) else {
        return None;
    };
    let Ok(number) = text.parse() else {
        return None;
    };
    if is_numeral_of(number, word) {
        Some(number)
    } else {
        None
    }
}

/// The number that the word is the decimal numeral of, if it lies from `least` to `most`.
pub(crate) fn number_within(word: &[u8], least: u64, most: u64) -> Option<u64>
    ensures { MatchOption result ((n : ℕ) → least ≤ n → n ≤ most → decimal n ≡ word.now → ⊥) (λ n. (least ≤ n) × (n ≤ most) × (decimal n ≡ word.now)) }
{
    match number(word) {
        None => None,
        Some(number) => {
            if number < least {
                return None;
            }
            if number > most {
                return None;
            }
            Some(number)
        }
    }
}

/// The parts between blanks.
fn parts_of(alloc: Global, bytes: &[u8]) -> Result<Vec<&[u8]>, AllocError>
    ensures { IfOk result (λ parts. all_now parts.items ≡ slice_split (λ b. b == 32) bytes.entry.now) }
{
    bytes.split(|b| *b == b' ').collect(alloc)
}

/// The words of the bytes, if a blank stands before each and there is at least one.
pub(crate) fn words_in(alloc: Global, bytes: &[u8]) -> Result<Option<Vec<&[u8]>>, AllocError>
    ensures { IfOk result (λ r. MatchOption r ((words : List (List ℕ)) → AreWords bytes.entry.now words → ⊥) (λ words. AreWords bytes.entry.now (all_now words.items))) }
{
    match strip(b" ", bytes) {
        None => Ok(None),
        Some(rest) => {
            let words = parts_of(alloc, rest)?;
            Ok(Some(words))
        }
    }
}

/// The numbers that at most 28 words are, each at most 255.
fn bytes_of(words: &[&[u8]]) -> Option<ArrayVec<u8, 28>>
    ensures { MatchOption result ((ns : List ℕ) → AreBytes ns → map decimal ns ≡ all_now words.entry.now → ⊥) (λ v. AreBytes v.items × (map decimal v.items ≡ all_now words.entry.now)) }
{
    if words.len() > 28 {
        return None;
    }
    let mut bytes = ArrayVec::new();
    for word in words {
        match number_within(word, 0, 255) {
            None => return None,
            Some(number) => bytes.push(number as u8),
        }
    }
    Some(bytes)
}

/// The numbers in the bytes, with a blank before each: 1 to 28 numbers, each at most 255.
pub(crate) fn bytes_in(alloc: Global, bytes: &[u8]) -> Result<Option<ArrayVec<u8, 28>>, AllocError>
    ensures { IfOk result (λ r. MatchOption r ((ns : List ℕ) → AreBytes ns → 0 < length ns → after_blanks (map decimal ns) ≡ bytes.now → ⊥) (λ v. AreBytes v.items × (after_blanks (map decimal v.items) ≡ bytes.now))) }
{
    match words_in(alloc, bytes)? {
        None => Ok(None),
        Some(words) => Ok(bytes_of(&words)),
    }
}

/// The number that the first word is the decimal numeral of, below 2^32, and the words after it.
pub(crate) fn first_number<'a, 'b>(words: &'b [&'a [u8]]) -> Option<(u32, &'b [&'a [u8]])>
    ensures { MatchOption result ((n : ℕ) (ns : List ℕ) → n < 2 ^ 32 → map decimal (n ∷ ns) ≡ all_now words.entry.now → ⊥) (λ p. decimal p.0 ∷ all_now p.1.now ≡ all_now words.entry.now) }
{
    let Some((first, rest)) = words.split_first() else {
        return None;
    };
    match number_within(first, 0, u64::from(u32::MAX)) {
        None => None,
        Some(number) => Some((number as u32, rest)),
    }
}

/// The value of a hexadecimal digit, in lower case.
fn digit(byte: u8) -> Option<u32>
    ensures value { result ≡ digit_value byte }
    ensures small { IfSome result (λ d. d < 16) }
{
    if 48 <= byte && byte <= 57 {
        Some(u32::from(byte) - 48)
    } else if 97 <= byte && byte <= 102 {
        Some(u32::from(byte) - 87)
    } else {
        None
    }
}

/// The word of eight hexadecimal digits.
fn hex_word(text: &[u8]) -> Option<u32>
    ensures value { IfSome result (λ w. hex_of 8 w ≡ text.now) }
    ensures none { (w : ℕ) → hex_of 8 w ≡ text.now → IsSome result }
{
    if text.len() != 8 {
        return None;
    }
    let mut word = 0u64;
    for byte in text {
        match digit(*byte) {
            None => return None,
            Some(value) => word = word * 16 + u64::from(value),
        }
    }
    Some(word as u32)
}

/// The word of eight hexadecimal digits after a blank, and the rest of the bytes.
fn blank_word(bytes: &[u8]) -> Option<(u32, &[u8])>
    ensures { MatchOption result ((w : ℕ) (more : List ℕ) → 32 ∷ (hex_of 8 w ++ more) ≡ bytes.entry.now → ⊥) (λ p. 32 ∷ (hex_of 8 p.0 ++ p.1.now) ≡ bytes.entry.now) }
{
    let Some((first, after)) = bytes.split_first() else {
        return None;
    };
    if *first != b' ' {
        return None;
    }
    if after.len() < 8 {
        return None;
    }
    let (digits, rest) = after.split_at(8);
    match hex_word(digits) {
        None => None,
        Some(word) => Some((word, rest)),
    }
}

/// Two such words, and the rest of the bytes.
pub(crate) fn blank_words(bytes: &[u8]) -> Option<(u32, u32, &[u8])>
    ensures { MatchOption result ((v w : ℕ) (more : List ℕ) → pair_text v w more ≡ bytes.entry.now → ⊥) (λ p. pair_text p.0 p.1 p.2.now ≡ bytes.entry.now) }
{
    let Some((first, rest)) = blank_word(bytes) else {
        return None;
    };
    match blank_word(rest) {
        None => None,
        Some((second, rest)) => Some((first, second, rest)),
    }
}

/// The value of one hexadecimal digit after a blank, if the bytes are no more than these two.
pub(crate) fn blank_digit(bytes: &[u8]) -> Option<u8>
    ensures { MatchOption result ((d : ℕ) → d < 16 → 32 ∷ hex_of 1 d ≡ bytes.now → ⊥) (λ d. (d < 16) × (32 ∷ hex_of 1 d ≡ bytes.now)) }
{
    if bytes.len() != 2 {
        return None;
    }
    if bytes[0] != b' ' {
        return None;
    }
    match digit(bytes[1]) {
        None => None,
        Some(value) => Some(value as u8),
    }
}
