//! The numbers of a line, ids, hints and literals, are read and written by one trait, since their texts differ only in limits and signs.
ghost use Rattle.std.specs.Prelude.{◌≡◌, ◌<◌, ◌≤◌, ◌+◌, ◌^◌, ℕ, ℤ, List, ◌++◌, map, length, decimal, All, MatchOption, OnOk, IsTrue, ◌↔◌, FitsSigned};
ghost use Rattle.std.specs.Int.{w64};
ghost use Rattle.std.specs.Fmt.{signed_decimal};
ghost use Rattle.lrat_check.specs.Text.{spaced};
ghost use Rattle.clause_model.specs.Clauses.{number_of};

use crate::line::{Hint, Id, VARIABLES};
use clause_model::Literal;
use itoa::Buffer;
use std::alloc::{AllocError, Global};

/// A word of a line that is a number: an id, a hint or a literal.
pub trait ProofNumber: Copy {
    ghost text: { Self → List ℕ };

    ghost can_stand: { Self → Type 0 };

    ghost can_write: { Self → Type 0 };

    /// The value of the word, if it is one that may be in a line.
    fn read(word: &[u8]) -> Option<Self>
        ensures { MatchOption result ((x : Self) → can_stand x → text x ≡ word.now → ⊥) (λ x. can_stand x × (text x ≡ word.now)) };

    /// Writes the word.
    fn write(self, out: &mut Vec<u8>) -> Result<(), AllocError>
        requires { can_write self }
        ensures { OnOk result (out.new.items ≡ out.old.items ++ text self) };

    /// How many bytes the word has.
    fn length(self) -> u64
        requires { can_write self }
        ensures value { result ≡ length (text self) }
        ensures few { result ≤ 21 };
}

/// The number whose decimal numeral the word is, with no sign but a minus and no leading zero.
fn number(word: &[u8]) -> Option<i64>
    ensures { MatchOption result ((z : ℤ) → FitsSigned w64 z → signed_decimal z ≡ word.now → ⊥) (λ z. FitsSigned w64 z × (signed_decimal z ≡ word.now)) }
{
    let Ok(text) = str::from_utf8(word) else {
        return None;
    };
    let Ok(number) = text.parse() else {
        return None;
    };
    if is_numeral_of(number, word) {
        Some(number)
    } else {
        None
    }
}

fn is_numeral_of(number: i64, word: &[u8]) -> bool
    ensures { IsTrue result ↔ (signed_decimal number ≡ word.now) }
{
    Buffer::new().format(number).as_bytes() == word
}

fn write_number(number: i64, out: &mut Vec<u8>) -> Result<(), AllocError>
    ensures { OnOk result (out.new.items ≡ out.old.items ++ signed_decimal number) }
{
    out.extend_from_slice(Buffer::new().format(number).as_bytes())
}

/// How many digits the numeral of a number has.
#[tactic(auto, using(crate::proofs::Numerals::digits_by_power, crate::proofs::Numerals::digits_of_zero))]
fn digits(number: u64) -> u64
    ensures value { result ≡ length (decimal number) }
    ensures few { result ≤ 20 }
{
    match number.checked_ilog10() {
        None => 1,
        Some(power) => u64::from(power) + 1,
    }
}

/// How many bytes the numeral of a number has, with its minus.
fn numeral_length(number: i64) -> u64
    ensures value { result ≡ length (signed_decimal number) }
    ensures few { result ≤ 21 }
{
    digits(number.unsigned_abs()) + u64::from(number < 0)
}

impl ProofNumber for Id {
    ghost use Rattle.lrat_check.specs.Numbers.{IsId};

    ghost text = { decimal };

    ghost can_stand = { IsId };

    ghost can_write = { λ _. Unit {0} };

    fn read(word: &[u8]) -> Option<Self> {
        match number(word) {
            None => None,
            Some(number) => Id::from_number(number),
        }
    }

    fn write(self, out: &mut Vec<u8>) -> Result<(), AllocError> {
        write_number(i64::from(self.number()), out)
    }

    fn length(self) -> u64 {
        digits(u64::from(self.number()))
    }
}

impl ProofNumber for Hint {
    ghost use Rattle.lrat_check.specs.Numbers.{IsHint};

    ghost text = { signed_decimal };

    ghost can_stand = { IsHint };

    ghost can_write = { λ _. Unit {0} };

    fn read(word: &[u8]) -> Option<Self> {
        match number(word) {
            None => None,
            Some(number) => Hint::from_number(number),
        }
    }

    fn write(self, out: &mut Vec<u8>) -> Result<(), AllocError> {
        write_number(self.number(), out)
    }

    fn length(self) -> u64 {
        numeral_length(self.number())
    }
}

/// The literal that a number names, if its variable is one of the first 200,000.
fn literal(number: i64) -> Option<Literal>
    ensures { MatchOption result ((l : ℕ) → l < 400000 → number_of l ≡ number → ⊥) (λ l. (l < 400000) × (number_of l ≡ number)) }
{
    match i32::try_from(number) {
        Ok(number) if number != 0 && number.unsigned_abs() <= VARIABLES => {
            Some(Literal::from_number(number))
        }
        _ => None,
    }
}

impl ProofNumber for Literal {
    ghost use Rattle.lrat_check.specs.Text.{literal_text};

    ghost text = { literal_text };

    ghost can_stand = { λ l. l < 400000 };

    ghost can_write = { λ l. l < 400000 };

    fn read(word: &[u8]) -> Option<Self> {
        match number(word) {
            None => None,
            Some(number) => literal(number),
        }
    }

    fn write(self, out: &mut Vec<u8>) -> Result<(), AllocError> {
        write_number(i64::from(self.number()), out)
    }

    fn length(self) -> u64 {
        numeral_length(i64::from(self.number()))
    }
}

/// Writes the words, each followed by a blank.
pub fn write_all<E: ProofNumber>(entries: &[E], out: &mut Vec<u8>) -> Result<(), AllocError>
    requires { All E.can_write entries.now }
    ensures { OnOk result (out.new.items ≡ out.old.items ++ spaced (map E.text entries.now)) }
{
    for entry in entries {
        entry.write(out)?;
        out.push(b' ')?;
    }
    Ok(())
}

/// `before`, plus the number of bytes of the words with a blank after each; None where that isn't below 2^64.
#[tactic(auto, using(crate::proofs::Texts::some_words))]
pub fn length_of_all<E: ProofNumber>(before: u64, entries: &[E]) -> Option<u64>
    requires { All E.can_write entries.now }
    ensures { MatchOption result (2 ^ 64 ≤ before + length (spaced (map E.text entries.now))) (λ n. n ≡ before + length (spaced (map E.text entries.now))) }
{
    let mut total = before;
    for entry in entries {
        match total.checked_add(entry.length() + 1) {
            None => return None,
            Some(sum) => total = sum,
        }
    }
    Some(total)
}
