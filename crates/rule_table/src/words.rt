//! The words with which lines of a table begin, in one list: by it the reader finds the kind of a line.
ghost use Rattle.std.specs.Prelude.{◌≡◌, option_map};
ghost use Rattle.rule_table.specs.Fronts.{words, word_text, strip, front_in, front, seen_front};

use crate::header::{Field, HeaderLine, NumberLine};

/// What a line begins with: a word of its own, or a digit, as the lines of a proof do.
#[derive(Clone, Copy)]
pub(crate) enum FirstWord {
    Head(HeaderLine),
    State,
    Entry,
    Right,
    Mask,
    Proof,
    Open,
    Family,
    End,
    Digit,
}

/// All words but the digits.
static WORDS: [FirstWord; 16] = [
    FirstWord::Head(HeaderLine::Number(Field::Version)),
    FirstWord::Head(HeaderLine::Number(Field::Regs)),
    FirstWord::Head(HeaderLine::Number(Field::Left)),
    FirstWord::Head(HeaderLine::Number(Field::Seed)),
    FirstWord::Head(HeaderLine::Number(Field::Budget)),
    FirstWord::Head(HeaderLine::Pool),
    FirstWord::Head(HeaderLine::Number(Field::Scratch)),
    FirstWord::Head(HeaderLine::Costs),
    FirstWord::State,
    FirstWord::Entry,
    FirstWord::Right,
    FirstWord::Mask,
    FirstWord::Proof,
    FirstWord::Open,
    FirstWord::Family,
    FirstWord::End,
];

#[tactic(auto, unfolding(crate::specs::Fronts::words))]
fn words() -> &'static [FirstWord]
    ensures { result.now ≡ words }
{
    &WORDS
}

/// The text of a word at the front of a line, with a blank after it if exactly one part follows.
fn word_text(word: FirstWord) -> &'static [u8]
    ensures { result.now ≡ word_text word }
{
    match word {
        FirstWord::Head(HeaderLine::Number(field)) => NumberLine::of(field).word,
        FirstWord::Head(HeaderLine::Pool) => b"pool",
        FirstWord::Head(HeaderLine::Costs) => b"costs",
        FirstWord::State => b"state",
        FirstWord::Entry => b"entry",
        FirstWord::Right => b"right ",
        FirstWord::Mask => b"mask",
        FirstWord::Proof => b"proof",
        FirstWord::Open => b"open ",
        FirstWord::Family => b"family",
        FirstWord::End => b"end",
        FirstWord::Digit => b"",
    }
}

/// The bytes after a prefix, if they begin with it.
pub(crate) fn strip<'a>(prefix: &[u8], bytes: &'a [u8]) -> Option<&'a [u8]>
    ensures { option_map (λ t. t.now) result ≡ strip prefix.now bytes.entry.now }
{
    bytes.strip_prefix(prefix)
}

/// The first of these words with which the bytes begin, and the rest of the bytes.
fn front_in<'a>(words: &[FirstWord], bytes: &'a [u8]) -> Option<(FirstWord, &'a [u8])>
    ensures { option_map seen_front result ≡ front_in words.now bytes.entry.now }
{
    for word in words {
        if let Some(rest) = strip(word_text(*word), bytes) {
            return Some((*word, rest));
        }
    }
    None
}

/// The word that a line begins with, and the rest of the line; for a line that begins with a digit, all of it.
#[tactic(auto, unfolding(crate::specs::Fronts::front))]
pub(crate) fn front(line: &[u8]) -> Option<(FirstWord, &[u8])>
    ensures { option_map seen_front result ≡ front line.entry.now }
{
    match line.split_first() {
        None => None,
        Some((first, _)) => {
            if first.is_ascii_digit() {
                Some((FirstWord::Digit, line))
            } else {
                front_in(words(), line)
            }
        }
    }
}
