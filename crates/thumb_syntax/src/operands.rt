//! What a word or mark among an instruction's operands is, before it is known which form it belongs to.
ghost use Rattle.std.specs.Prelude.{◌≡◌, ◌∷◌, [], MatchOption, map};
ghost use Rattle.std.specs.List.{prefix_len};
ghost use Rattle.ascii_scan.specs.Tokens.{tokens, front, rest};
ghost use Rattle.ascii_scan.specs.Seen.{seen};
ghost use Rattle.thumb_syntax.specs.Operands.{operand, is_plain, is_name, range_to, after_register, after_name, numbered, plain};
ghost use Rattle.thumb_syntax.specs.Views.{view};

use crate::registers::register_named;
use ascii_scan::{Token, name, next_token, number};

/// What a word or a mark among the operands is.
#[derive(Clone, Copy)]
pub enum Operand<'a> {
    /// `r0`, by its number
    Register(u32),
    /// `r0!`
    Base(u32),
    /// `r4-r7`
    Range(u32, u32),
    /// `#5`
    Number(u32),
    /// a comma, a bracket or a brace
    Sign(u8),
    /// a name
    Name(&'a [u8]),
    /// `name+4`
    Sum(&'a [u8], u32),
    /// anything else
    Stray,
}

impl Default for Operand<'_> {
    ghost use Rattle.std.specs.Prelude.{◌≡◌};
    ghost use Rattle.thumb_syntax.specs.declared.operands.Operand.TheVariants.{Stray};

    ghost is_default = { λ o. o ≡ Stray };

    /// An operand that no form accepts.
    fn default() -> Self {
        Operand::Stray
    }
}

fn is_plain_byte(byte: u8) -> bool
    ensures { result ≡ is_plain byte }
{
    !matches!(byte, b'!' | b'+' | b'-')
}

fn plain_len(bytes: &[u8]) -> usize
    ensures { result ≡ prefix_len is_plain bytes.now }
{
    bytes.iter().take_while(|b| is_plain_byte(**b)).count()
}

/// The bytes up to the first `!`, `+` or `-`, and those from there on.
fn split_plain(bytes: &[u8]) -> (&[u8], &[u8])
    ensures front { result.0.now ≡ front is_plain bytes.now }
    ensures rest { result.1.now ≡ rest is_plain bytes.now }
{
    bytes.split_at(plain_len(bytes))
}

/// Whether all the bytes are one name.
pub fn is_name(word: &[u8]) -> bool
    ensures { result ≡ is_name word.now }
{
    match name(word) {
        Some(length) => length == word.len(),
        None => false,
    }
}

fn range_to<'a>(least: u32, most: Option<u32>) -> Operand<'a>
    ensures { view result ≡ range_to least most }
{
    match most {
        Some(most) => Operand::Range(least, most),
        None => Operand::Stray,
    }
}

fn after_register<'a>(register: u32, after: &'a [u8]) -> Operand<'a>
    ensures { view result ≡ after_register register after.now }
{
    match after {
        [] => Operand::Register(register),
        [b] => {
            if *b == b'!' {
                Operand::Base(register)
            } else {
                Operand::Stray
            }
        }
        [b, to @ ..] => {
            if *b == b'-' {
                range_to(register, register_named(to))
            } else {
                Operand::Stray
            }
        }
    }
}

fn after_name<'a>(word: &'a [u8], after: &'a [u8]) -> Operand<'a>
    ensures { view result ≡ after_name word.now after.now }
{
    match after.split_first() {
        None => Operand::Name(word),
        Some((first, digits)) => {
            if *first == b'+' {
                match number(digits) {
                    Some(n) => Operand::Sum(word, n),
                    None => Operand::Stray,
                }
            } else {
                Operand::Stray
            }
        }
    }
}

fn numbered<'a>(word: &'a [u8]) -> Operand<'a>
    ensures { view result ≡ numbered word.now }
{
    match word.split_first() {
        None => Operand::Stray,
        Some((first, digits)) => {
            if *first == b'#' {
                match number(digits) {
                    Some(n) => Operand::Number(n),
                    None => Operand::Stray,
                }
            } else {
                Operand::Stray
            }
        }
    }
}

fn plain<'a>(word: &'a [u8], front: &'a [u8], after: &'a [u8]) -> Operand<'a>
    ensures { view result ≡ plain word.now front.now after.now }
{
    if is_name(front) {
        after_name(front, after)
    } else {
        numbered(word)
    }
}

#[tactic(auto, unfolding(crate::specs::Operands::operand))]
fn operand_of(token: Token<'_>) -> Operand<'_>
    ensures { view result ≡ operand (seen token.entry) }
{
    match token {
        Token::Mark(m) => Operand::Sign(m),
        Token::Word(word) => {
            let (front, after) = split_plain(word);
            match register_named(front) {
                Some(register) => after_register(register, after),
                None => plain(word, front, after),
            }
        }
    }
}

/// The first operand, and the bytes after it. None where only blanks are left.
pub fn next_operand(bytes: &[u8]) -> Option<(Operand<'_>, &[u8])>
    ensures { MatchOption result (map operand (tokens bytes.now) ≡ []) (λ r. map operand (tokens bytes.now) ≡ view r.0 ∷ map operand (tokens r.1.now)) }
{
    match next_token(bytes) {
        None => None,
        Some((token, after)) => Some((operand_of(token), after)),
    }
}
