//! The words of data of a `.word` line: numerals, negated ones, and names with a number added, whose address only a layout knows.
ghost use Rattle.std.specs.Prelude.{◌≡◌, ◌==◌, map, option_map, IfOk, Some};
ghost use Rattle.ascii_scan.specs.Tokens.{rest, tokens};
ghost use Rattle.thumb_syntax.specs.Operands.{is_name};
ghost use Rattle.listing_parser.specs.Values.{added, named_value, negated, sum, value, values};
ghost use Rattle.listing_parser.specs.Results.{first_value};
ghost use Rattle.listing_parser.specs.Views.{value_view};

use crate::line::{Mention, Value};
use crate::splitting::split_name;
use ascii_scan::{Token, next_token, number};
use std::alloc::{AllocError, Global};
use thumb_syntax::is_name;

/// 0 minus the number, modulo 2^32.
fn negated(number: u32) -> u32
    ensures { result ≡ negated number }
{
    number.wrapping_neg()
}

/// What a name with a number added stands for.
fn sum(alloc: Global, name: &[u8], plus: u32) -> Result<Value, AllocError>
    ensures { IfOk result (λ v. value_view v ≡ sum name.now plus) }
{
    let name = name.to_vec(alloc)?;
    Ok(Value::OfName(Mention { name, plus }))
}

/// A name, with what is added after it.
fn added(alloc: Global, name: &[u8], after: &[u8]) -> Result<Option<Value>, AllocError>
    ensures { IfOk result (λ o. option_map value_view o ≡ added name.now after.now) }
{
    match after.split_first() {
        None => {
            let value = sum(alloc, name, 0)?;
            Ok(Some(value))
        }
        Some((sign, digits)) => {
            if *sign == b'+' {
                match number(digits) {
                    None => Ok(None),
                    Some(plus) => {
                        let value = sum(alloc, name, plus)?;
                        Ok(Some(value))
                    }
                }
            } else if *sign == b'-' {
                match number(digits) {
                    None => Ok(None),
                    Some(less) => {
                        let value = sum(alloc, name, negated(less))?;
                        Ok(Some(value))
                    }
                }
            } else {
                Ok(None)
            }
        }
    }
}

fn named_value(alloc: Global, name: &[u8], after: &[u8]) -> Result<Option<Value>, AllocError>
    ensures { IfOk result (λ o. option_map value_view o ≡ named_value name.now after.now) }
{
    if is_name(name) {
        added(alloc, name, after)
    } else {
        Ok(None)
    }
}

/// The value of a word: a numeral, `-` and a numeral, or a name with what is added.
#[tactic(auto, unfolding(crate::specs::Values::value))]
fn value(alloc: Global, word: &[u8]) -> Result<Option<Value>, AllocError>
    ensures { IfOk result (λ o. option_map value_view o ≡ value word.now) }
{
    match word.split_first() {
        None => Ok(None),
        Some((first, after)) => {
            if *first == b'-' {
                match number(after) {
                    None => Ok(None),
                    Some(n) => Ok(Some(Value::Number(negated(n)))),
                }
            } else if first.is_ascii_digit() {
                match number(word) {
                    None => Ok(None),
                    Some(n) => Ok(Some(Value::Number(n))),
                }
            } else {
                let (name, after) = split_name(word);
                named_value(alloc, name, after)
            }
        }
    }
}

/// The value that the first token is, and the bytes after it.
fn next_value(alloc: Global, bytes: &[u8]) -> Result<Option<(Value, &[u8])>, AllocError>
    ensures { IfOk result (λ o. option_map (λ r. (value_view r.0, tokens r.1.now)) o ≡ first_value (tokens bytes.now)) }
{
    match next_token(bytes) {
        Some((Token::Word(word), after)) => match value(alloc, word)? {
            None => Ok(None),
            Some(value) => Ok(Some((value, after))),
        },
        _ => Ok(None),
    }
}

/// The values, separated by commas: at least one. None where there is anything else.
pub fn values(alloc: Global, bytes: &[u8]) -> Result<Option<Vec<Value>>, AllocError>
    ensures { IfOk result (λ o. option_map (λ vs. map value_view vs.items) o ≡ values (tokens bytes.now)) }
{
    let mut values = Vec::new(alloc);
    let mut rest = bytes;
    loop {
        match next_value(alloc, rest)? {
            None => return Ok(None),
            Some((value, after)) => {
                values.push(value)?;
                match next_token(after) {
                    None => return Ok(Some(values)),
                    Some((Token::Word(_), _)) => return Ok(None),
                    Some((Token::Mark(mark), behind)) => {
                        if mark != b',' {
                            return Ok(None);
                        }
                        rest = behind;
                    }
                }
            }
        }
    }
}
