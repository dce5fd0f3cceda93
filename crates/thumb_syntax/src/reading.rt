//! Reads an instruction's text: of its mnemonic's forms, the first that its operands fill decides.
ghost use Rattle.std.specs.Prelude.{◌≡◌, ◌<◌, map, option_map};
ghost use Rattle.ascii_scan.specs.Tokens.{tokens};
ghost use Rattle.thumb_syntax.specs.Operands.{operand, first_some};
ghost use Rattle.thumb_syntax.specs.FieldViews.{fields_view};
ghost use Rattle.thumb_syntax.specs.LeftView.{left};
ghost use Rattle.thumb_syntax.specs.ParsedView.{shown};
ghost use Rattle.thumb_syntax.specs.Rows.{shown_by, read_all, reading};
ghost use Rattle.thumb_syntax.specs.Mnemonics.{row_of, group_of, place_of, rows_in, rows_of, read_by};

use crate::fields::{Fields, Label, filled};
use crate::form::{Form, Mnemonic};
use crate::left::{Left, read_ahead};
use crate::table::mnemonics;
use ascii_scan::{Token, is_spelled, next_token};
use thumb_instr::{Instr, Kind, made};

/// An instruction that was read, and the label that it names. Where it names a label, the instruction's distance is 0.
#[derive(Clone, Copy)]
pub struct Parsed<'a> {
    pub instr: Instr,
    pub label: Option<Label<'a>>,
}

fn with_fields<'a>(kind: Kind, fields: Fields<'a>) -> Option<Parsed<'a>>
    ensures { option_map shown result ≡ shown_by kind (fields_view fields.entry) }
{
    match made(kind, fields.first, fields.second, fields.third) {
        Some(instr) => Some(Parsed {
            instr,
            label: fields.label,
        }),
        None => None,
    }
}

/// The forms of the first mnemonic that equals the word.
fn forms_in(mnemonics: &'static [Mnemonic], word: &[u8]) -> &'static [Form]
    ensures { map row_of result.now ≡ rows_in (map group_of mnemonics.now) word.now }
{
    for mnemonic in mnemonics {
        if is_spelled(word, mnemonic.name) {
            return mnemonic.forms;
        }
    }
    &[]
}

/// The index of a word in the table of mnemonics: by its first letter, in either case.
fn place_of(word: &[u8]) -> usize
    ensures place { result ≡ place_of word.now }
    ensures within { result < 32 }
{
    match word.split_first() {
        None => 0,
        Some((first, _)) => (*first % 32) as usize,
    }
}

/// The forms whose mnemonic equals the word.
fn forms_of(word: &[u8]) -> &'static [Form]
    ensures { map row_of result.now ≡ rows_of word.now }
{
    forms_in(mnemonics(place_of(word)), word)
}

/// The instruction that operands are by one form.
fn read_by<'a>(form: &Form, operands: Left<'a, '_>) -> Option<Parsed<'a>>
    ensures { option_map shown result ≡ read_by (left operands.entry) (row_of form.now) }
{
    match filled(form.slots, operands) {
        Some(fields) => with_fields(form.kind, fields),
        None => None,
    }
}

/// The instruction that operands are by the first form that they fill.
fn read_in<'a>(forms: &[Form], operands: Left<'a, '_>) -> Option<Parsed<'a>>
    ensures { option_map shown result ≡ first_some (read_by (left operands.entry)) (map row_of forms.now) }
{
    for form in forms {
        if let Some(found) = read_by(form, operands) {
            return Some(found);
        }
    }
    None
}

/// The instruction that a mnemonic and operands are by some form.
fn read_all<'a>(word: &[u8], bytes: &'a [u8]) -> Option<Parsed<'a>>
    ensures { option_map shown result ≡ read_all word.now (map operand (tokens bytes.now)) }
{
    let forms = forms_of(word);
    let (ahead, bytes) = read_ahead(bytes);
    let operands = Left {
        ahead: &ahead,
        bytes,
    };
    read_in(forms, operands)
}

/// The instruction that a text is, in canonical or another spelling; the text has no labels before it and no comment. None where no form accepts it.
/// An instruction that names a label has distance 0.
pub fn read_instr(text: &[u8]) -> Option<Parsed<'_>>
    ensures { option_map shown result ≡ reading text.now }
{
    match next_token(text) {
        None => None,
        Some((token, after)) => match token {
            Token::Word(word) => read_all(word, after),
            Token::Mark(_) => None,
        },
    }
}
