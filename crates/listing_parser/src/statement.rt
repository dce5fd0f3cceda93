//! The statement of a line, once its labels and comment are off: an instruction, or a directive with what its own grammar asks for.
ghost use Rattle.std.specs.Prelude.{◌≡◌, true, option_map, IfOk};
ghost use Rattle.ascii_scan.specs.Tokens.{front, rest, tokens, is_blank};
ghost use Rattle.ascii_scan.specs.Names.{is_name_byte};
ghost use Rattle.thumb_syntax.specs.FieldViews.{label_of};
ghost use Rattle.thumb_model.specs.Listing.{Words};
ghost use Rattle.listing_parser.specs.Views.{statement_view};
ghost use Rattle.listing_parser.specs.Grammar.{said_of};
ghost use Rattle.listing_parser.specs.Values.{after_comma, alone, behind_comma, first_word, gapped, pair, values};
ghost use Rattle.listing_parser.specs.Directives.{alignment, Unmarked, directive_named, marks, says, says_if, directed, directed_by, instruction, is_alone, is_bare, is_code_section, is_word_byte, said, setting, size_of, statement, typing, whole_size};
ghost use Rattle.listing_parser.specs.ToldView.{mark_view, told_view};

use crate::directive::{Directive, directive_named};
use crate::line::{FunctionMark, Mention, Statement};
use crate::splitting::{split_name, split_word, without_blanks};
use crate::values::values;
use ascii_scan::{Token, next_token, number};
use std::alloc::{AllocError, Global};
use thumb_syntax::{Label, is_name, read_instr};

/// What a statement says: what lies in memory, and which name is a function.
#[derive(Drop)]
pub struct Told {
    pub statement: Statement,
    pub mark: FunctionMark,
}

fn says(statement: Statement) -> Told
    ensures { told_view result ≡ record { said = said_of (statement_view statement); mark = Unmarked } }
{
    Told {
        statement,
        mark: FunctionMark::Nothing,
    }
}

fn marks(mark: FunctionMark) -> Told
    ensures { told_view result ≡ marks (mark_view mark) }
{
    Told {
        statement: Statement::Nothing,
        mark,
    }
}

fn mention(alloc: Global, label: Label<'_>) -> Result<Mention, AllocError>
    ensures { IfOk result (λ m. label_of label.entry ≡ (m.name.items, m.plus)) }
{
    let name = label.name.to_vec(alloc)?;
    Ok(Mention {
        name,
        plus: label.added,
    })
}

/// The name that an instruction mentions.
fn mention_of(alloc: Global, label: Option<Label<'_>>) -> Result<Option<Mention>, AllocError>
    ensures { IfOk result (λ o. option_map label_of label.entry ≡ option_map (λ m. (m.name.items, m.plus)) o) }
{
    match label {
        None => Ok(None),
        Some(label) => {
            let mention = mention(alloc, label)?;
            Ok(Some(mention))
        }
    }
}

#[tactic(auto, unfolding(crate::specs::Directives::instruction))]
fn instruction(alloc: Global, bytes: &[u8]) -> Result<Option<Told>, AllocError>
    ensures { IfOk result (λ o. option_map told_view o ≡ instruction bytes.now) }
{
    match read_instr(bytes) {
        None => Ok(None),
        Some(parsed) => {
            let mention = mention_of(alloc, parsed.label)?;
            let instr = parsed.instr;
            Ok(Some(says(Statement::Instruction { instr, mention })))
        }
    }
}

/// The size in bytes that an alignment's number stands for: a power of two up to 256.
fn size_of(is_align: bool, exponent: u32) -> Option<u32>
    ensures { result ≡ size_of is_align exponent }
{
    if exponent > 8 {
        None
    } else if is_align && exponent == 0 {
        Some(4)
    } else {
        Some(1 << exponent)
    }
}

fn whole_size(is_align: bool, word: &[u8]) -> Option<u32>
    ensures { result ≡ whole_size is_align word.now }
{
    match number(word) {
        None => None,
        Some(exponent) => size_of(is_align, exponent),
    }
}

fn is_bare(bytes: &[u8]) -> bool
    ensures { result ≡ is_bare (tokens bytes.now) }
{
    next_token(bytes).is_none()
}

/// The first word, and the bytes after it.
fn first_word(bytes: &[u8]) -> Option<(&[u8], &[u8])>
    ensures { option_map (λ r. (r.0.now, tokens r.1.now)) result ≡ first_word (tokens bytes.now) }
{
    match next_token(bytes) {
        None => None,
        Some((token, after)) => match token {
            Token::Word(word) => Some((word, after)),
            Token::Mark(_) => None,
        },
    }
}

/// The bytes after a comma.
fn after_comma(bytes: &[u8]) -> Option<&[u8]>
    ensures { option_map (λ r. tokens r.now) result ≡ after_comma (tokens bytes.now) }
{
    match next_token(bytes) {
        None => None,
        Some((token, after)) => match token {
            Token::Word(_) => None,
            Token::Mark(mark) => { if mark == b',' { Some(after) } else { None } }
        },
    }
}

/// One word and nothing else.
fn alone(bytes: &[u8]) -> Option<&[u8]>
    ensures { option_map (λ w. w.now) result ≡ alone (tokens bytes.now) }
{
    match next_token(bytes) {
        None => None,
        Some((token, after)) => match token {
            Token::Mark(_) => None,
            Token::Word(word) => match next_token(after) {
                None => Some(word),
                Some(_) => None,
            },
        },
    }
}

/// A comma and a word.
fn behind_comma(bytes: &[u8]) -> Option<&[u8]>
    ensures { option_map (λ w. w.now) result ≡ behind_comma (tokens bytes.now) }
{
    match after_comma(bytes) {
        None => None,
        Some(after) => alone(after),
    }
}

/// A word, a comma and a word.
fn pair(bytes: &[u8]) -> Option<(&[u8], &[u8])>
    ensures { option_map (λ r. (r.0.now, r.1.now)) result ≡ pair (tokens bytes.now) }
{
    match first_word(bytes) {
        None => None,
        Some((first, after)) => match behind_comma(after) {
            None => None,
            Some(second) => Some((first, second)),
        },
    }
}

/// A word, two commas and a word.
fn gapped(bytes: &[u8]) -> Option<(&[u8], &[u8])>
    ensures { option_map (λ r. (r.0.now, r.1.now)) result ≡ gapped (tokens bytes.now) }
{
    match first_word(bytes) {
        None => None,
        Some((first, after)) => match after_comma(after) {
            None => None,
            Some(behind) => match behind_comma(behind) {
                None => None,
                Some(second) => Some((first, second)),
            },
        },
    }
}

/// The operands of an alignment: `n`, or `n,,k` where it pads at most k bytes.
fn alignment(is_align: bool, bytes: &[u8]) -> Option<Told>
    ensures { option_map told_view result ≡ alignment is_align (tokens bytes.now) }
{
    match alone(bytes) {
        Some(exponent) => match whole_size(is_align, exponent) {
            None => None,
            Some(size) => Some(says(Statement::Aligns { size, most: size })),
        },
        None => match gapped(bytes) {
            None => None,
            Some((exponent, most)) => match whole_size(is_align, exponent) {
                None => None,
                Some(size) => match number(most) {
                    None => None,
                    Some(most) => Some(says(Statement::Aligns { size, most })),
                },
            },
        },
    }
}

/// The operands of `.set` and `.equ`: a name and its address.
fn setting(alloc: Global, bytes: &[u8]) -> Result<Option<Told>, AllocError>
    ensures { IfOk result (λ o. option_map told_view o ≡ setting (tokens bytes.now)) }
{
    match pair(bytes) {
        None => Ok(None),
        Some((name, address)) => match number(address) {
            None => Ok(None),
            Some(address) => {
                if is_name(name) {
                    let name = name.to_vec(alloc)?;
                    Ok(Some(says(Statement::Sets { name, address })))
                } else {
                    Ok(None)
                }
            }
        },
    }
}

/// The operands of `.type`: `name, %function` marks the name as a function, and anything else says nothing.
fn typing(alloc: Global, bytes: &[u8]) -> Result<Told, AllocError>
    ensures { IfOk result (λ t. told_view t ≡ typing (tokens bytes.now)) }
{
    match pair(bytes) {
        None => Ok(says(Statement::Nothing)),
        Some((name, kind)) => {
            if kind == b"%function".as_slice() && is_name(name) {
                let name = name.to_vec(alloc)?;
                Ok(marks(FunctionMark::Named(name)))
            } else {
                Ok(says(Statement::Nothing))
            }
        }
    }
}

/// `.text`, or a name that begins with `.text.`.
fn is_code_section(name: &[u8]) -> bool
    ensures { result ≡ is_code_section name.now }
{
    name == b".text".as_slice() || name.starts_with(b".text.")
}

fn is_alone(bytes: &[u8], word: &[u8]) -> bool
    ensures { result ≡ is_alone word.now (tokens bytes.now) }
{
    match alone(bytes) {
        None => false,
        Some(found) => found == word,
    }
}

fn says_if(holds: bool, told: Told) -> Option<Told>
    ensures { option_map told_view result ≡ says_if holds (told_view told) }
{
    if holds { Some(told) } else { None }
}

/// The name of a section: the name bytes after the blanks.
fn section_name(bytes: &[u8]) -> &[u8]
    ensures { result.now ≡ front is_name_byte (rest is_blank bytes.now) }
{
    let (name, _) = split_name(without_blanks(bytes));
    name
}

fn words(alloc: Global, bytes: &[u8]) -> Result<Option<Told>, AllocError>
    ensures { IfOk result (λ o. option_map told_view o ≡ option_map (λ vs. says (Words vs)) (values (tokens bytes.now))) }
{
    match values(alloc, bytes)? {
        None => Ok(None),
        Some(values) => Ok(Some(says(Statement::Words(values)))),
    }
}

/// What a directive says, by the bytes after its name. None where these are outside its grammar.
fn directed(alloc: Global, directive: Directive, bytes: &[u8]) -> Result<Option<Told>, AllocError>
    ensures { IfOk result (λ o. option_map told_view o ≡ directed directive bytes.now) }
{
    match directive {
        Directive::Word => words(alloc, bytes),
        Directive::Align => Ok(alignment(true, bytes)),
        Directive::PowerAlign => Ok(alignment(false, bytes)),
        Directive::Set => setting(alloc, bytes),
        Directive::ThumbFunc => Ok(says_if(is_bare(bytes), marks(FunctionMark::Next))),
        Directive::Type => {
            let told = typing(alloc, bytes)?;
            Ok(Some(told))
        }
        Directive::Syntax => Ok(says_if(is_alone(bytes, b"unified"), says(Statement::Nothing))),
        Directive::Code => Ok(says_if(is_alone(bytes, b"16"), says(Statement::Nothing))),
        Directive::Bare => Ok(says_if(is_bare(bytes), says(Statement::Nothing))),
        Directive::Section => {
            let is_code = is_code_section(section_name(bytes));
            Ok(says_if(is_code, says(Statement::Nothing)))
        }
        Directive::Kept => Ok(Some(says(Statement::Nothing))),
    }
}

/// A statement that begins with a full stop.
fn directive(alloc: Global, bytes: &[u8]) -> Result<Option<Told>, AllocError>
    ensures { IfOk result (λ o. option_map told_view o ≡ directed_by (directive_named (front is_word_byte bytes.now)) (rest is_word_byte bytes.now)) }
{
    let (word, after) = split_word(bytes);
    match directive_named(word) {
        None => Ok(None),
        Some(directive) => directed(alloc, directive, after),
    }
}

/// What a statement says. None where it is outside the grammar.
#[tactic(auto, unfolding(crate::specs::Directives::statement))]
pub fn statement(alloc: Global, bytes: &[u8]) -> Result<Option<Told>, AllocError>
    ensures { IfOk result (λ o. option_map told_view o ≡ statement bytes.now) }
{
    let bytes = without_blanks(bytes);
    match bytes.split_first() {
        None => Ok(Some(says(Statement::Nothing))),
        Some((first, _)) => {
            if *first == b'.' {
                directive(alloc, bytes)
            } else {
                instruction(alloc, bytes)
            }
        }
    }
}
