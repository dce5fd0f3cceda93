//! Matches the operands of a text against the slots of a form, one after the other, and collects the registers, numbers and label that they hold.
ghost use Rattle.std.specs.Prelude.{◌≡◌, map, option_map};
ghost use Rattle.thumb_syntax.specs.Views.{view};
ghost use Rattle.thumb_syntax.specs.FieldViews.{fields_view};
ghost use Rattle.thumb_syntax.specs.LeftView.{left};
ghost use Rattle.thumb_syntax.specs.Agreeing.{agree, agrees, takes_one};
ghost use Rattle.thumb_syntax.specs.Operands as operands;
ghost use Rattle.thumb_syntax.specs.Slots.{empty, at, put, named, is_in_list, kept_if, number_filled, filled_by, listed, list_filled, next_filled, taken, filled};

use crate::form::{OperandPosition, Slot};
use crate::left::Left;
use crate::lists::listed;
use crate::operands::Operand;
use ascii_scan::is_spelled;

/// A label that an instruction names, and the number that is added to it.
#[derive(Clone, Copy)]
pub struct Label<'a> {
    pub name: &'a [u8],
    pub added: u32,
}

/// The registers and numbers of an instruction, and its label.
#[derive(Clone, Copy)]
pub struct Fields<'a> {
    pub first: u32,
    pub second: u32,
    pub third: u32,
    pub label: Option<Label<'a>>,
}

fn empty<'a>() -> Fields<'a>
    ensures { fields_view result ≡ empty }
{
    Fields {
        first: 0,
        second: 0,
        third: 0,
        label: None,
    }
}

pub fn at(fields: &Fields<'_>, place: OperandPosition) -> u32
    ensures { result ≡ at (fields_view fields.now) place }
{
    match place {
        OperandPosition::First => fields.first,
        OperandPosition::Second => fields.second,
        OperandPosition::Third => fields.third,
    }
}

fn put<'a>(fields: Fields<'a>, place: OperandPosition, number: u32) -> Fields<'a>
    ensures { fields_view result ≡ put (fields_view fields.entry) place number }
{
    match place {
        OperandPosition::First => Fields {
            first: number,
            second: fields.second,
            third: fields.third,
            label: fields.label,
        },
        OperandPosition::Second => Fields {
            first: fields.first,
            second: number,
            third: fields.third,
            label: fields.label,
        },
        OperandPosition::Third => Fields {
            first: fields.first,
            second: fields.second,
            third: number,
            label: fields.label,
        },
    }
}

fn named<'a>(fields: Fields<'a>, name: &'a [u8], added: u32) -> Fields<'a>
    ensures { fields_view result ≡ named (fields_view fields.entry) name.now added }
{
    Fields {
        first: fields.first,
        second: fields.second,
        third: fields.third,
        label: Some(Label { name, added }),
    }
}

/// Whether the register is low and in the list.
pub fn is_in_list(register: u32, list: u32) -> bool
    ensures { result ≡ is_in_list register list }
{
    register < 8 && (list >> register) % 2 == 1
}

fn kept_if<'a>(holds: bool, fields: Fields<'a>) -> Option<Fields<'a>>
    ensures { option_map fields_view result ≡ kept_if holds (fields_view fields.entry) }
{
    if holds { Some(fields) } else { None }
}

/// The fields with a number stored in units of `step`. None where it is out of the range or no multiple of `step`.
fn number_filled<'a>(
    fields: Fields<'a>,
    place: OperandPosition,
    least: u32,
    most: u32,
    step: u32,
    number: u32,
) -> Option<Fields<'a>>
    ensures { option_map fields_view result ≡ number_filled (fields_view fields.entry) place least most step number }
{
    if step == 0 || number < least || most < number || number % step != 0 {
        None
    } else {
        Some(put(fields, place, number / step))
    }
}

/// The fields after a register. None where the slot doesn't accept it.
fn filled_by_register<'a>(slot: &Slot, fields: Fields<'a>, register: u32) -> Option<Fields<'a>>
    ensures { option_map fields_view result ≡ filled_by slot.now (fields_view fields.entry) (operands.register register) }
{
    match *slot {
        Slot::Register(place) => Some(put(fields, place, register)),
        Slot::Twice(one, other) => Some(put(put(fields, one, register), other, register)),
        Slot::Same(place) => kept_if(at(&fields, place) == register, fields),
        Slot::Sp => kept_if(register == 13, fields),
        _ => None,
    }
}

/// The fields after a number. None where the slot doesn't accept it.
fn filled_by_number<'a>(slot: &Slot, fields: Fields<'a>, value: u32) -> Option<Fields<'a>>
    ensures { option_map fields_view result ≡ filled_by slot.now (fields_view fields.entry) (operands.number value) }
{
    match *slot {
        Slot::Number(place, least, most, step) => {
            number_filled(fields, place, least, most, step, value)
        }
        Slot::Exactly(wanted) => kept_if(value == wanted, fields),
        _ => None,
    }
}

/// The fields after a name. None where the slot doesn't accept it.
fn filled_by_name<'a>(slot: &Slot, fields: Fields<'a>, text: &'a [u8]) -> Option<Fields<'a>>
    ensures { option_map fields_view result ≡ filled_by slot.now (fields_view fields.entry) (operands.name text.now) }
{
    match *slot {
        Slot::Sy => kept_if(text == b"sy".as_slice(), fields),
        Slot::I => kept_if(text == b"i".as_slice(), fields),
        Slot::Primask => kept_if(is_spelled(text, b"primask"), fields),
        Slot::Ipsr => kept_if(is_spelled(text, b"ipsr"), fields),
        Slot::Label | Slot::LabelSum => Some(named(fields, text, 0)),
        _ => None,
    }
}

/// The fields after an operand. None where the slot doesn't accept the operand.
fn filled_by<'a>(slot: &Slot, fields: Fields<'a>, operand: Operand<'a>) -> Option<Fields<'a>>
    ensures { option_map fields_view result ≡ filled_by slot.now (fields_view fields.entry) (view operand.entry) }
{
    match operand {
        Operand::Register(register) => filled_by_register(slot, fields, register),
        Operand::Base(register) => match *slot {
            Slot::Base(place) => Some(put(fields, place, register)),
            _ => None,
        },
        Operand::Number(number) => filled_by_number(slot, fields, number),
        Operand::Sign(sign) => match *slot {
            Slot::Mark(mark) => kept_if(mark == sign, fields),
            _ => None,
        },
        Operand::Name(name) => filled_by_name(slot, fields, name),
        Operand::Sum(name, added) => match *slot {
            Slot::LabelSum => Some(named(fields, name, added)),
            _ => None,
        },
        Operand::Range(_, _) | Operand::Stray => None,
    }
}

/// The fields after a list of registers, and the operands after it.
fn list_taken<'a, 'r>(
    fields: Fields<'a>,
    place: OperandPosition,
    extra: Option<u32>,
    operands: Left<'a, 'r>,
) -> Option<(Fields<'a>, Left<'a, 'r>)>
    ensures { option_map (λ r. (fields_view r.0, left r.1)) result ≡ list_filled (fields_view fields.entry) place (listed extra (left operands.entry)) }
{
    match listed(extra, operands) {
        Some((list, after)) => Some((put(fields, place, list), after)),
        None => None,
    }
}

/// The fields after the next operand, and the operands after it.
fn next_taken<'a, 'r>(
    slot: &Slot,
    fields: Fields<'a>,
    operands: Left<'a, 'r>,
) -> Option<(Fields<'a>, Left<'a, 'r>)>
    ensures { option_map (λ r. (fields_view r.0, left r.1)) result ≡ next_filled slot.now (fields_view fields.entry) (left operands.entry) }
{
    match operands.next() {
        Some((operand, after)) => match filled_by(slot, fields, operand) {
            Some(more) => Some((more, after)),
            None => None,
        },
        None => None,
    }
}

/// The fields after the operands that the slot consumes, and the operands after those.
fn taken<'a, 'r>(
    slot: &Slot,
    fields: Fields<'a>,
    operands: Left<'a, 'r>,
) -> Option<(Fields<'a>, Left<'a, 'r>)>
    ensures { option_map (λ r. (fields_view r.0, left r.1)) result ≡ taken slot.now (fields_view fields.entry) (left operands.entry) }
{
    match *slot {
        Slot::LowList(place) => list_taken(fields, place, None, operands),
        Slot::StackList(place, extra) => list_taken(fields, place, Some(extra), operands),
        Slot::InList(register, list) => {
            if is_in_list(at(&fields, register), at(&fields, list)) {
                Some((fields, operands))
            } else {
                None
            }
        }
        Slot::NotInList(register, list) => {
            if is_in_list(at(&fields, register), at(&fields, list)) {
                None
            } else {
                Some((fields, operands))
            }
        }
        _ => next_taken(slot, fields, operands),
    }
}

/// The fields after operands that fill the slots exactly, with no operand left.
fn filled_from<'a>(slots: &[Slot], fields: Fields<'a>, operands: Left<'a, '_>) -> Option<Fields<'a>>
    ensures { option_map fields_view result ≡ filled slots.now (fields_view fields.entry) (left operands.entry) }
{
    match slots.split_first() {
        None => match operands.next() {
            None => Some(fields),
            Some(_) => None,
        },
        Some((slot, rest)) => match taken(slot, fields, operands) {
            Some((more, after)) => filled_from(rest, more, after),
            None => None,
        },
    }
}

/// Whether the slot may accept the operand, judged by the operand's sort alone: a quick test before `filled`.
fn agrees(slot: &Slot, operand: &Operand<'_>) -> bool
    ensures { result ≡ agrees slot.now (view operand.now) }
{
    match *slot {
        Slot::Register(_) | Slot::Twice(_, _) | Slot::Same(_) | Slot::Sp => {
            matches!(operand, Operand::Register(_))
        }
        Slot::Base(_) => matches!(operand, Operand::Base(_)),
        Slot::Number(_, _, _, _) | Slot::Exactly(_) => matches!(operand, Operand::Number(_)),
        Slot::Mark(mark) => match operand {
            Operand::Sign(sign) => mark == *sign,
            _ => false,
        },
        _ => true,
    }
}

/// Whether the slot consumes one operand, and neither a list nor nothing.
fn takes_one(slot: &Slot) -> bool
    ensures { result ≡ takes_one slot.now }
{
    !matches!(
        slot,
        Slot::LowList(_) | Slot::StackList(_, _) | Slot::InList(_, _) | Slot::NotInList(_, _)
    )
}

/// Whether the slots may accept the first operands, judged by their sort alone.
fn agree(slots: &[Slot], operands: &[Operand<'_>]) -> bool
    ensures { result ≡ agree slots.now (map view operands.now) }
{
    match slots.split_first() {
        None => operands.is_empty(),
        Some((slot, slots)) => match operands.split_first() {
            None => true,
            Some((operand, operands)) => {
                !takes_one(slot) || (agrees(slot, operand) && agree(slots, operands))
            }
        },
    }
}

/// The fields of operands that fill the slots exactly, with no operand left.
#[tactic(auto, using(crate::proofs::Agreeing::none_filled))]
pub fn filled<'a>(slots: &[Slot], operands: Left<'a, '_>) -> Option<Fields<'a>>
    ensures { option_map fields_view result ≡ filled slots.now empty (left operands.entry) }
{
    if agree(slots, operands.ahead) {
        filled_from(slots, empty(), operands)
    } else {
        None
    }
}
