//! Which of the forms that are read an instruction's canonical text has: the writer goes by it.
ghost use Rattle.std.specs.Prelude.{◌≡◌};
ghost use Rattle.thumb_syntax.specs.FieldViews.{forms_at};
ghost use Rattle.thumb_syntax.specs.Spelling.{is_second, first_of, second_of, slots};

use crate::fields::is_in_list;
use crate::form::Slot;
use crate::table::forms;
use thumb_instr::Kind;

/// Whether an instruction with these registers and numbers is written in its kind's second form, and not in the first.
fn is_second(kind: Kind, a: u32, b: u32, c: u32) -> bool
    ensures { result ≡ is_second kind a b c }
{
    match kind {
        Kind::Offset(_) => c == 0,
        Kind::Stack(_) => b == 0,
        Kind::LoadMany => is_in_list(a, b),
        _ => false,
    }
}

/// The first of a kind's forms, where it has one.
fn first_of(forms: &'static [&'static [Slot]]) -> &'static [Slot]
    ensures { result.now ≡ first_of (forms_at forms.now) }
{
    match forms.split_first() {
        None => &[],
        Some((form, _)) => form,
    }
}

/// The second of a kind's forms, where it has one.
fn second_of(forms: &'static [&'static [Slot]]) -> &'static [Slot]
    ensures { result.now ≡ second_of (forms_at forms.now) }
{
    match forms.split_first() {
        None => &[],
        Some((_, rest)) => first_of(rest),
    }
}

/// What follows the mnemonic of a kind with these registers and numbers.
pub fn slots(kind: Kind, a: u32, b: u32, c: u32) -> &'static [Slot]
    ensures { result.now ≡ slots kind a b c }
{
    if is_second(kind, a, b, c) {
        second_of(forms(kind))
    } else {
        first_of(forms(kind))
    }
}
