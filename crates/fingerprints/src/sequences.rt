//! The prints of all sequences over an alphabet, along the tree of their prefixes: the columns
//! after a prefix are kept while the sequences that extend it are printed, so that a
//! sequence takes one step of each column.

ghost use Rattle.std.specs.Prelude.{◌≡◌, true, ◌≤◌, ◌+◌, ◌++◌, ◌∷◌, [], map, IfOk, OnOk};
ghost use Rattle.thumb_instr.specs.Window.{is_in_window, named, AreBelow};
ghost use Rattle.thumb_model.specs.Effect.{after, AreOver};
ghost use Rattle.fingerprints.specs.Print.{print_from};
ghost use Rattle.fingerprints.specs.Columns.{states_in};
ghost use Rattle.fingerprints.specs.Sequences.{prints_of, prints_within};

use crate::columns::Column;
use crate::print::{Prints, print_in, with_column, with_lanes};
use crate::stepping::step8;
use std::alloc::{AllocError, Global};
use thumb_instr::{Instr, Mask};

/// The prints of all sequences of at most `longest` instructions, by number.
pub(crate) fn prints_within(
    alloc: Global,
    alphabet: &[Instr],
    columns: &[Column],
    mask: Mask,
    longest: u8,
) -> Result<Vec<u64>, AllocError>
    requires over { AreOver 4 alphabet.now }
    requires few { longest ≤ 5 }
    ensures { IfOk result (λ v. v.items ≡ prints_within mask.items.bits (states_in columns.now) alphabet.now longest) }
{
    let mut prints = Vec::new(alloc);
    for length in 0..longest + 1 {
        print_length(alloc, alphabet, columns, mask, length, &mut prints)?;
    }
    Ok(prints)
}

/// Appends the prints of all sequences of this length.
fn print_length(
    alloc: Global,
    alphabet: &[Instr],
    columns: &[Column],
    mask: Mask,
    length: u8,
    prints: &mut Vec<u64>,
) -> Result<(), AllocError>
    requires { AreOver 4 alphabet.now }
    ensures { OnOk result (prints.new.items ≡ prints.old.items ++ prints_of mask.items.bits (states_in columns.now) alphabet.now length) }
{
    if length == 0 {
        prints.push(print_in(columns, mask))?;
        return Ok(());
    }
    if length == 1 {
        return print_instrs(alphabet, columns, mask, prints);
    }
    for instr in alphabet {
        let after = stepped(alloc, instr, columns)?;
        print_length(alloc, alphabet, &after, mask, length - 1, prints)?;
    }
    Ok(())
}

/// Appends the print of each instruction alone, four at a time, since their mixing is independent.
fn print_instrs(
    alphabet: &[Instr],
    columns: &[Column],
    mask: Mask,
    prints: &mut Vec<u64>,
) -> Result<(), AllocError>
    requires { AreOver 4 alphabet.now }
    ensures { OnOk result (prints.new.items ≡ prints.old.items ++ prints_of mask.items.bits (states_in columns.now) alphabet.now 1) }
{
    let mut rest = alphabet;
    while let [a, b, c, d, more @ ..] = rest {
        let four = print_four(a, b, c, d, columns, mask);
        prints.push(four.a)?;
        prints.push(four.b)?;
        prints.push(four.c)?;
        prints.push(four.d)?;
        rest = more;
    }
    for instr in rest {
        prints.push(print_next(instr, columns, mask))?;
    }
    Ok(())
}

/// The states of columns after an instruction.
fn stepped(alloc: Global, instr: &Instr, columns: &[Column]) -> Result<Vec<Column>, AllocError>
    requires window { is_in_window instr.now ≡ true }
    requires registers { AreBelow 4 (named instr.now) }
    ensures { IfOk result (λ v. states_in v.items ≡ map (after instr.now) (states_in columns.now)) }
{
    let mut later = Vec::with_capacity(alloc, columns.len())?;
    for column in columns {
        later.push(column.after(instr))?;
    }
    Ok(later)
}

/// The print of the states after an instruction.
fn print_next(instr: &Instr, columns: &[Column], mask: Mask) -> u64
    requires window { is_in_window instr.now ≡ true }
    requires registers { AreBelow 4 (named instr.now) }
    ensures { result ≡ print_from mask.items.bits 0 (map (after instr.now) (states_in columns.now)) }
{
    let mut h = 0;
    for column in columns {
        h = with_column(h, &column.after(instr), mask);
    }
    h
}

/// The prints of the states after each of four instructions.
fn print_four(a: &Instr, b: &Instr, c: &Instr, d: &Instr, columns: &[Column], mask: Mask) -> Prints
    requires { AreOver 4 (a.now ∷ b.now ∷ c.now ∷ d.now ∷ []) }
    ensures a { result.a ≡ print_from mask.items.bits 0 (map (after a.now) (states_in columns.now)) }
    ensures b { result.b ≡ print_from mask.items.bits 0 (map (after b.now) (states_in columns.now)) }
    ensures c { result.c ≡ print_from mask.items.bits 0 (map (after c.now) (states_in columns.now)) }
    ensures d { result.d ≡ print_from mask.items.bits 0 (map (after d.now) (states_in columns.now)) }
{
    let mut prints = Prints {
        a: 0,
        b: 0,
        c: 0,
        d: 0,
    };
    for column in columns {
        let first = step8(a, &column.lanes);
        let second = step8(b, &column.lanes);
        let third = step8(c, &column.lanes);
        let fourth = step8(d, &column.lanes);
        prints = with_lanes(prints, &first, &second, &third, &fourth, column.count, mask);
    }
    prints
}
