//! Writes the canonical text of an instruction, which rewritten listings and tables have.
ghost use Rattle.std.specs.Prelude.{◌≡◌, ◌++◌, ◌∷◌, [], OnOk, IfOk};
ghost use Rattle.std.specs.Fmt.{decimal};
ghost use Rattle.thumb_syntax.specs.FieldViews.{fields_view, label_of};
ghost use Rattle.thumb_syntax.specs.ParsedView.{shown};
ghost use Rattle.std.specs.Prelude.{option_map};
ghost use Rattle.thumb_syntax.specs.Spelling.{register_text, number_text, mark_text, has_bit, member_text, separator, members, list_text, sum_text, label_text, label_sum_text, slot_text, slots_text, operands_text, text_of};

use crate::canonical::slots;
use crate::fields::{Fields, Label, at};
use crate::form::Slot;
use crate::reading::Parsed;
use crate::table::mnemonic;
use itoa::Buffer;
use std::alloc::{AllocError, Global};
use thumb_instr::parts;

fn write_decimal(number: u64, out: &mut Vec<u8>) -> Result<(), AllocError>
    ensures { OnOk result (out.new.items ≡ out.old.items ++ decimal number) }
{
    out.extend_from_slice(Buffer::new().format(number).as_bytes())
}

fn write_register(register: u32, out: &mut Vec<u8>) -> Result<(), AllocError>
    ensures { OnOk result (out.new.items ≡ out.old.items ++ register_text register) }
{
    if register < 13 {
        out.extend_from_slice(b"r")?;
        write_decimal(u64::from(register), out)
    } else if register == 13 {
        out.extend_from_slice(b"sp")
    } else if register == 14 {
        out.extend_from_slice(b"lr")
    } else {
        out.extend_from_slice(b"pc")
    }
}

fn write_number(number: u64, out: &mut Vec<u8>) -> Result<(), AllocError>
    ensures { OnOk result (out.new.items ≡ out.old.items ++ number_text number) }
{
    out.extend_from_slice(b"#")?;
    write_decimal(number, out)
}

fn write_mark(mark: u8, out: &mut Vec<u8>) -> Result<(), AllocError>
    ensures { OnOk result (out.new.items ≡ out.old.items ++ mark_text mark) }
{
    if mark == b',' {
        out.extend_from_slice(b", ")
    } else {
        out.extend_from_slice(&[mark])
    }
}

fn has_bit(list: u32, bit: u32) -> bool
    ensures { result ≡ has_bit list bit }
{
    bit < 9 && (list >> bit) % 2 == 1
}

fn write_member(extra: u32, bit: u32, out: &mut Vec<u8>) -> Result<(), AllocError>
    ensures { OnOk result (out.new.items ≡ out.old.items ++ member_text extra bit) }
{
    write_register(if bit < 8 { bit } else { extra }, out)
}

fn write_separator(is_first: bool, out: &mut Vec<u8>) -> Result<(), AllocError>
    ensures { OnOk result (out.new.items ≡ out.old.items ++ separator is_first) }
{
    if is_first {
        Ok(())
    } else {
        out.extend_from_slice(b", ")
    }
}

/// Writes the registers of a list that are among these bits.
fn write_members(
    extra: u32,
    list: u32,
    is_first: bool,
    bits: &[u32],
    out: &mut Vec<u8>,
) -> Result<(), AllocError>
    ensures { OnOk result (out.new.items ≡ out.old.items ++ members extra list is_first bits.now) }
{
    match bits.split_first() {
        None => Ok(()),
        Some((bit, rest)) => {
            if has_bit(list, *bit) {
                write_separator(is_first, out)?;
                write_member(extra, *bit, out)?;
                write_members(extra, list, false, rest, out)
            } else {
                write_members(extra, list, is_first, rest, out)
            }
        }
    }
}

fn write_list(extra: u32, list: u32, bits: &[u32], out: &mut Vec<u8>) -> Result<(), AllocError>
    ensures { OnOk result (out.new.items ≡ out.old.items ++ list_text extra list bits.now) }
{
    out.extend_from_slice(b"{")?;
    write_members(extra, list, true, bits, out)?;
    out.extend_from_slice(b"}")
}

fn write_sum(name: &[u8], added: u32, out: &mut Vec<u8>) -> Result<(), AllocError>
    ensures { OnOk result (out.new.items ≡ out.old.items ++ sum_text name.now added) }
{
    out.extend_from_slice(name)?;
    if added == 0 {
        Ok(())
    } else {
        out.extend_from_slice(b"+")?;
        write_decimal(u64::from(added), out)
    }
}

fn write_label(label: &Option<Label<'_>>, out: &mut Vec<u8>) -> Result<(), AllocError>
    ensures { OnOk result (out.new.items ≡ out.old.items ++ label_text (option_map label_of label.now)) }
{
    match label {
        Some(label) => out.extend_from_slice(label.name),
        None => Ok(()),
    }
}

fn write_label_sum(label: &Option<Label<'_>>, out: &mut Vec<u8>) -> Result<(), AllocError>
    ensures { OnOk result (out.new.items ≡ out.old.items ++ label_sum_text (option_map label_of label.now)) }
{
    match label {
        Some(label) => write_sum(label.name, label.added, out),
        None => Ok(()),
    }
}

fn write_base(register: u32, out: &mut Vec<u8>) -> Result<(), AllocError>
    ensures { OnOk result (out.new.items ≡ out.old.items ++ (register_text register ++ 33 ∷ [])) }
{
    write_register(register, out)?;
    out.extend_from_slice(b"!")
}

fn write_slot(slot: &Slot, fields: &Fields<'_>, out: &mut Vec<u8>) -> Result<(), AllocError>
    ensures { OnOk result (out.new.items ≡ out.old.items ++ slot_text slot.now (fields_view fields.now)) }
{
    match *slot {
        Slot::Register(place) | Slot::Twice(place, _) | Slot::Same(place) => {
            write_register(at(fields, place), out)
        }
        Slot::Sp => out.extend_from_slice(b"sp"),
        Slot::Base(place) => write_base(at(fields, place), out),
        Slot::Number(place, _, _, step) => {
            write_number(u64::from(at(fields, place)) * u64::from(step), out)
        }
        Slot::Exactly(number) => write_number(u64::from(number), out),
        Slot::Mark(mark) => write_mark(mark, out),
        Slot::Sy => out.extend_from_slice(b"sy"),
        Slot::I => out.extend_from_slice(b"i"),
        Slot::Primask => out.extend_from_slice(b"primask"),
        Slot::Ipsr => out.extend_from_slice(b"ipsr"),
        Slot::Label => write_label(&fields.label, out),
        Slot::LabelSum => write_label_sum(&fields.label, out),
        Slot::LowList(place) => write_list(14, at(fields, place), &[0, 1, 2, 3, 4, 5, 6, 7], out),
        Slot::StackList(place, extra) => write_list(
            extra,
            at(fields, place),
            &[0, 1, 2, 3, 4, 5, 6, 7, 8],
            out,
        ),
        Slot::InList(_, _) | Slot::NotInList(_, _) => Ok(()),
    }
}

fn write_slots(slots: &[Slot], fields: &Fields<'_>, out: &mut Vec<u8>) -> Result<(), AllocError>
    ensures { OnOk result (out.new.items ≡ out.old.items ++ slots_text slots.now (fields_view fields.now)) }
{
    match slots.split_first() {
        None => Ok(()),
        Some((slot, rest)) => {
            write_slot(slot, fields, out)?;
            write_slots(rest, fields, out)
        }
    }
}

fn write_operands(slots: &[Slot], fields: &Fields<'_>, out: &mut Vec<u8>) -> Result<(), AllocError>
    ensures { OnOk result (out.new.items ≡ out.old.items ++ operands_text slots.now (fields_view fields.now)) }
{
    match slots.split_first() {
        None => Ok(()),
        Some(_) => {
            out.extend_from_slice(b" ")?;
            write_slots(slots, fields, out)
        }
    }
}

/// The one canonical text of an instruction: lower case, one blank after the mnemonic and after each comma, decimal numbers, lists in ascending order,
/// an offset and an added number of 0 left out. If `is_whole` holds, it is read as the same again (`writing_reads_back`). Fails only if out of memory.
pub fn write_instr(alloc: Global, parsed: &Parsed<'_>) -> Result<Vec<u8>, AllocError>
    ensures { IfOk result (λ text. text.items ≡ text_of (shown parsed.now)) }
{
    let parts = parts(&parsed.instr);
    let fields = Fields {
        first: parts.first,
        second: parts.second,
        third: parts.third,
        label: parsed.label,
    };
    let mut out = Vec::new(alloc);
    out.extend_from_slice(mnemonic(parts.kind))?;
    write_operands(
        slots(parts.kind, parts.first, parts.second, parts.third),
        &fields,
        &mut out,
    )?;
    Ok(out)
}
