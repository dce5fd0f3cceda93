//! Writes the text of a table, line by line. Reading accepts this form alone, so that a table has exactly one text.
ghost use Rattle.std.specs.Prelude.{◌≡◌, ◌++◌, ◌∷◌, [], OnOk, IfOk, map};
ghost use Rattle.std.specs.List.{flat_map};
ghost use Rattle.lrat_check.specs.Text.{content_of};
ghost use Rattle.window_exec.specs.State.{seen};
ghost use Rattle.rule_table.specs.Text.{cost_numbers, text_of_items, text_of, line_items, header_items, rule_items, open_items, family_items};
ghost use Rattle.rule_table.specs.Text as item;
ghost use Rattle.rule_table.specs.Views.{header_in, table_of, rule_of, opened_of, family_of};
ghost use Rattle.rule_table.specs.Header.{number_in};

use crate::header::{Field, HeaderLine, NumberLine, has_line, heads};
use crate::lines::{
    write_family_line, write_instruction, write_list, write_logged, write_mask, write_number,
    write_state,
};
use crate::table::{Entry, Family, Open, Table};
use lrat_check::Line;
use seq_enum::Costs;
use std::alloc::{AllocError, Global};
use thumb_instr::Instr;
use window_exec::WState;

/// The text of a table.
pub fn write_table(alloc: Global, table: &Table) -> Result<Vec<u8>, AllocError>
    ensures { IfOk result (λ text. text.items ≡ text_of (table_of table.entry.now)) }
{
    let mut out = Vec::new(alloc);
    write_header(&mut out, table)?;
    write_states(&mut out, table.states.as_slice())?;
    write_entries(alloc, &mut out, &table.entries)?;
    write_families(alloc, &mut out, &table.families)?;
    out.extend_from_slice(b"end\n")?;
    Ok(out)
}

/// The number that a table has for a field of its header.
fn number_in(table: &Table, field: Field) -> u32
    ensures { result ≡ number_in (header_in table.now) field }
{
    match field {
        Field::Version => u32::from(table.version),
        Field::Regs => u32::from(table.regs),
        Field::Left => u32::from(table.left),
        Field::Seed => table.seed,
        Field::Budget => table.budget,
        Field::Scratch => u32::from(table.scratch),
    }
}

/// The numbers of the costs; empty if there are no costs.
fn cost_numbers(costs: &Option<Costs>) -> &[u8]
    ensures { result.now ≡ cost_numbers costs.now }
{
    match costs {
        None => &[],
        Some(costs) => costs.numbers(),
    }
}

/// Writes a line of a table's header, if the table's version has it.
fn write_head(out: &mut Vec<u8>, table: &Table, line: HeaderLine) -> Result<(), AllocError>
    ensures { OnOk result (out.new.items ≡ out.old.items ++ text_of_items (line_items (header_in table.now) line)) }
{
    if !has_line(table.version, line) {
        return Ok(());
    }
    match line {
        HeaderLine::Number(field) => write_number(
            out,
            NumberLine::of(field).word,
            u64::from(number_in(table, field)),
        ),
        HeaderLine::Pool => write_list(out, b"pool", table.pool.numbers()),
        HeaderLine::Costs => write_list(out, b"costs", cost_numbers(&table.costs)),
    }
}

fn write_header(out: &mut Vec<u8>, table: &Table) -> Result<(), AllocError>
    ensures { OnOk result (out.new.items ≡ out.old.items ++ text_of_items (header_items (header_in table.entry.now))) }
{
    for line in heads() {
        write_head(out, table, *line)?;
    }
    Ok(())
}

fn write_states(out: &mut Vec<u8>, states: &[WState]) -> Result<(), AllocError>
    ensures { OnOk result (out.new.items ≡ out.old.items ++ text_of_items (map item.State (map seen states.entry.now))) }
{
    for state in states {
        write_state(out, *state)?;
    }
    Ok(())
}

fn write_entries(alloc: Global, out: &mut Vec<u8>, entries: &[Entry]) -> Result<(), AllocError>
    ensures { OnOk result (out.new.items ≡ out.old.items ++ text_of_items (flat_map rule_items (map rule_of entries.entry.now))) }
{
    for entry in entries {
        write_entry(alloc, out, entry)?;
    }
    Ok(())
}

fn write_entry(alloc: Global, out: &mut Vec<u8>, entry: &Entry) -> Result<(), AllocError>
    ensures { OnOk result (out.new.items ≡ out.old.items ++ text_of_items (rule_items (rule_of entry.entry.now))) }
{
    out.extend_from_slice(b"entry\n")?;
    write_sides(alloc, out, entry)?;
    write_proof(alloc, out, &entry.proof)?;
    write_opens(alloc, out, &entry.opens)
}

fn write_sides(alloc: Global, out: &mut Vec<u8>, entry: &Entry) -> Result<(), AllocError>
    ensures { OnOk result (out.new.items ≡ out.old.items ++ text_of_items (map item.Left (rule_of entry.entry.now).left ++ (map item.Right (rule_of entry.entry.now).right ++ item.Mask (rule_of entry.entry.now).mask ∷ []))) }
{
    write_left(alloc, out, entry.left.as_slice())?;
    write_right(alloc, out, entry.right.as_slice())?;
    write_mask(out, entry.mask)
}

fn write_families(alloc: Global, out: &mut Vec<u8>, families: &[Family]) -> Result<(), AllocError>
    ensures { OnOk result (out.new.items ≡ out.old.items ++ text_of_items (flat_map family_items (map family_of families.entry.now))) }
{
    for family in families {
        write_family(alloc, out, family)?;
    }
    Ok(())
}

fn write_family(alloc: Global, out: &mut Vec<u8>, family: &Family) -> Result<(), AllocError>
    ensures { OnOk result (out.new.items ≡ out.old.items ++ text_of_items (family_items (family_of family.entry.now))) }
{
    write_family_line(out, family.entry, family.number, family.low, family.high)?;
    write_proof(alloc, out, &family.proof)
}

fn write_left(alloc: Global, out: &mut Vec<u8>, instrs: &[Instr]) -> Result<(), AllocError>
    ensures { OnOk result (out.new.items ≡ out.old.items ++ text_of_items (map item.Left instrs.entry.now)) }
{
    for instr in instrs {
        write_instruction(alloc, out, b"left ", *instr)?;
    }
    Ok(())
}

fn write_right(alloc: Global, out: &mut Vec<u8>, instrs: &[Instr]) -> Result<(), AllocError>
    ensures { OnOk result (out.new.items ≡ out.old.items ++ text_of_items (map item.Right instrs.entry.now)) }
{
    for instr in instrs {
        write_instruction(alloc, out, b"right ", *instr)?;
    }
    Ok(())
}

fn write_proof(alloc: Global, out: &mut Vec<u8>, lines: &[Line]) -> Result<(), AllocError>
    ensures { OnOk result (out.new.items ≡ out.old.items ++ text_of_items (item.Proof ∷ map item.Logged (map content_of lines.entry.now))) }
{
    out.extend_from_slice(b"proof\n")?;
    write_log(alloc, out, lines)
}

fn write_log(alloc: Global, out: &mut Vec<u8>, lines: &[Line]) -> Result<(), AllocError>
    ensures { OnOk result (out.new.items ≡ out.old.items ++ text_of_items (map item.Logged (map content_of lines.entry.now))) }
{
    for line in lines {
        write_logged(alloc, out, line)?;
    }
    Ok(())
}

fn write_opens(alloc: Global, out: &mut Vec<u8>, opens: &[Open]) -> Result<(), AllocError>
    ensures { OnOk result (out.new.items ≡ out.old.items ++ text_of_items (flat_map open_items (map opened_of opens.entry.now))) }
{
    for open in opens {
        write_number(out, b"open ", open.number)?;
        write_log(alloc, out, &open.log)?;
    }
    Ok(())
}
