//! Cases of instructions, their texts and their codes: `text TEXT`, `code TEXT`, `branch BYTES TEXT`, `decode FIRST SECOND` and `halfwords FIRST LAST`.
use crate::case::Case;
use thumb_instr::{Distance, Instr};
use thumb_syntax::{Parsed, read_instr, write_instr};
use thumb_table::{Code, decode, encode};

/// Adds the text of an instruction.
fn add_text(parsed: &Parsed<'_>, case: &mut Case<'_>) -> Option<()> {
    let text = write_instr(case.alloc, parsed).ok()?;
    case.add_bytes(&text);
    Some(())
}

/// The canonical text of the instruction that a text is: `no` where it is none.
pub(crate) fn text(case: &mut Case<'_>) -> Option<()> {
    let text = case.text()?;
    match read_instr(&text) {
        None => case.add("no"),
        Some(parsed) => add_text(&parsed, case)?,
    }
    Some(())
}

/// The instruction that the text is which goes on to the line's end.
fn instr_of(case: &Case<'_>) -> Option<Instr> {
    let text = case.text()?;
    Some(read_instr(&text)?.instr)
}

fn add_code(instr: &Instr, case: &mut Case<'_>) {
    match encode(instr) {
        Code::One(first) => case.add_hex(u32::from(first)),
        Code::Two(first, second) => case.add_hexes(&[u32::from(first), u32::from(second)]),
    }
}

/// The code of the instruction that a text is.
pub(crate) fn code(case: &mut Case<'_>) -> Option<()> {
    let instr = instr_of(case)?;
    add_code(&instr, case);
    Some(())
}

/// The branch or call with this displacement in place of its own.
fn with_distance(instr: Instr, bytes: i32) -> Option<Instr> {
    match instr {
        Instr::BranchIf { condition, .. } => Some(Instr::BranchIf {
            condition,
            distance: Distance::new(bytes)?,
        }),
        Instr::Branch { .. } => Some(Instr::Branch {
            distance: Distance::new(bytes)?,
        }),
        Instr::Call { .. } => Some(Instr::Call {
            distance: Distance::new(bytes)?,
        }),
        _ => None,
    }
}

/// The code of the branch or call that a text is, with a given displacement in bytes.
pub(crate) fn branch(case: &mut Case<'_>) -> Option<()> {
    let bytes = case.word().parse().ok()?;
    let instr = with_distance(instr_of(case)?, bytes)?;
    add_code(&instr, case);
    Some(())
}

/// The text of the instruction that two halfwords encode; `no` if they encode none.
pub(crate) fn decoded(case: &mut Case<'_>) -> Option<()> {
    let first = case.halfword();
    match decode(first, case.halfword()) {
        None => case.add("no"),
        Some(instr) => add_text(&Parsed { instr, label: None }, case)?,
    }
    Some(())
}

/// The first and the last of each run of halfwords that are 16-bit instructions, within a range. The second halfword given to `decode` is 0, with which
/// no 32-bit instruction ends.
pub(crate) fn halfwords(case: &mut Case<'_>) -> Option<()> {
    let first = case.halfword();
    let last = case.halfword();
    let mut was_instr = false;
    for halfword in first..=last {
        let is_instr = decode(halfword, 0).is_some();
        if is_instr && !was_instr {
            case.add_hex(u32::from(halfword));
        } else if was_instr && !is_instr {
            case.add_hex(u32::from(halfword).saturating_sub(1));
        }
        was_instr = is_instr;
    }
    if was_instr {
        case.add_hex(u32::from(last));
    }
    Some(())
}
