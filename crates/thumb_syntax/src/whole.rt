//! Whether an instruction has a label exactly where its text names one: the condition under which writing and reading are inverse.
ghost use Rattle.std.specs.Prelude.{◌≡◌, ◌&&◌, ◌^◌, nat_lt, option_map};
ghost use Rattle.thumb_syntax.specs.Operands.{is_name};
ghost use Rattle.thumb_syntax.specs.FieldViews.{label_of};
ghost use Rattle.thumb_syntax.specs.Whole.{is_label, is_label_sum, is_unlabelled, is_whole};

use crate::fields::Label;
use crate::operands::is_name;
use crate::reading::Parsed;
use thumb_instr::Instr;

fn is_label(label: &Option<Label<'_>>) -> bool
    ensures { result ≡ is_label (option_map label_of label.now) }
{
    match label {
        Some(label) => is_name(label.name) && label.added == 0,
        None => false,
    }
}

/// Whether a name with a number added can be a label; every `u32` can be added.
fn is_sum(name: &[u8], _added: u32) -> bool
    ensures { result ≡ (is_name name.now && nat_lt _added (2 ^ 32)) }
{
    is_name(name)
}

fn is_label_sum(label: &Option<Label<'_>>) -> bool
    ensures { result ≡ is_label_sum (option_map label_of label.now) }
{
    match label {
        Some(label) => is_sum(label.name, label.added),
        None => false,
    }
}

fn is_unlabelled(label: &Option<Label<'_>>) -> bool
    ensures { result ≡ is_unlabelled (option_map label_of label.now) }
{
    match label {
        Some(_) => false,
        None => true,
    }
}

/// Whether there is a label exactly where the instruction's text names one, it is a proper name, and the instruction's own distance is 0.
/// What `read_instr` yields satisfies this, and the text of what satisfies it is read as the same again.
pub fn is_whole(parsed: &Parsed<'_>) -> bool
    ensures { result ≡ is_whole parsed.now.instr (option_map label_of parsed.now.label) }
{
    match parsed.instr {
        Instr::Literal { distance, .. } => distance.number == 0 && is_label_sum(&parsed.label),
        Instr::Address { distance, .. } => distance.number == 0 && is_label_sum(&parsed.label),
        Instr::BranchIf { distance, .. } => distance.field == 0 && is_label(&parsed.label),
        Instr::Branch { distance } => distance.field == 0 && is_label(&parsed.label),
        Instr::Call { distance } => distance.field == 0 && is_label(&parsed.label),
        _ => is_unlabelled(&parsed.label),
    }
}
