//! How many bytes a line takes (instructions take 2 or 4 by the manual's encodings).
ghost use Rattle.std.specs.Prelude.{◌≡◌, ◌+◌, ◌*◌, ◌≤◌, ◌^◌};
ghost use Rattle.thumb_model.specs.Layout.{instr_size as size_of_instr, padding as padding_at, size_at};
ghost use Rattle.listing_parser.specs.Views.{statement_view};
ghost use Rattle.label_layout.specs.Addresses.{in_code_region};

use listing_parser::Statement;
use thumb_instr::Instr;

/// One past the last address of the Code region of the system address map (ARM DDI 0419, B3.1).
pub const CODE_END: u32 = 0x2000_0000;

/// How many bytes an instruction has: 4 where its encoding has two halfwords (`bl`, `mrs`, `msr` and the barriers), and else 2.
pub fn instr_size(instr: &Instr) -> u32
    ensures { result ≡ size_of_instr instr.now }
{
    match instr {
        Instr::Call { .. }
        | Instr::Barrier { .. }
        | Instr::ReadSpecial { .. }
        | Instr::WriteMask { .. } => 4,
        _ => 2,
    }
}

/// How many bytes an alignment to a multiple of `size` pads at an address: none where more than `most` are needed.
pub fn padding(size: u32, most: u32, at: u32) -> u32
    ensures { result ≡ padding_at size most at }
{
    if size == 0 {
        return 0;
    }
    let need = (size - at % size) % size;
    if need <= most { need } else { 0 }
}

/// The address `size` bytes after `at`. None where it lies past the end of the Code region.
pub fn behind(at: u32, size: u32) -> Option<u32>
    requires { at ≤ 2 ^ 29 }
    ensures { result ≡ in_code_region (at + size) }
{
    if size <= CODE_END - at {
        Some(at + size)
    } else {
        None
    }
}

/// The address `count` words of 4 bytes after `at`. None where it lies past the end of the Code region.
pub fn behind_words(at: u32, count: usize) -> Option<u32>
    requires { at ≤ 2 ^ 29 }
    ensures { result ≡ in_code_region (at + 4 * count) }
{
    if count <= ((CODE_END - at) / 4) as usize {
        Some(at + 4 * count as u32)
    } else {
        None
    }
}

/// The address after a statement that begins at `at`. None where it lies past the end of the Code region.
pub fn next_address(statement: &Statement, at: u32) -> Option<u32>
    requires { at ≤ 2 ^ 29 }
    ensures { result ≡ in_code_region (at + size_at (statement_view statement.now) at) }
{
    match statement {
        Statement::Nothing | Statement::Sets { .. } => Some(at),
        Statement::Instruction { instr, .. } => behind(at, instr_size(instr)),
        Statement::Words(values) => behind_words(at, values.len()),
        Statement::Aligns { size, most } => behind(at, padding(*size, *most, at)),
    }
}
