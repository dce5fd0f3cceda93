//! Where lines begin in the widest layout, and which surely lie at a multiple of 4, whichever instructions before them give way.
ghost use Rattle.std.specs.Prelude.{◌≡◌, ◌+◌, ◌-◌, ◌≤◌, ◌^◌, ◌<◌, min, nat_le, Some, None, if◌then◌else◌};
ghost use Rattle.label_layout.specs.Addresses.{in_code_region};
ghost use Rattle.listing_parser.specs.Views.{statement_view};
ghost use Rattle.steady_layout.specs.Steady.{most_of, aligns_surely as surely_aligns, ends_aligned as stays_aligned, behind};

use label_layout::{behind, behind_words, instr_size};
use listing_parser::Statement;

/// Where a line begins, whichever instructions before it were replaced by runs that are no longer.
#[derive(Clone, Copy, Debug, PartialEq, Eq)]
pub struct Start {
    /// The greatest address that it may have.
    pub at: u32,
    /// Whether its address surely is a multiple of 4.
    pub aligned: bool,
}

/// The most bytes that an alignment pads.
fn most_padding(size: u32, most: u32) -> u32
    ensures { result ≡ min most (size - 1) }
{
    most.min(size.saturating_sub(1))
}

/// The address after a statement that takes the most bytes that it may. None where it lies past the end of the Code region.
fn furthest(statement: &Statement, at: u32) -> Option<u32>
    requires { at ≤ 2 ^ 29 }
    ensures { result ≡ in_code_region (at + most_of (statement_view statement.now)) }
{
    match statement {
        Statement::Nothing | Statement::Sets { .. } => Some(at),
        Statement::Instruction { instr, .. } => behind(at, instr_size(instr)),
        Statement::Words(values) => behind_words(at, values.len()),
        Statement::Aligns { size, most } => behind(at, most_padding(*size, *most)),
    }
}

/// Whether an alignment ends at a multiple of 4 wherever it lies.
fn aligns_surely(size: u32, most: u32) -> bool
    ensures { result ≡ surely_aligns size most }
{
    size > 0 && size % 4 == 0 && size - 1 <= most
}

/// Whether a statement surely ends at a multiple of 4, given whether it surely begins at one.
fn ends_aligned(aligned: bool, statement: &Statement) -> bool
    ensures { result ≡ stays_aligned aligned (statement_view statement.now) }
{
    match statement {
        Statement::Instruction { instr, .. } => aligned && instr_size(instr) == 4,
        Statement::Aligns { size, most } => aligns_surely(*size, *most),
        _ => aligned,
    }
}

/// Where the line after a statement begins. None where that lies past the end of the Code region.
pub fn next_start(here: Start, statement: &Statement) -> Option<Start>
    requires { here.at ≤ 2 ^ 29 }
    ensures { result ≡ (if nat_le (here.at + most_of (statement_view statement.now)) (2 ^ 29) then Some (behind here (statement_view statement.now)) else None) }
{
    match furthest(statement, here.at) {
        Some(at) => {
            let aligned = ends_aligned(here.aligned, statement);
            Some(Start { at, aligned })
        }
        None => None,
    }
}
