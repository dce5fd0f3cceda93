//! What is wrong with a line where it lies: what it mentions is out of its encoding's reach, or not aligned. A name without an address is no fault.
ghost use Rattle.std.specs.Prelude.{◌≡◌, ◌≤◌, ◌<◌, ◌^◌, option_map};
ghost use Rattle.thumb_model.specs.Layout.{less, branch_fault as branch_fault_at, literal_fault as literal_fault_at, aim_fault as aim_fault_at, fault_at, lies_in};
ghost use Rattle.listing_parser.specs.Views.{statement_view};
ghost use Rattle.label_layout.specs.Addresses.{AreAddresses};
ghost use Rattle.label_layout.specs.Refusals.{fault_of, numbered, first_fault};

use crate::addresses::Layout;
use crate::errors::LayoutFault;
use crate::sizes::next_address;
use listing_parser::{Listing, Mention, Statement};
use thumb_instr::Instr;

/// How far `to` is from `from`.
fn difference(to: u64, from: u64) -> i64
    requires to { to < 2 ^ 40 }
    requires from { from < 2 ^ 40 }
    ensures { result ≡ less to from }
{
    if from <= to {
        (to - from) as i64
    } else {
        -((from - to) as i64)
    }
}

/// What is wrong with a branch that goes from -2 `half` to below 2 `half` bytes from its address and 4.
/// None where it has no address to go to.
fn branch_fault(half: u64, at: u32, to: Option<u32>) -> Option<LayoutFault>
    requires { half ≤ 2 ^ 23 }
    ensures { option_map fault_of result ≡ branch_fault_at half at to }
{
    let to = to? as u64;
    let from = at as u64 + 4;
    if to < from + 2 * half && from <= to + 2 * half {
        None
    } else {
        Some(LayoutFault::Range(difference(to, from)))
    }
}

/// What is wrong with a literal: it must lie at a multiple of 4, 0 to 1020 bytes after the instruction's address and 4
/// rounded down to such a multiple.
fn literal_fault(at: u32, to: Option<u32>, plus: u32) -> Option<LayoutFault>
    ensures { option_map fault_of result ≡ literal_fault_at at to plus }
{
    let target = to? as u64 + plus as u64;
    let from = (at as u64 + 4) / 4 * 4;
    if target % 4 != 0 {
        Some(LayoutFault::Align(target))
    } else if from <= target && target <= from + 1020 {
        None
    } else {
        Some(LayoutFault::Range(difference(target, from)))
    }
}

/// What is wrong with an instruction at an address, in bytes, that mentions what lies at `to`, with `plus` added. None where the name has no address, or
/// where instructions of its kind mention nothing.
pub fn aim_fault(at: u32, instr: &Instr, to: Option<u32>, plus: u32) -> Option<LayoutFault>
    ensures { option_map fault_of result ≡ aim_fault_at at instr.now to plus }
{
    match instr {
        Instr::Literal { .. } | Instr::Address { .. } => literal_fault(at, to, plus),
        Instr::BranchIf { .. } => branch_fault(128, at, to),
        Instr::Branch { .. } => branch_fault(1024, at, to),
        Instr::Call { .. } => branch_fault(8_388_608, at, to),
        _ => None,
    }
}

/// What is wrong with a statement at an address.
fn statement_fault(
    layout: &Layout,
    listing: &Listing,
    at: u32,
    statement: &Statement,
) -> Option<LayoutFault>
    requires { AreAddresses listing.now layout.now }
    ensures { option_map fault_of result ≡ fault_at (lies_in layout.now.base listing.now) at (statement_view statement.now) }
{
    match statement {
        Statement::Instruction {
            instr,
            mention: Some(Mention { name, plus }),
        } => aim_fault(at, instr, layout.target(listing, name), *plus),
        _ => None,
    }
}

/// The first line with a fault, by its number from 1. The layout is the listing's.
pub fn find_fault(layout: &Layout, listing: &Listing) -> Option<(u64, LayoutFault)>
    requires { AreAddresses listing.now layout.now }
    ensures { option_map numbered result ≡ first_fault layout.now.base listing.now }
{
    let mut at = layout.base();
    // For the prover alone: the call's contract says that the end lies in the Code region.
    let _ = layout.end();
    let mut number = 1;
    for line in listing.lines() {
        if let Some(kind) = statement_fault(layout, listing, at, &line.statement) {
            return Some((number, kind));
        }
        match next_address(&line.statement, at) {
            Some(next) => at = next,
            None => unreachable!(),
        }
        number += 1;
    }
    None
}
