//! Whether what a line mentions stays within reach however many bytes go in between.
ghost use Rattle.std.specs.Prelude.{◌≡◌, ◌≤◌, ◌^◌, Some};
ghost use Rattle.listing_parser.specs.Views.{mention_view, statement_view};
ghost use Rattle.steady_layout.specs.Steady.{reaches as is_reached, steady_branch as branch_is_steady, steady_literal as literal_is_steady, steady_aim as aim_is_steady, steady_instr, steady_at, labels_in, sets_in};
ghost use Rattle.steady_layout.specs.Starts.{AreStarts};

use crate::starts::Start;
use label_layout::cleared;
use listing_parser::{Listing, Mention, Statement};
use thumb_instr::Instr;

/// Whether a branch that goes from -2 `half` to below 2 `half` bytes from its address and 4 reaches where it goes, if anywhere.
fn reaches(half: u32, at: u32, to: Option<u32>) -> bool
    requires { half ≤ 2 ^ 23 }
    ensures { result ≡ is_reached half at to }
{
    match to {
        Some(to) => {
            let from = at as u64 + 4;
            (to as u64) < from + 2 * half as u64 && from <= to as u64 + 2 * half as u64
        }
        None => true,
    }
}

/// Whether a branch to a label, or to an address that is set, stays within reach.
fn steady_branch(half: u32, base: u32, here: Start, label: Option<Start>, set: Option<u32>) -> bool
    requires { half ≤ 2 ^ 23 }
    ensures { result ≡ branch_is_steady half base here label set }
{
    match label {
        Some(label) => reaches(half, here.at, Some(label.at)),
        None => reaches(half, base, set) && reaches(half, here.at, set),
    }
}

/// Whether a literal stays within reach and at a multiple of 4. It does where its name has no address at all; one that is only set isn't accepted.
fn steady_literal(here: Start, label: Option<Start>, set: Option<u32>, plus: u32) -> bool
    ensures { result ≡ literal_is_steady here label set plus }
{
    match label {
        Some(label) => {
            label.aligned
                && plus % 4 == 0
                && here.at < label.at
                && label.at as u64 + plus as u64 <= here.at as u64 + 1022
        }
        None => set.is_none(),
    }
}

/// Whether what an instruction mentions stays within reach.
fn steady_aim(
    base: u32,
    here: Start,
    instr: &Instr,
    label: Option<Start>,
    set: Option<u32>,
    plus: u32,
) -> bool
    ensures { result ≡ aim_is_steady base here instr.now label set plus }
{
    match instr {
        Instr::Literal { .. } | Instr::Address { .. } => steady_literal(here, label, set, plus),
        Instr::BranchIf { .. } => steady_branch(128, base, here, label, set),
        Instr::Branch { .. } => steady_branch(1024, base, here, label, set),
        Instr::Call { .. } => steady_branch(8_388_608, base, here, label, set),
        _ => true,
    }
}

/// Whether what an instruction mentions stays within reach. The starts are those of the listing's lines.
fn is_steady_mention(
    starts: &[Start],
    listing: &Listing,
    base: u32,
    here: Start,
    instr: &Instr,
    mention: &Mention,
) -> bool
    requires { AreStarts base listing.now starts.now }
    ensures { result ≡ steady_instr (labels_in base listing.now) (sets_in listing.now) base here instr.now (Some (mention_view mention.now)) }
{
    match listing.label_line(&mention.name) {
        Some(line) => steady_aim(base, here, instr, Some(starts[line]), None, mention.plus),
        None => {
            let set = cleared(listing.set_address(&mention.name));
            steady_aim(base, here, instr, None, set, mention.plus)
        }
    }
}

/// Whether what a statement mentions stays within reach. The starts are those of the listing's lines.
pub fn is_steady_at(
    starts: &[Start],
    listing: &Listing,
    base: u32,
    here: Start,
    statement: &Statement,
) -> bool
    requires { AreStarts base listing.now starts.now }
    ensures { result ≡ steady_at (labels_in base listing.now) (sets_in listing.now) base here (statement_view statement.now) }
{
    match statement {
        Statement::Instruction {
            instr,
            mention: Some(mention),
        } => is_steady_mention(starts, listing, base, here, instr, mention),
        _ => true,
    }
}
