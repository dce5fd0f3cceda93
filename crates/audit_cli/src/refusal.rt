//! Why a run is refused, and the one line that is printed for it. `docs/COMMANDS.md` explains the numbers of kinds.
ghost use Rattle.std.specs.Prelude.{◌≡◌, ◌++◌, IfOk};
ghost use Rattle.command_runs.specs.Outcomes.{outcome_view};
ghost use Rattle.command_runs.specs.Plans.{Refuses};
ghost use Rattle.audit_cli.specs.Printed.{and_number, family_words, fault_words, kind_number, printed, refusal_line};

use command_runs::Outcome;
use listing_parser::ListingFault;
use std::alloc::{AllocError, Global};
use table_audit::{EntryFault, FamilyKind};

/// Why a run is refused. Lines are counted from 1.
#[derive(Clone, Copy)]
pub(crate) enum Refusal {
    /// This line is the first such that no table's text begins with the lines up to it.
    Table { line: u64 },
    /// The state at this place, counted from 1, is missing or isn't the one that the seed gives.
    States { place: u64 },
    /// An entry may have to be distinguished from this many sequences, which are more than 5,000,000.
    Wide { count: u64 },
    /// The entry, counted from 1, has this fault.
    Entry { number: u64, fault: EntryFault },
    /// The family, counted from 1, has this fault.
    Family { number: u64, kind: FamilyKind },
    /// No entry, or for `export` neither an entry nor a family, has the number.
    Number,
    /// This line is the first that makes the text no listing.
    Listing { line: u64, kind: ListingFault },
    /// This line is the first that can't be laid out: what it mentions is out of reach, this many bytes away.
    Range { line: u64, distance: i64 },
    /// This line is the first that can't be laid out: what it mentions lies at this address, which is no multiple of 4.
    Align { line: u64, address: u64 },
    /// The label is no code label.
    Label,
    /// This line mentions a name that has no address.
    Address { line: u64 },
    /// This line sets an address that lies inside the image.
    Inside { line: u64 },
    /// The text of the table to be kept would have this many bytes, which are more than `ascii_scan::TEXT_LIMIT`.
    Full { bytes: u64 },
    /// This line is the first such that no text of costs begins with the lines up to it.
    Costs { line: u64 },
    /// The number of an entry can't be raised.
    Symbol,
    /// With this value the entry's sides differ under the mask.
    Differ { value: u8 },
    /// The solver spent this budget without a decision.
    Spent { budget: u32 },
}

/// The number that is printed for a kind of refusal.
fn kind_number(kind: ListingFault) -> u8
    ensures { result ≡ kind_number kind }
{
    kind as u8
}

/// These words, a number and a newline.
fn with_number(alloc: Global, words: &str, number: u64) -> Result<Vec<u8>, AllocError>
    ensures { IfOk result (λ v. v.items ≡ printed (words.now ++ and_number number)) }
{
    let text = format!(in alloc; "{words} {number}\n")?;
    Ok(text.into_bytes())
}

/// The words, a number, the text of the fault and a newline.
fn with_fault(alloc: Global, words: &str, number: u64, fault: &[u8]) -> Result<Vec<u8>, AllocError>
    ensures { IfOk result (λ v. v.items ≡ printed (words.now ++ and_number number ++ fault.now)) }
{
    let text = format!(in alloc; "{words} {number}")?;
    let mut line = text.into_bytes();
    line.extend_from_slice(fault)?;
    line.push(b'\n')?;
    Ok(line)
}

/// The number of an entry's fault, and its detail: ` 1`, ` 2 LINE`, ` 3`, ` 4 SEQUENCE` or ` 5 SEQUENCE`.
fn fault_words(alloc: Global, fault: EntryFault) -> Result<Vec<u8>, AllocError>
    ensures { IfOk result (λ v. v.items ≡ fault_words fault) }
{
    let text = match fault {
        EntryFault::Sides => format!(in alloc; " 1")?,
        EntryFault::Proof(line) => format!(in alloc; " 2 {line}")?,
        EntryFault::Unfinished => format!(in alloc; " 3")?,
        EntryFault::Untold(sequence) => format!(in alloc; " 4 {sequence}")?,
        EntryFault::Open(sequence) => format!(in alloc; " 5 {sequence}")?,
    };
    Ok(text.into_bytes())
}

/// The number of a family's fault, and its detail: ` 1`, ` 2 LINE` or ` 3`.
fn family_words(alloc: Global, kind: FamilyKind) -> Result<Vec<u8>, AllocError>
    ensures { IfOk result (λ v. v.items ≡ family_words kind) }
{
    let text = match kind {
        FamilyKind::Symbol => format!(in alloc; " 1")?,
        FamilyKind::Proof(line) => format!(in alloc; " 2 {line}")?,
        FamilyKind::Unfinished => format!(in alloc; " 3")?,
    };
    Ok(text.into_bytes())
}

/// `refused listing LINE KIND`
fn listing_line(alloc: Global, line: u64, kind: ListingFault) -> Result<Vec<u8>, AllocError>
    ensures { IfOk result (λ v. v.items ≡ refusal_line (Refusal.Listing line kind)) }
{
    let number = kind_number(kind);
    let text = format!(in alloc; "refused listing {line} {number}\n")?;
    Ok(text.into_bytes())
}

/// `refused listing LINE 4 DISTANCE`
fn range_line(alloc: Global, line: u64, distance: i64) -> Result<Vec<u8>, AllocError>
    ensures { IfOk result (λ v. v.items ≡ refusal_line (Refusal.Range line distance)) }
{
    let text = format!(in alloc; "refused listing {line} 4 {distance}\n")?;
    Ok(text.into_bytes())
}

/// `refused listing LINE 5 ADDRESS`
fn align_line(alloc: Global, line: u64, address: u64) -> Result<Vec<u8>, AllocError>
    ensures { IfOk result (λ v. v.items ≡ refusal_line (Refusal.Align line address)) }
{
    let text = format!(in alloc; "refused listing {line} 5 {address}\n")?;
    Ok(text.into_bytes())
}

/// The line that is printed for a refusal.
fn refusal_line(alloc: Global, refusal: Refusal) -> Result<Vec<u8>, AllocError>
    ensures { IfOk result (λ v. v.items ≡ refusal_line refusal) }
{
    match refusal {
        Refusal::Table { line } => with_number(alloc, "refused table", line),
        Refusal::States { place } => with_number(alloc, "refused states", place),
        Refusal::Wide { count } => with_number(alloc, "refused wide", count),
        Refusal::Entry { number, fault } => {
            with_fault(alloc, "refused entry", number, &fault_words(alloc, fault)?)
        }
        Refusal::Family { number, kind } => {
            with_fault(alloc, "refused family", number, &family_words(alloc, kind)?)
        }
        Refusal::Number => b"refused number\n".to_vec(alloc),
        Refusal::Listing { line, kind } => listing_line(alloc, line, kind),
        Refusal::Range { line, distance } => range_line(alloc, line, distance),
        Refusal::Align { line, address } => align_line(alloc, line, address),
        Refusal::Label => b"refused label\n".to_vec(alloc),
        Refusal::Address { line } => with_number(alloc, "refused address", line),
        Refusal::Inside { line } => with_number(alloc, "refused inside", line),
        Refusal::Full { bytes } => with_number(alloc, "refused full", bytes),
        Refusal::Costs { line } => with_number(alloc, "refused costs", line),
        Refusal::Symbol => b"refused symbol 1\n".to_vec(alloc),
        Refusal::Differ { value } => with_number(alloc, "refused symbol 2", u64::from(value)),
        Refusal::Spent { budget } => with_number(alloc, "refused symbol 3", u64::from(budget)),
    }
}

/// The outcome that keeps nothing and prints the refusal's line.
pub(crate) fn refused(alloc: Global, refusal: Refusal) -> Result<Outcome, AllocError>
    ensures { IfOk result (λ o. outcome_view o ≡ Refuses (refusal_line refusal)) }
{
    let line = refusal_line(alloc, refusal)?;
    Ok(Outcome::Refuses(line))
}
