//! Families: an entry's rule for each value of a number that stands in 8 bits.
ghost use Rattle.std.specs.Prelude.{◌≡◌, ◌<◌, ◌≤◌, ◌+◌, ◌↔◌, IfOk, IfSome, IsTrue, None, Some, length, map, option_map};
ghost use Rattle.std.specs.List.{list_any};
ghost use Rattle.thumb_model.specs.Effect.{one_of};
ghost use Rattle.bit_blast.specs.Slots.{filled, slot, instance};
ghost use Rattle.rule_table.specs.Views.{family_of, header_in, rule_of, table_of};
ghost use Rattle.lrat_check.specs.Proofs.{Answers};
ghost use Rattle.table_audit.specs.declared.errors.AuditError.TheVariants.{Memory};
ghost use Rattle.table_audit.specs.Canonical.{HasFormula};
ghost use Rattle.table_audit.specs.Families.{entry_at, entry_of, family_at, is_hole, IsRaisable, raised_formula};
ghost use Rattle.table_audit.specs.Acceptance.{EntriesVerdict, FamilyProofVerdict, RaisedVerdict, FamilyVerdict, FamiliesVerdict};
ghost use Rattle.table_audit.specs.Faults.{raised_fault};
ghost use Rattle.table_audit.specs.Costs.{raised_cost, family_cost, families_cost};

use crate::errors::{AuditError, FamilyKind};
use crate::sides::alphabet_registers;
use bit_blast::Symbol;
use cnf_gates::{Formula, Memory as OfGates};
use lrat_check::ProofFault;
use rule_table::{Entry, Family, Table};
use seq_enum::Pool;
use std::alloc::Global;
use step_ledger::{Ledger, Steps};
use thumb_instr::{Byte, Instr, Seq};

/// The entry of a number, from 1, where there is one.
pub fn entry_at(entries: &[Entry], number: u32) -> Option<&Entry>
    ensures { option_map (λ e. rule_of e.now) result ≡ entry_at (map rule_of entries.now) number }
{
    if number == 0 {
        return None;
    }
    entries.get(number as usize - 1)
}

/// The entry that a family raises, where there is one.
pub fn entry_of<'a>(table: &'a Table, family: &Family) -> Option<&'a Entry>
    ensures { option_map (λ e. rule_of e.now) result ≡ entry_of (table_of table.now) (family_of family.now) }
{
    entry_at(&table.entries, family.entry)
}

/// The family of a number, where there is one. Families are counted behind the entries.
pub fn family_at(table: &Table, number: u32) -> Option<&Family>
    ensures found { option_map (λ f. family_of f.now) result ≡ family_at (table_of table.now) number }
    ensures behind { IfSome result (λ _. length table.now.entries.items < number) }
{
    let entries = table.entries.len();
    if entries < number as usize {
        table.families.get(number as usize - entries - 1)
    } else {
        None
    }
}

/// Whether an instruction is `movs`, `cmp`, `adds` or `subs` with this number in 8 bits.
pub fn is_hole(number: u32, instr: &Instr) -> bool
    ensures { result ≡ is_hole number instr.now }
{
    match instr {
        Instr::TwoNumber { number: held, .. } => held.number == number,
        _ => false,
    }
}

/// Whether some instruction has this number in 8 bits.
fn has_hole(number: u32, side: &[Instr]) -> bool
    ensures { result ≡ list_any (is_hole number) side.now }
{
    side.iter().any(|instr| is_hole(number, instr))
}

/// An instruction with its 8-bit number replaced by a value, where that is this number; else the instruction itself.
fn filled(number: u32, instr: &Instr, value: Byte) -> Instr
    ensures { result ≡ filled value (slot number instr.now) }
{
    match *instr {
        Instr::TwoNumber {
            operation,
            target,
            number: held,
        } => {
            if held.number == number {
                Instr::TwoNumber {
                    operation,
                    target,
                    number: value,
                }
            } else {
                *instr
            }
        }
        _ => *instr,
    }
}

/// A side of an entry with a value in place of a number, wherever that stands in 8 bits.
pub fn raised_side(side: &[Instr], number: u32, value: Byte) -> Seq
    requires { length side.now ≤ 5 }
    ensures { result ≡ instance number side.now value }
{
    let mut raised = Seq::new();
    for instr in side {
        raised.push(filled(number, instr, value));
    }
    raised
}

/// Whether a number is one of a pool's.
fn is_pooled(number: u32, members: &[u8]) -> bool
    ensures { result ≡ one_of number members.now }
{
    members.iter().any(|member| u32::from(*member) == number)
}

/// Whether a family's number is in the pool and in the family's range, which is within 0 to 255, and stands in 8 bits in the left side.
pub fn is_raisable(pool: &Pool, family: &Family, left: &Seq) -> bool
    ensures { IsTrue result ↔ IsRaisable pool.now (family_of family.now) left.now }
{
    family.low <= family.number
        && family.number <= family.high
        && family.high <= 255
        && is_pooled(family.number, pool.numbers())
        && has_hole(family.number, left.as_slice())
}

/// The formula that the sides of an entry differ for some value of a family's number. The family's proof refutes this formula.
#[tactic(auto, using(crate::proofs::Fitting::ordered_of))]
pub fn family_formula(
    alloc: Global,
    table: &Table,
    family: &Family,
    entry: &Entry,
) -> Result<Formula, OfGates>
    requires entry { HasFormula (header_in table.now) (rule_of entry.now) }
    requires raisable { IsRaisable table.now.pool (family_of family.now) entry.now.left }
    ensures { IfOk result (λ f. f ≡ raised_formula (header_in table.now) (family_of family.now) (rule_of entry.now)) }
{
    let symbol = Symbol {
        number: family.number as u8,
        low: family.low as u8,
        high: family.high as u8,
    };
    let registers = alphabet_registers(table, entry);
    bit_blast::family_formula(
        alloc,
        &entry.left,
        &entry.right,
        symbol,
        entry.mask,
        registers,
    )
}

/// A fault of a proof, reported as a fault of the family of this number.
fn raised_fault(number: u64, fault: ProofFault) -> AuditError
    ensures { result ≡ raised_fault number fault }
{
    match fault {
        ProofFault::Line(line) => AuditError::Family {
            number,
            kind: FamilyKind::Proof(line),
        },
        ProofFault::Unfinished => AuditError::Family {
            number,
            kind: FamilyKind::Unfinished,
        },
        ProofFault::Memory => AuditError::Memory,
    }
}

/// Reports the first line of a family's proof that isn't accepted, or that no clause is empty.
fn check_proof<L: Ledger>(
    alloc: Global,
    table: &Table,
    number: u64,
    family: &Family,
    entry: &Entry,
    steps: &mut Steps<L>,
) -> Result<(), AuditError>
    requires entry { HasFormula (header_in table.now) (rule_of entry.now) }
    requires raisable { IsRaisable table.now.pool (family_of family.now) entry.now.left }
    ensures answers { Answers Memory result (FamilyProofVerdict (table_of table.now) number (family_of family.now) (rule_of entry.now)) }
    ensures cost { steps.new ≤ steps.old + raised_cost (table_of table.now) (family_of family.now) (Some (rule_of entry.now)) }
{
    let formula = family_formula(alloc, table, family, entry)?;
    match lrat_check::check_proof(alloc, &formula, &family.proof, steps) {
        Ok(()) => Ok(()),
        Err(fault) => Err(raised_fault(number, fault)),
    }
}

/// Reports why a family of an entry is refused, if it is.
fn check_raised<L: Ledger>(
    alloc: Global,
    table: &Table,
    number: u64,
    family: &Family,
    entry: &Entry,
    steps: &mut Steps<L>,
) -> Result<(), AuditError>
    requires { HasFormula (header_in table.now) (rule_of entry.now) }
    ensures answers { Answers Memory result (RaisedVerdict (table_of table.now) number (family_of family.now) (Some (rule_of entry.now))) }
    ensures cost { steps.new ≤ steps.old + raised_cost (table_of table.now) (family_of family.now) (Some (rule_of entry.now)) }
{
    if !is_raisable(&table.pool, family, &entry.left) {
        return Err(AuditError::Family {
            number,
            kind: FamilyKind::Symbol,
        });
    }
    check_proof(alloc, table, number, family, entry, steps)
}

/// Reports why a family is refused, if it is.
fn check_family<L: Ledger>(
    alloc: Global,
    table: &Table,
    number: u64,
    family: &Family,
    steps: &mut Steps<L>,
) -> Result<(), AuditError>
    requires { EntriesVerdict (table_of table.now) None }
    ensures answers { Answers Memory result (FamilyVerdict (table_of table.now) number (family_of family.now)) }
    ensures cost { steps.new ≤ steps.old + family_cost (table_of table.now) (family_of family.now) }
{
    match entry_of(table, family) {
        None => Err(AuditError::Family {
            number,
            kind: FamilyKind::Symbol,
        }),
        Some(entry) => check_raised(alloc, table, number, family, entry, steps),
    }
}

/// Reports the first family that is refused, and why.
pub(crate) fn check_families<L: Ledger>(
    alloc: Global,
    table: &Table,
    steps: &mut Steps<L>,
) -> Result<(), AuditError>
    requires { EntriesVerdict (table_of table.now) None }
    ensures answers { Answers Memory result (FamiliesVerdict (table_of table.now)) }
    ensures cost { steps.new ≤ steps.old + families_cost (table_of table.now) }
{
    for (place, family) in table.families.iter().enumerate() {
        check_family(alloc, table, place as u64 + 1, family, steps)?;
    }
    Ok(())
}
