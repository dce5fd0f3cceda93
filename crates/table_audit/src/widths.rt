//! How many sequences may be below a right side, which bounds the work of an audit, and the sequence of a number, if it is below.
ghost use Rattle.std.specs.Prelude.{◌≡◌, ◌<◌, ◌≤◌, IfSome, length};
ghost use Rattle.thumb_model.specs.Effect.{AreOver};
ghost use Rattle.rule_table.specs.Table.{IsTable};
ghost use Rattle.rule_table.specs.Views.{table_of};
ghost use Rattle.lrat_check.specs.Proofs.{Answers};
ghost use Rattle.table_audit.specs.declared.errors.AuditError.TheVariants.{Memory};
ghost use Rattle.table_audit.specs.Shorter.{lighter_at, sequences_below};
ghost use Rattle.table_audit.specs.Acceptance.{lengths_below, WideVerdict};

use crate::errors::AuditError;
use crate::sides::with_scratch;
use rule_table::Table;
use seq_enum::{Costs, Pool, count_below, seq_at, size, weight};
use thumb_instr::Seq;

/// The greatest number of sequences that an entry's left side may have to be told from.
pub const WIDEST: u64 = 5_000_000;

/// How many sequences of the first `k` registers and a pool have fewer than `count` instructions.
pub fn count_shorter(k: u8, pool: &Pool, count: u8) -> u64
    requires some { 0 < k }
    requires few { k ≤ 4 }
    requires short { count ≤ 6 }
    ensures { result ≡ length (sequences_below k pool.now count) }
{
    count_below(size(k, pool), u32::from(count))
}

/// At most how many sequences of the first `k` registers and a pool an entry may have to be told from, whose left side has at most `left` instructions:
/// all that are shorter, and with costs those that are as long too.
pub fn width(costs: &Option<Costs>, k: u8, pool: &Pool, left: u8) -> u64
    requires some { 0 < k }
    requires few { k ≤ 4 }
    requires short { left ≤ 5 }
    ensures { result ≡ length (sequences_below k pool.now (lengths_below costs.now left)) }
{
    let count = match costs {
        None => left,
        Some(_) => left + 1,
    };
    count_shorter(k, pool, count)
}

/// The sequence of a number, over the first `k` registers and a pool, where it is no longer than a left side and weighs less than another side.
pub fn below_at(
    costs: &Option<Costs>,
    k: u8,
    pool: &Pool,
    left: &Seq,
    side: &Seq,
    number: u64,
) -> Option<Seq>
    requires some { 0 < k }
    requires few { k ≤ 4 }
    ensures value { result ≡ lighter_at costs.now k pool.now left.now side.now number }
    ensures over { IfSome result (λ seq. AreOver k seq) }
    ensures no_longer { IfSome result (λ seq. length seq ≤ length left.now) }
{
    match seq_at(k, pool, number) {
        Some(seq) if seq.len() <= left.len() && weight(costs, &seq) < weight(costs, side) => Some(
            seq,
        ),
        _ => None,
    }
}

/// Refuses a table where an entry may have to be told from more than `WIDEST` sequences, and reports how many.
pub(crate) fn check_width(table: &Table) -> Result<(), AuditError>
    requires { IsTable (table_of table.now) }
    ensures { Answers Memory result (WideVerdict (table_of table.now)) }
{
    let registers = with_scratch(table.regs, table.scratch);
    let width = width(&table.costs, registers, &table.pool, table.left);
    if width > WIDEST {
        return Err(AuditError::Wide(width));
    }
    Ok(())
}
