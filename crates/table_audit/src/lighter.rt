//! The sequences that weigh less than a limit, where they are few among those as long. Each instruction weighs at least 1, so a sequence without its
//! last instruction is lighter: all of them are found by appending instructions to those found before.
ghost use Rattle.std.specs.Prelude.{◌≡◌, ◌<◌, ◌≤◌, ◌+◌, ◌*◌, ◌^◌, ◌++◌, None, IfOk, IsTrue, OnOk, MatchOption, filter, length};
ghost use Rattle.seq_enum.specs.Alphabet.{numbers_from};
ghost use Rattle.seq_enum.specs.Costs.{cost_under};
ghost use Rattle.fingerprints.specs.Outcomes.{sequences_below};
ghost use Rattle.table_audit.specs.Shorter.{is_lighter};
ghost use Rattle.table_audit.specs.Lighter.{is_light_at, AreLighter};

use fingerprints::Outcomes;
use seq_enum::{Costs, weight};
use std::alloc::{AllocError, Global};
use thumb_instr::Instr;

/// A table of outcomes may have this many sequences for each that is lighter: a table of rules lists at least 64 states, and an audit may run a sequence on
/// each of them twice.
const SHARE: u64 = 128;

/// What an instruction weighs: what it costs, and 1 without costs.
fn cost(costs: &Option<Costs>, instr: &Instr) -> u32
    ensures { result ≡ cost_under costs.now instr.now }
{
    match costs {
        None => 1,
        Some(costs) => costs.of_instr(instr),
    }
}

/// Appends the numbers of the sequences that are the given one with one instruction more, where the number is below a count and the instruction
/// weighs less than a limit.
fn push_longer(
    numbers: &mut Vec<u64>,
    costs: &Option<Costs>,
    alphabet: &[Instr],
    number: u64,
    limit: u32,
    count: u64,
) -> Result<(), AllocError>
    requires few { length alphabet.now ≤ 1952 }
    requires small { number < 2 ^ 50 }
    ensures { OnOk result (numbers.new.items ≡ numbers.old.items
        ++ filter (is_light_at costs.now alphabet.now (number * length alphabet.now + 1) limit count) (numbers_from (number * length alphabet.now + 1) (length alphabet.now))) }
{
    let first = number * alphabet.len() as u64 + 1;
    for (place, instr) in alphabet.iter().enumerate() {
        let longer = first + place as u64;
        if longer < count && cost(costs, instr) < limit {
            numbers.push(longer)?;
        }
    }
    Ok(())
}

/// Whether there are no costs and all sequences of at most `longest` instructions weigh less than a limit.
fn are_all_lighter(costs: &Option<Costs>, longest: u8, limit: u32) -> bool
    ensures { IsTrue result → (costs.now ≡ None) × (longest + 1 ≤ limit) }
{
    match costs {
        None => u32::from(longest) < limit,
        Some(_) => false,
    }
}

/// The numbers, in ascending order, of the sequences of at most `longest` instructions that weigh less than a limit. None where the table of outcomes for that
/// length has no more than 128 sequences for each of them, as where there are no costs and all its sequences are lighter.
pub(crate) fn few_lighter(
    alloc: Global,
    costs: &Option<Costs>,
    outcomes: &Outcomes,
    longest: u8,
    limit: u32,
) -> Result<Option<Vec<u64>>, AllocError>
    requires short { longest ≤ 4 }
    requires some { 0 < limit }
    ensures { IfOk result (λ found. MatchOption found
        (length (sequences_below outcomes.now.alphabet (longest + 1)) ≤ 128 * length (filter (is_lighter costs.now limit) (sequences_below outcomes.now.alphabet (longest + 1))))
        (λ v. AreLighter costs.now limit (sequences_below outcomes.now.alphabet (longest + 1)) v.items)) }
{
    if are_all_lighter(costs, longest, limit) {
        return Ok(None);
    }
    let alphabet = outcomes.alphabet();
    let count = outcomes.count(longest);
    let most = (count / SHARE) as usize;
    let mut numbers = vec![in alloc; 0]?;
    let mut place = 0;
    while place < numbers.len() && numbers.len() <= most {
        let number = numbers[place];
        let Some(seq) = outcomes.sequence_at(number) else {
            unreachable!();
        };
        let left = limit - weight(costs, &seq);
        push_longer(&mut numbers, costs, alphabet, number, left, count)?;
        place += 1;
    }
    if numbers.len() <= most {
        Ok(Some(numbers))
    } else {
        Ok(None)
    }
}
