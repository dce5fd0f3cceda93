//! The few sequences that the first state doesn't tell from a left side: only these need be run on all states.
ghost use Rattle.std.specs.Prelude.{◌≡◌, ◌≤◌, ◌+◌, IfOk, OnOk};
ghost use Rattle.seq_enum.specs.Alphabet.{numbers_from};
ghost use Rattle.step_ledger.specs.Counts.{RisesBy};
ghost use Rattle.fingerprints.specs.Outcomes.{sequences_below};
ghost use Rattle.fingerprints.specs.Candidates.{AreCandidates, BeginsAt, grown_for, added_for};

use crate::outcomes::Outcomes;
use crate::trials::Trial;
use std::alloc::{AllocError, Global};
use step_ledger::{Ledger, Steps};
use thumb_instr::Mask;

/// The numbers below a limit.
fn all_below(alloc: Global, limit: u64) -> Result<Vec<u64>, AllocError>
    ensures { IfOk result (λ v. v.items ≡ numbers_from 0 limit) }
{
    let mut numbers = Vec::with_capacity(alloc, limit as usize)?;
    for number in 0..limit {
        numbers.push(number)?;
    }
    Ok(numbers)
}

/// The numbers, in ascending order, of the sequences of at most `longest` instructions that the first trial doesn't tell from the left side in
/// the items of a mask; the table must be for that trial's start state. The table is grown to that length, with a step for each sequence that
/// is added. Where there are no trials, all numbers are given, and the table stays as it is.
pub fn candidates<L: Ledger>(
    alloc: Global,
    outcomes: &mut Outcomes,
    longest: u8,
    trials: &[Trial],
    mask: Mask,
    steps: &mut Steps<L>,
) -> Result<Vec<u64>, AllocError>
    requires short { longest ≤ 4 }
    requires start { BeginsAt outcomes.old.start trials.now }
    ensures candidates { IfOk result (λ v. AreCandidates (sequences_below outcomes.old.alphabet (longest + 1)) trials.now mask.items.bits v.items) }
    ensures grown { OnOk result (outcomes.new ≡ grown_for trials.now longest outcomes.old) }
    ensures count { OnOk result (RisesBy steps.old steps.new (added_for trials.now longest outcomes.old)) }
    ensures most { steps.new ≤ steps.old + added_for trials.now longest outcomes.old }
{
    let count = outcomes.count(longest);
    if trials.is_empty() {
        return all_below(alloc, count);
    }
    outcomes.grow(alloc, longest, steps)?;
    outcomes.agreeing(alloc, &trials[0].end, mask, count)
}
