//! The outcomes of all sequences of an alphabet from one state, by number. The sequences of the next length are each of the longest
//! ones, in order, with each instruction appended, so that a table grows by one step a sequence.
ghost use Rattle.std.specs.Prelude.{◌≡◌, ◌<◌, ◌≤◌, ◌+◌, IfOk, IfErr, OnOk, length, slice_get};
ghost use Rattle.window_exec.specs.State.{values_of};
ghost use Rattle.seq_enum.specs.Alphabet.{alphabet, sequences_of};
ghost use Rattle.step_ledger.specs.Counts.{RisesBy};
ghost use Rattle.fingerprints.specs.Outcomes.{AreAgreeing, added, grown_to, sequences_below};

use crate::looks::alike;
use crate::numbering::sequence_of;
use crate::outcome_columns::Columns;
use seq_enum::{Pool, alphabet_instrs, count_below};
use std::alloc::{AllocError, Global};
use std::marker::Model;
use step_ledger::{Ledger, Steps};
use thumb_instr::{Instr, Mask, Seq};
use window_exec::WState;

/// What each sequence of at most `longest` instructions, over the first `k` registers and a pool, makes of one state: a column of words for each of
/// these registers and a column of flags, in order of the sequences' numbers. With k registers that is 4 k + 1 bytes a sequence.
#[derive(Drop)]
pub struct Outcomes {
    k: u8,
    alphabet: Vec<Instr>,
    start: WState,
    longest: u8,
    /// how many of the sequences are shorter than the longest
    first: usize,
    columns: Columns,
}

impl Model for Outcomes {
    ghost use Rattle.fingerprints.specs.Outcomes.{Extent, IsTable};

    ghost Value = { Extent };

    ghost view = { λ o. record { registers = o.k; alphabet = o.alphabet.items; start = o.start; longest = o.longest } };

    ghost invariant = { λ o. IsTable o.k o.alphabet.items o.start o.longest o.first o.columns };
}

impl Outcomes {
    /// The table of the empty sequence alone.
    pub fn new(alloc: Global, k: u8, pool: &Pool, start: WState) -> Result<Outcomes, AllocError>
        requires some { 0 < k }
        requires few { k ≤ 4 }
        ensures { IfOk result (λ o. o ≡ record { registers = k; alphabet = alphabet k pool.now; start = start; longest = 0 }) }
    {
        let alphabet = alphabet_instrs(alloc, k, pool)?;
        let mut columns = Columns::with_room(alloc, k, 1)?;
        columns.push(k, &start);
        Ok(Outcomes {
            k,
            alphabet,
            start,
            longest: 0,
            first: 0,
            columns,
        })
    }

    /// How many registers the sequences may name.
    pub(crate) fn registers(&self) -> u8
        ensures value { result ≡ self.now.registers }
        ensures some { 0 < result }
        ensures few { result ≤ 4 }
    {
        self.k
    }

    /// The instructions of the alphabet, in order.
    pub fn alphabet(&self) -> &[Instr]
        ensures value { result.now ≡ self.now.alphabet }
        ensures some { 0 < length result.now }
        ensures few { length result.now ≤ 1952 }
    {
        &self.alphabet
    }

    /// Adds the sequences of at most `longest` instructions, with a step for each, where they aren't there yet.
    pub fn grow<L: Ledger>(
        &mut self,
        alloc: Global,
        longest: u8,
        steps: &mut Steps<L>,
    ) -> Result<(), AllocError>
        requires { longest ≤ 4 }
        ensures grown { OnOk result (self.new ≡ grown_to longest self.old) }
        ensures count { OnOk result (RisesBy steps.old steps.new (added longest self.old)) }
        ensures unchanged { IfErr result (λ _. self.new ≡ self.old) }
        ensures most { steps.new ≤ steps.old + added longest self.old }
    {
        if longest <= self.longest {
            return Ok(());
        }
        let room = count_below(self.alphabet.len() as u64, u32::from(longest) + 1) as usize;
        let mut columns = self.columns.copied(alloc, self.k, room)?;
        let mut first = self.first;
        for _length in self.longest..longest {
            let next = columns.len();
            columns.push_length(self.k, &self.alphabet, &self.start, first, steps);
            first = next;
        }
        self.first = first;
        self.columns = columns;
        self.longest = longest;
        Ok(())
    }

    /// How many sequences have at most `longest` instructions.
    pub fn count(&self, longest: u8) -> u64
        requires { longest ≤ 4 }
        ensures { result ≡ length (sequences_below self.now.alphabet (longest + 1)) }
    {
        count_below(self.alphabet.len() as u64, u32::from(longest) + 1)
    }

    /// The sequence of a number: None exactly where the number is of a sequence longer than five instructions. A table needs no outcome of it.
    pub fn sequence_at(&self, number: u64) -> Option<Seq>
        ensures { result ≡ slice_get (sequences_of self.now.alphabet) number }
    {
        sequence_of(&self.alphabet, number)
    }

    /// The numbers below a limit, in ascending order, of the sequences after which each item of a mask is as in `end`.
    pub fn agreeing(
        &self,
        alloc: Global,
        end: &WState,
        mask: Mask,
        limit: u64,
    ) -> Result<Vec<u64>, AllocError>
        ensures { IfOk result (λ v. AreAgreeing self.now (values_of end.now) mask.items.bits limit v.items) }
    {
        let limit = limit.min(self.columns.len() as u64) as usize;
        alike(alloc, &self.columns, self.k, &self.start, end, mask, limit)
    }
}
