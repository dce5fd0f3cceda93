//! A table of states by columns: one for each register that the sequences may name, and one for the flags.
ghost use Rattle.std.specs.Prelude.{◌≡◌, ℕ, ◌<◌, ◌≤◌, ◌+◌, ◌-◌, ◌*◌, ◌++◌, [], List, IfOk, true, length, get_or, Some};
ghost use Rattle.std.specs.List.{flat_map};
ghost use Rattle.thumb_instr.specs.declared.instr.Instr.{Instr};
ghost use Rattle.thumb_model.specs.Effect.{after_all, AreOver};
ghost use Rattle.window_exec.specs.declared.state.WState.{WState as State};
ghost use Rattle.window_exec.specs.State.{values_of};
ghost use Rattle.step_ledger.specs.Counts.{RisesBy};
ghost use Rattle.fingerprints.specs.OutcomeColumns.{column_of, outcome_at, extended, AreFull, HaveRoom, Holds, IsAfter, KeepsFrom};
ghost use Rattle.fingerprints.specs.Print.{one_if};

use std::alloc::{AllocError, Global};
use step_ledger::{Ledger, Steps};
use thumb_instr::Instr;
use window_exec::{WState, compute};

/// States by columns. A register without a column has the start state's word in all of them.
#[derive(Drop)]
pub(crate) struct Columns {
    pub r0: Vec<u32>,
    pub r1: Vec<u32>,
    pub r2: Vec<u32>,
    pub r3: Vec<u32>,
    pub flags: Vec<u8>,
}

/// The word at a place of a column, or another where it has none there.
#[inline(always)]
pub(crate) fn word_at(column: &[u32], place: usize, other: u32) -> u32
    ensures { result ≡ get_or column.now place other }
{
    match column.get(place) {
        None => other,
        Some(word) => *word,
    }
}

/// Appends a word to a column, if `wanted`. There must be room for it.
#[inline(always)]
fn push_word(column: &mut Vec<u32>, wanted: bool, word: u32)
    requires { wanted ≡ true → column.old.len < column.old.cap }
    ensures items { column.new.items ≡ column.old.items ++ one_if wanted word }
    ensures len { wanted ≡ true → column.new.len ≡ column.old.len + 1 }
    ensures cap { column.new.cap ≡ column.old.cap }
{
    if wanted {
        column.push_reserved(word);
    }
}

/// An empty column, with room for `room` words, if `wanted`.
fn column_with_room(alloc: Global, wanted: bool, room: usize) -> Result<Vec<u32>, AllocError>
    ensures items { IfOk result (λ v. v.items ≡ []) }
    ensures len { IfOk result (λ v. v.len ≡ 0) }
    ensures room { IfOk result (λ v. wanted ≡ true → room ≤ v.cap) }
{
    if wanted {
        Vec::with_capacity(alloc, room)
    } else {
        Ok(Vec::new(alloc))
    }
}

impl Columns {
    /// Columns without states, with room for `room` states of `k` registers.
    pub(crate) fn with_room(alloc: Global, k: u8, room: usize) -> Result<Columns, AllocError>
        ensures r0 { IfOk result (λ c. c.r0.items ≡ []) }
        ensures r1 { IfOk result (λ c. c.r1.items ≡ []) }
        ensures r2 { IfOk result (λ c. c.r2.items ≡ []) }
        ensures r3 { IfOk result (λ c. c.r3.items ≡ []) }
        ensures flags { IfOk result (λ c. c.flags.items ≡ []) }
        ensures room { IfOk result (HaveRoom k room) }
    {
        Ok(Columns {
            r0: column_with_room(alloc, 0 < k, room)?,
            r1: column_with_room(alloc, 1 < k, room)?,
            r2: column_with_room(alloc, 2 < k, room)?,
            r3: column_with_room(alloc, 3 < k, room)?,
            flags: Vec::with_capacity(alloc, room)?,
        })
    }

    /// A copy, with room for `room` states of `k` registers in all.
    pub(crate) fn copied(&self, alloc: Global, k: u8, room: usize) -> Result<Columns, AllocError>
        requires full { AreFull k self.now }
        requires within { length self.now.flags.items ≤ room }
        ensures r0 { IfOk result (λ c. c.r0.items ≡ self.now.r0.items) }
        ensures r1 { IfOk result (λ c. c.r1.items ≡ self.now.r1.items) }
        ensures r2 { IfOk result (λ c. c.r2.items ≡ self.now.r2.items) }
        ensures r3 { IfOk result (λ c. c.r3.items ≡ self.now.r3.items) }
        ensures flags { IfOk result (λ c. c.flags.items ≡ self.now.flags.items) }
        ensures room { IfOk result (HaveRoom k (room - length self.now.flags.items)) }
    {
        let mut copy = Columns::with_room(alloc, k, room)?;
        copy.r0.extend_from_slice(&self.r0)?;
        copy.r1.extend_from_slice(&self.r1)?;
        copy.r2.extend_from_slice(&self.r2)?;
        copy.r3.extend_from_slice(&self.r3)?;
        copy.flags.extend_from_slice(&self.flags)?;
        Ok(copy)
    }

    /// How many states.
    pub(crate) fn len(&self) -> usize
        ensures { result ≡ length self.now.flags.items }
    {
        self.flags.len()
    }

    /// The state at a place, where the registers without a column are those of the one given.
    #[inline(always)]
    pub(crate) fn state_at(&self, place: usize, start: &WState) -> WState
        requires { place < length self.now.flags.items }
        ensures { result ≡ outcome_at self.now start.now place }
    {
        WState {
            r: [
                word_at(&self.r0, place, start.r[0]),
                word_at(&self.r1, place, start.r[1]),
                word_at(&self.r2, place, start.r[2]),
                word_at(&self.r3, place, start.r[3]),
            ],
            nzcv: self.flags[place],
        }
    }

    /// The column of a register.
    pub(crate) fn column(&self, register: u8) -> &[u32]
        requires { register < 4 }
        ensures { result.now ≡ column_of self.now register }
    {
        match register {
            0 => &self.r0,
            1 => &self.r1,
            2 => &self.r2,
            _ => &self.r3,
        }
    }

    /// Appends a state of `k` registers. There must be room for it.
    #[inline(always)]
    pub(crate) fn push(&mut self, k: u8, state: &WState)
        requires { HaveRoom k 1 self.old }
        ensures after { IsAfter k state.now self.old self.new }
        ensures words { length state.now.r ≡ 4 }
        ensures room { (more : ℕ) → HaveRoom k (more + 1) self.old → HaveRoom k more self.new }
    {
        push_word(&mut self.r0, 0 < k, state.r[0]);
        push_word(&mut self.r1, 1 < k, state.r[1]);
        push_word(&mut self.r2, 2 < k, state.r[2]);
        push_word(&mut self.r3, 3 < k, state.r[3]);
        self.flags.push_reserved(state.nzcv);
    }

    /// Appends the state after each instruction, run from `from`; there must be room. Where `from` is what a sequence leaves of the start
    /// state, these are the outcomes of the sequence with each instruction appended.
    pub(crate) fn push_extended<L: Ledger>(
        &mut self,
        k: u8,
        alphabet: &[Instr],
        from: &WState,
        steps: &mut Steps<L>,
    )
        requires few { k ≤ 4 }
        requires over { AreOver k alphabet.now }
        requires room { HaveRoom k (length alphabet.now) self.old }
        ensures holds { (start : State) (seqs : List (List Instr)) (seq : List Instr) → Holds k start seqs self.old → KeepsFrom k start from.now
            → values_of from.now ≡ after_all seq (values_of start) → Holds k start (seqs ++ extended alphabet.now seq) self.new }
        ensures more { length self.old.flags.items ≤ length self.new.flags.items }
        ensures room { (more : ℕ) → HaveRoom k (more + length alphabet.now) self.old → HaveRoom k more self.new }
        ensures count { RisesBy steps.old steps.new (length alphabet.now) }
    {
        for instr in alphabet {
            steps.tick();
            let mut state = *from;
            compute(&mut state, instr);
            self.push(k, &state);
        }
    }

    /// Appends the outcomes of each sequence from a place on with each instruction appended. There must be room for them.
    pub(crate) fn push_length<L: Ledger>(
        &mut self,
        k: u8,
        alphabet: &[Instr],
        start: &WState,
        first: usize,
        steps: &mut Steps<L>,
    )
        requires few { k ≤ 4 }
        requires over { AreOver k alphabet.now }
        requires within { first ≤ length self.old.flags.items }
        requires room { HaveRoom k ((length self.old.flags.items - first) * length alphabet.now) self.old }
        ensures holds { (shorter longest : List (List Instr)) → length shorter ≡ first → Holds k start.now (shorter ++ longest) self.old
            → Holds k start.now (shorter ++ longest ++ flat_map (extended alphabet.now) longest) self.new }
        ensures room { (more : ℕ) → HaveRoom k (more + (length self.old.flags.items - first) * length alphabet.now) self.old → HaveRoom k more self.new }
        ensures count { RisesBy steps.old steps.new ((length self.old.flags.items - first) * length alphabet.now) }
    {
        let count = self.len();
        for place in first..count {
            let from = self.state_at(place, start);
            self.push_extended(k, alphabet, &from, steps);
        }
    }
}
