//! The stages of a run: the fetches, the computation of the outcome, the keeps, and one put. The first failure ends the run with its status.
ghost use Rattle.std.specs.Prelude.{◌≡◌, ℕ, ◌⊎◌, List, Result, IfOk, length, map};
ghost use Rattle.std.specs.Result.{result_map_both};
ghost use Rattle.command_runs.specs.declared.status.Status.TheVariants as status;
ghost use Rattle.outer_store.specs.Outside.{SameHeld};
ghost use Rattle.outer_store.specs.Answers.{Grows, SinkGrows};
ghost use Rattle.command_runs.specs.Plans.{Outcome as Comes};
ghost use Rattle.command_runs.specs.Runs.{Runs};
ghost use Rattle.command_runs.specs.Stages.{Reads, Gathers, StoresOne, Stores, Prints, Finishes};
ghost use Rattle.command_runs.specs.Outcomes.{keep_view, outcome_view};

use crate::outcome::{KeptText, Outcome};
use crate::status::Status;
use outer_store::{Sink, SinkError, Store, StoreError};
use std::alloc::{AllocError, Global};
use step_ledger::{Ledger, Steps};

/// Fetches the text under a name; a failure is given as the status that the run ends with.
fn fetch<S: Store>(alloc: Global, store: &mut S, name: &str) -> Result<Vec<u8>, Status>
    ensures reads { Reads name.now (S.seen store.old) (S.seen store.new) (result_map_both (λ v. v.items) (λ e. e) result) }
    ensures held { SameHeld (S.seen store.old).held (S.seen store.new).held }
    ensures grows { Grows (S.seen store.old) (S.seen store.new) }
{
    match store.fetch(alloc, name) {
        Ok(text) => Ok(text),
        Err(StoreError::Failed) => Err(Status::StoreFault),
        Err(StoreError::Missing) => Err(Status::Missing),
        Err(StoreError::TooBig) => Err(Status::TooBig),
        Err(StoreError::Memory) => Err(Status::Memory),
    }
}

/// Fetches the texts under the names, in order, up to the first failure.
#[tactic(auto, using(crate::proofs::StageLemmas::gathers_more, crate::proofs::StageLemmas::gathers_stop, crate::proofs::StageLemmas::counts_first, crate::proofs::StageLemmas::same_again, crate::proofs::StageLemmas::grows_again, crate::proofs::StageLemmas::grows_first))]
fn fetch_all<S: Store>(alloc: Global, store: &mut S, names: &[&str]) -> Result<Vec<Vec<u8>>, Status>
    ensures gathers { Gathers (map (λ n. n.now) names.now) (S.seen store.old) (S.seen store.new) (result_map_both (λ v. map (λ t. t.items) v.items) (λ e. e) result) }
    ensures held { SameHeld (S.seen store.old).held (S.seen store.new).held }
    ensures grows { Grows (S.seen store.old) (S.seen store.new) }
{
    let mut texts = Vec::new(alloc);
    for name in names {
        match fetch(alloc, store, name) {
            Err(status) => return Err(status),
            Ok(text) => match texts.push(text) {
                Err(_) => return Err(Status::Memory),
                Ok(()) => continue,
            },
        }
    }
    Ok(texts)
}

/// Keeps one text.
#[tactic(auto, using(crate::proofs::StageLemmas::stored_one))]
fn keep_one<S: Store>(store: &mut S, name: &str, text: &[u8]) -> Result<(), Status>
    ensures stores { StoresOne (name.now, text.now) (S.seen store.old) (S.seen store.new) result }
    ensures grows { Grows (S.seen store.old) (S.seen store.new) }
{
    match store.keep(name, text) {
        Ok(()) => Ok(()),
        Err(StoreError::Failed) => Err(Status::StoreFault),
        Err(StoreError::Memory) => Err(Status::Memory),
        Err(StoreError::Missing) => unreachable!(),
        Err(StoreError::TooBig) => unreachable!(),
    }
}

/// Keeps each text, in order, up to the first failure.
#[tactic(auto, using(crate::proofs::StageLemmas::stores_more, crate::proofs::StageLemmas::stores_stop, crate::proofs::StageLemmas::counts_first, crate::proofs::StageLemmas::grows_again, crate::proofs::StageLemmas::grows_first))]
fn keep_all<S: Store>(store: &mut S, keeps: &[KeptText]) -> Result<(), Status>
    ensures stores { Stores (map keep_view keeps.now) (S.seen store.old) (S.seen store.new) result }
    ensures grows { Grows (S.seen store.old) (S.seen store.new) }
{
    for keep in keeps {
        match keep_one(store, keep.name.as_str(), &keep.text) {
            Err(status) => return Err(status),
            Ok(()) => continue,
        }
    }
    Ok(())
}

/// Puts the bytes as one piece. The status is `good` if the sink took them.
fn print<O: Sink>(sink: &mut O, bytes: &[u8], good: Status) -> Status
    requires { (good ≡ status.Done) ⊎ (good ≡ status.Refused) }
    ensures prints { Prints good bytes.now (O.sunk sink.old) (O.sunk sink.new) result }
    ensures grows { SinkGrows (O.sunk sink.old) (O.sunk sink.new) }
{
    match sink.put(bytes) {
        Ok(()) => good,
        Err(SinkError::Failed) => Status::SinkFault,
        Err(SinkError::Memory) => Status::Memory,
    }
}

/// Keeps and prints what the outcome says.
#[tactic(auto, using(crate::proofs::RunLemmas::refused, crate::proofs::RunLemmas::unstored, crate::proofs::RunLemmas::done, crate::proofs::StageLemmas::grows_first, crate::proofs::StageLemmas::sink_first))]
fn finish<S: Store, O: Sink>(store: &mut S, sink: &mut O, outcome: Outcome) -> Status
    ensures finishes { Finishes (outcome_view outcome) (S.seen store.old) (S.seen store.new) (O.sunk sink.old) (O.sunk sink.new) result }
    ensures grows { Grows (S.seen store.old) (S.seen store.new) }
    ensures sink_grows { SinkGrows (O.sunk sink.old) (O.sunk sink.new) }
{
    match outcome {
        Outcome::Refuses(line) => return print(sink, &line, Status::Refused),
        Outcome::Does { keeps, lines } => {
            match keep_all(store, &keeps) {
                Err(status) => return status,
                Ok(()) => return print(sink, &lines, Status::Done),
            }
        }
    }
}

/// A command, as the function from the texts that it fetches to its outcome. `takes` is the number of texts; `comes` relates texts to the outcome.
pub trait TextCommand {
    ghost takes: { ℕ };

    ghost comes: { Self → List (List ℕ) → Comes → Type 0 };

    /// The outcome for the texts, of which there are as many as the command takes.
    ///
    /// # Errors
    ///
    /// Only where memory runs out.
    fn compute<L: Ledger>(
        &self,
        alloc: Global,
        texts: &[Vec<u8>],
        steps: &mut Steps<L>,
    ) -> Result<Outcome, AllocError>
        requires { length texts.now ≡ takes }
        ensures { IfOk result (λ o. comes self.now (map (λ t. t.items) texts.now) (outcome_view o)) };
}

/// A whole run: fetches the texts under the names, of which there are as many as the command takes, computes, keeps and prints.
#[tactic(auto, using(crate::proofs::RunLemmas::stopped, crate::proofs::RunLemmas::finished, crate::proofs::StageLemmas::grows_again, crate::proofs::StageLemmas::sink_first))]
pub fn run<C: TextCommand, S: Store, O: Sink, L: Ledger>(
    alloc: Global,
    command: &C,
    names: &[&str],
    store: &mut S,
    sink: &mut O,
    steps: &mut Steps<L>,
) -> Status
    requires { length names.now ≡ C.takes }
    ensures runs { Runs (record { names = map (λ n. n.now) names.now; comes = C.comes command.now }) (S.seen store.old) (S.seen store.new) (O.sunk sink.old) (O.sunk sink.new) result }
    ensures grows { Grows (S.seen store.old) (S.seen store.new) }
    ensures sink_grows { SinkGrows (O.sunk sink.old) (O.sunk sink.new) }
{
    match fetch_all(alloc, store, names) {
        Err(status) => return status,
        Ok(texts) => match command.compute(alloc, &texts, steps) {
            Err(_) => return Status::Memory,
            Ok(outcome) => return finish(store, sink, outcome),
        },
    }
}
