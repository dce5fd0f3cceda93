//! What all sequences cost, in order of their numbers. The sequences of the next length are each of the longest ones, in order, with each instruction
//! appended, so that a sequence's cost is computed from its cost without the last instruction.
ghost use Rattle.std.specs.Prelude.{◌≡◌, ◌+◌, ◌<◌, ◌≤◌, ◌++◌, All, IfOk, OnOk, Some, drop, length, map};
ghost use Rattle.std.specs.List.{flat_map};
ghost use Rattle.seq_enum.specs.Alphabet.{numbers_from, alphabet, words};
ghost use Rattle.seq_enum.specs.Costs.{cost_in, weight_under};

use crate::costs::Costs;
use crate::pool::Pool;
use crate::walk::alphabet_instrs;
use std::alloc::{AllocError, Global};
use thumb_instr::Instr;

/// What each instruction costs, 1 to 64.
fn instr_costs(alloc: Global, alphabet: &[Instr], costs: &Costs) -> Result<Vec<u16>, AllocError>
    ensures value { IfOk result (λ v. v.items ≡ map (cost_in costs.now) alphabet.now) }
    ensures small { IfOk result (λ v. All (λ cost. cost ≤ 64) v.items) }
{
    let mut all = Vec::with_capacity(alloc, alphabet.len())?;
    for instr in alphabet {
        all.push(costs.of_instr(instr) as u16)?;
    }
    Ok(all)
}

/// Appends the costs of a sequence with each instruction appended.
#[inline(always)]
fn push_extended(weights: &mut Vec<u16>, costs: &[u16], weight: u16) -> Result<(), AllocError>
    requires small { weight ≤ 320 }
    requires costs { All (λ cost. cost ≤ 64) costs.now }
    ensures { OnOk result (weights.new.items ≡ weights.old.items ++ map (λ cost. weight + cost) costs.now) }
{
    for cost in costs {
        weights.push(weight + *cost)?;
    }
    Ok(())
}

/// Appends the costs of all sequences from a place on, each with each instruction appended.
fn push_longer(weights: &mut Vec<u16>, costs: &[u16], first: usize) -> Result<(), AllocError>
    requires within { first ≤ length weights.old.items }
    requires small { All (λ weight. weight ≤ 320) weights.old.items }
    requires costs { All (λ cost. cost ≤ 64) costs.now }
    ensures { OnOk result (weights.new.items ≡ weights.old.items
        ++ flat_map (λ weight. map (λ cost. weight + cost) costs.now) (drop first weights.old.items)) }
{
    for place in first..weights.len() {
        let weight = weights[place];
        push_extended(weights, costs, weight)?;
    }
    Ok(())
}

/// What each sequence of at most `longest` instructions costs, by number: at most 320.
pub(crate) fn weights(
    alloc: Global,
    k: u8,
    pool: &Pool,
    costs: &Costs,
    longest: u8,
) -> Result<Vec<u16>, AllocError>
    requires some { 0 < k }
    requires few { k ≤ 4 }
    requires short { longest ≤ 5 }
    ensures value { IfOk result (λ v. v.items ≡ map (weight_under (Some costs.now)) (flat_map (words (alphabet k pool.now)) (numbers_from 0 (longest + 1)))) }
    ensures small { IfOk result (λ v. All (λ weight. weight ≤ 320) v.items) }
{
    // For the prover alone: the call's contract says that the costs are valid.
    let _numbers = costs.numbers();
    let alphabet = alphabet_instrs(alloc, k, pool)?;
    let instr_costs = instr_costs(alloc, &alphabet, costs)?;
    let mut weights = vec![in alloc; 0]?;
    let mut first = 0;
    for _turn in 0..longest {
        let next = weights.len();
        push_longer(&mut weights, &instr_costs, first)?;
        first = next;
    }
    Ok(weights)
}
