//! What sequences cost. A table of rules with costs has a number for each mnemonic; without costs, a sequence's weight is its length.
ghost use Rattle.std.specs.Prelude.{◌≡◌, ◌≤◌, MatchOption, Some};
ghost use Rattle.seq_enum.specs.Costs.{AreCosts, cost_in, mnemonic, weight_under};

use std::marker::Model;
use thumb_instr::{
    ByteOperation, Extension, Instr, Kind, Operation, Reversal, Right, Seq, SumOperation, parts,
};

/// A cost, 1 to 64, for each of the 28 mnemonics of a window's instructions. The mnemonics in order: adds, subs, movs, cmp, lsls, lsrs, asrs, ands, eors,
/// adcs, sbcs, rors, tst, rsbs, cmn, orrs, muls, bics, mvns, mov, add, sxth, sxtb, uxth, uxtb, rev, rev16, revsh.
#[derive(Clone, Copy, Drop)]
pub struct Costs {
    numbers: [u8; 28],
}

impl Model for Costs {
    ghost use Rattle.std.specs.Prelude.{List, ℕ};
    ghost use Rattle.seq_enum.specs.Costs.{AreCosts};

    ghost Value = { List ℕ };

    ghost view = { λ c. c.numbers };

    ghost invariant = { λ c. AreCosts c.numbers };

    ghost inverse = { λ n. record { numbers = n } };
}

/// The place of a kind's mnemonic among the 28; 28 for a kind that stands in no window.
fn mnemonic(kind: Kind) -> usize
    ensures { result ≡ mnemonic kind }
{
    match kind {
        Kind::Three(SumOperation::Add)
        | Kind::ThreeNumber(SumOperation::Add)
        | Kind::TwoNumber(ByteOperation::Add) => 0,
        Kind::Three(SumOperation::Sub)
        | Kind::ThreeNumber(SumOperation::Sub)
        | Kind::TwoNumber(ByteOperation::Sub) => 1,
        Kind::TwoNumber(ByteOperation::Mov) | Kind::Movs => 2,
        Kind::TwoNumber(ByteOperation::Cmp) | Kind::Two(Operation::Cmp) => 3,
        Kind::ShiftLeft | Kind::Two(Operation::Lsl) => 4,
        Kind::ShiftRight(Right::Lsr) | Kind::Two(Operation::Lsr) => 5,
        Kind::ShiftRight(Right::Asr) | Kind::Two(Operation::Asr) => 6,
        Kind::Two(Operation::And) => 7,
        Kind::Two(Operation::Eor) => 8,
        Kind::Two(Operation::Adc) => 9,
        Kind::Two(Operation::Sbc) => 10,
        Kind::Two(Operation::Ror) => 11,
        Kind::Two(Operation::Tst) => 12,
        Kind::Two(Operation::Rsb) => 13,
        Kind::Two(Operation::Cmn) => 14,
        Kind::Two(Operation::Orr) => 15,
        Kind::Two(Operation::Mul) => 16,
        Kind::Two(Operation::Bic) => 17,
        Kind::Two(Operation::Mvn) => 18,
        Kind::Mov => 19,
        Kind::Add => 20,
        Kind::Extend(Extension::Sxth) => 21,
        Kind::Extend(Extension::Sxtb) => 22,
        Kind::Extend(Extension::Uxth) => 23,
        Kind::Extend(Extension::Uxtb) => 24,
        Kind::Reverse(Reversal::Rev) => 25,
        Kind::Reverse(Reversal::Rev16) => 26,
        Kind::Reverse(Reversal::Revsh) => 27,
        _ => 28,
    }
}

impl Costs {
    /// What an instruction costs, 1 to 64; 1 where its kind stands in no window.
    pub fn of_instr(&self, instr: &Instr) -> u32
        ensures value { result ≡ cost_in self.now instr.now }
        ensures some { 1 ≤ result }
        ensures most { result ≤ 64 }
    {
        match self.numbers.get(mnemonic(parts(instr).kind)) {
            None => 1,
            Some(number) => u32::from(*number),
        }
    }

    /// What a sequence costs: the sum over its instructions.
    pub fn of(&self, seq: &Seq) -> u32
        ensures value { result ≡ weight_under (Some self.now) seq.now }
        ensures most { result ≤ 320 }
    {
        let mut cost = 0;
        for instr in seq.as_slice() {
            cost += self.of_instr(instr);
        }
        cost
    }

    /// The 28 numbers, in order of the mnemonics.
    pub fn numbers(&self) -> &[u8]
        ensures value { result.now ≡ self.now }
        ensures valid { AreCosts self.now }
    {
        &self.numbers
    }

    /// The costs with these numbers; None unless they are 28 numbers from 1 to 64.
    pub fn new(numbers: &[u8]) -> Option<Costs>
        ensures { MatchOption result (AreCosts numbers.now → ⊥) (λ costs. (costs ≡ numbers.now) × AreCosts numbers.now) }
    {
        if numbers.len() != 28 {
            return None;
        }
        let mut kept = [1; 28];
        for place in 0..28 {
            let number = numbers[place];
            if number < 1 || 64 < number {
                return None;
            }
            kept[place] = number;
        }
        Some(Costs { numbers: kept })
    }
}

/// What a sequence weighs: what it costs, or without costs how many instructions it has.
pub fn weight(costs: &Option<Costs>, seq: &Seq) -> u32
    ensures value { result ≡ weight_under costs.now seq.now }
    ensures most { result ≤ 320 }
{
    match costs {
        None => seq.len() as u32,
        Some(costs) => costs.of(seq),
    }
}
