//! A window from which an entry is learnt, with the number of registers that the sequences compared with it may name.
ghost use Rattle.std.specs.Prelude.{◌≡◌, ◌<◌, ◌≤◌, ◌-◌, IfSome, length, min};
ghost use Rattle.thumb_model.specs.Effect.{AreOver};
ghost use Rattle.table_audit.specs.Shorter.{alphabet_registers, IsCanonicalSide, below_at, weight_in};
ghost use Rattle.table_learn.specs.Given.{settings_of};

use crate::settings::Settings;
use seq_enum::weight;
use table_audit::{below_at, named_count, with_scratch};
use thumb_instr::{Mask, Seq};

/// A window, the items that may be live after it, and how many registers the sequences compared with it may name: the first `k`.
#[derive(Drop)]
pub(crate) struct Window {
    pub left: Seq,
    pub mask: Mask,
    pub k: u8,
}

impl Window {
    /// A window that is its own canonical form, copied, with its mask and the number of registers that the settings give.
    #[tactic(auto, using(table_audit::proofs::Fitting::ordered_of))]
    pub fn new(left: &Seq, mask: Mask, settings: &Settings) -> Window
        requires { IsCanonicalSide left.now }
        ensures left { result.left ≡ left.now }
        ensures mask { result.mask ≡ mask }
        ensures count { result.k ≡ alphabet_registers (settings_of settings.now) left.now }
        ensures some { 0 < result.k }
        ensures few { result.k ≤ 4 }
    {
        Window {
            left: copied(left),
            mask,
            k: with_scratch(named_count(left), settings.scratch),
        }
    }

    /// How many instructions it has.
    pub fn len(&self) -> u8
        ensures value { result ≡ length self.now.left }
        ensures few { result ≤ 5 }
    {
        self.left.len() as u8
    }

    /// How many instructions the sequences below it have at most: no more than it has, and fewer than its weight, as each instruction weighs at least 1.
    pub fn longest_below(&self, settings: &Settings) -> u8
        ensures { result ≡ min (length self.now.left) (weight_in (settings_of settings.now) self.now.left - 1) }
    {
        let weight = weight(&settings.costs, &self.left);
        u32::from(self.len()).min(weight.saturating_sub(1)) as u8
    }

    /// The sequence of this number, if it is below `side`, a side of the window's entry.
    pub fn below_at(&self, settings: &Settings, side: &Seq, number: u64) -> Option<Seq>
        requires some { 0 < self.now.k }
        requires few { self.now.k ≤ 4 }
        requires counted { self.now.k ≡ alphabet_registers (settings_of settings.now) self.now.left }
        ensures value { result ≡ below_at (settings_of settings.now) self.now.left side.now number }
        ensures over { IfSome result (λ seq. AreOver self.now.k seq) }
        ensures no_longer { IfSome result (λ seq. length seq ≤ length self.now.left) }
    {
        below_at(
            &settings.costs,
            self.k,
            &settings.pool,
            &self.left,
            side,
            number,
        )
    }
}

/// A copy of a sequence.
pub(crate) fn copied(seq: &Seq) -> Seq
    ensures { result ≡ seq.now }
{
    match Seq::from_slice(seq.as_slice()) {
        None => unreachable!(),
        Some(seq) => seq,
    }
}
