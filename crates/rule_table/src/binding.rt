//! Finds the map from the registers of a left side to those of a window, by walking both in step and binding register by register. A register
//! that is already bound to another one, or a window's register that another is bound to, ends the walk.
ghost use Rattle.std.specs.Prelude.{◌≡◌, ◌<◌, ◌∷◌, [], ℕ, None, true, length, map, ◌↔◌, IsTrue};
ghost use Rattle.std.specs.List.{list_all};
ghost use Rattle.thumb_instr.specs.Window.{is_in_window, normal_of, AreBelow, item_under, named_by, named, renamed};
ghost use Rattle.rule_table.specs.Binding.{given_at, IsOneToOne, IsBound, number_under};
ghost use Rattle.rule_table.specs.Matching.{registers_in};
ghost use Rattle.seq_enum.specs.Places.{rank};

use crate::map::Map;
use seq_enum::rank;
use std::marker::Model;
use thumb_instr::{Instr, Items, Kind, Low, Role, normal, parts, roles};

/// The registers to which r0 to r7 are bound so far, one-to-one.
#[derive(Drop)]
pub struct Binding {
    given: [Option<Low>; 8],
    /// the set of the registers in `given`
    taken: Items,
}

impl Model for Binding {
    ghost use Rattle.std.specs.Prelude.{List, Option};
    ghost use Rattle.thumb_instr.specs.declared.within.Within.{Within};

    ghost Value = { List (Option (Within 0 8)) };

    ghost view = { λ b. b.given };

    ghost use Rattle.rule_table.specs.Binding.{IsOneToOne};

    ghost invariant = { λ b. IsOneToOne b.given b.taken.bits };
}

impl Binding {
    /// Nothing is bound yet.
    pub(crate) fn new() -> Binding
        ensures { (x : ℕ) → given_at result x ≡ None }
    {
        Binding {
            given: [None; 8],
            taken: Items::none(),
        }
    }

    /// The register to which `own` is bound, if it is bound.
    fn get(&self, own: u32) -> Option<Low>
        ensures { result ≡ given_at self.now own }
    {
        match self.given.get(own as usize) {
            None => None,
            Some(register) => *register,
        }
    }

    /// Binds a register that isn't bound yet; false if another one is bound to `other`.
    fn put(&mut self, own: u32, other: u32) -> bool
        requires own { own < 8 }
        requires other { other < 8 }
        requires free { given_at self.old own ≡ None }
        ensures { IsBound result self.old self.new (own ∷ []) (λ registers. item_under registers own ≡ other) }
    {
        if self.taken.has(other as u8) {
            return false;
        }
        self.given[own as usize] = Some(Low::of(other));
        self.taken = self.taken.union(Items::one(other as u8));
        true
    }

    /// Binds `own` to `other`; false if `own` is bound to another register, or another one is bound to `other`.
    fn bind(&mut self, own: u32, other: u32) -> bool
        requires own { own < 8 }
        requires other { other < 8 }
        ensures { IsBound result self.old self.new (own ∷ []) (λ registers. item_under registers own ≡ other) }
    {
        match self.get(own) {
            Some(register) => register.number == other,
            None => self.put(own, other),
        }
    }

    /// Binds `own` to `other` if the role is a register's; if it is a number's, the two have to be equal.
    fn bind_role(&mut self, role: Role, own: u32, other: u32) -> bool
        requires own { AreBelow 8 (named_by role own) }
        requires other { AreBelow 8 (named_by role other) }
        ensures { IsBound result self.old self.new (named_by role own) (λ registers. number_under registers role own ≡ other) }
    {
        match role {
            Role::Register(_, _) => self.bind(own, other),
            _ => own == other,
        }
    }

    /// Binds the registers of one instruction to those of another; both have to be of the same kind, with the same numbers.
    fn bind_instr(&mut self, left: &Instr, other: &Instr) -> bool
        requires left { is_in_window left.now ≡ true }
        requires other { is_in_window other.now ≡ true }
        ensures { IsBound result self.old self.new (named left.now) (λ registers. renamed registers left.now ≡ other.now) }
    {
        let own = parts(left);
        let others = parts(other);
        if !same_kind(own.kind, others.kind) {
            return false;
        }
        let roles = roles(own.kind);
        if !self.bind_role(roles.first, own.first, others.first) {
            return false;
        }
        if !self.bind_role(roles.second, own.second, others.second) {
            return false;
        }
        self.bind_role(roles.third, own.third, others.third)
    }

    /// Binds the registers of a left side to those of the normal form of a window, instruction by instruction.
    pub(crate) fn bind_all(&mut self, left: &[Instr], window: &[Instr]) -> bool
        requires left { list_all is_in_window left.now ≡ true }
        requires window { list_all is_in_window window.now ≡ true }
        ensures { IsBound result self.old self.new (registers_in left.now) (λ registers. map (renamed registers) left.now ≡ map normal_of window.now) }
    {
        match left.split_first() {
            None => window.is_empty(),
            Some((first, left)) => match window.split_first() {
                None => false,
                Some((other, window)) => {
                    self.bind_instr(first, &normal(*other)) && self.bind_all(left, window)
                }
            },
        }
    }

    /// The map that has these registers.
    pub(crate) fn map(&self) -> Map
        ensures is { result ≡ self.now }
        ensures all { length self.now ≡ 8 }
        ensures one_to_one { (taken : ℕ) × IsOneToOne self.now taken }
    {
        Map::of(&self.given)
    }
}

/// Whether two kinds have the same rank among the mnemonics of windows.
pub fn same_kind(a: Kind, b: Kind) -> bool
    ensures { IsTrue result ↔ (rank a ≡ rank b) }
{
    rank(a) == rank(b)
}
