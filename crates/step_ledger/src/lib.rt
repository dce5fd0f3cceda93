//! A count of steps, in which contracts state costs: `Counted` holds it when the program runs, `Free` doesn't.
#![tactic(auto)]

ghost use Rattle.std.specs.Prelude.{◌≡◌, ℕ, ◌+◌, ◌-◌, ◌^◌, ◌<◌, min};

use std::marker::Model;
use std::sync::ledger::{Blank, Book, Ledger as Name, Share};

/// A count of steps, from 0 up to the greatest `u64`, where it stays.
pub trait Ledger {
    ghost count: { Self → ℕ };

    /// Adds one step.
    fn tick(&mut self)
        ensures { count self.new ≡ min (count self.old + 1) (2 ^ 64 - 1) };
}

/// A ledger that holds its count.
#[derive(Drop)]
pub struct Counted {
    count: u64,
}

impl Model for Counted {
    ghost Value = { ℕ };

    ghost view = { λ s. s.count };
}

impl Counted {
    /// No step counted yet.
    pub fn new() -> Counted
        ensures { result ≡ 0 }
    {
        Counted { count: 0 }
    }

    /// The steps counted so far.
    pub fn count(&self) -> u64
        ensures { result ≡ self.now }
    {
        self.count
    }
}

impl Ledger for Counted {
    ghost count = { λ s. s };

    fn tick(&mut self) {
        self.count = self.count.saturating_add(1);
    }
}

/// A ledger that holds nothing when the program runs: contracts alone see its count. `N` names the
/// tokens that carry it; a caller passes `std::marker::Brand`.
#[derive(Drop)]
pub struct Free<N: Name> {
    total: Book<N>,
    part: Share<N>,
    ghost some_part: { 0 < part.parts },
}

impl<N: Name> Free<N> {
    /// A ledger at 0, over new tokens, of which there is at least one part.
    pub fn new(blank: Blank) -> Free<N>
        requires name { blank.name ≡ N.name }
        requires parts { blank.parts ≡ N.parts }
        requires some { 0 < blank.parts }
        ensures { ⟦<Free<N> as Ledger>⟧.count result ≡ 0 }
    {
        let (total, part) = blank.open::<N>();
        Free { total, part }
    }
}

impl<N: Name> Ledger for Free<N> {
    ghost count = { λ s. min s.total.total (2 ^ 64 - 1) };

    fn tick(&mut self) {
        self.total.add(&mut self.part, 1);
    }
}

/// A view of a ledger as one number: the steps of all calls that it was passed to.
#[derive(Drop)]
pub struct Steps<L: Ledger> {
    ledger: L,
}

impl<L: Ledger> Model for Steps<L> {
    ghost Value = { ℕ };

    ghost view = { λ s. L.count s.ledger };
}

impl<L: Ledger> Steps<L> {
    /// Continues from the count of `ledger`.
    pub fn new(ledger: L) -> Steps<L>
        ensures { result ≡ L.count ledger }
    {
        Steps { ledger }
    }

    /// The ledger, with the count as it stands.
    pub fn ledger(&self) -> &L
        ensures { L.count result.now ≡ self.now }
    {
        &self.ledger
    }

    /// Adds one step.
    pub fn tick(&mut self)
        ensures { self.new ≡ min (self.old + 1) (2 ^ 64 - 1) }
    {
        self.ledger.tick()
    }
}
