//! Registers and flags by number, and sets of them as bits of one word: liveness is computed with these sets.
ghost use Rattle.std.specs.Prelude.{◌≡◌, ℕ, ◌<◌, ◌==◌, ◌&&◌, ◌||◌, not, true, false};
ghost use Rattle.thumb_instr.specs.Items.{one_of, has, AreItems, is_in_masks};

/// The items by number: r0 to r12 are 0 to 12, and here are sp, lr and the flags.
pub const SP: u8 = 13;

pub const LR: u8 = 14;

pub const N: u8 = 15;

pub const Z: u8 = 16;

pub const C: u8 = 17;

pub const V: u8 = 18;

/// A set of the 19 items, as the bits of their numbers.
#[derive(Clone, Copy, Debug, PartialEq, Eq)]
pub struct Items {
    pub bits: u32,
    pub ghost is_small: { bits < 524288 },
}

impl Items {
    /// No item.
    pub fn none() -> Items
        ensures { (x : ℕ) → has result.bits x ≡ false }
    {
        Items { bits: 0 }
    }

    /// One item alone.
    pub fn one(item: u8) -> Items
        requires { item < 19 }
        ensures { (x : ℕ) → has result.bits x ≡ (x == item) }
    {
        Items { bits: 1 << item }
    }

    /// The items of a list.
    pub fn of(list: &[u8]) -> Items
        requires { AreItems list.now }
        ensures { (x : ℕ) → has result.bits x ≡ one_of x list.now }
    {
        match list {
            [] => Items::none(),
            [item, rest @ ..] => Items::one(*item).union(Items::of(rest)),
        }
    }

    /// Whether an item is in the set.
    pub fn has(self, item: u8) -> bool
        requires { item < 19 }
        ensures { result ≡ has self.bits item }
    {
        (self.bits >> item) & 1 == 1
    }

    /// The items of either set.
    pub fn union(self, other: Items) -> Items
        ensures { (x : ℕ) → has result.bits x ≡ (has self.bits x || has other.bits x) }
    {
        Items {
            bits: self.bits | other.bits,
        }
    }

    /// The items of this set that aren't in the other.
    pub fn minus(self, other: Items) -> Items
        ensures { (x : ℕ) → has result.bits x ≡ (has self.bits x && not (has other.bits x)) }
    {
        Items {
            bits: self.bits & (self.bits ^ other.bits),
        }
    }
}

/// A set of some of r0 to r3 and the flags, the only items that masks hold, as the bits of the items' numbers.
#[derive(Clone, Copy, Debug, PartialEq, Eq)]
pub struct Mask {
    pub items: Items,
    pub ghost in_masks: { (x : ℕ) → has items.bits x ≡ true → is_in_masks x ≡ true },
}

impl Mask {
    /// Those items of a set that may be in masks.
    pub fn of(items: Items) -> Mask
        ensures { (x : ℕ) → has result.items.bits x ≡ (has items.bits x && is_in_masks x) }
    {
        Mask {
            items: Items {
                bits: items.bits & 0x7_800F,
            },
        }
    }

    /// Whether an item is in the mask.
    pub fn has(self, item: u8) -> bool
        requires { item < 19 }
        ensures { result ≡ has self.items.bits item }
    {
        self.items.has(item)
    }
}

/// The items that an instruction reads and those that it writes.
#[derive(Clone, Copy, Debug, PartialEq, Eq)]
pub struct Shape {
    pub uses: Items,
    pub writes: Items,
}
