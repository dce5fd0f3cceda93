//! Numbers and registers whose range is part of their type, so that no instruction without an encoding can be constructed.
ghost use Rattle.std.specs.Prelude.{◌≡◌, ◌≢◌, ◌<◌, ◌≤◌, ◌/◌, ◌%◌, ◌^◌, ◌↔◌, IsSome, IfSome};

/// A number from LEAST to below END.
#[derive(Clone, Copy, Debug, PartialEq, Eq)]
pub struct Within<const LEAST: u32, const END: u32> {
    pub number: u32,
    pub ghost least: { LEAST ≤ number },
    pub ghost below: { number < END },
}

impl<const LEAST: u32, const END: u32> Within<LEAST, END> {
    /// The number, which is in the range by the contract.
    pub fn of(number: u32) -> Self
        requires least { LEAST ≤ number }
        requires below { number < END }
        ensures { result.number ≡ number }
    {
        Within { number }
    }

    /// The number, checked: None where it isn't in the range.
    pub fn new(number: u32) -> Option<Self>
        ensures valid { IsSome result ↔ ((LEAST ≤ number) × (number < END)) }
        ensures value { IfSome result (λ r. r.number ≡ number) }
    {
        if LEAST <= number && number < END {
            Some(Within { number })
        } else {
            None
        }
    }
}

/// A low register, r0 to r7.
pub type Low = Within<0, 8>;

impl Default for Within<0, 8> {
    ghost use Rattle.std.specs.Prelude.{◌≡◌};

    ghost is_default = { λ r. r.number ≡ 0 };

    /// r0
    fn default() -> Self {
        Within::of(0)
    }
}

/// A register other than pc: r0 to r12, sp as 13 and lr as 14.
pub type Reg = Within<0, 15>;

/// A register other than sp and pc: r0 to r12, and lr as 14.
#[derive(Clone, Copy, Debug, PartialEq, Eq)]
pub struct General {
    pub number: u32,
    pub ghost below: { number < 15 },
    pub ghost no_sp: { number ≢ 13 },
}

impl General {
    /// The register of this number. None where the number is 13, or above 14.
    pub fn new(number: u32) -> Option<Self>
        ensures valid { IsSome result ↔ ((number < 15) × (number ≢ 13)) }
        ensures value { IfSome result (λ r. r.number ≡ number) }
    {
        if number < 15 && number != 13 {
            Some(General { number })
        } else {
            None
        }
    }
}

/// A byte.
pub type Byte = Within<0, 256>;

/// A non-empty list of low registers: bit n is register n.
pub type LowList = Within<1, 256>;

/// A non-empty list of low registers and lr or pc: bit n is register n, and bit 8 is lr (PUSH) or pc (POP).
pub type StackList = Within<1, 512>;

/// Two registers, not both sp: a target and the register that is added to it.
#[derive(Clone, Copy, Debug, PartialEq, Eq)]
pub struct NotBothSp {
    pub target: Reg,
    pub source: Reg,
    pub ghost one_other: { target.number ≡ 13 → source.number ≢ 13 },
}

impl NotBothSp {
    /// The two registers. None where both are sp.
    pub fn new(target: Reg, source: Reg) -> Option<Self>
        ensures valid { IsSome result ↔ (target.number ≡ 13 → source.number ≢ 13) }
        ensures value { IfSome result (λ r. (r.target ≡ target) × (r.source ≡ source)) }
    {
        if target.number == 13 && source.number == 13 {
            None
        } else {
            Some(NotBothSp { target, source })
        }
    }
}

/// Two registers that are compared, not both low.
#[derive(Clone, Copy, Debug, PartialEq, Eq)]
pub struct NotBothLow {
    pub left: Reg,
    pub right: Reg,
    pub ghost one_high: { left.number < 8 → 8 ≤ right.number },
}

impl NotBothLow {
    /// The two registers. None where both are low.
    pub fn new(left: Reg, right: Reg) -> Option<Self>
        ensures valid { IsSome result ↔ (left.number < 8 → 8 ≤ right.number) }
        ensures value { IfSome result (λ r. (r.left ≡ left) × (r.right ≡ right)) }
    {
        if left.number < 8 && right.number < 8 {
            None
        } else {
            Some(NotBothLow { left, right })
        }
    }
}

/// A base and a list of registers to store there: the base isn't in the list, or is its lowest register.
#[derive(Clone, Copy, Debug, PartialEq, Eq)]
pub struct Stored {
    pub base: Low,
    pub list: LowList,
    pub ghost base_first: { list.number / 2 ^ base.number % 2 ≡ 1 → list.number % 2 ^ base.number ≡ 0 },
}

impl Stored {
    /// The base and the list. None where the base is in the list but isn't its lowest register.
    pub fn new(base: Low, list: LowList) -> Option<Self>
        ensures valid { IsSome result ↔ (list.number / 2 ^ base.number % 2 ≡ 1 → list.number % 2 ^ base.number ≡ 0) }
        ensures value { IfSome result (λ r. (r.base ≡ base) × (r.list ≡ list)) }
    {
        if (list.number >> base.number) % 2 == 1 && list.number % (1 << base.number) != 0 {
            None
        } else {
            Some(Stored { base, list })
        }
    }
}
