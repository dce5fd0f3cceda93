//! The events of a run. Observable equality of two listings compares these, memory and the unread answers.
use arrayvec::ArrayVec;

/// What can be seen of a run. Sizes are in bytes; a `word` is the value by which a branch or call went.
#[derive(Debug, PartialEq, Eq, Drop)]
pub enum Event {
    /// A load of data: its address and size.
    Load { address: u32, size: u32 },
    /// A store: its address, its size, and the value cut to its size.
    Store { address: u32, size: u32, value: u32 },
    /// A call of the outside: its word, and r0 to r3 and sp.
    Call { word: u32, arguments: [u32; 5] },
    /// What the system sees: SVC n is n, BKPT n is 256 + n, YIELD 512, WFE 513, WFI 514, SEV 515, CPSIE 516, CPSID 517, DSB 518, DMB 519, ISB 520, MRS
    /// of PRIMASK 521 and of IPSR 522, MSR of PRIMASK 523. The values are r0 to r3, r12 and sp for SVC, and the register for MSR.
    Sys { code: u32, values: ArrayVec<u32, 6> },
    /// The run left the listing: the word, and r0 to r11, sp and lr.
    Left { word: u32, registers: [u32; 14] },
    /// An access at an address that isn't a multiple of its size.
    Fault { address: u32 },
    /// An indirect branch that leads nowhere: to a word that is no code point's, and is even or in the range of code.
    Astray { word: u32 },
    /// A step where no instruction is.
    Fell,
}
