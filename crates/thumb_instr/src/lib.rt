//! Instructions of the Armv6-M Thumb set as plain data, with their registers and numbers, and the items (registers and flags) that they read and write.
#![tactic(auto)]

pub mod accesses;
pub mod apart;
pub mod distance;
pub mod instr;
pub mod items;
pub mod kind;
pub mod laws;
pub mod operation;
pub mod rebuilding;
pub mod renaming;
pub mod role;
pub mod seq;
pub mod window;
pub mod within;

pub use accesses::{offset_access, shape, word_access};
pub use apart::parts;
pub use distance::{Distance, Far, Farthest, Near};
pub use instr::Instr;
pub use items::{Items, Mask, Shape};
pub use kind::{Kind, Parts};
pub use laws::rebuilding_gives_back;
pub use operation::{
    Access, Barrier, ByteOperation, Condition, Extension, HintOperation, Interrupts, OffsetAccess,
    Operation, Reversal, Right, Special, SumOperation, WordAccess,
};
pub use rebuilding::{made, rebuilt};
pub use renaming::{registers_of, renamed};
pub use role::{Class, Operands, Role, Usage, roles};
pub use seq::Seq;
pub use window::{in_window, normal};
pub use within::{
    Byte, General, Low, LowList, NotBothLow, NotBothSp, Reg, StackList, Stored, Within,
};
