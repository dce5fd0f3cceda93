//! The scratch register that an entry's right side may use beside those of its left side.
ghost use Rattle.std.specs.Prelude.{◌≡◌, List, length, MatchOption};
ghost use Rattle.thumb_instr.specs.Window.{Low as LowRegister};
ghost use Rattle.thumb_model.specs.Effect.{register_count};
ghost use Rattle.rule_model.specs.Rules.{IsSoundRule};
ghost use Rattle.window_rewrite.specs.Rules.{entry_rule, needs_scratch};
ghost use Rattle.window_rewrite.specs.Fitting.{left_registers, AreWhole, IsWholeOf};

use crate::registers::map_to;
use arrayvec::ArrayVec;
use rule_table::{Entry, free_scratch};
use table_audit::register_count;
use thumb_instr::{Items, Low};

/// Whether an entry's right side names a register more than its left side, which names `named` registers.
pub(crate) fn needs_scratch(entry: &Entry, named: u64) -> bool
    requires { named ≡ register_count entry.now.left }
    ensures { result ≡ needs_scratch (entry_rule entry.now) }
{
    named < register_count(entry.right.as_slice())
}

/// All registers of an entry whose left side has the registers `own`: these, then, if the entry needs one, the least scratch register that is free where the
/// items `live` are live after the window. None where it needs one and none is free.
pub(crate) fn with_scratch(entry: &Entry, own: &[Low], live: Items) -> Option<ArrayVec<Low, 8>>
    requires sound { IsSoundRule (entry_rule entry.now) }
    requires own { length own.now ≡ register_count entry.now.left }
    ensures { MatchOption result ((registers : List LowRegister) → left_registers (entry_rule entry.now) registers ≡ own.now → AreWhole (entry_rule entry.now) registers live.bits → ⊥) (λ r. IsWholeOf (entry_rule entry.now) own.now live.bits r.items) }
{
    let mut registers = ArrayVec::new();
    for register in own {
        registers.push(*register);
    }
    if !needs_scratch(entry, own.len() as u64) {
        return Some(registers);
    }
    match free_scratch(entry, &map_to(own), live) {
        None => None,
        Some(scratch) => {
            registers.push(scratch);
            Some(registers)
        }
    }
}
