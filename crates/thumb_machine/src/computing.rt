//! Instructions that look at registers and flags alone: those of windows, and the two that compute with sp.
ghost use Rattle.std.specs.Prelude.{◌≡◌, true};
ghost use Rattle.thumb_model.specs.Effect.{after};
ghost use Rattle.thumb_machine.specs.Registers.{values_of};
ghost use Rattle.thumb_machine.specs.Computes.{computes};

use crate::registers::Registers;
use thumb_instr::items::SP;
use thumb_instr::{Instr, SumOperation};
use window_exec::{total, written};

/// Whether an instruction looks at registers and flags alone, and goes on.
pub(crate) fn computes(instr: &Instr) -> bool
    ensures { result ≡ computes instr.now }
{
    match instr {
        Instr::StackAddress { .. } => true,
        Instr::StackMove { .. } => true,
        _ => window_exec::computes(instr),
    }
}

/// Does an instruction that looks at registers and flags alone.
#[tactic(auto, using(crate::proofs::NamedRegisters::named_there))]
pub(crate) fn compute(registers: &mut Registers, instr: &Instr)
    requires { computes instr.now ≡ true }
    ensures { values_of registers.new ≡ after instr.now (values_of registers.old) }
{
    match *instr {
        Instr::StackAddress { target, offset } => {
            let x = registers.get(u32::from(SP));
            registers.set(
                target.number,
                total(SumOperation::Add, x, 4 * offset.number),
            );
        }
        Instr::StackMove { sum, offset } => {
            let x = registers.get(u32::from(SP));
            registers.write(u32::from(SP), total(sum, x, 4 * offset.number));
        }
        _ => window_exec::compute(registers, instr),
    }
}
