//! The law that an instruction and its parts determine each other, as a function's contract.
ghost use Rattle.std.specs.Prelude.{◌≡◌, Some};

use crate::apart::parts;
use crate::instr::Instr;
use crate::rebuilding::rebuilt;

/// What `rebuilt` makes of an instruction's parts: the instruction itself.
pub fn rebuilding_gives_back(instr: &Instr) -> Option<Instr>
    ensures { result ≡ Some instr.now }
{
    rebuilt(&parts(instr))
}
