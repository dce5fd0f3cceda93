//! The dispatch over instructions: one arm for each that does more than compute. What depends on the place is passed in.
ghost use Rattle.std.specs.Prelude.{◌≡◌, ◌+◌};
ghost use Rattle.thumb_model.specs.Acts.{act, offset};
ghost use Rattle.thumb_machine.specs.Acting.{Acts, around_of};

use crate::accessing::access_size;
use crate::answers::Answers;
use crate::computing::{compute, computes};
use crate::lists::registers_in;
use crate::system::{barrier_code, interrupts_code, special_code};
use crate::world::{Around, Continuation, Lands, World};
use std::alloc::AllocError;
use thumb_instr::items::SP;
use thumb_instr::{Instr, offset_access, word_access};

/// The address of an access: the low 32 bits of a sum.
fn offset(x: u32, y: u32) -> u32
    ensures { result ≡ offset x y }
{
    x.wrapping_add(y)
}

impl World {
    /// Does one instruction, given what its place supplies. If memory is refused, or more answers are needed than are left, nothing changes.
    pub fn act<P: Lands>(
        &mut self,
        answers: &mut Answers,
        around: &Around,
        place: &P,
        instr: &Instr,
    ) -> Result<Continuation, AllocError>
        ensures { Acts (act (around_of around.now (P.lands place.now)) instr.now) self.old answers.old self.new answers.new result }
    {
        if computes(instr) {
            compute(&mut self.registers, instr);
            return Ok(Continuation::On);
        }
        match *instr {
            Instr::Bx { source } => {
                let word = self.get(source.number);
                self.branch(place.lands(word), word)
            }
            Instr::Blx { source } => {
                let word = self.get(source.number);
                self.call_by(answers, place.lands(word), word, around.link)
            }
            Instr::Literal { target, .. } => {
                self.registers.set(target.number, around.literal);
                Ok(Continuation::On)
            }
            Instr::Indexed {
                access,
                target,
                base,
                index,
            } => {
                let address = offset(self.get(base.number), self.get(index.number));
                self.access(answers, access, target.number, address)
            }
            Instr::Offset {
                access,
                target,
                base,
                offset: units,
            } => {
                let access = offset_access(access);
                let address = offset(self.get(base.number), access_size(access) * units.number);
                self.access(answers, access, target.number, address)
            }
            Instr::Stack {
                access,
                target,
                offset: words,
            } => {
                let address = offset(self.get(u32::from(SP)), 4 * words.number);
                self.access(answers, word_access(access), target.number, address)
            }
            Instr::Address { target, .. } => {
                self.registers.set(target.number, around.literal);
                Ok(Continuation::On)
            }
            Instr::Push { list } => self.push(list.number),
            Instr::Pop { list } => self.pop(answers, place, list.number),
            Instr::StoreMany { stored } => self.store_list(stored.base.number, stored.list.number),
            Instr::LoadMany { base, list } => {
                let list = registers_in(list.number);
                let address = self.get(base.number);
                self.load_many(answers, base.number, address, list.as_slice())
            }
            Instr::Breakpoint { number } => self.tell_sys(256 + number.number, &[]),
            Instr::Service { number } => self.service(answers, number.number),
            Instr::Hint { hint } => self.hint(hint),
            Instr::ChangeState { interrupts } => self.tell_sys(interrupts_code(interrupts), &[]),
            Instr::BranchIf { condition, .. } => self.jump_if(condition, around.target),
            Instr::Branch { .. } => self.jump(around.target),
            Instr::Call { .. } => self.call(answers, around.target, around.link),
            Instr::Barrier { barrier } => self.tell_sys(barrier_code(barrier), &[]),
            Instr::ReadSpecial { target, special } => self.read_special(
                answers,
                target.number,
                special_code(special),
            ),
            Instr::WriteMask { source } => {
                let word = self.get(source.number);
                self.tell_sys(523, &[word])
            }
            _ => unreachable!(),
        }
    }
}
