//! The machine that a caller steps through a listing: its program, its world, and where it is.
ghost use Rattle.std.specs.Prelude.{◌≡◌, slice_get, Some, IfOk, OnErr};
ghost use Rattle.thumb_model.specs.Listing.{Code, code_of};
ghost use Rattle.thumb_model.specs.Naming.{Naming as Names};
ghost use Rattle.thumb_machine.specs.Registers.{values_of};
ghost use Rattle.thumb_machine.specs.Naming.{naming_of};
ghost use Rattle.thumb_machine.specs.Starting.{Starts, start_values};
ghost use Rattle.thumb_machine.specs.Running.{IsProgram, Steps};

use crate::answers::{Answers, Bytes};
use crate::event::Event;
use crate::memory::Memory;
use crate::naming::Naming;
use crate::points::points_of;
use crate::position::{Position, Stage, stage_of};
use crate::program::{PlaceContents, Program};
use crate::registers::Registers;
use crate::world::World;
use listing_parser::Listing;
use std::alloc::{AllocError, Global};

/// A machine that runs a listing under a naming.
#[derive(Drop)]
pub struct Machine {
    pub(crate) program: Program,
    pub(crate) world: World,
    pub(crate) at: Position,
}

/// How a run begins: r0 to r12, sp (a multiple of 4) and lr, the flags (N is 8, Z is 4, C is 2 and V is 1), bytes of the memory, and the place of a code
/// label.
#[derive(Debug, Drop)]
pub struct State {
    pub r: [u32; 13],
    pub sp: u32,
    pub lr: u32,
    pub nzcv: u8,
    pub bytes: Bytes,
    pub place: u32,
}

/// The registers of a state.
pub fn registers_of(state: &State) -> Registers
    ensures { values_of result ≡ start_values state.now }
{
    let r = &state.r;
    Registers {
        r: [
            r[0], r[1], r[2], r[3], r[4], r[5], r[6], r[7], r[8], r[9], r[10], r[11], r[12],
            state.sp, state.lr,
        ],
        nzcv: state.nzcv,
    }
}

/// The program of a listing under a naming.
fn program_of(alloc: Global, listing: &Listing, naming: &Naming) -> Result<Program, AllocError>
    ensures { IfOk result (IsProgram (naming_of naming.now) (code_of listing.now)) }
{
    let rows = naming.rows(alloc, listing)?;
    let points = points_of(alloc, naming, listing)?;
    Ok(Program {
        rows,
        points,
        low: naming.low,
        high: naming.high,
    })
}

impl Machine {
    /// A machine that runs a listing under a naming from a state on. The word of a name or call that the naming lacks is 0.
    pub fn new(
        alloc: Global,
        listing: &Listing,
        naming: &Naming,
        state: &State,
    ) -> Result<Machine, AllocError>
        ensures program { IfOk result (λ m. IsProgram (naming_of naming.now) (code_of listing.now) m.program) }
        ensures start { IfOk result (λ m. Starts state.now state.now.place m.world m.at) }
    {
        let program = program_of(alloc, listing, naming)?;
        let mut memory = Memory::new(alloc);
        let bytes = state.bytes.as_slice();
        memory.reserve(bytes.len())?;
        memory.put_bytes(bytes);
        Ok(Machine {
            program,
            world: World {
                registers: registers_of(state),
                memory,
                events: Vec::new(alloc),
            },
            at: Position::Here { at: state.place },
        })
    }

    /// Takes a step. If memory is refused, or more answers are needed than are left, nothing changes. After its end the machine returns its end again.
    pub fn step(&mut self, answers: &mut Answers) -> Result<Stage, AllocError>
        ensures program { self.new.program ≡ self.old.program }
        ensures kept { OnErr result (self.new.at ≡ self.old.at) }
        ensures step { (names : Names) (code : Code) → IsProgram names code self.old.program → Steps names code self.old answers.old self.new answers.new result }
    {
        let place = match self.at {
            Position::Here { at } => at,
            Position::Ended { end } => return Ok(stage_of(end)),
        };
        match self.program.rows.get(place as usize).copied() {
            None => self.at.fall(&mut self.world),
            Some(row) => self.run(answers, place, row),
        }
    }

    /// Takes a step at a row of the program.
    fn run(
        &mut self,
        answers: &mut Answers,
        place: u32,
        row: PlaceContents,
    ) -> Result<Stage, AllocError>
        requires here { self.old.at ≡ Position.Here place }
        requires row { slice_get self.old.program.rows.items place ≡ Some row }
        ensures program { self.new.program ≡ self.old.program }
        ensures kept { OnErr result (self.new.at ≡ self.old.at) }
        ensures step { (names : Names) (code : Code) → IsProgram names code self.old.program → Steps names code self.old answers.old self.new answers.new result }
    {
        match row {
            PlaceContents::Data => self.at.fall(&mut self.world),
            PlaceContents::Instruction { instr, around } => {
                let program = &mut self.program;
                let next = self.world.act(answers, &around, &*program, &instr)?;
                Ok(self.at.arrive(place + 1, next))
            }
        }
    }

    /// The events of the run so far.
    pub fn events(&self) -> &[Event]
        ensures { result.now ≡ self.now.world.events.items }
    {
        self.world.events.as_slice()
    }
}
