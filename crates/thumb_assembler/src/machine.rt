//! A machine that reads its instructions from an image and decodes them, so that an image's run can be compared with its listing's.
ghost use Rattle.std.specs.Prelude.{◌≡◌, [], ℕ, IfOk, OnErr};
ghost use Rattle.thumb_model.specs.States.{with_bytes};
ghost use Rattle.thumb_machine.specs.Memory.{memory_of};
ghost use Rattle.thumb_machine.specs.Registers.{values_of};
ghost use Rattle.thumb_machine.specs.Starting.{Starts, start_values};
ghost use Rattle.thumb_assembler.specs.Machines.{Steps, loaded_of};
ghost use Rattle.thumb_assembler.specs.Runs.{IsFetched};

use crate::image::{Image, behind};
use std::alloc::{AllocError, Global};
use thumb_instr::{Distance, Instr};
use thumb_machine::{
    Answer, Answers, Around, Event, Memory, Position, Stage, State, Target, World, registers_of,
    stage_of,
};

/// A machine that runs an image: it reads code and literals from the image, and data from a memory of its own.
#[derive(Drop)]
pub struct ImageMachine {
    pub(crate) image: Image,
    pub(crate) world: World,
    pub(crate) at: Position,
}

/// The registers and memory at the beginning. Only stores and calls to outside can write a memory, so its first bytes come as the answer to a call.
fn first_world(alloc: Global, image: &Image, state: State) -> Result<World, AllocError>
    ensures values { IfOk result (λ w. values_of w.registers ≡ start_values state) }
    ensures memory { IfOk result (λ w. memory_of w.memory ≡ with_bytes state.bytes (λ (a : ℕ). 0)) }
    ensures events { IfOk result (λ w. w.events.items ≡ []) }
{
    let registers = registers_of(&state);
    let mut world = World {
        registers,
        memory: Memory::new(alloc),
        events: Vec::new(alloc),
    };
    let mut list = Vec::new(alloc);
    list.push(Answer {
        words: [0; 6],
        nzcv: 0,
        bytes: state.bytes,
    })?;
    let mut answers = Answers::new(list);
    let around = Around {
        target: Target::External { word: 0 },
        literal: 0,
        link: 0,
    };
    let call = Instr::Call {
        distance: Distance::of(0),
    };
    world.act(&mut answers, &around, image, &call)?;
    let World { memory, .. } = world;
    Ok(World {
        registers,
        memory,
        events: Vec::new(alloc),
    })
}

impl ImageMachine {
    /// A machine that runs an image from an address on, such as a code label's. The image begins at `base`, and its code ends at `hi`,
    /// which for a listing's image is that of its laid naming. The place in `start` is ignored.
    pub fn new(
        alloc: Global,
        image: &[u8],
        base: u32,
        hi: u32,
        start: State,
        at: u32,
    ) -> Result<ImageMachine, AllocError>
        ensures image { IfOk result (λ m. loaded_of m.image ≡ record { base = base; bytes = image.now; high = hi }) }
        ensures start { IfOk result (λ m. Starts start at m.world m.at) }
    {
        let image = Image {
            bytes: Vec::from_slice(alloc, image)?,
            base,
            high: hi,
        };
        let world = first_world(alloc, &image, start)?;
        Ok(ImageMachine {
            image,
            world,
            at: Position::Here { at },
        })
    }

    /// Takes a step. If memory runs out, or more answers are needed than are left, nothing changes; an ended machine reports its end again.
    pub fn step(&mut self, answers: &mut Answers) -> Result<Stage, AllocError>
        ensures image { self.new.image ≡ self.old.image }
        ensures kept { OnErr result (self.new.at ≡ self.old.at) }
        ensures step { Steps self.old answers.old self.new answers.new result }
    {
        let address = match self.at {
            Position::Here { at } => at,
            Position::Ended { end } => return Ok(stage_of(end)),
        };
        match self.image.fetch(address) {
            None => self.at.fall(&mut self.world),
            Some(instr) => self.run(answers, address, instr),
        }
    }

    /// Executes the instruction at an address.
    fn run(
        &mut self,
        answers: &mut Answers,
        address: u32,
        instr: Instr,
    ) -> Result<Stage, AllocError>
        requires here { self.old.at ≡ Position.Here address }
        requires fetched { IsFetched (loaded_of self.old.image) address instr }
        ensures image { self.new.image ≡ self.old.image }
        ensures kept { OnErr result (self.new.at ≡ self.old.at) }
        ensures step { Steps self.old answers.old self.new answers.new result }
    {
        let around = self.image.around(address, &instr);
        let image = &mut self.image;
        let next = self.world.act(answers, &around, &*image, &instr)?;
        Ok(self.at.arrive(behind(address, &instr), next))
    }

    /// The events of the run so far.
    pub fn events(&self) -> &[Event]
        ensures { result.now ≡ self.now.world.events.items }
    {
        self.world.events.as_slice()
    }
}
