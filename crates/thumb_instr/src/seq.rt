//! A short sequence of instructions that allocates no memory: a side of a rule, or a window.
ghost use Rattle.std.specs.Prelude.{◌≡◌, ◌<◌, ◌≤◌, ◌+◌, ◌↔◌, [], ◌∷◌, ◌++◌, length, IsSome, IfSome, IsTrue};

use crate::instr::Instr;
use arrayvec::ArrayVec;
use std::marker::Model;

/// A sequence of at most five instructions.
#[derive(Drop)]
pub struct Seq {
    instrs: ArrayVec<Instr, 5>,
}

impl Model for Seq {
    ghost use Rattle.std.specs.Prelude.{List};
    ghost use Rattle.thumb_instr.specs.declared.instr.Instr.{Instr};

    ghost Value = { List Instr };

    ghost view = { λ s. s.instrs.items };
}

impl Seq {
    /// No instruction.
    pub fn new() -> Self
        ensures { result ≡ [] }
    {
        Seq {
            instrs: ArrayVec::new(),
        }
    }

    /// The instructions of a slice. None where there are more than five.
    pub fn from_slice(instrs: &[Instr]) -> Option<Self>
        ensures valid { IsSome result ↔ (length instrs.now ≤ 5) }
        ensures value { IfSome result (λ s. s ≡ instrs.now) }
    {
        if instrs.len() > 5 {
            return None;
        }
        let mut seq = ArrayVec::new();
        for instr in instrs {
            seq.push(*instr);
        }
        Some(Seq { instrs: seq })
    }

    /// Appends an instruction.
    pub fn push(&mut self, instr: Instr)
        requires { length self.old < 5 }
        ensures { self.new ≡ self.old ++ instr ∷ [] }
    {
        self.instrs.push(instr);
    }

    /// The instructions in order.
    pub fn as_slice(&self) -> &[Instr]
        ensures value { result.now ≡ self.now }
        ensures few { length result.now ≤ 5 }
    {
        self.instrs.as_slice()
    }

    /// How many instructions there are.
    pub fn len(&self) -> usize
        ensures value { result ≡ length self.now }
        ensures few { result ≤ 5 }
    {
        self.as_slice().len()
    }

    /// Whether there is no instruction.
    pub fn is_empty(&self) -> bool
        ensures { IsTrue result ↔ (self.now ≡ []) }
    {
        self.len() == 0
    }
}
