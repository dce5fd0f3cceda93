//! A listing prepared for a run: what each place holds is computed once, so that a step looks up no name.
ghost use Rattle.std.specs.Prelude.{◌<◌, ◌^◌, vec_len};

use crate::world::{Around, Landing, Lands};
use std::collections::HashMap;
use thumb_instr::Instr;

/// What stands at a place.
#[derive(Clone, Copy, Debug, PartialEq, Eq)]
pub enum PlaceContents {
    /// An instruction, with what its place supplies.
    Instruction { instr: Instr, around: Around },
    /// A data word.
    Data,
}

/// A listing under a naming: what each place holds, the least place of the code points that have a word, and the range of code, from `low` to below
/// `high`.
#[derive(Drop)]
pub struct Program {
    pub(crate) rows: Vec<PlaceContents>,
    pub(crate) points: HashMap<u32, u32>,
    pub(crate) low: u32,
    pub(crate) high: u32,
    ghost few: { vec_len rows < 2 ^ 32 },
}

impl Lands for Program {
    ghost use Rattle.thumb_machine.specs.Running.{lands_in};

    ghost lands = { lands_in };

    fn lands(&self, word: u32) -> Landing {
        match self.points.get(&word) {
            Some(place) => Landing::Goes { at: *place },
            None => {
                if word % 2 == 1 && !(self.low <= word && word < self.high) {
                    Landing::Leaves
                } else {
                    Landing::Strays
                }
            }
        }
    }
}
