//! The numberings of the sequences over one to four registers, each made once for all windows.
ghost use Rattle.std.specs.Prelude.{◌≤◌, ◌<◌, ℕ, List};
ghost use Rattle.window_harvest.specs.Numberings.{Numbers, AreNumberings};

use seq_enum::{Numbering, Pool};

/// The numberings over one to four registers and a pool.
#[derive(Drop)]
pub struct Numberings<'a> {
    one: Numbering<'a>,
    two: Numbering<'a>,
    three: Numbering<'a>,
    four: Numbering<'a>,
}

impl<'a> Numberings<'a> {
    /// The numberings over a pool.
    pub fn new(pool: &'a Pool) -> Self
        ensures { AreNumberings pool.now result }
    {
        Numberings {
            one: Numbering::new(1, pool),
            two: Numbering::new(2, pool),
            three: Numbering::new(3, pool),
            four: Numbering::new(4, pool),
        }
    }

    /// The numbering over `registers` registers.
    pub fn over(&self, registers: u8) -> &Numbering<'a>
        requires some { 0 < registers }
        requires few { registers ≤ 4 }
        ensures { (pool : List ℕ) → AreNumberings pool self.now → Numbers registers pool result.now }
    {
        match registers {
            1 => &self.one,
            2 => &self.two,
            3 => &self.three,
            _ => &self.four,
        }
    }
}
