//! Blocks that moved together lie by one number of bytes, their lag, before their noted addresses, so that none of these has to be written anew.
ghost use Rattle.std.specs.Prelude.{◌≡◌};
ghost use Rattle.kept_layout.specs.Blocks.{lag_of};

/// The lags of blocks: how many bytes they lie before their noted addresses.
#[derive(Clone, Copy)]
pub struct Lag {
    /// Blocks from this number on have the lag `shift`.
    pub border: usize,
    pub shift: u32,
    /// Of the blocks before the border, those in `from..until` have the lag `gap`, and the others none.
    pub from: usize,
    pub until: usize,
    pub gap: u32,
}

impl Lag {
    /// How many bytes the block of this number lies before its noted address.
    pub(crate) fn of(&self, number: usize) -> u32
        ensures { result ≡ lag_of self.now number }
    {
        if number < self.border {
            if self.from <= number && number < self.until {
                self.gap
            } else {
                0
            }
        } else {
            self.shift
        }
    }
}
