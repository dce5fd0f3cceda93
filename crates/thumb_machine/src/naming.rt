//! A naming gives words to names and return points, and leaves open where anything else lies: so two listings can be run under one.
ghost use Rattle.std.specs.Prelude.{◌≡◌};
ghost use Rattle.thumb_machine.specs.Naming.{naming_of};

use indexmap::IndexMap;

/// A word for each name and for the return point of each call by its number, and the range of code from the address `low` to below `high`.
#[derive(Drop)]
pub struct Naming {
    pub(crate) words: IndexMap<Vec<u8>, u32>,
    pub(crate) returns: Vec<u32>,
    pub(crate) low: u32,
    pub(crate) high: u32,
}

impl Naming {
    /// The naming of these words. A name or a call that has none here has 0.
    pub fn new(words: IndexMap<Vec<u8>, u32>, returns: Vec<u32>, low: u32, high: u32) -> Naming
        ensures words { result.words ≡ words }
        ensures returns { result.returns ≡ returns }
        ensures low { result.low ≡ low }
        ensures high { result.high ≡ high }
    {
        Naming {
            words,
            returns,
            low,
            high,
        }
    }

    /// The word of a name.
    pub(crate) fn word(&self, name: &[u8]) -> u32
        ensures { result ≡ (naming_of self.now).word_of name.now }
    {
        self.words.get(name).copied().unwrap_or(0)
    }

    /// The word of the return point of a call.
    pub(crate) fn return_word(&self, call: usize) -> u32
        ensures { result ≡ (naming_of self.now).return_word call }
    {
        self.returns.get(call).copied().unwrap_or(0)
    }
}
