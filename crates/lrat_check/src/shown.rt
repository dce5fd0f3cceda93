//! An addition with the number of its hints that were needed, which is what trimming keeps of it.
ghost use Rattle.std.specs.Prelude.{◌≤◌, length};

use crate::line::Addition;

/// An addition, and how many of its first hints suffice.
#[derive(Drop)]
pub(crate) struct Shown<'a> {
    pub(crate) addition: &'a Addition,
    pub(crate) hints: usize,
    ghost within: { hints ≤ length addition.now.hints.items },
}
