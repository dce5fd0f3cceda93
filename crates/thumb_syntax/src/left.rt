//! Operands that are still to be read. The first few are scanned in advance, so that they aren't scanned again for each form that is tried.
ghost use Rattle.std.specs.Prelude.{◌≡◌, ◌∷◌, ◌++◌, [], MatchOption, map};
ghost use Rattle.ascii_scan.specs.Tokens.{tokens};
ghost use Rattle.thumb_syntax.specs.Operands.{operand};
ghost use Rattle.thumb_syntax.specs.Views.{view};
ghost use Rattle.thumb_syntax.specs.LeftView.{left};

use crate::operands::{Operand, next_operand};
use arrayvec::ArrayVec;

/// How many operands are scanned in advance: most instructions have no more.
pub const AHEAD: usize = 8;

/// Operands that are still to be read: those that were scanned in advance, and then those of the bytes.
#[derive(Clone, Copy)]
pub struct Left<'a, 'r> {
    pub ahead: &'r [Operand<'a>],
    pub bytes: &'a [u8],
}

/// The first operands of the bytes, and the bytes after them.
pub fn read_ahead(bytes: &[u8]) -> (ArrayVec<Operand<'_>, AHEAD>, &[u8])
    ensures { map view result.0.items ++ map operand (tokens result.1.now) ≡ map operand (tokens bytes.now) }
{
    let mut ahead = ArrayVec::new();
    let mut rest = bytes;
    for _turn in 0..AHEAD {
        match next_operand(rest) {
            None => return (ahead, rest),
            Some((operand, after)) => {
                ahead.push(operand);
                rest = after;
            }
        }
    }
    (ahead, rest)
}

impl<'a, 'r> Left<'a, 'r> {
    /// The first operand, and what is left after it. None where there is none.
    pub fn next(self) -> Option<(Operand<'a>, Left<'a, 'r>)>
        ensures { MatchOption result (left self.entry ≡ []) (λ r. left self.entry ≡ view r.0 ∷ left r.1) }
    {
        match self.ahead.split_first() {
            Some((operand, ahead)) => Some((
                *operand,
                Left {
                    ahead,
                    bytes: self.bytes,
                },
            )),
            None => match next_operand(self.bytes) {
                None => None,
                Some((operand, bytes)) => Some((
                    operand,
                    Left {
                        ahead: self.ahead,
                        bytes,
                    },
                )),
            },
        }
    }
}
