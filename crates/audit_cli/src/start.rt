//! The fixed state and answers from which `trace` runs a listing, so that a listing always has the same trace.
ghost use Rattle.std.specs.Prelude.{◌≡◌, [], IfOk};
ghost use Rattle.thumb_machine.specs.Outside.{answer_of, answers_of};
ghost use Rattle.thumb_machine.specs.Starting.{start_values as start_values_of};
ghost use Rattle.audit_cli.specs.Trace.{answers_from, numbered_answer as numbered_answer_of, start_values};

use std::alloc::{AllocError, Global};
use thumb_machine::{Answer, Bytes, State};

/// How many answers of the outside there are.
const ANSWERS: u32 = 256;

/// Answer number n: n in each word, the flags 0, and no bytes.
fn numbered_answer(alloc: Global, n: u32) -> Answer
    ensures { answer_of result ≡ numbered_answer_of n }
{
    Answer {
        words: [n, n, n, n, n, n],
        nzcv: 0,
        bytes: Bytes::new(Vec::new(alloc)),
    }
}

/// The answers that the outside has, with the numbers from 1 to `ANSWERS`.
pub(crate) fn answers(alloc: Global) -> Result<Vec<Answer>, AllocError>
    ensures { IfOk result (λ v. answers_of v.items ≡ answers_from 1 256) }
{
    let mut list = Vec::new(alloc);
    for n in 1..ANSWERS + 1 {
        list.push(numbered_answer(alloc, n))?;
    }
    Ok(list)
}

/// The state from which a trace runs at a place: sp is 0x20001000, lr 0xffffffff, and all else 0.
pub(crate) fn state(alloc: Global, place: u32) -> State
    ensures values { start_values_of result ≡ start_values }
    ensures bytes { result.bytes ≡ [] }
    ensures place { result.place ≡ place }
{
    State {
        r: [0, 0, 0, 0, 0, 0, 0, 0, 0, 0, 0, 0, 0],
        sp: 0x2000_1000,
        lr: 0xffff_ffff,
        nzcv: 0,
        bytes: Bytes::new(Vec::new(alloc)),
        place,
    }
}
