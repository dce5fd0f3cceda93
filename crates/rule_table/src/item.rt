//! What one line of a table says. A table is read as a list of such items; `telling` reads the text of each, `draft` checks their order.
use crate::header::Field;
use lrat_check::Line;
use seq_enum::{Costs, Pool};
use thumb_instr::{Instr, Mask};
use window_exec::WState;

/// What a line of a table says.
#[derive(Drop)]
pub(crate) enum Item {
    Number(Field, u32),
    Pool(Pool),
    Costs(Costs),
    State(WState),
    Entry,
    Left(Instr),
    Right(Instr),
    Mask(Mask),
    Proof,
    Logged(Line),
    Open(u64),
    Family {
        entry: u32,
        number: u32,
        low: u32,
        high: u32,
    },
    End,
}
