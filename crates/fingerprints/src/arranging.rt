//! States arranged in columns of eight, so that one operation serves eight of them.

ghost use Rattle.std.specs.Prelude.{◌≡◌, map, IfOk};
ghost use Rattle.window_exec.specs.State.{values_of};
ghost use Rattle.fingerprints.specs.Columns.{states_in};

use crate::columns::Column;
use std::alloc::{AllocError, Global};
use window_exec::WState;

/// The states in columns, eight in each but the last.
pub(crate) fn columns_of(alloc: Global, states: &[WState]) -> Result<Vec<Column>, AllocError>
    ensures { IfOk result (λ v. states_in v.items ≡ map values_of states.now) }
{
    let mut columns = Vec::new(alloc);
    let mut rest = states;
    while !rest.is_empty() {
        let (eight, more) = rest.split_at(rest.len().min(8));
        columns.push(Column::of(eight))?;
        rest = more;
    }
    Ok(columns)
}
