//! A table's list of states must begin with those generated from its seed, so that no sequence which they tell can be named open.
ghost use Rattle.std.specs.Prelude.{◌≡◌, ◌↔◌, IsTrue, Some, slice_get, map};
ghost use Rattle.window_exec.specs.State.{seen};
ghost use Rattle.rule_table.specs.Views.{table_of};
ghost use Rattle.table_audit.specs.declared.errors.AuditError.TheVariants.{Memory};
ghost use Rattle.lrat_check.specs.Proofs.{Answers};
ghost use Rattle.table_audit.specs.Acceptance.{StatesVerdict};

use crate::errors::AuditError;
use fingerprints::seeded;
use rule_table::Table;
use std::alloc::Global;
use window_exec::WState;

/// Whether a state stands at a place of a list.
fn is_there(states: &[WState], place: usize, state: &WState) -> bool
    ensures { IsTrue result ↔ (slice_get (map seen states.now) place ≡ Some (seen state.now)) }
{
    place < states.len() && states[place] == *state
}

/// Reports the first of the seed's states that is missing from the table, or differs there.
pub(crate) fn check_states(alloc: Global, table: &Table) -> Result<(), AuditError>
    ensures { Answers Memory result (StatesVerdict (table_of table.now)) }
{
    let seeds = seeded(alloc, table.seed)?;
    for (place, state) in seeds.as_slice().iter().enumerate() {
        if !is_there(table.states.as_slice(), place, state) {
            return Err(AuditError::States(place as u64 + 1));
        }
    }
    Ok(())
}
