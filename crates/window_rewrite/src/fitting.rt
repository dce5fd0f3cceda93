//! Whether an entry fits a window, by the window and the live items alone. An entry stands in a window exactly where its left side is the window's canonical
//! form, and then under the map of registers that comes with that form.
ghost use Rattle.std.specs.Prelude.{◌≤◌, List, length, MatchOption};
ghost use Rattle.thumb_instr.specs.Window.{Low as LowRegister};
ghost use Rattle.rule_model.specs.Rules.{IsSoundRule};
ghost use Rattle.table_audit.specs.Shorter.{IsCanonicalSide};
ghost use Rattle.window_rewrite.specs.Rules.{entry_rule};
ghost use Rattle.window_rewrite.specs.Fitting.{FitsWhole, IsForm, IsScratchLeast};

use crate::finding::Sight;
use crate::scratch::with_scratch;
use crate::shadows::are_same;
use arrayvec::ArrayVec;
use rule_table::Entry;
use thumb_instr::Low;

/// The registers with which an entry fits the window of a sight, in place of the entry's own: those of its left side, then the least scratch register that is
/// free, if the entry needs one. None where no registers make it fit.
pub(crate) fn fitting(sight: &Sight<'_>, entry: &Entry) -> Option<ArrayVec<Low, 8>>
    requires form { IsForm sight.now.window.now sight.now.form.now }
    requires sound { IsSoundRule (entry_rule entry.now) }
    requires canonical { IsCanonicalSide (entry_rule entry.now).left }
    ensures { MatchOption result ((registers : List LowRegister) → FitsWhole (entry_rule entry.now) registers sight.now.window.now sight.now.form.now.live.bits → ⊥) (λ r. FitsWhole (entry_rule entry.now) r.items sight.now.window.now sight.now.form.now.live.bits × IsScratchLeast (entry_rule entry.now) r.items sight.now.form.now.live.bits × (length r.items ≤ 8)) }
{
    let form = sight.form;
    if !are_same(entry.left.as_slice(), form.side.as_slice()) {
        return None;
    }
    if !form.may_fit(entry.mask) {
        return None;
    }
    with_scratch(entry, &form.registers, form.live)
}
