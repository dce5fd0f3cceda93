//! Whether a window is an entry's left side with its registers renamed, and by which map.
ghost use Rattle.std.specs.Prelude.{◌≡◌, true, map, MatchOption, List};
ghost use Rattle.std.specs.List.{list_all};
ghost use Rattle.thumb_instr.specs.Window.{is_in_window, normal_of, Low as LowRegister};
ghost use Rattle.rule_table.specs.Matching.{registers_in, eight, given_for, Renames, Matches, IsMapOf};

use crate::binding::Binding;
use crate::map::Map;
use crate::table::Entry;
use crate::windows::are_windows;
use thumb_instr::Instr;

/// The one-to-one map that turns the entry's left side into the normal form of the window; None if and only if there is none. It has a
/// register in place of each that the left side names, and no others.
pub fn matches(entry: &Entry, window: &[Instr]) -> Option<Map>
    ensures { MatchOption result ((registers : List LowRegister) → Matches entry.now.left window.now registers → ⊥) (IsMapOf entry.now.left window.now) }
{
    let left = entry.left.as_slice();
    if window.len() != left.len() {
        return None;
    }
    if !are_windows(window) {
        return None;
    }
    if !are_windows(left) {
        return None;
    }
    map_of(left, window)
}

/// The map that turns a left side into the normal form of a window.
fn map_of(left: &[Instr], window: &[Instr]) -> Option<Map>
    requires left { list_all is_in_window left.now ≡ true }
    requires window { list_all is_in_window window.now ≡ true }
    ensures { MatchOption result ((registers : List LowRegister) → Renames left.now (map normal_of window.now) registers → ⊥) (λ m. (registers : List LowRegister) × Renames left.now (map normal_of window.now) registers × (m ≡ map (given_for (registers_in left.now) registers) eight)) }
{
    let mut binding = Binding::new();
    if binding.bind_all(left, window) {
        Some(binding.map())
    } else {
        None
    }
}
