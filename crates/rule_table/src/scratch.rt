//! The scratch register of a replacement. An entry's right side may use one register that its left side doesn't name. Each register that the map doesn't have
//! and that isn't live after the window will do; the least is taken.
ghost use Rattle.std.specs.Prelude.{◌≡◌, ◌<◌, ℕ, false, MatchOption};
ghost use Rattle.rule_table.specs.Scratch.{is_free, IsLeastFree};

use crate::map::Map;
use crate::table::Entry;
use thumb_instr::{Items, Low};

/// Whether a register is neither in the map nor among the live items.
fn is_free(map: &Map, live: Items, register: Low) -> bool
    ensures { result ≡ is_free map.now live.bits register.number }
{
    !live.has(register.number as u8) && !map.has(register)
}

/// The least of r0 to r7 that is neither in the map nor live after the window; None if and only if there is none. The entry is the one that the map belongs
/// to; the result doesn't depend on it.
pub fn free_scratch(_entry: &Entry, map: &Map, live: Items) -> Option<Low>
    ensures { MatchOption result ((x : ℕ) → x < 8 → is_free map.now live.bits x ≡ false) (λ register. IsLeastFree map.now live.bits register.number) }
{
    for number in 0..8u32 {
        let register = Low::of(number);
        if is_free(map, live, register) {
            return Some(register);
        }
    }
    None
}
