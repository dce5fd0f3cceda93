//! Lists of registers and register maps, each made of the other: a canonical form comes with a map, and a replacement is reported with a map of eight.
ghost use Rattle.std.specs.Prelude.{◌≡◌, ◌+◌, ◌<◌, ◌≤◌, [], ◌∷◌, ◌++◌, length};
ghost use Rattle.window_rewrite.specs.TableRewriting.{map_of, registers_of};

use arrayvec::ArrayVec;
use rule_table::Map;
use thumb_instr::Low;

/// Appends what a map gives, if that is a register.
fn add_given(registers: &mut ArrayVec<Low, 8>, given: Option<Low>)
    requires { length registers.old.items < 8 }
    ensures registers { registers.new.items ≡ registers.old.items ++ registers_of (given ∷ []) }
    ensures few { length registers.new.items ≤ length registers.old.items + 1 }
{
    if let Some(register) = given {
        registers.push(register);
    }
}

/// The registers that a map has, in order.
pub(crate) fn registers_of(map: &Map) -> ArrayVec<Low, 8>
    requires { length map.now ≤ 8 }
    ensures { result.items ≡ registers_of map.now }
{
    let mut registers = ArrayVec::new();
    for canonical in 0..map.len() {
        add_given(&mut registers, map.get(canonical as u8));
    }
    registers
}

/// The map of eight that has these registers in place of r0, r1 and so on, and none in place of the rest.
pub(crate) fn map_to(registers: &[Low]) -> Map
    requires { length registers.now ≤ 8 }
    ensures { result ≡ map_of 8 registers.now }
{
    let mut given = [None; 8];
    for canonical in 0..registers.len() {
        given[canonical] = Some(registers[canonical]);
    }
    Map::of(&given)
}
