//! Decodes a model of the formula: to the state that it stands for, so that the learner can list the state that told two sequences apart, and to the value
//! of a symbol.
ghost use Rattle.std.specs.Prelude.{◌≡◌, ◌<◌, ◌≤◌, ◌+◌};
ghost use Rattle.std.specs.Int.{bit_at, from_bool};
ghost use Rattle.cnf_gates.specs.Meaning.{assigned};
ghost use Rattle.window_exec.specs.State.{values_of};
ghost use Rattle.bit_blast.specs.Differences.{variables_from};
ghost use Rattle.bit_blast.specs.Exactness.{number_of, start_values, SameOver, value_at};

use cnf_gates::Model;
use window_exec::WState;

/// The number whose bits are the `n` variables from `first` on, the lowest bit first.
fn number(model: &Model, first: u32, n: u32) -> u32
    requires first { first ≤ 10000 }
    requires n { n ≤ 32 }
    ensures { result ≡ number_of (assigned model.now) (variables_from first n) }
{
    let mut number = 0;
    for i in 0..n {
        number += u32::from(model.value(first + i)) << i;
    }
    number
}

/// The flags N, Z, C and V, which are the four variables from `first` on, in bits 3 to 0.
fn flags(model: &Model, first: u32) -> u8
    requires { first ≤ 10000 }
    ensures n { bit_at result 3 ≡ from_bool (assigned model.now first) }
    ensures z { bit_at result 2 ≡ from_bool (assigned model.now (first + 1)) }
    ensures c { bit_at result 1 ≡ from_bool (assigned model.now (first + 2)) }
    ensures v { bit_at result 0 ≡ from_bool (assigned model.now (first + 3)) }
    ensures few { result < 16 }
{
    let n = u8::from(model.value(first));
    let z = u8::from(model.value(first + 1));
    let c = u8::from(model.value(first + 2));
    let v = u8::from(model.value(first + 3));
    n << 3 | z << 2 | c << 1 | v
}

/// The value that a model of a formula over `k` registers gives a register: 0 from `k` on.
fn register(model: &Model, k: u8, register: u8) -> u32
    requires { register ≤ 3 }
    ensures { result ≡ start_values (assigned model.now) k register }
{
    if register < k {
        number(model, 32 * u32::from(register), 32)
    } else {
        0
    }
}

/// The state that a model of a formula over `k` registers gives: registers from `k` on are 0, and so are the bits above the flags.
pub fn state_of(model: &Model, k: u8) -> WState
    ensures items { SameOver 4 (values_of result) (start_values (assigned model.now) k) }
    ensures flags { result.nzcv < 16 }
{
    WState {
        r: [
            register(model, k, 0),
            register(model, k, 1),
            register(model, k, 2),
            register(model, k, 3),
        ],
        nzcv: flags(model, 32 * u32::from(k)),
    }
}

/// The value that a model of a family's formula over `k` registers gives the symbol.
pub fn value_of(model: &Model, k: u8) -> u8
    ensures { result ≡ value_at (assigned model.now) k }
{
    number(model, 32 * u32::from(k) + 4, 8) as u8
}
