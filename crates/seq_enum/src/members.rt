//! One row of the alphabet, the instructions of one kind: the places of its operands are the digits of an instruction's place.
ghost use Rattle.std.specs.Prelude.{◌≡◌, ◌≤◌, ◌<◌, ◌*◌, length, slice_get, IfSome, IsSome};
ghost use Rattle.thumb_instr.specs.Parts.{of};
ghost use Rattle.thumb_instr.specs.Roles.{roles};
ghost use Rattle.seq_enum.specs.Alphabet.{IsPlace, members};
ghost use Rattle.seq_enum.specs.Places.{rank, digits3, paired, values, seconds, second_count, parts_in};

use crate::pool::Pool;
use crate::values::{count_of, count_of_second, place_of, place_of_second, second_at, value_at};
use thumb_instr::{Instr, Kind, Parts, rebuilt, roles};

/// How many instructions a kind has in the alphabet.
#[tactic(auto, using(crate::proofs::Mnemonics::count_members))]
pub(crate) fn size_of(kind: Kind, k: u8, pool: &Pool) -> u64
    requires few { k ≤ 4 }
    requires listed { IsSome (rank kind) }
    ensures value { result ≡ length (members k pool.now kind) }
    ensures small { result ≤ 4096 }
{
    let roles = roles(kind);
    count_of(roles.first, k, pool)
        * (count_of_second(kind, k, pool) * count_of(roles.third, k, pool))
}

/// The instruction of a kind at a place.
pub(crate) fn member(kind: Kind, k: u8, pool: &Pool, place: u64) -> Option<Instr>
    requires few { k ≤ 4 }
    requires listed { IsSome (rank kind) }
    requires within { place < length (members k pool.now kind) }
    ensures { result ≡ slice_get (members k pool.now kind) place }
{
    rebuilt(&parts_at(kind, k, pool, place)?)
}

/// The kind, registers and numbers of the instruction of a kind at a place.
fn parts_at(kind: Kind, k: u8, pool: &Pool, place: u64) -> Option<Parts>
    requires few { k ≤ 4 }
    requires some { 0 < second_count k pool.now kind * length (values k pool.now (roles kind).third) }
    ensures { result ≡ digits3 (of kind) (values k pool.now (roles kind).first) (seconds k pool.now kind) (values k pool.now (roles kind).third)
        (second_count k pool.now kind) (length (values k pool.now (roles kind).third)) place }
{
    let roles = roles(kind);
    let count = count_of(roles.third, k, pool);
    let size = count_of_second(kind, k, pool) * count;
    let first = value_at(roles.first, k, pool, place / size)?;
    let second = second_at(kind, k, pool, first, place % size / count)?;
    let third = value_at(roles.third, k, pool, place % size % count)?;
    Some(Parts {
        kind,
        first,
        second,
        third,
    })
}

/// The place of an instruction among those of its kind, by its parts.
pub(crate) fn place_of_parts(k: u8, pool: &Pool, parts: &Parts) -> Option<u64>
    requires { k ≤ 4 }
    ensures value { IsPlace result (parts_in k pool.now parts.now.kind) parts.now }
    ensures small { IfSome result (λ i. i < 4096) }
{
    let roles = roles(parts.kind);
    let count = count_of(roles.third, k, pool);
    let size = count_of_second(parts.kind, k, pool) * count;
    let first = place_of(roles.first, k, pool, parts.first);
    let second = place_of_second(parts.kind, k, pool, parts.first, parts.second);
    let third = place_of(roles.third, k, pool, parts.third);
    tripled(size, count, first, second, third)
}

/// The place of a triple whose second and third parts have `size` values, the third `n`.
#[tactic(auto, unfolding(crate::specs::Places::paired))]
fn tripled(
    size: u64,
    n: u64,
    first: Option<u64>,
    second: Option<u64>,
    third: Option<u64>,
) -> Option<u64>
    requires small { size ≤ 256 }
    requires few { n ≤ 16 }
    requires first { IfSome first (λ a. a < 16) }
    requires second { IfSome second (λ b. b < 16) }
    requires third { IfSome third (λ c. c < 16) }
    ensures value { result ≡ paired size first (paired n second third) }
    ensures small { IfSome result (λ i. i < 4096) }
{
    Some(first? * size + (second? * n + third?))
}
