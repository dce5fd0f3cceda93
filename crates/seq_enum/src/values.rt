//! The values of each operand in the alphabet: registers below `k`, or the numbers of the pool in the operand's range.
ghost use Rattle.std.specs.Prelude.{◌≡◌, ◌≤◌, ◌<◌, slice_get, length, IfSome};
ghost use Rattle.seq_enum.specs.Alphabet.{IsPlace, numbers_from};
ghost use Rattle.seq_enum.specs.Places.{values, seconds, second_count, without};

use crate::pool::Pool;
use thumb_instr::{Kind, Role, roles};

/// How many values an operand has.
#[tactic(auto, using(crate::proofs::Numbered::numbers_by_place))]
pub(crate) fn count_of(role: Role, k: u8, pool: &Pool) -> u64
    requires { k ≤ 4 }
    ensures value { result ≡ length (values k pool.now role) }
    ensures small { result ≤ 16 }
{
    match role {
        Role::Register(_, _) => u64::from(k),
        Role::Number(least, end) => pool.count(least, end),
        _ => 1,
    }
}

/// The value of an operand at a place.
pub(crate) fn value_at(role: Role, k: u8, pool: &Pool, place: u64) -> Option<u32>
    ensures { result ≡ slice_get (values k pool.now role) place }
{
    match role {
        Role::Register(_, _) => number_at(k, place),
        Role::Number(least, end) => pool.number(least, end, place),
        _ => number_at(1, place),
    }
}

/// The place of a value among those of an operand.
pub(crate) fn place_of(role: Role, k: u8, pool: &Pool, value: u32) -> Option<u64>
    requires { k ≤ 4 }
    ensures value { IsPlace result (values k pool.now role) value }
    ensures small { IfSome result (λ i. i < 16) }
{
    match role {
        Role::Register(_, _) => place_of_number(k, value),
        Role::Number(least, end) => pool.place(least, end, value),
        _ => place_of_number(1, value),
    }
}

/// How many values the second operand has, whatever the first is.
#[tactic(auto, using(crate::proofs::Ascending::first_others))]
pub(crate) fn count_of_second(kind: Kind, k: u8, pool: &Pool) -> u64
    requires { k ≤ 4 }
    ensures value { result ≡ second_count k pool.now kind }
    ensures small { result ≤ 16 }
{
    match kind {
        Kind::ThreeNumber(_) => u64::from(k.saturating_sub(1)),
        _ => count_of(roles(kind).second, k, pool),
    }
}

/// The value of the second operand at a place, for a given first operand.
pub(crate) fn second_at(kind: Kind, k: u8, pool: &Pool, first: u32, place: u64) -> Option<u32>
    requires { place ≤ 256 }
    ensures { result ≡ slice_get (seconds k pool.now kind first) place }
{
    match kind {
        Kind::ThreeNumber(_) => other_at(k, first, place),
        _ => value_at(roles(kind).second, k, pool, place),
    }
}

/// The place of a value among those of the second operand, for a given first operand.
pub(crate) fn place_of_second(kind: Kind, k: u8, pool: &Pool, first: u32, value: u32) -> Option<u64>
    requires { k ≤ 4 }
    ensures value { IsPlace result (seconds k pool.now kind first) value }
    ensures small { IfSome result (λ i. i < 16) }
{
    match kind {
        Kind::ThreeNumber(_) => place_of_other(k, first, value),
        _ => place_of(roles(kind).second, k, pool, value),
    }
}

/// The number at a place among the first `k`.
#[tactic(auto, using(crate::proofs::Numbered::numbers_by_place))]
fn number_at(k: u8, place: u64) -> Option<u32>
    ensures { result ≡ slice_get (numbers_from 0 k) place }
{
    if place < u64::from(k) {
        Some(place as u32)
    } else {
        None
    }
}

/// The place of a number among the first `k`.
#[tactic(auto, using(crate::proofs::Ascending::places_of_firsts))]
fn place_of_number(k: u8, value: u32) -> Option<u64>
    ensures value { IsPlace result (numbers_from 0 k) value }
    ensures small { IfSome result (λ i. i < k) }
{
    if value < u32::from(k) {
        Some(u64::from(value))
    } else {
        None
    }
}

/// The number at a place among the first `k` without one.
#[tactic(auto, using(crate::proofs::Ascending::others_at))]
fn other_at(k: u8, left_out: u32, place: u64) -> Option<u32>
    requires { place ≤ 256 }
    ensures { result ≡ slice_get (without left_out (numbers_from 0 k)) place }
{
    if place < u64::from(left_out) {
        number_at(k, place)
    } else {
        number_at(k, place + 1)
    }
}

/// The place of a number among the first `k` without one.
#[tactic(auto, using(crate::proofs::Ascending::places_of_others))]
fn place_of_other(k: u8, left_out: u32, value: u32) -> Option<u64>
    ensures value { IsPlace result (without left_out (numbers_from 0 k)) value }
    ensures small { IfSome result (λ i. i < k) }
{
    if value >= u32::from(k) || value == left_out {
        None
    } else if value < left_out {
        Some(u64::from(value))
    } else {
        Some(u64::from(value) - 1)
    }
}
