//! Instructions of an alphabet by place, a row for each kind: the sizes of the rows before are added up, so that no list of the alphabet is kept.
ghost use Rattle.std.specs.Prelude.{◌≡◌, ◌+◌, ◌-◌, ◌≤◌, ◌<◌, ◌*◌, length, slice_get, IfSome, IsSome, All};
ghost use Rattle.seq_enum.specs.Places.{rank};
ghost use Rattle.std.specs.List.{flat_map};
ghost use Rattle.seq_enum.specs.Alphabet.{IsPlace, those_within, alphabet, members};
ghost use Rattle.seq_enum.specs.Numberings.{IsNumbering};

use crate::members::{member, place_of_parts, size_of};
use crate::numbering::Numbering;
use crate::pool::Pool;
use crate::rows::{rank, rows};
use thumb_instr::{Instr, Kind, parts};

/// How many instructions the alphabet of the first `k` registers and a pool has. With p numbers in the pool, p7 of them from 0 to 7,
/// p31 from 1 to 31 and p32 from 1 to 32, that is 2k^3 + 2k(k - 1)p7 + 4kp + k^2(p31 + 2p32 + 26).
pub fn size(k: u8, pool: &Pool) -> u64
    requires some { 0 < k }
    requires few { k ≤ 4 }
    ensures value { result ≡ length (alphabet k pool.now) }
    ensures formula { result ≡ 2 * (k * k * k) + 2 * (k * ((k - 1) * length (those_within 0 8 pool.now))) + 4 * (k * length pool.now)
        + k * k * (length (those_within 1 32 pool.now) + 2 * length (those_within 1 33 pool.now) + 26) }
    ensures small { result ≤ 1952 }
{
    // For the prover alone: the call's contract says that the pool is valid.
    let _numbers = pool.numbers();
    total_of(rows(), k, pool)
}

/// The instruction at a place of the alphabet.
#[tactic(auto, unfolding(crate::specs::Alphabet::alphabet))]
pub(crate) fn instr_at(k: u8, pool: &Pool, place: u64) -> Option<Instr>
    requires some { 0 < k }
    requires few { k ≤ 4 }
    ensures { result ≡ slice_get (alphabet k pool.now) place }
{
    nth_of(rows(), k, pool, place)
}

/// An instruction's place in the alphabet.
pub(crate) fn place_of(numbering: &Numbering<'_>, instr: &Instr) -> Option<u64>
    requires { IsNumbering numbering.now }
    ensures value { IsPlace result (alphabet numbering.now.registers numbering.now.pool.now) instr.now }
    ensures small { IfSome result (λ i. i < 16384) }
{
    let parts = parts(instr);
    match rank(parts.kind) {
        None => None,
        Some(row) => {
            let place = place_of_parts(numbering.registers, numbering.pool, &parts);
            numbering.behind(row, place)
        }
    }
}

fn total_of(rows: &[Kind], k: u8, pool: &Pool) -> u64
    requires few { k ≤ 4 }
    requires listed { All (λ t. IsSome (rank t)) rows.now }
    requires short { length rows.now ≤ 37 }
    ensures value { result ≡ length (flat_map (members k pool.now) rows.now) }
    ensures small { result ≤ 4096 * length rows.now }
{
    let mut total = 0;
    for row in rows {
        total += size_of(*row, k, pool);
    }
    total
}

#[tactic(auto, using(crate::proofs::Numbered::pieces))]
fn nth_of(rows: &[Kind], k: u8, pool: &Pool, place: u64) -> Option<Instr>
    requires few { k ≤ 4 }
    requires listed { All (λ t. IsSome (rank t)) rows.now }
    ensures { result ≡ slice_get (flat_map (members k pool.now) rows.now) place }
{
    let mut left = place;
    for row in rows {
        let count = size_of(*row, k, pool);
        if left < count {
            return member(*row, k, pool, left);
        }
        left -= count;
    }
    None
}
