//! The first 64 states of a table are generated from its seed alone, so that an auditor can generate them again.
ghost use Rattle.std.specs.Prelude.{◌≡◌, ◌<◌, map, IfOk};
ghost use Rattle.window_exec.specs.State.{seen};
ghost use Rattle.fingerprints.specs.Seeded.{next_state, seeded_states};
ghost use Rattle.fingerprints.specs.Laws.{FirstOf42};

use rand_core::utils::NextWord;
use rand_pcg::Lcg64Xsh32;
use std::alloc::{AllocError, Global};
use window_exec::{States, WState};

/// The next state from the generator: four words for r0 to r3, and one whose low four bits are the flags NZCV.
fn next_state(rng: &mut Lcg64Xsh32) -> WState
    ensures value { seen result ≡ (next_state rng.old).0 }
    ensures after { rng.new ≡ (next_state rng.old).1 }
{
    let first = rng.next_word();
    let second = rng.next_word();
    let third = rng.next_word();
    let fourth = rng.next_word();
    let flags = rng.next_word() % 16;
    WState {
        r: [first, second, third, fourth],
        nzcv: flags as u8,
    }
}

/// The 64 states of a seed, by the generator PCG XSH RR 64/32 with stream 54.
pub fn seeded(alloc: Global, seed: u32) -> Result<States, AllocError>
    ensures { IfOk result (λ states. map seen states ≡ seeded_states seed) }
{
    let states = seeded_vec(alloc, seed)?;
    Ok(States::new(states))
}

fn seeded_vec(alloc: Global, seed: u32) -> Result<Vec<WState>, AllocError>
    ensures { IfOk result (λ states. map seen states.items ≡ seeded_states seed) }
{
    let mut rng = Lcg64Xsh32::new(u64::from(seed), 54);
    let mut states = Vec::new(alloc);
    for _turn in 0..64u32 {
        states.push(next_state(&mut rng))?;
    }
    Ok(states)
}

/// The first state of seed 42 has the words a15c02b7, 7b47f409, ba1d3330 and 83d2f293, and the flags b.
#[tactic(auto, using(crate::proofs::Seeds::first_of_42))]
pub fn first_state_of_42()
    ensures { FirstOf42 }
{}
