//! Liveness: the items, registers and flags, that are live before and after each place of a listing, which a path from there reads before it writes them;
//! and those before each place of a code, kept while windows of it give way to other instructions.
//!
//! Each place is visited once, the last first, and again where a set to which its ways lead has grown: when the set before a place grows, its predecessors
//! wait for another visit. A set is a word of 19 bits, so a visit treats all items at once. The ways of each place are worked out once, and so are the
//! places that lead to each label, and the code points. One set for all code points, which grows with theirs, stands in for them where a branch goes to
//! an address in a register.
//!
//! Where a window gives way to fewer instructions, the places that are left over hold a nop, so the ways change only within the window.
//! Three things are done then. What is read for sure, along ways that all lead to greater places, is worked out anew from the window down, as far as it
//! changes. What the window may have kept live is cleared backwards, as far as it isn't read for sure. And what is still read grows back from the places
//! that were cleared. A place is looked at only where something changes, or where a way leads to a change.
#![tactic(auto)]

mod changing;
mod clearing;
mod counted;
mod finding;
mod flowing;
mod forward;
pub mod graph;
mod growing;
mod kept;
mod kept_live;
mod passing;
mod sets;
mod settling;
mod stack;
mod starting;
mod visiting;
mod waiting;
mod walk;
mod window;

pub use finding::{all_ways, live};
pub use kept_live::KeptLive;
pub use sets::Live;
pub use settling::{settle, some_leads};
pub use visiting::{Found, Seen, look};
