//! Enumerates instruction sequences: the alphabet over a few registers and a pool of numbers, its sequences by number, and by cost.
#![tactic(auto)]

mod alphabet;
mod by_cost;
mod cost_text;
mod costs;
pub mod laws;
mod members;
mod numbering;
mod pool;
mod rows;
mod sequences;
mod values;
mod walk;
mod weights;

pub use alphabet::size;
pub use by_cost::cheaper;
pub use cost_text::{CostLine, read_costs};
pub use costs::{Costs, weight};
pub use numbering::{Numbering, count_below, number_of};
pub use pool::Pool;
pub use rows::rank;
pub use sequences::seq_at;
pub use walk::{Walk, alphabet_instrs, instrs_at};
