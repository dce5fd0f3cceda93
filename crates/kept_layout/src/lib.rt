//! A layout that is kept while windows give way to at most as many instructions. A replacement looks only at the blocks that move, up to where all the rest
//! stays, or moves by one distance that no padding and no literal notices.
#![tactic(auto)]

mod alignments;
pub mod block;
mod building;
mod calm;
mod groups;
pub mod kept;
pub mod lag;
mod moving;
pub mod shrinking;
mod slack;
mod walking;

pub use kept::KeptLayout;
pub use shrinking::Move;
