//! Parallel moves carried out one after the other, by way of one scratch register.
#![tactic(auto)]

mod moves;
mod order;
mod pending;
mod sequencing;
mod writers;

pub use moves::{Move, Moves};
pub use order::sequence;
pub use sequencing::sequences_are_right;
