//! The interference graph of a procedure of Air: which temporaries and registers can't share a register, and the moves
//! between them.
#![tactic(auto)]

mod edges;
mod homes;
mod interference;
mod live;
mod met;
mod moves;
mod near;
mod pages;
mod touched;
mod walk;

pub use edges::Edges;
pub use homes::{home_at, number_of};
pub use interference::Interference;
pub use moves::Copied;
pub use walk::graph;
