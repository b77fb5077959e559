//! Registers for temporaries: the interference graph is coloured, after moves were joined.
#![tactic(auto)]

mod assign;
mod choose;
mod classes;
mod colouring;
mod homes;
mod joining;
mod moves;
mod simplify;
mod waiting;
mod worklist;

pub use colouring::colour;
pub use moves::Move;
