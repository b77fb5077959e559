//! The frame of a procedure of Air: where its stack slots, its spill places and the registers that it saves
//! stand.
#![tactic(auto)]

mod frame;
mod laws;
mod placing;
mod registers;
mod spills;

pub use frame::layout;
pub use laws::spill_counts;
