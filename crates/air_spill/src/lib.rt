//! Rewriting a procedure of Air by an assignment: each temporary becomes its register, or a spill place.
#![tactic(auto)]

mod operands;
mod procedure;

pub use procedure::rewrite;
