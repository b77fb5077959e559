//! What B3 procedures mean: the words of opcodes, accesses, block steps and runs, as definitions,
//! and the opcode table as a call.
#![tactic(auto)]

mod laws;
mod opcodes;
mod role;
mod words;

pub use laws::keeping_laws;
pub use opcodes::fold;
pub use role::{Checked, Extent, Role, role_of};
