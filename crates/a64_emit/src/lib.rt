//! Emission: a procedure of Air in registers and spill places becomes labelled code of AArch64.
#![tactic(auto)]

mod accesses;
mod case;
mod checks;
mod insts;
mod procedure;
mod shuffles;
mod sites;
mod switched;
mod terminals;

pub use procedure::{Emitted, emit};
