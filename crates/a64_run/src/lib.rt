//! The run of the machine over an object: when a machine start may begin a procedure, the start of
//! the B3 run that agrees with it, and the run itself (DDI 0487 for instructions, AAPCS64 for calls).
#![tactic(auto)]

mod bytes;
mod clobbers;
mod entry;
mod execute;
mod fault;
mod find;
mod hidden;
mod laws;
mod leaving;
mod memories;
mod outside;
mod placement;
mod running;
mod saved;
mod text;
mod touching;

pub use fault::PlaceFault;
pub use laws::ended_runs_agree;
pub use placement::place;
pub use running::run;
