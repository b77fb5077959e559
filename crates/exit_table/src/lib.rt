//! The frame section and the exit section of an object: what they say, and how they are spelled.
#![tactic(auto)]

mod exit_reader;
mod exits;
mod fault;
mod frame_reader;
mod frames;
mod laws;
mod reader;
mod reading;
mod tables;
mod taken;

pub use exits::write_exits;
pub use fault::TableFault;
pub use frames::write_frames;
pub use laws::{first_fault_stays, no_fault_before};
pub use reader::read;
pub use tables::{FrameRow, FrameRows, SiteRow, SiteRows, Tables};
