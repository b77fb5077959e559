//! The homes of a procedure of Air as the names of a flow, which of them are live where, and which interfere.
#![tactic(auto)]

mod flow;
mod laws;
mod touches;

pub use flow::AirFlow;
pub use laws::{kept_homes, live_homes, proper_assignments};
