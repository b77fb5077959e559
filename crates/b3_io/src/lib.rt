//! Sources and sinks: where bytes come from and where they go, in memory or outside the process,
//! with each failure counted.
#![tactic(auto)]

mod absent_source;
mod fault_count;
mod script;
mod script_sink;
mod script_source;
mod sink;
mod slice_source;
mod source;
mod std_streams;
mod transfer;
mod vec_sink;

pub use absent_source::AbsentSource;
use fault_count::FaultCount;
use script::Script;
pub use script_sink::ScriptSink;
pub use script_source::ScriptSource;
pub use sink::Sink;
pub use slice_source::SliceSource;
pub use source::{Failed, Source};
pub use std_streams::{StdSink, StdSource};
pub use transfer::{ReadAll, WriteFault, read_all, write_all};
pub use vec_sink::VecSink;
