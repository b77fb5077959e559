//! The compiler: from the bytes of a text to the bytes of an object, and the tool around it.
#![tactic(auto)]

mod command;
mod compiler;
mod ending;
mod generating;
mod laws;
mod tool;
mod trying;

pub use command::{Command, command_of};
pub use compiler::{Fault, compile, print};
pub use ending::Ending;
pub use generating::generate_object;
pub use laws::{compiled_never_malformed, evaluated_runs_agree};
pub use tool::{OBJECT_LIMIT, TEXT_LIMIT, run_tool};
pub use trying::{EvalFault, Evaluated, RunFault, eval_text, run_file};
