//! The object of a module: each procedure is selected, rewritten, laid out, emitted and resolved.
#![tactic(auto)]

mod object;
mod procedure;

pub use object::module_object;
pub use procedure::{ProcedureText, coloured, placed_procedure, procedure_text};
