//! Laws of the runs of valid procedures, over the definitions of the run and of the rules: no run is lost as
//! malformed, and wherever a value runs, its children have words of their types. Whoever shows that code or
//! another procedure does what a valid one does cites them, and needs no case for a run that is malformed.
#![tactic(auto)]

mod laws;

pub use laws::valid_runs;
