//! Selection: the procedure of Air for a procedure of B3.
#![tactic(auto)]

mod access;
mod call;
mod code;
mod entry;
mod procedure;
mod rows;
mod site;
mod tables;
mod values;

pub use procedure::select;
