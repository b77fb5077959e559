//! The run of a B3 procedure, block step by block step.
#![tactic(auto)]

mod access;
mod calls;
mod checks;
mod children;
mod effect;
mod run;
mod state;
mod terminals;
mod types;
mod words;

pub use run::eval;
