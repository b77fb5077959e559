//! Checked arithmetic: instructions that tell whether a signed sum, difference or product passes its width, and those
//! that make it.
#![tactic(auto)]

mod checks;

pub use checks::{checks_are_exact, passing, push_comparing, push_making};
