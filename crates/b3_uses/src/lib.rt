//! The rule on uses of a valid procedure: each path to a use of a value runs its definition first.
#![tactic(auto)]

mod flow;
mod gather;
mod lists;
mod names;
mod origins;
mod uncovered;

pub use uncovered::uncovered_use;
