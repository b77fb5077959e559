//! Trials: the text that says what a run starts from, read; what is seen of a run, printed; and the text of a large
//! module, made from a number.
#![tactic(auto)]

mod fault;
mod generating;
mod line;
mod numbers;
mod reading;
mod showing;
mod so_far;
mod words;

pub use fault::TrialFault;
pub use generating::generate;
pub use reading::{Trial, read_trial};
pub use showing::show;
