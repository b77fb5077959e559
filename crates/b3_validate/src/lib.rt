//! Whether a module is valid, and the first rule that it breaks.
#![tactic(auto)]

mod fault;
mod found;
mod index;
mod judge;
mod procedure;
mod spot;
mod valid;
mod values;

pub use fault::ValidateFault;
pub use judge::validate;
pub use valid::Valid;
