//! The canonical text of a module.
#![tactic(auto)]

mod again;
mod laws;
mod printing;

pub use again::print_and_read;
pub use laws::{canonical_texts_are_short, texts_are_read_again};
pub use printing::print;
