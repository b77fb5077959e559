//! Labelled code becomes words, and each conditional branch is as short as it can be.
#![tactic(auto)]

mod branch;
mod layout;
mod places;
mod text;

pub use branch::Test;
pub use text::{Text, resolve};
