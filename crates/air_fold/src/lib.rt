//! Which values of a procedure are folded into the instructions of their uses.
#![tactic(auto)]

mod accesses;
mod index;
mod known;
mod rows;
mod uses;

pub use accesses::{is_offset, whole_offset};
pub use index::{Index, index_of};
pub use known::{Known, child, offset_in, word_in};
pub use rows::{bit_of, is_comparison, is_constant, width_of};
pub use uses::folded_values;
