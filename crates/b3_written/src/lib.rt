//! The canonical line of a row, written.
#![tactic(auto)]

mod items;
mod laws;
mod lines;
mod numbers;

pub use laws::{lines_are_cut, lines_are_short, rows_are_read, words_fit};
pub use lines::{
    write_header, write_heading, write_many, write_one, write_slot, write_two, write_value,
};
