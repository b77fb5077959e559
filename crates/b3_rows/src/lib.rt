//! Rows: what one line of a text says, and how a row is spelled in the canonical text.
#![tactic(auto)]

mod gathered;
mod laws;
mod row;
mod rows;
mod values;

pub use laws::{lines_fit, rows_are_in_range};
pub use row::Row;
pub use rows::read_row;
