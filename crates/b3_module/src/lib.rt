//! Reads the text of a module, exactly: what is no text is refused with its bad line, and what passes a
//! limit with the first line that does.
#![tactic(auto)]

mod adding;
mod counting;
mod fault;
mod laws;
mod place;
mod reading;

pub use fault::{LimitName, TextFault};
pub use laws::{
    limits_are_counted, lines_are_free, rows_spell, successors_are_few, texts_are_listed,
    texts_are_named,
};
pub use reading::read;
