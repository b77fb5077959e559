//! The parts of the line of a value: numbers, kinds and types by their names, and items one by one.
#![tactic(auto)]

mod items;
mod numbers;
mod table;

pub use items::{
    Child, Item, Label, constraint_name, is_mark_of, label_name, next_item, read_id, read_item,
};
pub use numbers::{Number, after, read_plain, read_plain_after};
pub use table::{carries_of, name_of, read_kind, read_type, taken_by, type_text};
