//! Objects: the code, symbols and tables of a text, and their file, an ELF-64 object for AArch64.
#![tactic(auto)]

mod fault;
mod field;
mod file;
mod header;
mod layout;
mod object;
mod parts;
mod reader;
mod section;
mod symbols;

pub use fault::ObjectFault;
pub use file::write;
pub use object::{Object, Symbol, Symbols};
pub use reader::read;
