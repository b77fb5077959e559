//! Sites: the places in code at which words are reported or control may leave, the constraints of
//! their values, and the rows that describe a frame.
#![tactic(auto)]

mod constraint;
mod obeying;
mod placing;
pub mod set;
mod site;

pub use constraint::{fixed_by, has_result, is_late};
pub use obeying::obeys;
pub use placing::{
    Registers, has_registers, register_for, registers_for, result_register, with_fixed,
};
pub use site::{
    Place, Places, Rep, Returns, Saved, SavedRow, Site, SiteKind, Sites, SlotRow, SlotRows,
};
