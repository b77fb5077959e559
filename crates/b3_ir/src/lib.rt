//! B3 procedures: types, opcodes and their table, values, and procedures and modules as lists of lists.
#![tactic(auto)]

mod children;
mod name;
mod opcode;
mod procedure;
mod reg_set;
mod table;
mod types;
mod value;

pub use children::Children;
pub use ir_arena::NodeId;
pub use name::is_name;
pub use opcode::{Kind, Opcode, Ty};
pub use procedure::{BlockLine, Module, Proc, SlotLine};
pub use reg_set::RegSet;
pub use table::{Carries, Flag, Gives, More, Takes};
pub use types::allows_types;
pub use value::{Body, Constraint, Constraints, Reg, Stackmap, Value};
