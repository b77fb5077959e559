//! Air: code over temporaries, registers and spill places, between B3 and AArch64. Its types, and as
//! definitions the operands that each op takes, what it means, and the run of a procedure.
#![tactic(auto)]

mod assignment;
mod frame;
mod laws;
mod op;
mod operand;
mod procedure;

pub use assignment::Assignment;
pub use frame::Frame;
pub use laws::same_blocks_laws;
pub use op::{AirOp, Test, is_terminal};
pub use operand::{Arg, Home, Operand, Operands, Role, is_read};
pub use procedure::{AirBlock, AirBlocks, AirInst, AirInsts, AirProc};
