//! Procedures of Air.

ghost use Rattle.std.specs.Prelude.{◌≡◌, IfOk};

use crate::op::AirOp;
use crate::operand::Operands;
use b3_base::{Ids, NoMemory, Seq};
use stackmap::Returns;
use std::alloc::Global;

/// An instruction. `value` is the id of the B3 value that it is made for; an access that `traps` ends the
/// run where it touches a byte that isn't mapped.
#[derive(Drop)]
pub struct AirInst {
    pub op: AirOp,
    pub operands: Operands,
    pub value: u32,
    pub traps: bool,
}

/// The instructions of a block, in order.
pub type AirInsts = Seq<AirInst>;

/// A block, and the numbers of the blocks to which its last instruction may go.
#[derive(Drop)]
pub struct AirBlock {
    pub insts: AirInsts,
    pub targets: Ids,
}

/// The blocks of a procedure, in order; block 0 is its entry.
pub type AirBlocks = Seq<AirBlock>;

/// A procedure: its temporaries are those below `tmps`, its stack slots have these sizes in bytes, and it
/// returns nothing or a word of a width.
#[derive(Drop)]
pub struct AirProc {
    pub blocks: AirBlocks,
    pub tmps: u32,
    pub slots: Ids,
    pub returns: Returns,
}

impl AirInst {
    /// An equal instruction of its own. It is refused for want of memory alone.
    pub fn copy(&self, alloc: Global) -> Result<AirInst, NoMemory>
        ensures { IfOk result (λ inst. inst ≡ self.now) }
    {
        Ok(AirInst {
            op: self.op.copy(alloc)?,
            operands: self.operands.copy(alloc)?,
            value: self.value,
            traps: self.traps,
        })
    }
}
