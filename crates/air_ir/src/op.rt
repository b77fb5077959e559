//! What instructions of Air do.

ghost use Rattle.std.specs.Prelude.{◌≡◌, IfOk};
ghost use Rattle.air_ir.specs.Kinds.{is_terminal};

use a64_inst::Cond;
use b3_base::{NoMemory, Words};
use std::alloc::Global;

/// A test of the words of the first operands.
#[derive(Clone, Copy, Debug, PartialEq, Eq)]
pub enum Test {
    /// Of two words: the condition holds of the flags of the first less the second.
    Compare(Cond),
    /// Of one word: it isn't 0.
    NonZero,
    /// Of one word: this bit of it is set.
    Bit(u32),
}

/// What an instruction does. Operands stand in the order that is given, what is written last.
#[derive(Drop)]
pub enum AirOp {
    /// Copies a word.
    Move,
    /// Copies words, all at once: pairs of a source and a destination.
    Shuffle,
    Add,
    Sub,
    Neg,
    Mul,
    /// The third word less the product of the first two.
    MulSub,
    /// The signed quotient, rounded toward 0; 0 by 0.
    Div,
    /// The unsigned quotient; 0 by 0.
    UDiv,
    And,
    Or,
    Xor,
    /// Shifts and rotations, by the second word modulo the width.
    Lsl,
    Lsr,
    Asr,
    Ror,
    /// Leading zeros.
    Clz,
    SExt8,
    SExt16,
    SExt32,
    ZExt32,
    /// The high 64 bits of the signed product.
    MulHigh,
    /// The high 64 bits of the unsigned product.
    UMulHigh,
    /// Loads, with zeros or the sign above what is loaded.
    Load8Z,
    Load8S,
    Load16Z,
    Load16S,
    Load,
    /// Stores of the low bytes of the first word at the second, an address.
    Store8,
    Store16,
    Store,
    /// 1 where the test passes, else 0.
    SetIf(Test),
    /// The first word behind the test where it passes, else the second.
    SelectIf(Test),
    /// Leaves the procedure where the test passes, and reports the words behind it.
    CheckIf(Test),
    /// The sum; leaves the procedure where it is no signed word, and reports the words from the third on.
    CheckAdd,
    /// The difference, likewise.
    CheckSub,
    /// The product, likewise.
    CheckMul,
    /// Goes to the block's first target where the test passes, else to its second.
    BranchIf(Test),
    /// Goes to the block's target.
    Jump,
    /// Goes to the target of the first of these cases that is equal to the word, else to the last one.
    Switch(Words),
    /// Calls the function at the first word with the others, and has its result where it is typed.
    Call { typed: bool },
    /// A patchpoint of so many words of code, and has its result where it is typed.
    Patch { size: u32, typed: bool },
    /// Returns to the caller, with a word where there is one.
    Return,
    /// Is never reached.
    Oops,
    /// The address of a stack slot.
    SlotAddress,
    /// The frame pointer.
    FramePointer,
}

/// Whether an instruction of this op ends its block.
pub fn is_terminal(op: &AirOp) -> bool
    ensures { result ≡ is_terminal op.now }
{
    matches!(
        op,
        AirOp::BranchIf(_) | AirOp::Jump | AirOp::Switch(_) | AirOp::Return | AirOp::Oops
    )
}

impl AirOp {
    /// An equal op of its own. It is refused for want of memory alone.
    pub fn copy(&self, alloc: Global) -> Result<AirOp, NoMemory>
        ensures { IfOk result (λ op. op ≡ self.now) }
    {
        match self {
            AirOp::Move => Ok(AirOp::Move),
            AirOp::Shuffle => Ok(AirOp::Shuffle),
            AirOp::Add => Ok(AirOp::Add),
            AirOp::Sub => Ok(AirOp::Sub),
            AirOp::Neg => Ok(AirOp::Neg),
            AirOp::Mul => Ok(AirOp::Mul),
            AirOp::MulSub => Ok(AirOp::MulSub),
            AirOp::Div => Ok(AirOp::Div),
            AirOp::UDiv => Ok(AirOp::UDiv),
            AirOp::And => Ok(AirOp::And),
            AirOp::Or => Ok(AirOp::Or),
            AirOp::Xor => Ok(AirOp::Xor),
            AirOp::Lsl => Ok(AirOp::Lsl),
            AirOp::Lsr => Ok(AirOp::Lsr),
            AirOp::Asr => Ok(AirOp::Asr),
            AirOp::Ror => Ok(AirOp::Ror),
            AirOp::Clz => Ok(AirOp::Clz),
            AirOp::SExt8 => Ok(AirOp::SExt8),
            AirOp::SExt16 => Ok(AirOp::SExt16),
            AirOp::SExt32 => Ok(AirOp::SExt32),
            AirOp::ZExt32 => Ok(AirOp::ZExt32),
            AirOp::MulHigh => Ok(AirOp::MulHigh),
            AirOp::UMulHigh => Ok(AirOp::UMulHigh),
            AirOp::Load8Z => Ok(AirOp::Load8Z),
            AirOp::Load8S => Ok(AirOp::Load8S),
            AirOp::Load16Z => Ok(AirOp::Load16Z),
            AirOp::Load16S => Ok(AirOp::Load16S),
            AirOp::Load => Ok(AirOp::Load),
            AirOp::Store8 => Ok(AirOp::Store8),
            AirOp::Store16 => Ok(AirOp::Store16),
            AirOp::Store => Ok(AirOp::Store),
            AirOp::SetIf(test) => Ok(AirOp::SetIf(*test)),
            AirOp::SelectIf(test) => Ok(AirOp::SelectIf(*test)),
            AirOp::CheckIf(test) => Ok(AirOp::CheckIf(*test)),
            AirOp::CheckAdd => Ok(AirOp::CheckAdd),
            AirOp::CheckSub => Ok(AirOp::CheckSub),
            AirOp::CheckMul => Ok(AirOp::CheckMul),
            AirOp::BranchIf(test) => Ok(AirOp::BranchIf(*test)),
            AirOp::Jump => Ok(AirOp::Jump),
            AirOp::Switch(cases) => Ok(AirOp::Switch(cases.copy(alloc)?)),
            AirOp::Call { typed } => Ok(AirOp::Call { typed: *typed }),
            AirOp::Patch { size, typed } => Ok(AirOp::Patch {
                size: *size,
                typed: *typed,
            }),
            AirOp::Return => Ok(AirOp::Return),
            AirOp::Oops => Ok(AirOp::Oops),
            AirOp::SlotAddress => Ok(AirOp::SlotAddress),
            AirOp::FramePointer => Ok(AirOp::FramePointer),
        }
    }
}
