//! The rows of opcodes: which ops they are.

ghost use Rattle.std.specs.Prelude.{◌≡◌};
ghost use Rattle.air_select.specs.Selected as code;

use a64_inst::Cond;
use air_ir::{AirOp, Test};
use b3_base::Width;
use b3_ir::Opcode;

/// The condition of a comparison.
pub(crate) fn condition(opcode: Opcode) -> Cond
    ensures { result ≡ code.condition opcode }
{
    match opcode {
        Opcode::Equal => Cond::Eq,
        Opcode::LessThan => Cond::Lt,
        Opcode::GreaterThan => Cond::Gt,
        Opcode::LessEqual => Cond::Le,
        Opcode::GreaterEqual => Cond::Ge,
        Opcode::Above => Cond::Hi,
        Opcode::Below => Cond::Lo,
        Opcode::AboveEqual => Cond::Hs,
        Opcode::BelowEqual => Cond::Ls,
        _ => Cond::Ne,
    }
}

/// The op of an opcode that is one instruction over its children.
pub(crate) fn op_of(opcode: Opcode) -> AirOp
    ensures { result ≡ code.op_of opcode }
{
    match opcode {
        Opcode::Add => AirOp::Add,
        Opcode::Sub => AirOp::Sub,
        Opcode::Mul => AirOp::Mul,
        Opcode::BitAnd => AirOp::And,
        Opcode::BitOr => AirOp::Or,
        Opcode::BitXor => AirOp::Xor,
        Opcode::Neg => AirOp::Neg,
        Opcode::Div => AirOp::Div,
        Opcode::UDiv => AirOp::UDiv,
        Opcode::Shl => AirOp::Lsl,
        Opcode::SShr => AirOp::Asr,
        Opcode::ZShr => AirOp::Lsr,
        Opcode::RotR => AirOp::Ror,
        Opcode::Clz => AirOp::Clz,
        Opcode::SExt8 => AirOp::SExt8,
        Opcode::SExt16 => AirOp::SExt16,
        Opcode::SExt32 => AirOp::SExt32,
        Opcode::ZExt32 => AirOp::ZExt32,
        Opcode::Identity => AirOp::Move,
        _ => AirOp::SetIf(Test::Compare(condition(opcode))),
    }
}

/// The amount of a rotation right that is one left by this amount.
pub(crate) fn turned(width: Width, amount: u64) -> u64
    ensures { result ≡ code.turned width amount }
{
    let bits = u64::from(width.bits());
    (bits - amount % bits) % bits
}
