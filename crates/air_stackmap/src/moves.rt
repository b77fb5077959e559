//! The moves of reported children into registers.

ghost use Rattle.std.specs.Prelude.{◌≡◌, ◌++◌, ◌∷◌, [], length, IfOk, OnOk};
ghost use Rattle.stackmap.specs.Placing.{registers_for};
ghost use Rattle.air_stackmap.specs.SiteCode as code;

use crate::child::{Child, arg_of};
use air_ir::{AirInst, AirInsts, AirOp, Arg, Home, Operand, Operands, Role};
use b3_base::NoMemory;
use b3_ir::{Reg, Value};
use std::alloc::Global;

/// The operands of the move of a child into a register.
fn move_operands(alloc: Global, child: &Child, reg: Reg) -> Result<Operands, NoMemory>
    ensures { IfOk result (λ os. os ≡ code.move_operands child.now.width (code.arg_of child.now) reg) }
{
    let mut operands = Operands::new(alloc);
    operands.push(Operand {
        role: Role::Use,
        width: child.width,
        arg: arg_of(child),
    })?;
    operands.push(Operand {
        role: Role::Def,
        width: child.width,
        arg: Arg::At(Home::Reg(reg)),
    })?;
    Ok(operands)
}

/// Adds the move of a child, if it is given a register.
fn push_moved(
    alloc: Global,
    insts: &mut AirInsts,
    v: &Value,
    register: Option<Reg>,
    child: &Child,
) -> Result<(), NoMemory>
    ensures { OnOk result (insts.new ≡ insts.old ++ code.moved v.now register child.now) }
{
    match register {
        Some(reg) => insts.push(AirInst {
            op: AirOp::Move,
            operands: move_operands(alloc, child, reg)?,
            value: v.id,
            traps: false,
        }),
        None => Ok(()),
    }
}

/// Adds the moves of all children.
pub(crate) fn push_moves(
    alloc: Global,
    insts: &mut AirInsts,
    v: &Value,
    registers: &[Option<Reg>],
    children: &[Child],
) -> Result<(), NoMemory>
    requires registers { registers.now ≡ registers_for v.now }
    requires children { length children.now ≡ length registers.now }
    ensures { OnOk result (insts.new ≡ insts.old ++ code.child_moves v.now children.now) }
{
    for at in 0..children.len() {
        push_moved(alloc, insts, v, registers[at], &children[at])?;
    }
    Ok(())
}
