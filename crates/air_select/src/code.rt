//! Instructions.

ghost use Rattle.std.specs.Prelude.{◌≡◌, ◌++◌, ◌∷◌, [], OnOk, IfOk};
ghost use Rattle.air_select.specs.Selected as code;

use crate::tables::{def_at, use_at};
use air_ir::{AirInst, AirInsts, AirOp, Arg, Home, Operand, Operands};
use b3_base::{NoMemory, Width};
use b3_ir::Value;
use std::alloc::Global;

/// Adds an instruction that is made for a value, by its id.
pub(crate) fn push(
    insts: &mut AirInsts,
    value: u32,
    op: AirOp,
    operands: Operands,
) -> Result<(), NoMemory>
    ensures { OnOk result (insts.new ≡ insts.old ++ code.entry_inst value op operands ∷ []) }
{
    insts.push(AirInst {
        op,
        operands,
        value,
        traps: false,
    })
}

/// Adds a load or a store, which traps where its value does.
pub(crate) fn push_access(
    insts: &mut AirInsts,
    v: &Value,
    op: AirOp,
    operands: Operands,
) -> Result<(), NoMemory>
    ensures { OnOk result (insts.new ≡ insts.old ++ code.access v.now op operands ∷ []) }
{
    insts.push(AirInst {
        op,
        operands,
        value: v.id,
        traps: v.kind.traps,
    })
}

/// One operand.
pub(crate) fn one(alloc: Global, a: Operand) -> Result<Operands, NoMemory>
    ensures { IfOk result (λ os. os ≡ a ∷ []) }
{
    let mut operands = Operands::new(alloc);
    operands.push(a)?;
    Ok(operands)
}

/// Two operands.
pub(crate) fn two(alloc: Global, a: Operand, b: Operand) -> Result<Operands, NoMemory>
    ensures { IfOk result (λ os. os ≡ a ∷ b ∷ []) }
{
    let mut operands = one(alloc, a)?;
    operands.push(b)?;
    Ok(operands)
}

/// Three operands.
pub(crate) fn three(alloc: Global, a: Operand, b: Operand, c: Operand) -> Result<Operands, NoMemory>
    ensures { IfOk result (λ os. os ≡ a ∷ b ∷ c ∷ []) }
{
    let mut operands = two(alloc, a, b)?;
    operands.push(c)?;
    Ok(operands)
}

/// Four operands.
pub(crate) fn four(
    alloc: Global,
    a: Operand,
    b: Operand,
    c: Operand,
    d: Operand,
) -> Result<Operands, NoMemory>
    ensures { IfOk result (λ os. os ≡ a ∷ b ∷ c ∷ d ∷ []) }
{
    let mut operands = three(alloc, a, b, c)?;
    operands.push(d)?;
    Ok(operands)
}

/// Adds a copy of a word.
pub(crate) fn push_move(
    alloc: Global,
    insts: &mut AirInsts,
    value: u32,
    width: Width,
    from: Arg,
    to: Home,
) -> Result<(), NoMemory>
    ensures { OnOk result (insts.new ≡ insts.old
        ++ code.entry_inst value AirOp.Move (code.use_at width from ∷ code.def_at width to ∷ []) ∷ []) }
{
    let operands = two(alloc, use_at(width, from), def_at(width, to))?;
    push(insts, value, AirOp::Move, operands)
}
