//! The instructions of a site.

ghost use Rattle.std.specs.Prelude.{◌≡◌, ◌++◌, ◌∷◌, [], length, IfOk, OnOk};
ghost use Rattle.b3_ir.specs.Types as types;
ghost use Rattle.stackmap.specs.Placing.{registers_for};
ghost use Rattle.stackmap.specs.Registers.{constraints_of, stackmap_in};
ghost use Rattle.stackmap.specs.Rules.{IsPlaceable};
ghost use Rattle.air_ir.specs.Expressed as expressed;
ghost use Rattle.air_stackmap.specs.SiteCode as code;

use crate::child::Child;
use crate::moves::push_moves;
use crate::operands::{push_changed, push_reported};
use air_ir::{AirInst, AirInsts, AirOp, Arg, Home, Operand, Operands, Role};
use b3_base::{NoMemory, Width};
use b3_ir::{Body, Constraint, Reg, Ty, Value};
use stackmap::{has_result, registers_for, result_register};
use std::alloc::Global;

/// Adds the operands that the stackmap of a value asks for beside its result.
fn push_asked(
    operands: &mut Operands,
    v: &Value,
    registers: &[Option<Reg>],
    children: &[Child],
) -> Result<(), NoMemory>
    requires placeable { IsPlaceable v.now }
    requires registers { registers.now ≡ registers_for v.now }
    requires children { length children.now ≡ length registers.now }
    ensures { OnOk result (operands.new ≡ operands.old ++ code.reported v.now children.now ++ code.changed v.now) }
{
    match &v.body {
        Body::Map(map) => {
            push_reported(operands, v, map, registers, children)?;
            push_changed(operands, v, map, registers)
        }
        _ => Ok(()),
    }
}

/// Adds the moves of the children of a site, and its instruction.
fn push_site(
    alloc: Global,
    insts: &mut AirInsts,
    v: &Value,
    op: AirOp,
    inputs: Operands,
    children: &[Child],
    results: &[Operand],
) -> Result<(), NoMemory>
    requires placeable { IsPlaceable v.now }
    requires children { length children.now ≡ length (constraints_of v.now) }
    ensures { OnOk result (insts.new ≡ insts.old ++ code.site_code v.now op inputs children.now results.now) }
{
    let registers = registers_for(alloc, v)?;
    let mut operands = inputs;
    push_asked(&mut operands, v, registers.as_slice(), children)?;
    operands.extend(results)?;
    push_moves(alloc, insts, v, registers.as_slice(), children)?;
    insts.push(AirInst {
        op,
        operands,
        value: v.id,
        traps: false,
    })
}

/// Adds the instructions of a check: the moves that put its reported children into their registers, and its op, which
/// computes with the inputs and writes the results. All of its children stand in their places before the op, so that
/// nothing is moved where it leaves the procedure. It is refused for want of memory alone.
pub fn push_check(
    alloc: Global,
    insts: &mut AirInsts,
    v: &Value,
    op: AirOp,
    inputs: Operands,
    children: &[Child],
    results: &[Operand],
) -> Result<(), NoMemory>
    requires placeable { IsPlaceable v.now }
    requires children { length children.now ≡ length (constraints_of v.now) }
    ensures { OnOk result (insts.new ≡ insts.old ++ code.site_code v.now op inputs children.now results.now) }
{
    push_site(alloc, insts, v, op, inputs, children, results)
}

fn width_of(ty: Ty) -> Width
    ensures { result ≡ types.width_of ty }
{
    match ty {
        Ty::Int32 => Width::W32,
        _ => Width::W64,
    }
}

/// What the result of a patchpoint of a constraint is.
fn result_role(constraint: Constraint) -> Role
    ensures { result ≡ expressed.result_role constraint }
{
    match constraint {
        Constraint::SomeEarlyRegister => Role::EarlyDef,
        _ => Role::Def,
    }
}

/// The result of a patchpoint, where it has one.
fn patch_result(v: &Value) -> Option<Operand>
    requires { IsPlaceable v.now }
    ensures { code.listed_result result ≡ code.patch_results v.now }
{
    let reg = result_register(v)?;
    match &v.body {
        Body::Map(map) => Some(Operand {
            role: result_role(map.result),
            width: width_of(v.ty),
            arg: Arg::At(Home::Reg(reg)),
        }),
        _ => None,
    }
}

/// The op of a patchpoint.
fn patch_op(v: &Value) -> AirOp
    ensures { result ≡ code.patch_op v.now }
{
    let typed = has_result(v);
    match &v.body {
        Body::Map(map) => AirOp::Patch {
            size: map.size,
            typed,
        },
        _ => AirOp::Patch { size: 1, typed },
    }
}

/// Adds the instructions of a Patchpoint: the moves that put its reported children into their registers, and the patch
/// with its result. It is refused for want of memory alone.
pub fn push_patch(
    alloc: Global,
    insts: &mut AirInsts,
    v: &Value,
    children: &[Child],
) -> Result<(), NoMemory>
    requires placeable { IsPlaceable v.now }
    requires children { length children.now ≡ length (constraints_of v.now) }
    ensures { OnOk result (insts.new ≡ insts.old ++ code.patch_code v.now children.now) }
{
    let op = patch_op(v);
    let inputs = Operands::new(alloc);
    match patch_result(v) {
        Some(result) => push_site(alloc, insts, v, op, inputs, children, &[result]),
        None => push_site(alloc, insts, v, op, inputs, children, &[]),
    }
}
