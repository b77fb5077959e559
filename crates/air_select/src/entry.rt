//! The entry block, and what is returned.

ghost use Rattle.std.specs.Prelude.{◌≡◌, ◌++◌, ◌∷◌, [], ◌<◌, length, None, Some, OnOk, IfOk, IfSome};
ghost use Rattle.b3_ir.specs.Naming.{all_values};
ghost use Rattle.b3_ir.specs.Procedure.{values_of};
ghost use Rattle.b3_rules.specs.Rules.{first_return};
ghost use Rattle.air_select.specs.Returning as returning;
ghost use Rattle.air_select.specs.Selected as code;

use crate::code::{push, push_move};
use crate::tables::argument;
use air_fold::Index;
use air_ir::{AirBlock, AirInsts, AirOp, Arg, Home, Operands};
use b3_base::{Ids, NoMemory, Width};
use b3_ir::{Body, Opcode, Proc, Reg, Ty, Value};
use stackmap::Returns;
use std::alloc::Global;

/// Whether a value is the argument in a register.
fn names_register(r: u8, value: &Value) -> bool
    ensures { result ≡ code.names_register r value.now.kind.opcode value.now.body }
{
    match (value.kind.opcode, &value.body) {
        (Opcode::ArgumentReg, Body::Argument(reg)) => reg.0 == r,
        _ => false,
    }
}

/// Whether some value of block 0 is the argument in a register.
fn names_argument(p: &Proc, r: u8) -> bool
    requires { 0 < length p.now.procedure.blocks }
    ensures { result ≡ code.names_argument (values_of p.now.procedure 0) r }
{
    let mut at = p.first(0);
    while let Some(node) = at {
        if names_register(r, p.value(node)) {
            return true;
        }
        at = p.next(node);
    }
    false
}

/// The id of the last value of block 0.
fn last_id(p: &Proc) -> u32
    requires { 0 < length p.now.procedure.blocks }
    ensures { result ≡ code.last_id (values_of p.now.procedure 0) }
{
    let mut id = 0;
    let mut at = p.first(0);
    while let Some(node) = at {
        id = p.value(node).id;
        at = p.next(node);
    }
    id
}

/// Adds the moves of the arguments that are named.
fn push_arguments(
    alloc: Global,
    insts: &mut AirInsts,
    p: &Proc,
    index: &Index,
    value: u32,
) -> Result<(), NoMemory>
    requires { 0 < length p.now.procedure.blocks }
    ensures { OnOk result (insts.new ≡ insts.old
        ++ code.argument_moves index.now (values_of p.now.procedure 0) value 8) }
{
    for r in 0..8u8 {
        if names_argument(p, r) {
            let from = Arg::At(Home::Reg(Reg(r)));
            push_move(alloc, insts, value, Width::W64, from, argument(index, r))?;
        }
    }
    Ok(())
}

/// The block that runs once, on the way to block 0 of B3.
#[tactic(auto, unfolding(crate::specs::Selected::entry_of))]
pub(crate) fn entry(alloc: Global, p: &Proc, index: &Index) -> Result<AirBlock, NoMemory>
    requires { 0 < length p.now.procedure.blocks }
    ensures { IfOk result (λ b. b ≡ code.entry_of index.now (values_of p.now.procedure 0)) }
{
    let value = last_id(p);
    let mut insts = AirInsts::new(alloc);
    push_arguments(alloc, &mut insts, p, index, value)?;
    push(&mut insts, value, AirOp::Jump, Operands::new(alloc))?;
    let mut targets = Ids::new(alloc);
    targets.push(1)?;
    Ok(AirBlock { insts, targets })
}

// ---- what is returned

/// What a Return returns.
fn returns_of(index: &Index, value: &Value) -> Returns
    ensures { result ≡ code.returns_child index.now value.now.children }
{
    if value.children.is_empty() {
        return Returns::Nothing;
    }
    match index.known(*value.children.get(0)).ty {
        Ty::Int32 => Returns::W32,
        Ty::Void | Ty::Int64 => Returns::W64,
    }
}

/// Whether a value is a Return.
fn is_return(value: &Value) -> bool
    ensures { result ≡ returning.is_return value.now.kind.opcode }
{
    matches!(value.kind.opcode, Opcode::Return)
}

/// The first Return of a block.
fn return_in(p: &Proc, block: usize) -> Option<&Value>
    requires { block < length p.now.procedure.blocks }
    ensures none { result ≡ None → first_return (values_of p.now.procedure block) ≡ None }
    ensures some { IfSome result (λ value. first_return (values_of p.now.procedure block) ≡ Some value.now) }
{
    let mut at = p.first(block);
    while let Some(node) = at {
        let value = p.value(node);
        if is_return(value) {
            return Some(value);
        }
        at = p.next(node);
    }
    None
}

/// What the first Return of a procedure returns, nothing where there is none.
pub(crate) fn returns(p: &Proc, index: &Index) -> Returns
    ensures { result ≡ code.returns_by index.now (first_return (all_values p.now.procedure)) }
{
    for block in 0..p.blocks() {
        if let Some(value) = return_in(p, block) {
            return returns_of(index, value);
        }
    }
    Returns::Nothing
}
