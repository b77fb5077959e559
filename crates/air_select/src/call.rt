//! Calls.

ghost use Rattle.std.specs.Prelude.{◌≡◌, ◌++◌, ◌∷◌, [], ◌≤◌, drop, length, map, OnOk, IfOk};
ghost use Rattle.b3_base.specs.declared.word.Width.TheVariants.{W64};
ghost use Rattle.b3_ir.specs.Types as types;
ghost use Rattle.air_ir.specs.Forms.{call_clobbers, operand_in};
ghost use Rattle.air_ir.specs.declared.operand.Role.TheVariants.{Clobber};
ghost use Rattle.air_fold.specs.Values as values;
ghost use Rattle.air_select.specs.Selected as code;

use crate::code::{one, push, push_move};
use crate::tables::{Tables, def_at, home, use_at};
use air_fold::{child, width_of};
use air_ir::{AirInsts, AirOp, Arg, Home, Operand, Operands, Role};
use b3_base::{NoMemory, Width};
use b3_ir::{Children, Reg, Ty, Value};
use std::alloc::Global;

/// The registers that a call doesn't keep: x0 to x18 and x30 (AAPCS64, 6.1.1).
const CALL_CLOBBERS: [u8; 20] = [
    0, 1, 2, 3, 4, 5, 6, 7, 8, 9, 10, 11, 12, 13, 14, 15, 16, 17, 18, 30,
];

/// Whether a value of a type has a word.
fn has_word(ty: Ty) -> bool
    ensures { result ≡ types.has_word ty }
{
    !matches!(ty, Ty::Void)
}

/// The children behind so many.
pub(crate) fn behind(children: &Children, count: usize) -> &[u32]
    ensures { result.now ≡ drop count children.now }
{
    let ids = children.as_slice();
    if ids.len() < count {
        &[]
    } else {
        &ids[count..]
    }
}

/// Adds the moves of the arguments into x0, x1 and so on.
fn push_arguments(
    alloc: Global,
    insts: &mut AirInsts,
    t: &Tables,
    v: &Value,
    ids: &[u32],
) -> Result<(), NoMemory>
    requires { length ids.now ≤ 8 }
    ensures { OnOk result (insts.new ≡ insts.old ++ code.arguments_into t.now v.now 0 ids.now) }
{
    let mut r = 0u8;
    for id in ids {
        let width = t.index.width_at(*id);
        push_move(alloc, insts, v.id, width, t.arg_of(*id), Home::Reg(Reg(r)))?;
        r += 1;
    }
    Ok(())
}

/// Adds the uses of the arguments there.
fn push_argument_uses(operands: &mut Operands, t: &Tables, ids: &[u32]) -> Result<(), NoMemory>
    requires { length ids.now ≤ 8 }
    ensures { OnOk result (operands.new ≡ operands.old ++ code.arguments_at t.now 0 ids.now) }
{
    let mut r = 0u8;
    for id in ids {
        operands.push(use_at(t.index.width_at(*id), Arg::At(Home::Reg(Reg(r)))))?;
        r += 1;
    }
    Ok(())
}

/// Adds registers that are changed late.
fn push_changed(operands: &mut Operands, registers: &[u8]) -> Result<(), NoMemory>
    ensures { OnOk result (operands.new ≡ operands.old ++ map (operand_in Clobber W64) registers.now) }
{
    for r in registers {
        operands.push(Operand {
            role: Role::Clobber,
            width: Width::W64,
            arg: Arg::At(Home::Reg(Reg(*r))),
        })?;
    }
    Ok(())
}

/// Adds the registers that a call changes.
#[tactic(auto, unfolding(air_ir::specs::Forms::call_clobbers))]
fn push_clobbers(operands: &mut Operands) -> Result<(), NoMemory>
    ensures { OnOk result (operands.new ≡ operands.old ++ map (operand_in Clobber W64) call_clobbers) }
{
    push_changed(operands, &CALL_CLOBBERS)
}

/// Adds the result of a value in a register, where it has one.
fn push_result_into(operands: &mut Operands, v: &Value, r: u8) -> Result<(), NoMemory>
    ensures { OnOk result (operands.new ≡ operands.old ++ code.result_into v.now r) }
{
    if has_word(v.ty) {
        operands.push(def_at(width_of(v.ty), Home::Reg(Reg(r))))?;
    }
    Ok(())
}

/// Adds the move of this result into the value's home.
fn push_result_from(
    alloc: Global,
    insts: &mut AirInsts,
    t: &Tables,
    v: &Value,
    r: u8,
) -> Result<(), NoMemory>
    ensures { OnOk result (insts.new ≡ insts.old ++ code.result_from t.now v.now r) }
{
    if has_word(v.ty) {
        let from = Arg::At(Home::Reg(Reg(r)));
        let to = home(&t.index, v.id);
        push_move(alloc, insts, v.id, width_of(v.ty), from, to)?;
    }
    Ok(())
}

/// The operands of a call.
fn call_operands(alloc: Global, t: &Tables, v: &Value, ids: &[u32]) -> Result<Operands, NoMemory>
    requires { length ids.now ≤ 8 }
    ensures { IfOk result (λ os. os ≡ (code.call_to t.now v.now (values.child v.now.children 0) ids.now).operands) }
{
    let mut operands = one(alloc, t.use_of(child(&v.children, 0)))?;
    push_argument_uses(&mut operands, t, ids)?;
    push_clobbers(&mut operands)?;
    push_result_into(&mut operands, v, 0)?;
    Ok(operands)
}

/// Adds a call: the arguments are put into their registers one after the other.
pub(crate) fn push_call(
    alloc: Global,
    insts: &mut AirInsts,
    t: &Tables,
    v: &Value,
) -> Result<(), NoMemory>
    requires { length v.now.children ≤ 9 }
    ensures { OnOk result (insts.new ≡ insts.old ++ code.call_of t.now v.now) }
{
    let ids = behind(&v.children, 1);
    push_arguments(alloc, insts, t, v, ids)?;
    let operands = call_operands(alloc, t, v, ids)?;
    let typed = has_word(v.ty);
    push(insts, v.id, AirOp::Call { typed }, operands)?;
    push_result_from(alloc, insts, t, v, 0)
}
