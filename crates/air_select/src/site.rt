//! Patchpoints and checks, and with calls the values that make a site.

ghost use Rattle.std.specs.Prelude.{◌≡◌, ◌++◌, ◌∷◌, [], true, drop, length, map, OnOk, IfOk};
ghost use Rattle.stackmap.specs.Registers.{constraints_of};
ghost use Rattle.stackmap.specs.Rules.{IsPlaceable};
ghost use Rattle.air_fold.specs.Values as values;
ghost use Rattle.air_select.specs.Selected as code;
ghost use Rattle.air_select.specs.Sited.{SuitsSite, is_site};

use crate::call::{behind, push_call};
use crate::code::{push_move, two};
use crate::tables::{Tables, home, result_of, use_child};
use crate::values::{test_of, tested};
use air_fold::{Known, child, is_constant, width_of};
use air_ir::{AirInsts, AirOp, Arg, Home};
use air_stackmap::{Child, push_check, push_patch};
use b3_base::{NoMemory, Seq};
use b3_ir::{Opcode, Reg, Value};
use stackmap::result_register;
use std::alloc::Global;

/// The word of a constant.
fn constant_in(known: Known) -> Option<u64>
    ensures { result ≡ code.constant_in known }
{
    if is_constant(known.opcode) {
        Some(known.word)
    } else {
        None
    }
}

/// What a site finds of a reported child.
fn child_of(t: &Tables, id: u32) -> Child
    ensures { result ≡ code.child_of t.now id }
{
    Child {
        width: t.index.width_at(id),
        home: home(&t.index, id),
        constant: constant_in(t.index.known(id)),
    }
}

/// The same of some children.
fn children_of(alloc: Global, t: &Tables, ids: &[u32]) -> Result<Seq<Child>, NoMemory>
    ensures { IfOk result (λ cs. cs ≡ map (code.child_of t.now) ids.now) }
{
    let mut list = Seq::new(alloc);
    for id in ids {
        list.push(child_of(t, *id))?;
    }
    Ok(list)
}

/// Adds a check of a result.
fn push_checked(
    alloc: Global,
    insts: &mut AirInsts,
    t: &Tables,
    v: &Value,
    op: AirOp,
) -> Result<(), NoMemory>
    requires placeable { IsPlaceable v.now }
    requires counts { length (drop 2 v.now.children) ≡ length (constraints_of v.now) }
    ensures { OnOk result (insts.new ≡ insts.old ++ code.checked_of t.now v.now op) }
{
    let children = children_of(alloc, t, behind(&v.children, 2))?;
    let inputs = two(alloc, use_child(t, v, 0), use_child(t, v, 1))?;
    let results = [result_of(t, v)];
    push_check(alloc, insts, v, op, inputs, children.as_slice(), &results)
}

/// Adds a check of a condition.
fn push_check_on(alloc: Global, insts: &mut AirInsts, t: &Tables, v: &Value) -> Result<(), NoMemory>
    requires placeable { IsPlaceable v.now }
    requires counts { length (drop 1 v.now.children) ≡ length (constraints_of v.now) }
    ensures { OnOk result (insts.new ≡ insts.old
        ++ code.check_on t.now v.now (code.condition_of t.now (values.child v.now.children 0))) }
{
    let children = children_of(alloc, t, behind(&v.children, 1))?;
    let id = child(&v.children, 0);
    let inputs = tested(alloc, t, id)?;
    let op = AirOp::CheckIf(test_of(t, id));
    push_check(alloc, insts, v, op, inputs, children.as_slice(), &[])
}

/// Adds the move of the result of a patchpoint into its home.
fn push_patched(
    alloc: Global,
    insts: &mut AirInsts,
    t: &Tables,
    v: &Value,
    from: Option<Reg>,
) -> Result<(), NoMemory>
    ensures { OnOk result (insts.new ≡ insts.old ++ code.patched_from t.now v.now from) }
{
    match from {
        Some(reg) => {
            let to = home(&t.index, v.id);
            push_move(
                alloc,
                insts,
                v.id,
                width_of(v.ty),
                Arg::At(Home::Reg(reg)),
                to,
            )
        }
        None => Ok(()),
    }
}

/// Adds a patchpoint.
fn push_patchpoint(
    alloc: Global,
    insts: &mut AirInsts,
    t: &Tables,
    v: &Value,
) -> Result<(), NoMemory>
    requires placeable { IsPlaceable v.now }
    requires counts { length v.now.children ≡ length (constraints_of v.now) }
    ensures { OnOk result (insts.new ≡ insts.old ++ code.patchpoint_of t.now v.now) }
{
    let children = children_of(alloc, t, v.children.as_slice())?;
    push_patch(alloc, insts, v, children.as_slice())?;
    push_patched(alloc, insts, t, v, result_register(v))
}

/// Adds a call, a patchpoint or a check.
pub(crate) fn push_site(
    alloc: Global,
    insts: &mut AirInsts,
    t: &Tables,
    v: &Value,
) -> Result<(), NoMemory>
    requires suits { SuitsSite v.now }
    requires site { is_site v.now.kind.opcode ≡ true }
    ensures { OnOk result (insts.new ≡ insts.old ++ code.code_of t.now v.now.kind.opcode v.now) }
{
    match v.kind.opcode {
        Opcode::CCall => push_call(alloc, insts, t, v),
        Opcode::Patchpoint => push_patchpoint(alloc, insts, t, v),
        Opcode::Check => push_check_on(alloc, insts, t, v),
        Opcode::CheckAdd => push_checked(alloc, insts, t, v, AirOp::CheckAdd),
        Opcode::CheckSub => push_checked(alloc, insts, t, v, AirOp::CheckSub),
        Opcode::CheckMul => push_checked(alloc, insts, t, v, AirOp::CheckMul),
        _ => Ok(()),
    }
}
