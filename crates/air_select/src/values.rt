//! The instructions of a value.

ghost use Rattle.std.specs.Prelude.{◌≡◌, ◌++◌, ◌∷◌, [], false, map, OnOk, IfOk};
ghost use Rattle.air_select.specs.Sited.{SuitsSite, touches};
ghost use Rattle.air_select.specs.Selected as code;
ghost use Rattle.air_fold.specs.Values as values;

use crate::access::{push_frame_pointer, push_load, push_slot, push_store};
use crate::code::{four, one, push, push_move, three, two};
use crate::rows::{condition, op_of, turned};
use crate::site::push_site;
use crate::tables::{
    Tables, argument, def_at, first_extra, home, result_of, second_extra, use_at, use_child,
};
use air_fold::{bit_of, child, is_comparison, width_of, word_in};
use air_ir::{AirInsts, AirOp, Arg, Home, Operand, Operands, Test};
use b3_base::{NoMemory, Width, Words};
use b3_ir::{Body, Opcode, Reg, Value};
use b3_meaning::Extent;
use std::alloc::Global;

/// The test of a condition.
pub(crate) fn test_of(t: &Tables, id: u32) -> Test
    ensures { result ≡ (code.condition_of t.now id).test }
{
    if !t.folds(id) {
        return Test::NonZero;
    }
    let known = t.index.known(id);
    if is_comparison(known.opcode) {
        Test::Compare(condition(known.opcode))
    } else {
        Test::Bit(bit_of(t.index.known(known.second).word))
    }
}

/// The operands that the test of a condition is over.
pub(crate) fn tested(alloc: Global, t: &Tables, id: u32) -> Result<Operands, NoMemory>
    ensures { IfOk result (λ os. os ≡ (code.condition_of t.now id).over) }
{
    if !t.folds(id) {
        return one(alloc, t.use_of(id));
    }
    let known = t.index.known(id);
    if is_comparison(known.opcode) {
        two(alloc, t.use_of(known.first), t.use_of(known.second))
    } else {
        one(alloc, t.use_of(known.first))
    }
}

/// The uses of the children of a value, and its result.
fn over_children(alloc: Global, t: &Tables, v: &Value) -> Result<Operands, NoMemory>
    ensures { IfOk result (λ os. os ≡ map (code.use_of t.now) v.now.children ++ code.result_of t.now v.now ∷ []) }
{
    let mut operands = Operands::new(alloc);
    let children = v.children.as_slice();
    for id in children {
        operands.push(t.use_of(*id))?;
    }
    operands.push(result_of(t, v))?;
    Ok(operands)
}

/// Adds one instruction over the children.
fn push_op(
    alloc: Global,
    insts: &mut AirInsts,
    t: &Tables,
    v: &Value,
    op: AirOp,
) -> Result<(), NoMemory>
    ensures { OnOk result (insts.new ≡ insts.old ++ code.computes t.now v.now op) }
{
    let operands = over_children(alloc, t, v)?;
    push(insts, v.id, op, operands)
}

/// Adds the division of a remainder.
fn push_quotient(
    alloc: Global,
    insts: &mut AirInsts,
    t: &Tables,
    v: &Value,
    divide: AirOp,
) -> Result<(), NoMemory>
    ensures { OnOk result (insts.new ≡ insts.old ++ code.quotient_of t.now v.now divide ∷ []) }
{
    let to = def_at(width_of(v.ty), first_extra(&t.index, v.id));
    let operands = three(alloc, use_child(t, v, 0), use_child(t, v, 1), to)?;
    push(insts, v.id, divide, operands)
}

/// Adds the subtraction of a remainder.
fn push_rest(
    alloc: Global,
    insts: &mut AirInsts,
    t: &Tables,
    v: &Value,
    to: Home,
) -> Result<(), NoMemory>
    ensures { OnOk result (insts.new ≡ insts.old ++ code.rest_into t.now v.now to ∷ []) }
{
    let width = width_of(v.ty);
    let quotient = use_at(width, Arg::At(first_extra(&t.index, v.id)));
    let operands = four(
        alloc,
        quotient,
        use_child(t, v, 1),
        use_child(t, v, 0),
        def_at(width, to),
    )?;
    push(insts, v.id, AirOp::MulSub, operands)
}

/// Adds the choice of a remainder, which is 0 where the divisor is.
fn push_choice(alloc: Global, insts: &mut AirInsts, t: &Tables, v: &Value) -> Result<(), NoMemory>
    ensures { OnOk result (insts.new ≡ insts.old ++ code.chosen_rest t.now v.now ∷ []) }
{
    let width = width_of(v.ty);
    let operands = four(
        alloc,
        use_child(t, v, 1),
        use_at(width, Arg::At(second_extra(&t.index, v.id))),
        use_at(width, Arg::At(first_extra(&t.index, v.id))),
        result_of(t, v),
    )?;
    push(insts, v.id, AirOp::SelectIf(Test::NonZero), operands)
}

/// Adds a remainder.
fn push_remainder(
    alloc: Global,
    insts: &mut AirInsts,
    t: &Tables,
    v: &Value,
    divide: AirOp,
) -> Result<(), NoMemory>
    ensures { OnOk result (insts.new ≡ insts.old ++ code.remainder t.now v.now divide) }
{
    push_quotient(alloc, insts, t, v, divide)?;
    if v.kind.chill {
        push_rest(alloc, insts, t, v, second_extra(&t.index, v.id))?;
        return push_choice(alloc, insts, t, v);
    }
    push_rest(alloc, insts, t, v, home(&t.index, v.id))
}

/// Adds a rotation right.
fn push_rotation(
    alloc: Global,
    insts: &mut AirInsts,
    t: &Tables,
    v: &Value,
    amount: Arg,
) -> Result<(), NoMemory>
    ensures { OnOk result (insts.new ≡ insts.old ++ code.rotate_by t.now v.now amount ∷ []) }
{
    let operands = three(
        alloc,
        use_child(t, v, 0),
        use_at(Width::W32, amount),
        result_of(t, v),
    )?;
    push(insts, v.id, AirOp::Ror, operands)
}

/// Adds a rotation left.
fn push_rotate_left(
    alloc: Global,
    insts: &mut AirInsts,
    t: &Tables,
    v: &Value,
) -> Result<(), NoMemory>
    ensures { OnOk result (insts.new ≡ insts.old ++ code.rotate_left t.now v.now) }
{
    let amount = child(&v.children, 1);
    if t.folds(amount) {
        let word = turned(width_of(v.ty), t.index.known(amount).word);
        return push_rotation(alloc, insts, t, v, Arg::Imm(word));
    }
    let extra = first_extra(&t.index, v.id);
    let operands = two(alloc, use_child(t, v, 1), def_at(Width::W32, extra))?;
    push(insts, v.id, AirOp::Neg, operands)?;
    push_rotation(alloc, insts, t, v, Arg::At(extra))
}

/// Adds three operands.
fn push_three(operands: &mut Operands, a: Operand, b: Operand, c: Operand) -> Result<(), NoMemory>
    ensures { OnOk result (operands.new ≡ operands.old ++ a ∷ b ∷ c ∷ []) }
{
    operands.push(a)?;
    operands.push(b)?;
    operands.push(c)
}

/// The operands of a choice: those of its test, the two words, and the result.
fn choice(alloc: Global, t: &Tables, v: &Value) -> Result<Operands, NoMemory>
    ensures { IfOk result (λ os. os ≡ (code.condition_of t.now (values.child v.now.children 0)).over
        ++ code.use_of t.now (values.child v.now.children 1) ∷ code.use_of t.now (values.child v.now.children 2)
        ∷ code.result_of t.now v.now ∷ []) }
{
    let mut operands = tested(alloc, t, child(&v.children, 0))?;
    let first = use_child(t, v, 1);
    let second = use_child(t, v, 2);
    push_three(&mut operands, first, second, result_of(t, v))?;
    Ok(operands)
}

/// Adds a choice by a condition.
fn push_select(alloc: Global, insts: &mut AirInsts, t: &Tables, v: &Value) -> Result<(), NoMemory>
    ensures { OnOk result (insts.new ≡ insts.old
        ++ code.select_on t.now v.now (code.condition_of t.now (values.child v.now.children 0))) }
{
    let operands = choice(alloc, t, v)?;
    let test = test_of(t, child(&v.children, 0));
    push(insts, v.id, AirOp::SelectIf(test), operands)
}

/// Adds a branch by a condition.
fn push_branch(alloc: Global, insts: &mut AirInsts, t: &Tables, v: &Value) -> Result<(), NoMemory>
    ensures { OnOk result (insts.new ≡ insts.old
        ++ code.branch_on t.now v.now (code.condition_of t.now (values.child v.now.children 0))) }
{
    let id = child(&v.children, 0);
    let operands = tested(alloc, t, id)?;
    push(insts, v.id, AirOp::BranchIf(test_of(t, id)), operands)
}

/// The cases of a Switch.
fn cases_in(alloc: Global, body: &Body) -> Result<Words, NoMemory>
    ensures { IfOk result (λ cases. cases ≡ code.cases_in body.now) }
{
    match body {
        Body::Cases { cases, .. } => cases.copy(alloc),
        _ => Ok(Words::new(alloc)),
    }
}

/// Adds a switch.
fn push_switch(alloc: Global, insts: &mut AirInsts, t: &Tables, v: &Value) -> Result<(), NoMemory>
    ensures { OnOk result (insts.new ≡ insts.old
        ++ code.inst v.now (AirOp.Switch (code.cases_in v.now.body))
        (code.use_of t.now (values.child v.now.children 0) ∷ []) ∷ []) }
{
    let cases = cases_in(alloc, &v.body)?;
    let operands = one(alloc, use_child(t, v, 0))?;
    push(insts, v.id, AirOp::Switch(cases), operands)
}

/// Adds a return.
fn push_return(alloc: Global, insts: &mut AirInsts, t: &Tables, v: &Value) -> Result<(), NoMemory>
    ensures { OnOk result (insts.new ≡ insts.old ++ code.return_of t.now v.now v.now.children) }
{
    if v.children.is_empty() {
        return push(insts, v.id, AirOp::Return, Operands::new(alloc));
    }
    let id = *v.children.get(0);
    let width = t.index.width_at(id);
    let x0 = Home::Reg(Reg(0));
    push_move(alloc, insts, v.id, width, t.arg_of(id), x0)?;
    let operands = one(alloc, use_at(width, Arg::At(x0)))?;
    push(insts, v.id, AirOp::Return, operands)
}

fn register_in(body: &Body) -> u8
    ensures { result ≡ code.register_in body.now }
{
    match body {
        Body::Argument(reg) => reg.0,
        _ => 0,
    }
}

fn phi_in(body: &Body) -> u32
    ensures { result ≡ code.phi_in body.now }
{
    match body {
        Body::Target(phi) => *phi,
        _ => 0,
    }
}

/// The width, the source and the destination of a value that copies a word.
fn copied(t: &Tables, v: &Value) -> (Width, Arg, Home)
    ensures { result ≡ code.copied t.now v.now.kind.opcode v.now }
{
    let width = width_of(v.ty);
    let to = home(&t.index, v.id);
    let id = child(&v.children, 0);
    match v.kind.opcode {
        Opcode::ArgumentReg => {
            let from = argument(&t.index, register_in(&v.body));
            (Width::W64, Arg::At(from), to)
        }
        Opcode::Trunc => (Width::W32, t.arg_of(id), to),
        Opcode::Upsilon => {
            let location = first_extra(&t.index, phi_in(&v.body));
            (t.index.width_at(id), t.arg_of(id), location)
        }
        Opcode::Phi => (width, Arg::At(first_extra(&t.index, v.id)), to),
        _ => (width, Arg::Imm(word_in(&v.body)), to),
    }
}

/// Adds an instruction without operands.
fn push_bare(alloc: Global, insts: &mut AirInsts, v: &Value, op: AirOp) -> Result<(), NoMemory>
    ensures { OnOk result (insts.new ≡ insts.old ++ code.inst v.now op [] ∷ []) }
{
    push(insts, v.id, op, Operands::new(alloc))
}

/// Adds the copy of a value that copies a word.
fn push_copy(alloc: Global, insts: &mut AirInsts, t: &Tables, v: &Value) -> Result<(), NoMemory>
    ensures { OnOk result (insts.new ≡ insts.old
        ++ code.copy_of v.now (code.copied t.now v.now.kind.opcode v.now) ∷ []) }
{
    let (width, from, to) = copied(t, v);
    push_move(alloc, insts, v.id, width, from, to)
}

/// Adds the instructions of a value that touches neither memory nor the outside.
fn push_quiet(alloc: Global, insts: &mut AirInsts, t: &Tables, v: &Value) -> Result<(), NoMemory>
    requires { touches v.now.kind.opcode ≡ false }
    ensures { OnOk result (insts.new ≡ insts.old ++ code.code_of t.now v.now.kind.opcode v.now) }
{
    match v.kind.opcode {
        Opcode::Nop => Ok(()),
        Opcode::Const32
        | Opcode::Const64
        | Opcode::ArgumentReg
        | Opcode::Trunc
        | Opcode::Upsilon
        | Opcode::Phi => push_copy(alloc, insts, t, v),
        Opcode::Mod => push_remainder(alloc, insts, t, v, AirOp::Div),
        Opcode::UMod => push_remainder(alloc, insts, t, v, AirOp::UDiv),
        Opcode::RotL => push_rotate_left(alloc, insts, t, v),
        Opcode::Select => push_select(alloc, insts, t, v),
        Opcode::Jump => push_bare(alloc, insts, v, AirOp::Jump),
        Opcode::Oops => push_bare(alloc, insts, v, AirOp::Oops),
        Opcode::Branch => push_branch(alloc, insts, t, v),
        Opcode::Switch => push_switch(alloc, insts, t, v),
        Opcode::Return => push_return(alloc, insts, t, v),
        opcode => push_op(alloc, insts, t, v, op_of(opcode)),
    }
}

/// Adds the instructions of a value that isn't folded.
fn push_code(alloc: Global, insts: &mut AirInsts, t: &Tables, v: &Value) -> Result<(), NoMemory>
    requires { SuitsSite v.now }
    ensures { OnOk result (insts.new ≡ insts.old ++ code.code_of t.now v.now.kind.opcode v.now) }
{
    match v.kind.opcode {
        Opcode::FramePointer => push_frame_pointer(alloc, insts, t, v),
        Opcode::SlotBase => push_slot(alloc, insts, t, v),
        Opcode::Load8Z => push_load(alloc, insts, t, v, AirOp::Load8Z, Extent::Byte),
        Opcode::Load8S => push_load(alloc, insts, t, v, AirOp::Load8S, Extent::Byte),
        Opcode::Load16Z => push_load(alloc, insts, t, v, AirOp::Load16Z, Extent::Half),
        Opcode::Load16S => push_load(alloc, insts, t, v, AirOp::Load16S, Extent::Half),
        Opcode::Load => push_load(alloc, insts, t, v, AirOp::Load, Extent::Whole),
        Opcode::Store8 => push_store(alloc, insts, t, v, AirOp::Store8, Extent::Byte),
        Opcode::Store16 => push_store(alloc, insts, t, v, AirOp::Store16, Extent::Half),
        Opcode::Store => push_store(alloc, insts, t, v, AirOp::Store, Extent::Whole),
        Opcode::CCall
        | Opcode::Patchpoint
        | Opcode::Check
        | Opcode::CheckAdd
        | Opcode::CheckSub
        | Opcode::CheckMul => push_site(alloc, insts, t, v),
        _ => push_quiet(alloc, insts, t, v),
    }
}

/// Adds the instructions of a value.
#[tactic(auto, unfolding(crate::specs::Selected::value_code))]
pub(crate) fn push_value(
    alloc: Global,
    insts: &mut AirInsts,
    t: &Tables,
    v: &Value,
) -> Result<(), NoMemory>
    requires { SuitsSite v.now }
    ensures { OnOk result (insts.new ≡ insts.old ++ code.value_code t.now v.now) }
{
    if t.folds(v.id) {
        return Ok(());
    }
    push_code(alloc, insts, t, v)
}
