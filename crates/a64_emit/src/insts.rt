//! Instructions that don't end their block: operands are fetched, the op works on registers, and its result is put in
//! its place.

ghost use Rattle.std.specs.Prelude.{◌≡◌, ◌+◌, ◌++◌, ◌≤◌, true, [], ◌∷◌, length, OnOk};
ghost use Rattle.a64_emit.specs.Code.{arg_at, breaks, call_inst, compute_code, copy_code, copy_reg, bring, fetch, fetch_below, fetch_tested, inner_items, operand_at, put_result, result_at, result_reg, select_code, set_code, source_at, source_of, test_at, test_count, width_at, with_mark};
ghost use Rattle.a64_code.specs.Fitting.{IsComputed, IsTested};
ghost use Rattle.a64_emit.specs.Fitting.{IsFitting};
ghost use Rattle.a64_code.specs.Places.{plains};

use crate::accesses::{push_frame_address, push_loaded, push_stored, slot_offset};
use crate::shuffles::push_shuffle;
use crate::sites::push_mark;
use a64_code::{
    Source, above_sp, computing, condition, move_reg, opposite, push, push_constant, push_load,
    push_store, reg_of, spill_offset, takes_two, testing,
};
use a64_inst::{BranchKind, Inst, Labelled};
use air_ir::{AirOp, Arg, Frame, Home, Operand, Operands, Role, Test};
use b3_base::{NoMemory, Width};
use std::alloc::Global;

/// Operand k; where there is none, the constant 0.
pub(crate) fn operand_at(operands: &Operands, k: usize) -> Operand
    ensures { result ≡ operand_at operands.now k }
{
    if k < operands.len() {
        return *operands.get(k);
    }
    Operand {
        role: Role::Use,
        width: Width::W64,
        arg: Arg::Imm(0),
    }
}

/// Where the word of an argument is once it is fetched with this scratch register.
pub(crate) fn source_of(scratch: u8, arg: Arg) -> Source
    ensures { result ≡ source_of scratch arg }
{
    match arg {
        Arg::At(Home::Reg(reg)) => Source::InReg(reg.0),
        Arg::Imm(word) => Source::Constant(word),
        _ => Source::InReg(scratch),
    }
}

pub(crate) fn source_at(operands: &Operands, k: usize, scratch: u8) -> Source
    ensures { result ≡ source_at operands.now k scratch }
{
    source_of(scratch, operand_at(operands, k).arg)
}

/// What stands in a spill place is loaded into the scratch register.
#[tactic(auto, unfolding(crate::specs::Code::fetch))]
pub(crate) fn push_fetch(
    code: &mut Labelled,
    frame: &Frame,
    scratch: u8,
    arg: Arg,
) -> Result<(), NoMemory>
    ensures { OnOk result (code.new ≡ code.old ++ plains (fetch frame.now scratch arg)) }
{
    match arg {
        Arg::At(Home::Spill(number)) => {
            push_load(code, scratch, above_sp(frame, spill_offset(frame, number)))
        }
        _ => Ok(()),
    }
}

/// Operand k is fetched where it is one of the first n.
fn push_fetch_below(
    code: &mut Labelled,
    n: usize,
    frame: &Frame,
    operands: &Operands,
    k: usize,
    scratch: u8,
) -> Result<(), NoMemory>
    ensures { OnOk result (code.new ≡ code.old ++ plains (fetch_below n frame.now operands.now k scratch)) }
{
    if k < n {
        return push_fetch(code, frame, scratch, operand_at(operands, k).arg);
    }
    Ok(())
}

/// The register in which a result is made.
pub(crate) fn result_reg(arg: Arg) -> u8
    ensures { result ≡ result_reg arg }
{
    match arg {
        Arg::At(Home::Reg(reg)) => reg.0,
        _ => 17,
    }
}

/// A result is stored where its place is a spill place.
#[tactic(auto, unfolding(crate::specs::Code::put_result))]
pub(crate) fn push_result(
    code: &mut Labelled,
    frame: &Frame,
    reg: u8,
    arg: Arg,
) -> Result<(), NoMemory>
    ensures { OnOk result (code.new ≡ code.old ++ plains (put_result frame.now reg arg)) }
{
    match arg {
        Arg::At(Home::Spill(number)) => {
            push_store(code, reg, above_sp(frame, spill_offset(frame, number)))
        }
        _ => Ok(()),
    }
}

/// The last operand.
pub(crate) fn result_at(operands: &Operands) -> Arg
    ensures { result ≡ result_at operands.now }
{
    operand_at(operands, operands.len().saturating_sub(1)).arg
}

// ---- copies

/// A word is brought to a register.
#[tactic(auto, unfolding(crate::specs::Code::bring))]
fn push_bring(
    code: &mut Labelled,
    frame: &Frame,
    width: Width,
    reg: u8,
    arg: Arg,
) -> Result<(), NoMemory>
    ensures { OnOk result (code.new ≡ code.old ++ plains (bring frame.now width reg arg)) }
{
    match arg {
        Arg::At(Home::Reg(from)) => {
            if reg == from.0 {
                return Ok(());
            }
            push(code, move_reg(width, reg, from.0))
        }
        Arg::At(Home::Spill(number)) => {
            push_load(code, reg, above_sp(frame, spill_offset(frame, number)))
        }
        Arg::Imm(word) => push_constant(code, width, reg, word),
        _ => Ok(()),
    }
}

/// The register to which a copied word is brought, and from which it is stored in a spill place.
fn copy_reg(from: Arg, to: Arg) -> u8
    ensures { result ≡ copy_reg from to }
{
    match (from, to) {
        (Arg::At(Home::Reg(reg)), Arg::At(Home::Spill(_))) => reg.0,
        (_, Arg::At(Home::Spill(_))) => 16,
        _ => result_reg(to),
    }
}

/// A word is copied to a home.
pub(crate) fn push_copy(
    code: &mut Labelled,
    frame: &Frame,
    width: Width,
    from: Arg,
    to: Arg,
) -> Result<(), NoMemory>
    ensures { OnOk result (code.new ≡ code.old ++ plains (copy_code frame.now width from to)) }
{
    push_bring(code, frame, width, copy_reg(from, to), from)?;
    push_result(code, frame, copy_reg(from, to), to)
}

// ---- ops that compute

fn push_compute(
    code: &mut Labelled,
    frame: &Frame,
    op: &AirOp,
    operands: &Operands,
) -> Result<(), NoMemory>
    requires { IsComputed op.now (width_at operands.now 0) (source_at operands.now 1 16) }
    ensures { OnOk result (code.new ≡ code.old ++ plains (compute_code frame.now op.now operands.now)) }
{
    let to = result_at(operands);
    let n = operands.len().saturating_sub(1);
    push_fetch_below(code, n, frame, operands, 0, 15)?;
    push_fetch_below(code, n, frame, operands, 1, 16)?;
    push_fetch_below(code, n, frame, operands, 2, 17)?;
    let inst = computing(
        op,
        operand_at(operands, 0).width,
        result_reg(to),
        source_at(operands, 0, 15),
        source_at(operands, 1, 16),
        source_at(operands, 2, 17),
    );
    push(code, inst)?;
    push_result(code, frame, result_reg(to), to)
}

/// How many words a test takes.
pub(crate) fn test_count(test: Test) -> usize
    ensures value { result ≡ test_count test }
    ensures most { result ≤ 2 }
{
    if takes_two(test) { 2 } else { 1 }
}

/// The words that a test takes are fetched.
pub(crate) fn push_tested(
    code: &mut Labelled,
    frame: &Frame,
    test: Test,
    operands: &Operands,
) -> Result<(), NoMemory>
    ensures { OnOk result (code.new ≡ code.old ++ plains (fetch_tested frame.now test operands.now)) }
{
    push_fetch(code, frame, 15, operand_at(operands, 0).arg)?;
    push_fetch_below(code, test_count(test), frame, operands, 1, 16)
}

/// What sets the flags of a test.
pub(crate) fn test_at(test: Test, operands: &Operands) -> Inst
    requires { IsTested test (width_at operands.now 0) (source_at operands.now 1 16) }
    ensures { result ≡ test_at test operands.now }
{
    testing(
        test,
        operand_at(operands, 0).width,
        source_at(operands, 0, 15),
        source_at(operands, 1, 16),
    )
}

fn push_set(
    code: &mut Labelled,
    frame: &Frame,
    test: Test,
    operands: &Operands,
) -> Result<(), NoMemory>
    requires { IsTested test (width_at operands.now 0) (source_at operands.now 1 16) }
    ensures { OnOk result (code.new ≡ code.old ++ plains (set_code frame.now test operands.now)) }
{
    let to = result_at(operands);
    push_tested(code, frame, test, operands)?;
    push(code, test_at(test, operands))?;
    push(
        code,
        Inst::Select {
            width: Width::W32,
            inc: true,
            rd: result_reg(to),
            rn: 31,
            rm: 31,
            cond: opposite(condition(test)),
        },
    )?;
    push_result(code, frame, result_reg(to), to)
}

fn push_select(
    code: &mut Labelled,
    frame: &Frame,
    test: Test,
    operands: &Operands,
) -> Result<(), NoMemory>
    requires { IsTested test (width_at operands.now 0) (source_at operands.now 1 16) }
    ensures { OnOk result (code.new ≡ code.old ++ plains (select_code frame.now test operands.now)) }
{
    let to = result_at(operands);
    let n = test_count(test);
    push_tested(code, frame, test, operands)?;
    push(code, test_at(test, operands))?;
    push_fetch(code, frame, 15, operand_at(operands, n).arg)?;
    push_fetch(code, frame, 16, operand_at(operands, n + 1).arg)?;
    push(
        code,
        Inst::Select {
            width: operand_at(operands, n).width,
            inc: false,
            rd: result_reg(to),
            rn: reg_of(source_at(operands, n, 15)),
            rm: reg_of(source_at(operands, n + 1, 16)),
            cond: condition(test),
        },
    )?;
    push_result(code, frame, result_reg(to), to)
}

// ---- calls and patchpoints

/// A call of the function in operand 0, with a mark right before it.
fn push_call(
    code: &mut Labelled,
    frame: &Frame,
    mark: u32,
    operands: &Operands,
) -> Result<(), NoMemory>
    ensures { OnOk result (code.new ≡ code.old
        ++ with_mark true mark (fetch frame.now 15 (arg_at operands.now 0)) (call_inst operands.now ∷ [])) }
{
    push_fetch(code, frame, 15, operand_at(operands, 0).arg)?;
    push_mark(code, true, mark)?;
    let rn = reg_of(source_at(operands, 0, 15));
    push(
        code,
        Inst::BranchReg {
            kind: BranchKind::Blr,
            rn,
        },
    )
}

/// So many words that are filled in later, with a mark right before them.
fn push_patch(code: &mut Labelled, mark: u32, size: u32) -> Result<(), NoMemory>
    ensures { OnOk result (code.new ≡ code.old ++ with_mark true mark [] (breaks size)) }
{
    push_mark(code, true, mark)?;
    for _i in 0..size {
        push(code, Inst::Break { imm: 2 })?;
    }
    Ok(())
}

/// The items of an instruction that doesn't end its block, where its mark has this number.
#[tactic(auto, unfolding(crate::specs::Code::inner_items, crate::specs::Code::inst_code))]
pub(crate) fn push_inst(
    alloc: Global,
    code: &mut Labelled,
    frame: &Frame,
    mark: u32,
    traps: bool,
    op: &AirOp,
    operands: &Operands,
) -> Result<(), NoMemory>
    requires { IsFitting op.now operands.now }
    ensures { OnOk result (code.new ≡ code.old ++ inner_items frame.now mark traps op.now operands.now) }
{
    match op {
        AirOp::Move => push_copy(
            code,
            frame,
            operand_at(operands, 0).width,
            operand_at(operands, 0).arg,
            operand_at(operands, 1).arg,
        ),
        AirOp::Shuffle => push_shuffle(alloc, code, frame, operands),
        AirOp::SetIf(test) => push_set(code, frame, *test, operands),
        AirOp::SelectIf(test) => push_select(code, frame, *test, operands),
        AirOp::Load8Z | AirOp::Load8S | AirOp::Load16Z | AirOp::Load16S | AirOp::Load => {
            push_loaded(code, frame, mark, traps, op, operands)
        }
        AirOp::Store8 | AirOp::Store16 | AirOp::Store => {
            push_stored(code, frame, mark, traps, op, operands)
        }
        AirOp::Call { .. } => push_call(code, frame, mark, operands),
        AirOp::Patch { size, .. } => push_patch(code, mark, *size),
        AirOp::SlotAddress => {
            let bytes = slot_offset(frame, operand_at(operands, 0).arg);
            push_frame_address(code, frame, bytes, operand_at(operands, 1).arg)
        }
        AirOp::FramePointer => push_frame_address(code, frame, 0, operand_at(operands, 0).arg),
        _ => push_compute(code, frame, op, operands),
    }
}
