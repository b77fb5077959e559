//! Instructions that end their block.

ghost use Rattle.std.specs.Prelude.{◌≡◌, ◌+◌, ◌++◌, ◌^◌, ◌<◌, get_or, OnOk};
ghost use Rattle.a64_emit.specs.Code.{branch_code, branch_item, branches, compared, inst_items, own_labels, source_at, test_at, width_at};
ghost use Rattle.a64_code.specs.Fitting.{IsTested};
ghost use Rattle.a64_emit.specs.Fitting.{IsFitting};
ghost use Rattle.a64_code.specs.Places.{plains};
ghost use Rattle.a64_emit.specs.Switched.{jump_to};

use crate::checks::{push_check, push_checked};
use crate::insts::{operand_at, push_fetch, push_inst, push_tested, source_at, test_at};
use crate::switched::push_switch;
use a64_code::{opposite, push, push_epilogue, reg_of};
use a64_inst::{Inst, Item, Labelled};
use air_ir::{AirInst, AirOp, Frame, Operands, Test};
use b3_base::{Ids, NoMemory, Width};
use b3_meaning::Checked;
use std::alloc::Global;

/// Target k of a block; 0 where there is none.
pub(crate) fn target_at(targets: &Ids, k: usize) -> u32
    ensures { result ≡ get_or targets.now k 0 }
{
    if k < targets.len() {
        return *targets.get(k);
    }
    0
}

/// A jump to a block, which costs no word where it is the next one.
pub(crate) fn push_jump(code: &mut Labelled, next: u32, label: u32) -> Result<(), NoMemory>
    ensures { OnOk result (code.new ≡ code.old ++ jump_to next label) }
{
    if label == next {
        return Ok(());
    }
    code.push(Item::Jump(label))
}

/// A branch to a label where a test passes, or where it doesn't.
pub(crate) fn branch_item(test: Test, passes: bool, width: Width, reg: u8, label: u32) -> Item
    ensures { result ≡ branch_item test passes width reg label }
{
    match test {
        Test::Compare(cond) => {
            let holds = if passes { cond } else { opposite(cond) };
            Item::If(holds, label)
        }
        Test::NonZero => Item::IfZero {
            width,
            nonzero: passes,
            reg,
            label,
        },
        Test::Bit(bit) => Item::IfBit {
            nonzero: passes,
            reg,
            bit,
            label,
        },
    }
}

/// The branches to the two targets of a test.
fn push_branches(
    code: &mut Labelled,
    test: Test,
    width: Width,
    reg: u8,
    next: u32,
    targets: &Ids,
) -> Result<(), NoMemory>
    ensures { OnOk result (code.new ≡ code.old
        ++ branches test width reg next (get_or targets.now 0 0) (get_or targets.now 1 0)) }
{
    let then_label = target_at(targets, 0);
    let else_label = target_at(targets, 1);
    if then_label == next {
        return code.push(branch_item(test, false, width, reg, else_label));
    }
    code.push(branch_item(test, true, width, reg, then_label))?;
    push_jump(code, next, else_label)
}

/// The comparison of a test that asks flags.
pub(crate) fn push_compared(
    code: &mut Labelled,
    test: Test,
    operands: &Operands,
) -> Result<(), NoMemory>
    requires { IsTested test (width_at operands.now 0) (source_at operands.now 1 16) }
    ensures { OnOk result (code.new ≡ code.old ++ plains (compared test operands.now)) }
{
    match test {
        Test::Compare(_) => push(code, test_at(test, operands)),
        _ => Ok(()),
    }
}

fn push_branch(
    code: &mut Labelled,
    frame: &Frame,
    next: u32,
    targets: &Ids,
    test: Test,
    operands: &Operands,
) -> Result<(), NoMemory>
    requires { IsTested test (width_at operands.now 0) (source_at operands.now 1 16) }
    ensures { OnOk result (code.new ≡ code.old ++ branch_code frame.now next targets.now test operands.now) }
{
    push_tested(code, frame, test, operands)?;
    push_compared(code, test, operands)?;
    let width = operand_at(operands, 0).width;
    let reg = reg_of(source_at(operands, 0, 15));
    push_branches(code, test, width, reg, next, targets)
}

/// The items of an instruction of a block with these targets, before the block `next`. A Switch may use labels from
/// `label` on, and the exit of a check has that one; a mark has this number.
#[tactic(auto, unfolding(crate::specs::Code::inst_items))]
pub(crate) fn push_items(
    alloc: Global,
    code: &mut Labelled,
    frame: &Frame,
    next: u32,
    label: u32,
    mark: u32,
    targets: &Ids,
    inst: &AirInst,
) -> Result<(), NoMemory>
    requires fits { IsFitting inst.now.op inst.now.operands }
    requires labels { label + own_labels inst.now.op < 2 ^ 32 }
    ensures { OnOk result (code.new ≡ code.old
        ++ inst_items frame.now next label mark targets.now inst.now.traps inst.now.op inst.now.operands) }
{
    match &inst.op {
        AirOp::BranchIf(test) => push_branch(code, frame, next, targets, *test, &inst.operands),
        AirOp::Jump => push_jump(code, next, target_at(targets, 0)),
        AirOp::Switch(cases) => {
            push_fetch(code, frame, 15, operand_at(&inst.operands, 0).arg)?;
            let width = operand_at(&inst.operands, 0).width;
            let reg = reg_of(source_at(&inst.operands, 0, 15));
            push_switch(alloc, code, width, reg, next, label, cases, targets)
        }
        AirOp::Return => push_epilogue(code, frame),
        AirOp::Oops => push(code, Inst::Break { imm: 3 }),
        AirOp::CheckIf(test) => push_check(code, frame, label, *test, &inst.operands),
        AirOp::CheckAdd => push_checked(code, frame, label, Checked::Sum, &inst.operands),
        AirOp::CheckSub => push_checked(code, frame, label, Checked::Difference, &inst.operands),
        AirOp::CheckMul => push_checked(code, frame, label, Checked::Product, &inst.operands),
        op => push_inst(alloc, code, frame, mark, inst.traps, op, &inst.operands),
    }
}
