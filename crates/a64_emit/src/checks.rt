//! Checks: a test, and a branch to the exit where it passes; and the exits, which stand behind the last block.

ghost use Rattle.std.specs.Prelude.{◌≡◌, ◌++◌, OnOk};
ghost use Rattle.a64_emit.specs.Code.{check_items, checked_items, exit_items, fetch_checked, make_checked, source_at, width_at};
ghost use Rattle.a64_code.specs.Fitting.{IsTested};
ghost use Rattle.a64_code.specs.Places.{plains};

use crate::insts::{
    operand_at, push_fetch, push_result, push_tested, result_at, result_reg, source_at,
};
use crate::terminals::{branch_item, push_compared};
use a64_checked::{passing, push_comparing, push_making};
use a64_code::reg_of;
use a64_inst::{Inst, Item, Labelled};
use air_ir::{Frame, Operands, Test};
use b3_base::NoMemory;
use b3_meaning::Checked;

/// An exit: its label, its mark and its break.
pub(crate) fn push_exit(code: &mut Labelled, label: u32, mark: u32) -> Result<(), NoMemory>
    ensures { OnOk result (code.new ≡ code.old ++ exit_items label mark) }
{
    code.push(Item::Label(label))?;
    code.push(Item::Mark(mark))?;
    code.push(Item::Plain(Inst::Break { imm: 1 }))
}

/// A check of a test.
pub(crate) fn push_check(
    code: &mut Labelled,
    frame: &Frame,
    label: u32,
    test: Test,
    operands: &Operands,
) -> Result<(), NoMemory>
    requires { IsTested test (width_at operands.now 0) (source_at operands.now 1 16) }
    ensures { OnOk result (code.new ≡ code.old ++ check_items frame.now label test operands.now) }
{
    push_tested(code, frame, test, operands)?;
    push_compared(code, test, operands)?;
    let width = operand_at(operands, 0).width;
    let reg = reg_of(source_at(operands, 0, 15));
    code.push(branch_item(test, true, width, reg, label))
}

fn push_checking(
    code: &mut Labelled,
    frame: &Frame,
    kind: Checked,
    operands: &Operands,
) -> Result<(), NoMemory>
    ensures { OnOk result (code.new ≡ code.old ++ plains (fetch_checked frame.now kind operands.now)) }
{
    push_fetch(code, frame, 15, operand_at(operands, 0).arg)?;
    push_fetch(code, frame, 16, operand_at(operands, 1).arg)?;
    let a = reg_of(source_at(operands, 0, 15));
    let b = reg_of(source_at(operands, 1, 16));
    push_comparing(code, kind, operand_at(operands, 0).width, a, b)
}

fn push_checked_result(
    code: &mut Labelled,
    frame: &Frame,
    kind: Checked,
    operands: &Operands,
) -> Result<(), NoMemory>
    ensures { OnOk result (code.new ≡ code.old ++ plains (make_checked frame.now kind operands.now)) }
{
    let to = result_at(operands);
    let a = reg_of(source_at(operands, 0, 15));
    let b = reg_of(source_at(operands, 1, 16));
    push_making(
        code,
        kind,
        operand_at(operands, 0).width,
        result_reg(to),
        a,
        b,
    )?;
    push_result(code, frame, result_reg(to), to)
}

/// A result that is checked, and made where it doesn't pass its width.
pub(crate) fn push_checked(
    code: &mut Labelled,
    frame: &Frame,
    label: u32,
    kind: Checked,
    operands: &Operands,
) -> Result<(), NoMemory>
    ensures { OnOk result (code.new ≡ code.old ++ checked_items frame.now label kind operands.now) }
{
    push_checking(code, frame, kind, operands)?;
    let test = Test::Compare(passing(kind));
    let width = operand_at(operands, 0).width;
    code.push(branch_item(test, true, width, 0, label))?;
    push_checked_result(code, frame, kind, operands)
}
