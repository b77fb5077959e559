//! That assignments and copies are made with ample memory.

use air_ir::{AirInst, AirOp, Arg, Assignment, Home, Operand, Operands, Role};
use b3_base::{NoMemory, Width, Words};
use b3_ir::Reg;
use std::alloc::Global;
use std::test::Fail;

#[test]
fn an_assignment_gives_and_joins(rt: HostRuntime) -> Result<(), Fail> {
    let mut a = Assignment::new(rt.alloc(), 3)?;
    a.give(1, Reg(19));
    a.join(7)?;
    assert_eq!(rt; a.home(1), Some(Reg(19)));
    assert_eq!(rt; a.joins.as_slice(), [7].as_slice());
    Ok(())
}

/// A Switch on the low half of x0.
fn switch(alloc: Global) -> Result<AirInst, NoMemory> {
    let mut cases = Words::new(alloc);
    cases.push(u64::MAX)?;
    cases.push(7)?;
    let mut operands = Operands::new(alloc);
    operands.push(Operand {
        role: Role::Use,
        width: Width::W32,
        arg: Arg::At(Home::Reg(Reg(0))),
    })?;
    Ok(AirInst {
        op: AirOp::Switch(cases),
        operands,
        value: 9,
        traps: false,
    })
}

#[test]
fn an_instruction_is_copied(rt: HostRuntime) -> Result<(), Fail> {
    let inst = switch(rt.alloc())?;
    let copy = inst.copy(rt.alloc())?;
    drop(inst);
    let AirOp::Switch(cases) = &copy.op else {
        return Err("another op".into());
    };
    assert_eq!(rt; cases.as_slice(), [u64::MAX, 7].as_slice());
    assert_eq!(rt; copy.operands.len(), 1);
    Ok(())
}
