//! The operands of a site: what it reports and what it changes.

ghost use Rattle.std.specs.Prelude.{◌≡◌, ◌≤◌, ◌++◌, ◌||◌, ◌&&◌, ◌∷◌, [], ℕ, Some, length, slice_get, OnOk};
ghost use Rattle.stackmap.specs.Placing.{registers_for};
ghost use Rattle.stackmap.specs.Registers.{constraints_of, has, is_register, stackmap_in};
ghost use Rattle.stackmap.specs.Rules.{FixesAllocatable, IsAllocatable, IsPlaceable};
ghost use Rattle.air_stackmap.specs.SiteCode as code;

use crate::child::{Child, arg_of};
use air_ir::{Arg, Home, Operand, Operands, Role};
use b3_base::{NoMemory, Width};
use b3_ir::{Constraint, Reg, Stackmap, Value};
use stackmap::{is_late, set};

/// The place of a child that is given a register, or none.
fn place_of(register: Option<Reg>, child: &Child) -> Arg
    ensures { result ≡ code.place_of register child.now }
{
    match register {
        Some(reg) => Arg::At(Home::Reg(reg)),
        None => arg_of(child),
    }
}

/// The operand that reports a child of a constraint.
fn report(constraint: Constraint, register: Option<Reg>, child: &Child) -> Operand
    ensures { result ≡ code.report_by constraint register child.now }
{
    Operand {
        role: if is_late(constraint) {
            Role::LateUse
        } else {
            Role::Use
        },
        width: child.width,
        arg: place_of(register, child),
    }
}

/// Adds the operands that report the children.
pub(crate) fn push_reported(
    operands: &mut Operands,
    v: &Value,
    map: &Stackmap,
    registers: &[Option<Reg>],
    children: &[Child],
) -> Result<(), NoMemory>
    requires map { stackmap_in v.now.body ≡ Some map.now }
    requires registers { registers.now ≡ registers_for v.now }
    requires children { length children.now ≡ length registers.now }
    ensures { OnOk result (operands.new ≡ operands.old ++ code.reported v.now children.now) }
{
    for at in 0..children.len() {
        let constraint = *map.constraints.get(at);
        operands.push(report(constraint, registers[at], &children[at]))?;
    }
    Ok(())
}

/// Whether a child of a constraint clobbers its register.
fn is_clobbering(constraint: Constraint) -> bool
    ensures { result ≡ code.is_clobbering constraint }
{
    matches!(constraint, Constraint::SomeRegisterWithClobber)
}

/// A set with the register of a child, where the child clobbers it.
fn with_clobbered(clobbered: u32, constraint: Constraint, register: Option<Reg>) -> u32
    requires { (reg : Reg) → register ≡ Some reg → IsAllocatable reg }
    ensures { (r : ℕ) → has result r
        ≡ (has clobbered r || (code.is_clobbering constraint && is_register r register)) }
{
    match register {
        Some(reg) => {
            if is_clobbering(constraint) {
                set::with(clobbered, reg.0)
            } else {
                clobbered
            }
        }
        None => clobbered,
    }
}

/// The registers that children clobber.
fn clobbered(v: &Value, map: &Stackmap, registers: &[Option<Reg>]) -> u32
    requires map { stackmap_in v.now.body ≡ Some map.now }
    requires placeable { IsPlaceable v.now }
    requires registers { registers.now ≡ registers_for v.now }
    ensures { (r : ℕ) → has result r ≡ code.clobbered_from v.now 0 map.now.constraints r }
{
    let mut clobbered = 0;
    for at in 0..registers.len() {
        clobbered = with_clobbered(clobbered, *map.constraints.get(at), registers[at]);
    }
    clobbered
}

/// Adds an operand for a register, if it is in a set.
fn push_register(operands: &mut Operands, role: Role, registers: u32, r: u8) -> Result<(), NoMemory>
    ensures { OnOk result (operands.new ≡ operands.old ++ code.in_one role (has registers) r) }
{
    if !set::is_in(registers, r) {
        return Ok(());
    }
    operands.push(Operand {
        role,
        width: Width::W64,
        arg: Arg::At(Home::Reg(Reg(r))),
    })
}

/// Adds an operand for each register of a set.
#[tactic(auto, unfolding(crate::specs::SiteCode::in_each))]
fn push_each(operands: &mut Operands, role: Role, registers: u32) -> Result<(), NoMemory>
    ensures { OnOk result (operands.new ≡ operands.old ++ code.in_each role (has registers) 31) }
{
    for r in 0..31u8 {
        push_register(operands, role, registers, r)?;
    }
    Ok(())
}

/// Adds the operands of the registers that are changed.
pub(crate) fn push_changed(
    operands: &mut Operands,
    v: &Value,
    map: &Stackmap,
    registers: &[Option<Reg>],
) -> Result<(), NoMemory>
    requires map { stackmap_in v.now.body ≡ Some map.now }
    requires placeable { IsPlaceable v.now }
    requires registers { registers.now ≡ registers_for v.now }
    ensures { OnOk result (operands.new ≡ operands.old ++ code.changed v.now) }
{
    let early = set::union(map.early.bits(), clobbered(v, map, registers));
    push_each(operands, Role::EarlyDef, early)?;
    push_each(operands, Role::Clobber, map.late.bits())
}
