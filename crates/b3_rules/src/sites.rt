//! The rules that a value keeps by itself: those on its stackmap, and on its sizes.

ghost use Rattle.std.specs.Prelude.{◌≡◌, ◌≢◌, ◌↔◌, ℕ, true, IsTrue, All, AllPairs};
ghost use Rattle.b3_ir.specs.Procedure.{Procedure};
ghost use Rattle.stackmap.specs.Rules.{FixApart, FixesAllocatable, FixesApart, IsAllocatable, LeavesReserved, MayResult, NamesConstraints, NamesRegisters};
ghost use Rattle.b3_rules.specs.Least.{IsLeastBroken};
ghost use Rattle.b3_rules.specs.Rules.{HasSize, HasSizes};
ghost use Rattle.b3_rules.specs.Sites.{FixesOutside, MapKeeps, StandsApart};
ghost use Rattle.b3_rules.specs.Valid.{ValueKeeps};

use crate::rule::Rule;
use b3_ir::{Body, Constraint, Opcode, Reg, Stackmap, Value};
use stackmap::{fixed_by, has_registers, has_result, is_late, set, with_fixed};

/// The most children of a call: its callee and 8 arguments.
const CALL_CHILDREN: usize = 9;

/// The most words of a Patchpoint.
const PATCHPOINT_WORDS: u32 = 64;

/// x18, the register of the platform (AAPCS64, 6.1.1).
const PLATFORM: u8 = 18;

/// x29, the frame pointer (AAPCS64, 6.1.1).
const FRAME_POINTER: u8 = 29;

/// The first rule on its stackmap or its sizes that the value breaks: of Constraints to Sizes. It
/// takes no memory.
pub fn site_breach(value: &Value) -> Option<Rule>
    ensures { (p : Procedure) (b j : ℕ) → IsLeastBroken 15 19 (λ r. ValueKeeps r p b j value.now) result }
{
    match stackmap_breach(value) {
        Some(rule) => Some(rule),
        None if sizes_keep(value) => None,
        None => Some(Rule::Sizes),
    }
}

fn stackmap_breach(value: &Value) -> Option<Rule>
    ensures { (p : Procedure) (b j : ℕ) → IsLeastBroken 15 18 (λ r. ValueKeeps r p b j value.now) result }
{
    match &value.body {
        Body::Map(map) => map_breach(map, has_result(value)),
        _ => None,
    }
}

fn map_breach(map: &Stackmap, typed: bool) -> Option<Rule>
    ensures { IsLeastBroken 15 18 (λ r. MapKeeps r typed map.now) result }
{
    if !constraints_keep(map, typed) {
        return Some(Rule::Constraints);
    }
    if !registers_keep(map, typed) {
        return Some(Rule::Registers);
    }
    if !fixed_keep(map, typed) {
        return Some(Rule::FixedRegisters);
    }
    if !has_registers(map, typed) {
        return Some(Rule::RegisterDemand);
    }
    None
}

fn sizes_keep(value: &Value) -> bool
    ensures { IsTrue result ↔ HasSizes value.now }
{
    match value.kind.opcode {
        Opcode::CCall => value.children.len() <= CALL_CHILDREN,
        Opcode::Patchpoint => match &value.body {
            Body::Map(map) => has_size(map),
            _ => true,
        },
        _ => true,
    }
}

fn has_size(map: &Stackmap) -> bool
    ensures { IsTrue result ↔ HasSize map.now }
{
    1 <= map.size && map.size <= PATCHPOINT_WORDS
}

// ---- constraints

fn constraints_keep(map: &Stackmap, typed: bool) -> bool
    ensures { IsTrue result ↔ NamesConstraints typed map.now }
{
    none_early(map.constraints.as_slice()) && result_may(typed, map.result)
}

fn none_early(constraints: &[Constraint]) -> bool
    ensures { IsTrue result ↔ All (λ c. c ≢ Constraint.SomeEarlyRegister) constraints.now }
{
    for constraint in constraints {
        if !may_child(*constraint) {
            return false;
        }
    }
    true
}

fn may_child(constraint: Constraint) -> bool
    ensures { IsTrue result ↔ (constraint ≢ Constraint.SomeEarlyRegister) }
{
    !matches!(constraint, Constraint::SomeEarlyRegister)
}

// Whether a result, where there is one, may have this constraint.
fn result_may(typed: bool, constraint: Constraint) -> bool
    ensures { IsTrue result ↔ (typed ≡ true → MayResult constraint) }
{
    !typed || may_result(constraint)
}

fn may_result(constraint: Constraint) -> bool
    ensures { IsTrue result ↔ MayResult constraint }
{
    matches!(
        constraint,
        Constraint::SomeRegister
            | Constraint::SomeEarlyRegister
            | Constraint::Fixed(_)
            | Constraint::LateFixed(_)
    )
}

// ---- registers

fn registers_keep(map: &Stackmap, typed: bool) -> bool
    ensures { IsTrue result ↔ NamesRegisters typed map.now }
{
    all_allocatable(map.constraints.as_slice())
        && result_allocatable(typed, map.result)
        && leaves_reserved(map.early.bits())
        && leaves_reserved(map.late.bits())
}

fn all_allocatable(constraints: &[Constraint]) -> bool
    ensures { IsTrue result ↔ All FixesAllocatable constraints.now }
{
    for constraint in constraints {
        if !fixes_allocatable(*constraint) {
            return false;
        }
    }
    true
}

// Whether a result, where there is one, stands in no register that isn't allocatable.
fn result_allocatable(typed: bool, constraint: Constraint) -> bool
    ensures { IsTrue result ↔ (typed ≡ true → FixesAllocatable constraint) }
{
    !typed || fixes_allocatable(constraint)
}

fn fixes_allocatable(constraint: Constraint) -> bool
    ensures { IsTrue result ↔ FixesAllocatable constraint }
{
    match fixed_by(constraint) {
        Some(reg) => is_allocatable(reg),
        None => true,
    }
}

fn is_allocatable(reg: Reg) -> bool
    ensures { IsTrue result ↔ IsAllocatable reg }
{
    reg.0 <= 14 || (19 <= reg.0 && reg.0 <= 28)
}

fn leaves_reserved(clobbers: u32) -> bool
    ensures { IsTrue result ↔ LeavesReserved clobbers }
{
    !set::is_in(clobbers, PLATFORM) && !set::is_in(clobbers, FRAME_POINTER)
}

// ---- fixed registers

fn fixed_keep(map: &Stackmap, typed: bool) -> bool
    requires { All FixesAllocatable map.now.constraints }
    ensures { IsTrue result ↔ FixesApart typed map.now }
{
    differ(map.constraints.as_slice())
        && all_stand_apart(map, typed)
        && result_outside(map.late.bits(), typed, map.result)
}

// Whether no register is fixed for two children.
fn differ(constraints: &[Constraint]) -> bool
    requires { All FixesAllocatable constraints.now }
    ensures { IsTrue result ↔ AllPairs FixApart constraints.now }
{
    let mut fixed = 0;
    for constraint in constraints {
        if !is_outside(fixed, *constraint) {
            return false;
        }
        fixed = with_fixed(fixed, *constraint);
    }
    true
}

// Whether a constraint fixes no member of a set.
fn is_outside(registers: u32, constraint: Constraint) -> bool
    ensures { IsTrue result ↔ FixesOutside registers constraint }
{
    match fixed_by(constraint) {
        Some(reg) => !set::is_in(registers, reg.0),
        None => true,
    }
}

fn result_outside(late: u32, typed: bool, constraint: Constraint) -> bool
    ensures { IsTrue result ↔ (typed ≡ true → FixesOutside late constraint) }
{
    !typed || is_outside(late, constraint)
}

fn all_stand_apart(map: &Stackmap, typed: bool) -> bool
    ensures { IsTrue result ↔ All (StandsApart typed map.now) map.now.constraints }
{
    for constraint in map.constraints.as_slice() {
        if !stands_apart(map, typed, *constraint) {
            return false;
        }
    }
    true
}

fn stands_apart(map: &Stackmap, typed: bool, constraint: Constraint) -> bool
    ensures { IsTrue result ↔ StandsApart typed map.now constraint }
{
    if !is_outside(map.early.bits(), constraint) {
        return false;
    }
    if !is_late(constraint) {
        return true;
    }
    is_outside(map.late.bits(), constraint) && result_differs(typed, constraint, map.result)
}

// Whether a late child and a result, where there is one, are fixed to no register both.
fn result_differs(typed: bool, child: Constraint, wanted: Constraint) -> bool
    ensures { IsTrue result ↔ (typed ≡ true → FixApart child wanted) }
{
    !typed || fix_apart(child, wanted)
}

fn fix_apart(a: Constraint, b: Constraint) -> bool
    ensures { IsTrue result ↔ FixApart a b }
{
    match (fixed_by(a), fixed_by(b)) {
        (Some(one), Some(other)) => one.0 != other.0,
        _ => true,
    }
}
