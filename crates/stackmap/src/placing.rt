//! Placing: the registers that the reported children and the result of a stackmap value take.

ghost use Rattle.std.specs.Prelude.{◌≡◌, ◌<◌, ◌≤◌, ◌^◌, ◌↔◌, ◌&&◌, ◌||◌, ℕ, true, false, not, length, take, slice_get, IfOk, IfSome, IsTrue, All};
ghost use Rattle.std.specs.List.{filter, list_any};
ghost use Rattle.stackmap.specs.Registers.{constraints_of, fixes, has, has_result, is_placed_result, stackmap_in, stands_anywhere};
ghost use Rattle.stackmap.specs.Placing.{allowed, child_register, is_allowed, nth_allowed, placed_count, register_for, register_numbered, registers_for, result_in, result_register};
ghost use Rattle.stackmap.specs.Standing.{given, given_from, placed_with};
ghost use Rattle.stackmap.specs.PlacesObey.{PlacesObey};
ghost use Rattle.b3_ir.specs.declared.value.Stackmap.{Stackmap};
ghost use Rattle.stackmap.specs.Rules.{FixesAllocatable, HasRegisters, IsPlaceable};

use crate::constraint::{fixed_by, has_result, is_placed, is_placed_result};
use crate::set;
use b3_base::{Bytes, NoMemory, Seq};
use b3_ir::{Body, Constraint, Reg, Stackmap, Value};
use std::alloc::Global;

/// The registers that values may stand in: x0 to x14 and x19 to x28.
const ALLOCATABLE: [u8; 25] = [
    0, 1, 2, 3, 4, 5, 6, 7, 8, 9, 10, 11, 12, 13, 14, 19, 20, 21, 22, 23, 24, 25, 26, 27, 28,
];

/// The registers of reported children, in order; None where a child may stand anywhere.
pub type Registers = Seq<Option<Reg>>;

/// The register of a reported child of a Patchpoint or a check, which is counted from 0 among the
/// reported ones: the one that its constraint fixes, or the one that the placing rule gives it.
/// None where it may stand anywhere. It takes no memory.
pub fn register_for(value: &Value, child: usize) -> Option<Reg>
    requires placeable { IsPlaceable value.now }
    requires reported { child < length (constraints_of value.now) }
    ensures register { result ≡ register_for value.now child }
    ensures anywhere { IfSome (slice_get (constraints_of value.now) child)
        (λ c. (result ≡ None) ↔ IsTrue (stands_anywhere c)) }
{
    match &value.body {
        Body::Map(map) => child_register(map, has_result(value), child),
        _ => None,
    }
}

/// The registers of all reported children of a Patchpoint or a check, in order, each the one that `register_for`
/// gives, in time in proportion to their number. It is refused for want of memory alone.
pub fn registers_for(alloc: Global, value: &Value) -> Result<Registers, NoMemory>
    requires { IsPlaceable value.now }
    ensures { IfOk result (λ registers. registers ≡ registers_for value.now) }
{
    match &value.body {
        Body::Map(map) => children_registers(alloc, map, has_result(value)),
        _ => Ok(Registers::new(alloc)),
    }
}

/// The register of the result of a Patchpoint that isn't Void: the one that its constraint fixes, or
/// the one that the placing rule gives it. None where there is no result. It takes no memory.
pub fn result_register(value: &Value) -> Option<Reg>
    requires { IsPlaceable value.now }
    ensures register { result ≡ result_register value.now }
    ensures no_result { (result ≡ None) ↔ (has_result value.now ≡ false) }

    // Whatever the constraints, the registers of the children and of the result keep apart.
    ensures apart { (map : Stackmap) → stackmap_in value.now.body ≡ Some map → PlacesObey value.now map }
{
    if !has_result(value) {
        return None;
    }
    match &value.body {
        Body::Map(map) => placed_result(map),
        _ => None,
    }
}

/// Whether as many registers are allowed as the reported children and the result ask for; `typed` says
/// whether there is a result. It takes no memory.
pub fn has_registers(map: &Stackmap, typed: bool) -> bool
    requires fixed { All FixesAllocatable map.now.constraints }
    requires result { typed ≡ true → FixesAllocatable map.now.result }
    ensures { IsTrue result ↔ HasRegisters typed map.now }
{
    let children = placed_before(map, map.constraints.len());
    let allowed = count_outside(&ALLOCATABLE, excluded(map, typed));
    if asks_for_one(typed, map.result) {
        children < allowed
    } else {
        children <= allowed
    }
}

// Whether a result of this constraint, where there is one, is placed.
fn asks_for_one(typed: bool, result_wants: Constraint) -> bool
    ensures { result ≡ (typed && is_placed_result result_wants) }
{
    typed && is_placed_result(result_wants)
}

fn child_register(map: &Stackmap, typed: bool, child: usize) -> Option<Reg>
    requires fixed { All FixesAllocatable map.now.constraints }
    requires result { typed ≡ true → FixesAllocatable map.now.result }
    requires reported { child < length map.now.constraints }
    ensures { result ≡ child_register map.now typed child (slice_get map.now.constraints child) }
{
    let constraint = *map.constraints.get(child);
    if is_placed(constraint) {
        nth_allowed(map, typed, placed_before(map, child))
    } else {
        fixed_by(constraint)
    }
}

// The registers of all children, in order.
fn children_registers(alloc: Global, map: &Stackmap, typed: bool) -> Result<Registers, NoMemory>
    requires fixed { All FixesAllocatable map.now.constraints }
    requires result { typed ≡ true → FixesAllocatable map.now.result }
    ensures { IfOk result (λ registers. registers ≡ given_from (allowed map.now typed) 0 map.now.constraints) }
{
    let allowed = allowed_registers(alloc, map, typed)?;
    given_to(alloc, allowed.as_slice(), map.constraints.as_slice())
}

// The allowed registers.
fn allowed_registers(alloc: Global, map: &Stackmap, typed: bool) -> Result<Bytes, NoMemory>
    requires fixed { All FixesAllocatable map.now.constraints }
    requires result { typed ≡ true → FixesAllocatable map.now.result }
    ensures { IfOk result (λ registers. registers ≡ allowed map.now typed) }
{
    all_outside(alloc, &ALLOCATABLE, excluded(map, typed))
}

// What is given to children of these constraints, where these registers are allowed.
#[tactic(auto, unfolding(crate::specs::Standing::given_from))]
fn given_to(
    alloc: Global,
    allowed: &[u8],
    constraints: &[Constraint],
) -> Result<Registers, NoMemory>
    ensures { IfOk result (λ registers. registers ≡ given_from allowed.now 0 constraints.now) }
{
    let mut registers = Registers::new(alloc);
    let mut placed = 0;
    for constraint in constraints {
        registers.push(given(allowed, placed, *constraint))?;
        placed = placed_with(placed, *constraint);
    }
    Ok(registers)
}

// How many children are placed where a child of this constraint comes after so many.
fn placed_with(placed: usize, constraint: Constraint) -> usize
    requires { placed < 2 ^ 63 }
    ensures { result ≡ placed_with placed constraint }
{
    if is_placed(constraint) {
        placed + 1
    } else {
        placed
    }
}

// What is given to a child where so many children before it are placed.
fn given(allowed: &[u8], placed: usize, constraint: Constraint) -> Option<Reg>
    ensures { result ≡ given allowed.now placed constraint }
{
    if !is_placed(constraint) {
        return fixed_by(constraint);
    }
    if placed < allowed.len() {
        Some(Reg(allowed[placed]))
    } else {
        None
    }
}

fn placed_result(map: &Stackmap) -> Option<Reg>
    requires fixed { All FixesAllocatable map.now.constraints }
    requires result { FixesAllocatable map.now.result }
    ensures { result ≡ result_in (Some map.now) }
{
    if is_placed_result(map.result) {
        nth_allowed(map, true, placed_before(map, map.constraints.len()))
    } else {
        fixed_by(map.result)
    }
}

// How many of the children before this one are placed.
fn placed_before(map: &Stackmap, child: usize) -> usize
    requires { child ≤ length map.now.constraints }
    ensures { result ≡ placed_count (take child map.now.constraints) }
{
    let before = &map.constraints.as_slice()[..child];
    let mut count = 0;
    for constraint in before {
        if is_placed(*constraint) {
            count += 1;
        }
    }
    count
}

// The allowed register with this many allowed ones before it.
fn nth_allowed(map: &Stackmap, typed: bool, at: usize) -> Option<Reg>
    requires fixed { All FixesAllocatable map.now.constraints }
    requires result { typed ≡ true → FixesAllocatable map.now.result }
    ensures { result ≡ nth_allowed map.now typed at }
{
    nth_outside(&ALLOCATABLE, excluded(map, typed), at)
}

// The registers that are clobbered or fixed.
fn excluded(map: &Stackmap, typed: bool) -> u32
    requires fixed { All FixesAllocatable map.now.constraints }
    requires result { typed ≡ true → FixesAllocatable map.now.result }
    ensures { (r : ℕ) → not (has result r) ≡ is_allowed map.now typed r }
{
    let clobbered = set::union(map.early.bits(), map.late.bits());
    let fixed = fixed_for(map.constraints.as_slice());
    let mut all = set::union(clobbered, fixed);
    if typed {
        all = with_fixed(all, map.result);
    }
    all
}

// The registers that are fixed by some constraints.
fn fixed_for(constraints: &[Constraint]) -> u32
    requires { All FixesAllocatable constraints.now }
    ensures { (r : ℕ) → has result r ≡ list_any (fixes r) constraints.now }
{
    let mut fixed = 0;
    for constraint in constraints {
        fixed = with_fixed(fixed, *constraint);
    }
    fixed
}

/// The set with the register that a constraint fixes, if it fixes one.
pub fn with_fixed(fixed: u32, constraint: Constraint) -> u32
    requires { FixesAllocatable constraint }
    ensures { (r : ℕ) → has result r ≡ (has fixed r || fixes r constraint) }
{
    match fixed_by(constraint) {
        Some(reg) => set::with(fixed, reg.0),
        None => fixed,
    }
}

// The register outside a set that has this many of the given ones outside the set before it.
fn nth_outside(registers: &[u8], excluded: u32, at: usize) -> Option<Reg>
    ensures { result ≡ register_numbered (slice_get (filter (λ r. not (has excluded r)) registers.now) at) }
{
    let mut left = at;
    for r in registers {
        if !set::is_in(excluded, *r) {
            if left == 0 {
                return Some(Reg(*r));
            }
            left -= 1;
        }
    }
    None
}

// The registers that stand outside a set.
fn all_outside(alloc: Global, registers: &[u8], excluded: u32) -> Result<Bytes, NoMemory>
    ensures { IfOk result (λ outside. outside ≡ filter (λ r. not (has excluded r)) registers.now) }
{
    let mut outside = Bytes::new(alloc);
    for r in registers {
        if !set::is_in(excluded, *r) {
            outside.push(*r)?;
        }
    }
    Ok(outside)
}

// How many registers stand outside a set.
fn count_outside(registers: &[u8], excluded: u32) -> usize
    ensures { result ≡ length (filter (λ r. not (has excluded r)) registers.now) }
{
    let mut count = 0;
    for r in registers {
        if !set::is_in(excluded, *r) {
            count += 1;
        }
    }
    count
}
