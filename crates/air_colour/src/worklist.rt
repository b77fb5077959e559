//! The classes that can go, while classes are taken away.

ghost use Rattle.std.specs.Prelude.{◌≡◌, ◌≢◌, ℕ, ◌+◌, ◌<◌, ◌≤◌, ◌⊎◌, ◌↔◌, IsTrue, length, slice_index_or, true, false, Contains, IfSome, IfNone, IfOk, OnOk};
ghost use Rattle.air_colour.specs.Interference.{one};
ghost use Rattle.air_colour.specs.Kept.{has, HasRoom};
ghost use Rattle.air_colour.specs.Worklist.{AreDegrees, AreLow, HasLow, IsLow, IsPassed, degree_in};

use crate::simplify::degree;
use air_graph::Edges;
use b3_base::NoMemory;
use std::alloc::Global;

/// How many neighbours of each class are left.
pub(crate) fn degrees_of(
    alloc: Global,
    edges: &Edges,
    left: &[bool],
) -> Result<Vec<usize>, NoMemory>
    requires room { HasRoom edges.now (length left.now) (length left.now) }
    ensures { IfOk result (λ degrees. AreDegrees edges.now left.now degrees.items) }
{
    let mut degrees = Vec::new(alloc);
    for a in 0..left.len() {
        degrees.push(degree(edges, left, a))?;
    }
    Ok(degrees)
}

/// Whether a class holds no register and has fewer than `k` neighbours.
fn is_low(fixed: &[bool], degrees: &[usize], x: usize, k: usize) -> bool
    requires fixed { x < length fixed.now }
    requires degrees { x < length degrees.now }
    ensures { IsTrue result ↔ ((slice_index_or fixed.now x false ≡ false) × (degree_in degrees.now x < k)) }
{
    if fixed[x] {
        return false;
    }
    degrees[x] < k
}

/// The classes that can go.
pub(crate) fn low_of(
    alloc: Global,
    left: &[bool],
    fixed: &[bool],
    degrees: &[usize],
    k: usize,
) -> Result<Vec<usize>, NoMemory>
    requires fixed { length fixed.now ≡ length left.now }
    requires degrees { length degrees.now ≡ length left.now }
    ensures low { IfOk result (λ low. AreLow k (length left.now) fixed.now degrees.now low.items) }
    ensures all { IfOk result (λ low. (x : ℕ) → IsLow k (length left.now) fixed.now degrees.now x
        → Contains low.items x) }
{
    let mut low = Vec::new(alloc);
    for x in 0..left.len() {
        if is_low(fixed, degrees, x, k) {
            low.push(x)?;
        }
    }
    Ok(low)
}

/// Takes classes from the end of the list, up to one that is left.
fn pop_left(left: &[bool], low: &mut Vec<usize>) -> Option<usize>
    requires below { (x : ℕ) → Contains low.old.items x → x < length left.now }
    ensures kept { (x : ℕ) → Contains low.new.items x → Contains low.old.items x }
    ensures some { IfSome result (λ a. Contains low.old.items a × (slice_index_or left.now a false ≡ true)) }
    ensures rest { IfSome result (λ a. (x : ℕ) → slice_index_or left.now x false ≡ true → x ≢ a
        → Contains low.old.items x → Contains low.new.items x) }
    ensures none { IfNone result ((x : ℕ) → Contains low.old.items x → slice_index_or left.now x false ≡ false) }
{
    while let Some(a) = low.pop() {
        if left[a] {
            return Some(a);
        }
    }
    None
}

/// The first class from a place on that is left and holds no register.
fn first_left(left: &[bool], fixed: &[bool], from: usize) -> Option<usize>
    requires fixed { length fixed.now ≡ length left.now }
    requires passed { IsPassed left.now fixed.now from }
    ensures some { IfSome result (λ a. (a < length left.now) × (slice_index_or left.now a false ≡ true)
        × (slice_index_or fixed.now a false ≡ false)) }
    ensures passed { IfSome result (λ a. IsPassed left.now fixed.now a) }
    ensures none { IfNone result (IsPassed left.now fixed.now (length left.now)) }
{
    for x in from..left.len() {
        if left[x] && !fixed[x] {
            return Some(x);
        }
    }
    None
}

/// The class to take away next: one of the list that is left, while there is one, else the first that holds no
/// register.
/// None where no class without a register is left.
pub(crate) fn pick(
    left: &[bool],
    fixed: &[bool],
    low: &mut Vec<usize>,
    high: &mut usize,
) -> Option<usize>
    requires fixed { length fixed.now ≡ length left.now }
    requires below { (x : ℕ) → Contains low.old.items x → (x < length left.now)
        × (slice_index_or fixed.now x false ≡ false) }
    requires passed { IsPassed left.now fixed.now high.old }
    ensures kept { (x : ℕ) → Contains low.new.items x → Contains low.old.items x }
    ensures passed { IfSome result (λ a. IsPassed left.now fixed.now high.new) }
    ensures is { IfSome result (λ a. (a < length left.now) × (slice_index_or left.now a false ≡ true)
        × (slice_index_or fixed.now a false ≡ false)) }
    ensures either { IfSome result (λ a. Contains low.old.items a ⊎ ((x : ℕ) → Contains low.old.items x
        → slice_index_or left.now x false ≡ false)) }
    ensures rest { IfSome result (λ a. (x : ℕ) → slice_index_or left.now x false ≡ true → x ≢ a
        → Contains low.old.items x → Contains low.new.items x) }
    ensures none { IfNone result (IsPassed left.now fixed.now (length left.now)) }
{
    if let Some(a) = pop_left(left, low) {
        return Some(a);
    }
    let first = first_left(left, fixed, *high);
    if let Some(a) = first {
        *high = a;
    }
    first
}

/// Whether a class without a register has just come to have fewer than `k` neighbours.
fn opens(fixed: &[bool], x: usize, degree: usize, k: usize) -> bool
    requires x { x < length fixed.now }
    ensures { IsTrue result ↔ ((degree + 1 ≡ k) × (slice_index_or fixed.now x false ≡ false)) }
{
    if fixed[x] || k == 0 {
        return false;
    }
    degree == k - 1
}

/// Lowers the degrees of the neighbours of a class that was taken away, and adds those to the list that can go now.
pub(crate) fn lower(
    edges: &Edges,
    fixed: &[bool],
    degrees: &mut [usize],
    low: &mut Vec<usize>,
    a: usize,
    k: usize,
) -> Result<(), NoMemory>
    requires room { HasRoom edges.now (length degrees.old) (length fixed.now) }
    requires a { a < length degrees.old }
    requires some { (x : ℕ) → x < length degrees.old → has edges.now a x ≡ true → 0 < degree_in degrees.old x }
    ensures long { length degrees.new ≡ length degrees.old }
    ensures lower { OnOk result ((x : ℕ) → degree_in degrees.new x + one
        (has edges.now a x) ≡ degree_in degrees.old x) }
    ensures kept { OnOk result ((x : ℕ) → Contains low.old.items x → Contains low.new.items x) }
    ensures fresh { OnOk result ((x : ℕ) → IsLow k (length degrees.old) fixed.now degrees.new x
        → k ≤ degree_in degrees.old x → Contains low.new.items x) }
    ensures only { OnOk result ((x : ℕ) → Contains low.new.items x → Contains low.old.items x
        ⊎ IsLow k (length degrees.old) fixed.now degrees.new x) }
{
    let near = edges.near(a);
    for y in near {
        let x = *y as usize;
        let degree = degrees[x] - 1;
        degrees[x] = degree;
        if opens(fixed, x, degree, k) {
            low.push(x)?;
        }
    }
    Ok(())
}
