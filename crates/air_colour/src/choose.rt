//! Giving each class a register, in the order opposite to that of taking away.

ghost use Rattle.std.specs.Prelude.{◌≡◌, ℕ, ◌<◌, ◌≤◌, ◌^◌, ◌↔◌, ◌⊎◌, List, Bool, length, slice_index_or, IfSome, IfNone, IfOk, IsTrue, Some, None, true, false};
ghost use Rattle.air_colour.specs.Choosing.{Simplifies, IsChosen};
ghost use Rattle.air_colour.specs.Kept.{graph_of, HasRoom, given_in, IsTaken, IsStart};

use air_graph::Edges;
use b3_base::NoMemory;
use std::alloc::Global;

/// Lets no register be barred.
fn clear(bars: &mut [bool])
    ensures long { length bars.new ≡ length bars.old }
    ensures clear { (r : ℕ) → slice_index_or bars.new r false ≡ false }
{
    for bar in bars.iter_mut() {
        *bar = false;
    }
}

/// Marks the register that a class is given, if it is one of these.
fn mark(bars: &mut [bool], register: Option<usize>)
    ensures long { length bars.new ≡ length bars.old }
    ensures marked { (r : ℕ) → r < length bars.old → (slice_index_or bars.new r false ≡ true)
        ↔ ((slice_index_or bars.old r false ≡ true) ⊎ (register ≡ Some r)) }
{
    if let Some(r) = register {
        if r < bars.len() {
            bars[r] = true;
        }
    }
}

/// Marks the registers that are given to classes that `a` interferes with, and no others.
fn mark_barred(edges: &Edges, given: &[Option<usize>], a: usize, bars: &mut [bool])
    requires room { HasRoom edges.now (length given.now) (length given.now) }
    requires a { a < length given.now }
    ensures long { length bars.new ≡ length bars.old }
    ensures marked { (r : ℕ) → r < length bars.old
        → (slice_index_or bars.new r false ≡ true) ↔ IsTaken edges.now given.now a r }
{
    clear(bars);
    let near = edges.near(a);
    for x in near {
        mark(bars, given[*x as usize]);
    }
}

/// The first register that isn't barred.
fn first_clear(bars: &[bool]) -> Option<usize>
    ensures clear { IfSome result (λ r. (r < length bars.now) × (slice_index_or bars.now r false ≡ false)) }
    ensures all { IfNone result ((r : ℕ) → r < length bars.now → slice_index_or bars.now r false ≡ true) }
{
    for r in 0..bars.len() {
        if !bars[r] {
            return Some(r);
        }
    }
    None
}

/// The first register that is given to no class that `a` interferes with, of as many as there are places in `bars`.
fn first_free(edges: &Edges, given: &[Option<usize>], a: usize, bars: &mut [bool]) -> Option<usize>
    requires room { HasRoom edges.now (length given.now) (length given.now) }
    requires a { a < length given.now }
    ensures long { length bars.new ≡ length bars.old }
    ensures free { IfSome result (λ r. (r < length bars.old) × (IsTaken edges.now given.now a r → ⊥)) }
    ensures all { IfNone result ((r : ℕ) → r < length bars.old → IsTaken edges.now given.now a r) }
{
    mark_barred(edges, given, a, bars);
    first_clear(bars)
}

/// Gives the classes of `order` registers, of as many as there are places in `bars`, the last class first.
fn choose_all(edges: &Edges, given: &mut [Option<usize>], order: &[usize], bars: &mut [bool])
    requires room { HasRoom edges.now (length given.old) (length given.old) }
    requires below { (i : ℕ) → i < length order.now → slice_index_or order.now i 0 < length given.old }
    ensures chosen { (left fixed : List Bool) → length left ≡ length given.old
        → Simplifies (length bars.old) (graph_of edges.now left fixed) order.now
        → IsStart (graph_of edges.now left fixed) (given_in given.old)
        → IsChosen (length bars.old) (graph_of edges.now left fixed) (given_in given.new) order.now }
    ensures others { (x : ℕ) → ((i : ℕ) → i < length order.now → slice_index_or order.now i 0 ≡ x → ⊥)
        → given_in given.new x ≡ given_in given.old x }
{
    for i in (0..order.len()).rev() {
        let a = order[i];
        given[a] = first_free(edges, given, a, bars);
    }
}

/// Gives the classes of `order` registers below `k`, the last of them first. At the start those that
/// hold registers have them. It is refused for want of memory alone.
pub(crate) fn choose(
    alloc: Global,
    edges: &Edges,
    given: &mut [Option<usize>],
    order: &[usize],
    k: usize,
) -> Result<(), NoMemory>
    requires room { HasRoom edges.now (length given.old) (length given.old) }
    requires below { (i : ℕ) → i < length order.now → slice_index_or order.now i 0 < length given.old }
    ensures chosen { IfOk result (λ _. (left fixed : List Bool) → length left ≡ length given.old
        → Simplifies k (graph_of edges.now left fixed) order.now
        → IsStart (graph_of edges.now left fixed) (given_in given.old)
        → IsChosen k (graph_of edges.now left fixed) (given_in given.new) order.now) }
    ensures others { IfOk result (λ _. (x : ℕ)
        → ((i : ℕ) → i < length order.now → slice_index_or order.now i 0 ≡ x → ⊥)
        → given_in given.new x ≡ given_in given.old x) }
{
    let mut bars = vec![in alloc; false; k]?;
    choose_all(edges, given, order, &mut bars);
    Ok(())
}
