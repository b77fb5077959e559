//! Taking classes away, one after the other.

ghost use Rattle.std.specs.Prelude.{◌≡◌, ℕ, ◌<◌, length, IfOk};
ghost use Rattle.air_colour.specs.Choosing.{Simplifies};
ghost use Rattle.air_colour.specs.Kept.{graph_of, HasRoom, neighbours_left};

use crate::worklist::{degrees_of, low_of, lower, pick};
use air_graph::Edges;
use b3_base::NoMemory;
use std::alloc::Global;

/// How many of the classes that are left the class `a` interferes with.
pub(crate) fn degree(edges: &Edges, left: &[bool], a: usize) -> usize
    requires room { HasRoom edges.now (length left.now) (length left.now) }
    requires a { a < length left.now }
    ensures { result ≡ neighbours_left edges.now left.now a }
{
    let mut neighbours: usize = 0;
    let near = edges.near(a);
    for b in near {
        if left[*b as usize] {
            neighbours += 1;
        }
    }
    neighbours
}

/// The order in which optimistic taking away takes every class without a register out of `left`. Degrees are kept, and
/// the classes that can go stand in a list. It is refused for want of memory alone.
pub(crate) fn simplify(
    alloc: Global,
    edges: &Edges,
    left: &mut [bool],
    fixed: &[bool],
    k: usize,
) -> Result<Vec<usize>, NoMemory>
    requires room { HasRoom edges.now (length left.old) (length fixed.now) }
    ensures { IfOk result (λ order. Simplifies k (graph_of edges.now left.old fixed.now) order.items) }
{
    let mut order = Vec::new(alloc);
    let mut degrees = degrees_of(alloc, edges, left)?;
    let mut low = low_of(alloc, left, fixed, &degrees, k)?;
    let mut high = 0;
    while let Some(a) = pick(left, fixed, &mut low, &mut high) {
        order.push(a)?;
        left[a] = false;
        lower(edges, fixed, &mut degrees, &mut low, a, k)?;
    }
    Ok(order)
}
