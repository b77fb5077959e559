//! The walk over a procedure.

ghost use Rattle.std.specs.Prelude.{◌≡◌, ◌≢◌, ◌≤◌, ◌+◌, ◌^◌, ◌<◌, ◌⊎◌, ℕ, length, IfOk, OnOk};
ghost use Rattle.flow_live.specs.Liveness.{IsLivenessOf};
ghost use Rattle.air_flow.specs.Flow.{flow_of};
ghost use Rattle.air_graph.specs.Graph.{IsInterferenceOf};
ghost use Rattle.air_graph.specs.Walk.{Adds, MeetAt};

use crate::edges::Edges;
use crate::interference::Interference;
use crate::live::{live_before, live_out};
use crate::met::add_defined;
use crate::moves::moves_of;
use crate::touched::touched_at;
use air_flow::{AirFlow, live_homes};
use air_ir::AirProc;
use b3_base::NoMemory;
use flow_live::{Flow, LiveSets};
use std::alloc::Global;

/// Adds the edges from one register to those before it.
fn add_register(edges: &mut Edges, tmps: usize, r: usize) -> Result<(), NoMemory>
    requires sized { tmps + r < edges.old.names }
    requires few { edges.old.names ≤ 2 ^ 17 }
    ensures names { edges.new.names ≡ edges.old.names }
    ensures edges { OnOk result (Adds edges.old.names edges.old edges.new (λ x y. ((x ≡ tmps + r) × ((tmps ≤ y)
        × (y < tmps + r)))
        ⊎ ((y ≡ tmps + r) × ((tmps ≤ x) × (x < tmps + r))))) }
{
    for s in 0..r {
        edges.add(tmps + r, tmps + s)?;
    }
    Ok(())
}

/// Adds the edges between registers.
pub(crate) fn add_registers(edges: &mut Edges, tmps: usize) -> Result<(), NoMemory>
    requires sized { edges.old.names ≡ tmps + 25 }
    requires few { edges.old.names ≤ 2 ^ 17 }
    ensures names { edges.new.names ≡ edges.old.names }
    ensures edges { OnOk result (Adds edges.old.names edges.old edges.new (λ x y. (tmps ≤ x) × (tmps ≤ y))) }
{
    for r in 0..25 {
        add_register(edges, tmps, r)?;
    }
    Ok(())
}

/// Adds the edges of a block, from its last instruction to its first one.
fn add_block(
    alloc: Global,
    edges: &mut Edges,
    flow: &AirFlow<'_>,
    live: &LiveSets,
    block: usize,
) -> Result<(), NoMemory>
    requires live { IsLivenessOf (flow_of flow.now.proc.now) live.now }
    requires sized { edges.old.names ≡ flow.now.proc.now.tmps + 25 }
    requires block { block < length flow.now.proc.now.blocks }
    ensures names { edges.new.names ≡ edges.old.names }
    ensures edges { OnOk result (Adds edges.old.names edges.old edges.new (λ x y. (place : ℕ)
        × MeetAt flow.now.proc.now block place x y)) }
{
    live_homes();
    let tmps = flow.proc.tmps;
    let mut now = live_out(alloc, tmps, live, block)?;
    for place in (0..flow.places(block)).rev() {
        let t = touched_at(alloc, flow, block, place)?;
        add_defined(alloc, tmps, edges, &t, t.defined.as_slice(), now.as_slice())?;
        now = live_before(alloc, &t, now)?;
    }
    Ok(())
}

/// The interference graph of a procedure, from what is live in it: two of its temporaries and the 25 registers have an
/// edge exactly where they interfere. It is refused for want of memory alone.
pub fn graph(alloc: Global, p: &AirProc, live: &LiveSets) -> Result<Interference, NoMemory>
    requires live { IsLivenessOf (flow_of p.now) live.now }
    requires few { p.now.tmps + 25 ≤ 2 ^ 17 }
    ensures { IfOk result (λ g. IsInterferenceOf p.now g) }
{
    let flow = AirFlow::new(alloc, p)?;
    let mut edges = Edges::new(alloc, p.tmps as usize + 25)?;
    add_registers(&mut edges, p.tmps as usize)?;
    for block in 0..p.blocks.len() {
        add_block(alloc, &mut edges, &flow, live, block)?;
    }
    Ok(Interference {
        edges,
        tmps: p.tmps,
        moves: moves_of(alloc, p)?,
    })
}
