//! Liveness of names over a flow of blocks: which names are live into a block, out of it and
//! before a place of it, exactly as paths say.
#![tactic(auto)]

ghost use Rattle.std.specs.Prelude.{◌≡◌, ℕ, ◌*◌, ◌^◌, ◌<◌, ◌≤◌, ◌↔◌, true, Contains, IfOk, IsTrue};
ghost use Rattle.std.specs.List.Sorted.{IsStrictlyIncreasing};
ghost use Rattle.std.specs.FinSet as set;
ghost use Rattle.flow_live.specs.Graph.{Graph, IsInRange, length_of, LiveIn, LiveOut, LiveBefore};
ghost use Rattle.flow_live.specs.Liveness.{IsLivenessOf, in_of, out_of};

use b3_base::{NoMemory, Seq};
use bit_rows::Rows;
use std::alloc::Global;
use std::marker::Model;

mod flow;
mod gather;
mod scan;
mod solve;
mod touch;

pub use flow::Flow;
pub use touch::Touch;

/// The names that are live into each block of a flow, and those that are live out of it.
#[derive(Drop)]
pub struct LiveSets {
    rows: Rows,
    blocks: usize,
    names: usize,
}

impl Model for LiveSets {
    ghost use Rattle.flow_live.specs.Liveness.{Liveness, liveness_code};

    ghost Value = { Liveness };

    ghost coded = { liveness_code };

    ghost use Rattle.std.specs.Prelude.{take, drop};
    ghost use Rattle.flow_live.specs.Kept.{IsKept};

    ghost view = { λ s. record { blocks = s.blocks; names = s.names; ins = take s.blocks s.rows.sets; outs = take s.blocks (drop s.blocks s.rows.sets) } };

    ghost invariant = { λ s. IsKept s.blocks s.names s.rows };
}

/// The live names of a flow. Blocks are taken from the last to the first, so it is fast where most
/// successors have higher numbers. It is refused for want of memory alone.
pub fn live<F: Flow>(alloc: Global, flow: &F) -> Result<LiveSets, NoMemory>
    requires size { (F.shape flow.now).blocks * (F.shape flow.now).names ≤ 2 ^ 32 }
    requires range { IsInRange (F.shape flow.now) }
    ensures { IfOk result (λ sets. IsLivenessOf (F.shape flow.now) sets) }
{
    let blocks = flow.blocks();
    let names = flow.names();
    if blocks == 0 || names == 0 {
        let rows = Rows::new(alloc, 0, 0)?;
        return Ok(LiveSets {
            rows,
            blocks,
            names,
        });
    }
    let mut rows = Rows::new(alloc, 3 * blocks + 1, names)?;
    let mut grew = vec![in alloc; true; blocks]?;
    gather::gather(flow, &mut rows, blocks);
    solve::solve(flow, &mut rows, blocks, &mut grew);
    Ok(LiveSets {
        rows,
        blocks,
        names,
    })
}

impl LiveSets {
    /// Whether the name is live into the block: exactly where it is live before the block's first
    /// place.
    pub fn live_in(&self, block: usize, name: usize) -> bool
        requires block { block < self.now.blocks }
        requires name { name < self.now.names }
        ensures value { result ≡ set.contains (in_of self.now block) name }
        ensures live { (g : Graph) → IsLivenessOf g self.now → IsTrue result ↔ LiveIn g name block }
    {
        self.rows.has(block, name)
    }

    /// Whether the name is live out of the block: exactly where it is live into a successor.
    pub fn live_out(&self, block: usize, name: usize) -> bool
        requires block { block < self.now.blocks }
        requires name { name < self.now.names }
        ensures value { result ≡ set.contains (out_of self.now block) name }
        ensures live { (g : Graph) → IsLivenessOf g self.now → IsTrue result ↔ LiveOut g name block }
    {
        self.rows.has(self.blocks + block, name)
    }

    /// The names that are live out of the block, in rising order: exactly those that are live into
    /// a successor. It takes a step for each 64 names and one for each name of the list. It is
    /// refused for want of memory alone.
    pub fn names_out(&self, alloc: Global, block: usize) -> Result<Seq<usize>, NoMemory>
        requires { block < self.now.blocks }
        ensures value { IfOk result (λ list. (name : ℕ)
            → Contains list name ↔ ((name < self.now.names) × (set.contains (out_of self.now block) name ≡ true))) }
        ensures live { IfOk result (λ list. (g : Graph) → IsLivenessOf g self.now → (name : ℕ)
            → Contains list name ↔ ((name < self.now.names) × LiveOut g name block)) }
        ensures rising { IfOk result (λ list. IsStrictlyIncreasing list) }
    {
        if self.names == 0 {
            return Ok(Seq::new(alloc));
        }
        self.rows.members(alloc, self.blocks + block)
    }

    /// Whether the name is live before a place of the block, where these are the live names of the
    /// flow. A block without places has the place 0, which touches nothing.
    pub fn live_before<F: Flow>(&self, flow: &F, block: usize, place: usize, name: usize) -> bool
        requires liveness { IsLivenessOf (F.shape flow.now) self.now }
        requires block { block < (F.shape flow.now).blocks }
        requires place { place < length_of (F.shape flow.now) block }
        requires name { name < (F.shape flow.now).names }
        ensures { IsTrue result ↔ LiveBefore (F.shape flow.now) name (record { block = block; place = place }) }
    {
        for at in place..flow.places(block) {
            if scan::uses(flow, block, at, name) {
                return true;
            }
            if scan::defines(flow, block, at, name) {
                return false;
            }
        }
        self.live_out(block, name)
    }
}
