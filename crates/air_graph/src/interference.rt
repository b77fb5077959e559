//! The interference graph as it is asked.

ghost use Rattle.std.specs.Prelude.{◌≡◌, ◌≢◌, ◌↔◌, ◌⊎◌, ◌+◌, ◌^◌, ◌<◌, ◌≤◌, [], ℕ, true, length, slice_get, Some, IfOk, OnOk, OnErr};
ghost use Rattle.air_graph.specs.Edges.{ArePair, count, has_edge};
ghost use Rattle.air_graph.specs.Homes.{edge_between, number_of};

use crate::edges::Edges;
use crate::homes::number_of;
use crate::moves::Copied;
use crate::walk::add_registers;
use air_ir::Home;
use b3_base::{NoMemory, Seq};
use std::alloc::Global;

/// The interference graph of a procedure: edges between its temporaries and the registers x0 to x14 and x19 to x28, by
/// their numbers, and its moves in order. Any two registers interfere.
#[derive(Drop)]
pub struct Interference {
    /// Which homes interfere.
    pub edges: Edges,
    /// How many temporaries there are.
    pub tmps: u32,
    /// The moves from a home to a home.
    pub moves: Seq<Copied>,
    ghost sized: { edges.names ≡ tmps + 25 },
    ghost registers: { (r s : ℕ) → r < 25 → s < 25 → r ≢ s → has_edge edges (tmps + r) (tmps + s) ≡ true },
}

impl Interference {
    /// The graph of so many temporaries of which none interferes with another home, and without moves. It is refused
    /// for want of memory alone.
    pub fn new(alloc: Global, tmps: u32) -> Result<Interference, NoMemory>
        requires { tmps + 25 ≤ 2 ^ 17 }
        ensures tmps { IfOk result (λ g. g.tmps ≡ tmps) }
        ensures moves { IfOk result (λ g. g.moves ≡ []) }
        ensures edges { IfOk result (λ g. (i j : ℕ) → i < tmps + 25 → j < tmps + 25
            → (has_edge g.edges i j ≡ true) ↔ ((i ≢ j) × ((tmps ≤ i) × (tmps ≤ j)))) }
    {
        let mut edges = Edges::new(alloc, tmps as usize + 25)?;
        add_registers(&mut edges, tmps as usize)?;
        Ok(Interference {
            edges,
            tmps,
            moves: Seq::new(alloc),
        })
    }

    /// Lets the homes of two numbers interfere. It is refused for want of memory alone, and then changes nothing.
    pub fn connect(&mut self, i: usize, j: usize) -> Result<(), NoMemory>
        requires i { i < self.old.edges.names }
        requires j { j < self.old.edges.names }
        requires differ { i ≢ j }
        ensures tmps { self.new.tmps ≡ self.old.tmps }
        ensures moves { self.new.moves ≡ self.old.moves }
        ensures names { self.new.edges.names ≡ self.old.edges.names }
        ensures edges { OnOk result ((x y : ℕ) → (has_edge self.new.edges x y ≡ true)
            ↔ ((has_edge self.old.edges x y ≡ true) ⊎ ArePair i j x y)) }
        ensures err { OnErr result (self.new.edges ≡ self.old.edges) }
    {
        self.edges.add(i, j)
    }

    /// Whether there is an edge between two homes; any other home than a temporary of the procedure and the 25
    /// registers has none. It takes no memory.
    pub fn meets(&self, a: Home, b: Home) -> bool
        ensures { result ≡ edge_between self.now.edges (number_of self.now.tmps a) (number_of self.now.tmps b) }
    {
        match (number_of(self.tmps, a), number_of(self.tmps, b)) {
            (Some(i), Some(j)) => self.edges.has(i, j),
            _ => false,
        }
    }

    /// With how many homes the home of a number interferes. It takes no memory.
    pub fn degree(&self, n: usize) -> usize
        requires { n < self.now.edges.names }
        ensures { result ≡ count (has_edge self.now.edges n) self.now.edges.names }
    {
        let mut neighbours: usize = 0;
        for x in 0..self.edges.names() {
            if self.edges.has(n, x) {
                neighbours += 1;
            }
        }
        neighbours
    }

    /// How many moves there are. It takes no memory.
    pub fn moves(&self) -> usize
        ensures { result ≡ length self.now.moves }
    {
        self.moves.len()
    }

    /// A move. It takes no memory.
    pub fn move_at(&self, k: usize) -> Copied
        requires { k < length self.now.moves }
        ensures { slice_get self.now.moves k ≡ Some result }
    {
        *self.moves.get(k)
    }
}
