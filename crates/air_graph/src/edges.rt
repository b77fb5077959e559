//! Edges between numbers.

ghost use Rattle.std.specs.Prelude.{◌≡◌, ◌≢◌, ◌↔◌, ◌⊎◌, ℕ, ◌+◌, ◌*◌, ◌^◌, ◌<◌, ◌≤◌, IfOk, OnOk, OnErr, Contains, true};
ghost use Rattle.std.specs.FinSet as set;
ghost use Rattle.air_graph.specs.Edges.{ArePair, IsListOf, has_edge, pair_number, pairs_below};

use crate::near::{Near, empty_lists, put_pair};
use crate::pages::Pages;
use b3_base::NoMemory;
use std::alloc::Global;
use std::marker::Model;

/// Edges between numbers below a bound: a bit for each pair of two different numbers, in pages of which only those with
/// an edge take memory, and beside them a list of the neighbours of each number.
#[derive(Drop)]
pub struct Edges {
    pairs: Pages,
    near: Vec<Near>,
    names: usize,
}

impl Model for Edges {
    ghost use Rattle.air_graph.specs.Edges.{EdgeSet, IsKept, edge_set_code};

    ghost Value = { EdgeSet };

    ghost coded = { edge_set_code };

    ghost view = { λ e. record { names = e.names; pairs = e.pairs.members } };

    ghost invariant = { λ e. IsKept e.names e.pairs e.near.items };
}

/// How many pairs there are of two different numbers below n.
fn pairs_below(n: usize) -> usize
    requires { n ≤ 2 ^ 17 }
    ensures is { result ≡ pairs_below n }
    ensures few { result ≤ 2 ^ 34 }
{
    n * n.saturating_sub(1) / 2
}

/// The number of a pair.
fn pair_number(i: usize, j: usize) -> usize
    requires order { i < j }
    requires few { j ≤ 2 ^ 17 }
    ensures { result ≡ pair_number i j }
{
    pairs_below(j) + i
}

impl Edges {
    /// No edges between so many numbers. It is refused for want of memory alone.
    pub fn new(alloc: Global, names: usize) -> Result<Edges, NoMemory>
        requires { names ≤ 2 ^ 17 }
        ensures { IfOk result (λ made. made ≡ record { names = names; pairs = set.empty }) }
    {
        let pairs = Pages::new(alloc, pairs_below(names))?;
        let near = empty_lists(alloc, names)?;
        Ok(Edges { pairs, near, names })
    }

    /// How many numbers there are. It takes no memory.
    pub fn names(&self) -> usize
        ensures { result ≡ self.now.names }
    {
        self.names
    }

    /// Whether there is an edge between two numbers. It takes no memory.
    pub fn has(&self, i: usize, j: usize) -> bool
        requires i { i < self.now.names }
        requires j { j < self.now.names }
        ensures { result ≡ has_edge self.now i j }
    {
        if i < j {
            self.pairs.has(pair_number(i, j))
        } else if j < i {
            self.pairs.has(pair_number(j, i))
        } else {
            false
        }
    }

    /// The neighbours of a number, each once. It takes no memory.
    pub fn near(&self, i: usize) -> &[u32]
        requires { i < self.now.names }
        ensures is { IsListOf (has_edge self.now i) result.now }
        ensures below { (x : ℕ) → Contains result.now x → x < self.now.names }
    {
        self.near[i].as_slice()
    }

    /// Adds the edge between two numbers. It is refused for want of memory alone, and then changes nothing.
    pub fn add(&mut self, i: usize, j: usize) -> Result<(), NoMemory>
        requires i { i < self.old.names }
        requires j { j < self.old.names }
        requires differ { i ≢ j }
        ensures names { self.new.names ≡ self.old.names }
        ensures edges { OnOk result ((x y : ℕ) → (has_edge self.new x y ≡ true) ↔ ((has_edge self.old x y ≡ true)
            ⊎ ArePair i j x y)) }
        ensures err { OnErr result (self.new ≡ self.old) }
    {
        if self.has(i, j) {
            return Ok(());
        }
        let pair = if i < j {
            pair_number(i, j)
        } else {
            pair_number(j, i)
        };
        put_pair(&mut self.near, &mut self.pairs, i as u32, j as u32, pair)?;
        Ok(())
    }
}
