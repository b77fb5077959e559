//! All nodes, in chunks. Contracts see `Nodes` as the list of the nodes, each at its id.

ghost use Rattle.std.specs.Prelude.{◌≡◌, ◌<◌, ◌≤◌, ◌^◌, ◌+◌, ℕ, option_map, None, List, [], ◌∷◌, ◌++◌, length, slice_get, slice_set, Some, IfOk, OnErr, OnOk};
ghost use Rattle.std.specs.Borrow.{sem};
ghost use Rattle.ir_arena.specs.Layout.{free_head, free_nodes};

use crate::chunk::{CHUNK, Chunk};
use crate::node::{Link, Node};
use b3_base::NoMemory;
use std::alloc::Global;
use std::marker::Model;
use std::mem;

/// The table of the chunks, each full, with at most 2^32 nodes in all.
#[derive(Drop)]
pub(crate) struct Nodes<T> {
    alloc: Global,
    chunks: Vec<Chunk<T>>,
}

impl<T> Model for Nodes<T> {
    ghost use Rattle.std.specs.Prelude.{List};
    ghost use Rattle.ir_arena.specs.declared.node.Node.{Node};

    ghost Value = { List (Node T) };

    ghost use Rattle.std.specs.Prelude.{◌≡◌, ◌≤◌, ◌^◌, length, All};
    ghost use Rattle.std.specs.List.{flat_map};

    ghost view = { λ s. flat_map (λ c. c) s.chunks.items };

    ghost invariant = { λ s. All (λ c. length c ≡ 64) s.chunks.items × (length s.chunks.items ≤ 2 ^ 26) };
}

impl<T> Nodes<T> {
    ghost use Rattle.ir_arena.specs.NodesLends.{lends_node};
    ghost use Rattle.ir_arena.specs.Layout.{relinked};

    /// No nodes. It takes no memory.
    pub(crate) fn new(alloc: Global) -> Nodes<T>
        ensures { result ≡ [] }
    {
        Nodes {
            alloc,
            chunks: Vec::new(alloc),
        }
    }

    /// The node of an id.
    pub(crate) fn node(&self, id: u32) -> &Node<T>
        requires { id < length self.now }
        ensures { slice_get self.now id ≡ Some result.now }
    {
        let at = id as usize;
        self.chunks[at / CHUNK].node(at % CHUNK)
    }

    /// The node of an id, to be changed.
    pub(crate) fn node_mut(&mut self, id: u32) -> &mut Node<T>
        requires { id < length self.old }
        ensures* lends { sem 𝓛 (lends_node T.row self.entry id result) }
        ensures value { slice_get self.old id ≡ Some result.now }
    {
        let at = id as usize;
        self.chunks[at / CHUNK].node_mut(at % CHUNK)
    }

    /// The number of nodes.
    pub(crate) fn len(&self) -> usize
        ensures len { result ≡ length self.now }
        ensures small { result ≤ 2 ^ 32 }
    {
        self.chunks.len() * CHUNK
    }

    /// Puts a node in the place of the one of an id, which it hands back.
    pub(crate) fn replace(&mut self, id: u32, node: Node<T>) -> Node<T>
        requires { id < length self.old }
        ensures was { slice_get self.old id ≡ Some result }
        ensures put { self.new ≡ slice_set self.old id node }
    {
        mem::replace(self.node_mut(id), node)
    }

    /// Changes what comes after the node of an id.
    pub(crate) fn set_next(&mut self, id: u32, to: Link)
        requires { id < length self.old }
        ensures nodes { (i : ℕ) → slice_get self.new i ≡ option_map (relinked (Some id) None to None i) (slice_get self.old i) }
        ensures len { length self.new ≡ length self.old }
    {
        let node = self.node_mut(id);
        node.next = to;
    }

    /// Changes what comes before the node of an id.
    pub(crate) fn set_before(&mut self, id: u32, to: Link)
        requires { id < length self.old }
        ensures nodes { (i : ℕ) → slice_get self.new i ≡ option_map (relinked None (Some id) None to i) (slice_get self.old i) }
        ensures len { length self.new ≡ length self.old }
    {
        let node = self.node_mut(id);
        node.before = to;
    }

    /// Adds a chunk of free nodes, which the nodes from `free` on follow, and says which one comes
    /// first. A refusal changes nothing.
    pub(crate) fn grow(&mut self, free: Link) -> Result<Link, NoMemory>
        requires { length self.old < 2 ^ 32 }
        ensures first { IfOk result (λ first. first ≡ free_head (length self.old) free CHUNK) }
        ensures nodes { OnOk result (self.new ≡ self.old ++ free_nodes (length self.old) free CHUNK) }
        ensures small { length self.new ≤ 2 ^ 32 }
        ensures err { OnErr result (self.new ≡ self.old) }
    {
        let start = self.len();
        self.chunks.reserve(1)?;
        let (chunk, first) = free_chunk(self.alloc, start as u32, free)?;
        self.chunks.push_reserved(chunk);
        Ok(first)
    }
}

// A full chunk of free nodes, the first of them of the id `start`, and which one comes first.
fn free_chunk<T>(alloc: Global, start: u32, free: Link) -> Result<(Chunk<T>, Link), NoMemory>
    requires { start + CHUNK ≤ 2 ^ 32 }
    ensures chunk { IfOk result (λ r. r.0 ≡ free_nodes start free CHUNK) }
    ensures first { IfOk result (λ r. r.1 ≡ free_head start free CHUNK) }
{
    let mut chunk = Chunk::new(alloc)?;
    let mut first = free;
    for i in 0..CHUNK {
        chunk.push(Node {
            chain: 0,
            before: None,
            next: first,
            item: None,
        });
        first = Some(start + i as u32);
    }
    Ok((chunk, first))
}
