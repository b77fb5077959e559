//! One chunk of nodes, in a raw allocation. Contracts see a `Chunk` as the list of its nodes.

ghost use Rattle.std.specs.Prelude.{◌≡◌, ◌<◌, ◌≤◌, List, [], ◌∷◌, ◌++◌, length, slice_get, slice_set, Some, IfOk};
ghost use Rattle.std.specs.Borrow.{Lends, sem};

use crate::node::Node;
use crate::raw::{Block, PLACES, allocate, fits_block, release};
use std::alloc::{AllocError, Global};
use std::marker::Model;

/// The number of nodes of a chunk.
pub(crate) const CHUNK: usize = PLACES;

/// Room for `CHUNK` nodes.
pub(crate) struct Chunk<T> {
    block: Block<Node<T>, Global>,
    len: usize,
    alloc: Global,
}

impl<T> Model for Chunk<T> {
    ghost use Rattle.std.specs.Prelude.{List};
    ghost use Rattle.ir_arena.specs.declared.node.Node.{Node};

    ghost Value = { List (Node T) };

    ghost view = { λ c. c.block.items };

    ghost use Rattle.std.specs.Prelude.{◌≡◌, ◌≤◌, length};

    ghost invariant = { λ c. (c.block.alloc ≡ c.alloc) × (c.len ≡ length c.block.items) × (c.len ≤ 64) };
}

impl<T> Chunk<T> {
    ghost use Rattle.ir_arena.specs.ChunkLends.{lends_node};

    /// A chunk with no node yet.
    pub(crate) fn new(alloc: Global) -> Result<Chunk<T>, AllocError>
        ensures { IfOk result (λ c. c ≡ []) }
    {
        if !fits_block::<Node<T>>() {
            return Err(AllocError);
        }
        Ok(Chunk {
            block: allocate(&alloc)?,
            len: 0,
            alloc,
        })
    }

    /// Adds a node at the end. It takes no memory.
    pub(crate) fn push(&mut self, node: Node<T>)
        requires { length self.old < CHUNK }
        ensures { self.new ≡ self.old ++ node ∷ [] }
    {
        self.block.put(self.len, node);
        self.len += 1;
    }

    /// The node at a place.
    pub(crate) fn node(&self, at: usize) -> &Node<T>
        requires { at < length self.now }
        ensures { slice_get self.now at ≡ Some result.now }
    {
        self.block.get(at)
    }

    /// The node at a place, to be changed.
    pub(crate) fn node_mut(&mut self, at: usize) -> &mut Node<T>
        requires { at < length self.old }
        ensures* lends { sem 𝓛 (lends_node T.row self.entry at result) }
        ensures value { slice_get self.old at ≡ Some result.now }
    {
        self.block.get_mut(at)
    }
}

/// Drops each node once, and frees the allocation once.
impl<T: Drop> Drop for Chunk<T> {
    fn drop(self) {
        let Chunk {
            mut block,
            len,
            alloc,
        } = self;
        for dropped in 0..len {
            drop(block.take(len - 1 - dropped));
        }
        release(block, &alloc);
    }
}
