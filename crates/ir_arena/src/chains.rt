//! Chains of nodes, linked both ways.

ghost use Rattle.std.specs.Prelude.{◌≡◌, ℕ, ◌+◌, ◌-◌, ◌<◌, ◌≤◌, ◌^◌, [], ◌∷◌, ◌++◌, length, map, slice_set, Some, None, OnOk, OnErr, IfOk, IfSome, IsOk};
ghost use Rattle.std.specs.Option.{ForSome};
ghost use Rattle.std.specs.Borrow.{sem};
ghost use Rattle.ir_arena.specs.Chains.{list_at, item_in, Has, IsInUse, IsItemOf, in_use, inserted, without, first_id, last_id, next_in, before_in, IdsDiffer, KeepsOthers};

use crate::chunk::CHUNK;
use crate::links;
use crate::links::Ends;
use crate::node::{ChainId, Link, Node, NodeId, link, linked};
use crate::nodes::Nodes;
use b3_base::NoMemory;
use std::alloc::Global;
use std::marker::Model;

/// Chains of items, each in a node of its own that keeps its id until the item is removed.
#[derive(Drop)]
pub struct Chains<T> {
    nodes: Nodes<T>,
    ends: Vec<Ends>,
    // The first free node, and how many there are.
    free: Link,
    spare: usize,
}

impl<T> Model for Chains<T> {
    ghost use Rattle.ir_arena.specs.Chains.{Chains as Lists, chains_code};

    ghost Value = { Lists T };

    ghost coded = { chains_code T.code };

    ghost use Rattle.ir_arena.specs.Layout.{lists_of, IsLaidOut};

    ghost view = { λ s. record { lists = lists_of s.nodes s.ends.items; spare = s.spare } };

    ghost invariant = { λ s. IsLaidOut s.nodes s.ends.items s.free s.spare (lists_of s.nodes s.ends.items) };
}

impl<T: Drop> Chains<T> {
    ghost use Rattle.ir_arena.specs.Lends.{lends_item};

    /// No chains and no room. It takes no memory.
    pub fn new(alloc: Global) -> Chains<T>
        ensures lists { result.lists ≡ [] }
        ensures spare { result.spare ≡ 0 }
    {
        Chains {
            nodes: Nodes::new(alloc),
            ends: Vec::new(alloc),
            free: None,
            spare: 0,
        }
    }

    /// Makes room for at least `n` more items. It is refused for want of memory alone.
    pub fn reserve(&mut self, n: usize) -> Result<(), NoMemory>
        requires { in_use self.old.lists + n < 2 ^ 32 - 1 }
        ensures ok { OnOk result (n ≤ self.new.spare) }
        ensures lists { self.new.lists ≡ self.old.lists }
        ensures spare { self.old.spare ≤ self.new.spare }

        // Where the room is there already, nothing is taken.
        ensures had_room { n ≤ self.old.spare → IsOk result }
        ensures kept { n ≤ self.old.spare → self.new ≡ self.old }
    {
        while self.spare < n {
            self.grow()?;
        }
        Ok(())
    }

    // Makes room for one more chunk of items.
    fn grow(&mut self) -> Result<(), NoMemory>
        requires { in_use self.old.lists + self.old.spare < 2 ^ 32 - 1 }
        ensures ok { OnOk result (self.old.spare < self.new.spare) }
        ensures lists { self.new.lists ≡ self.old.lists }
        ensures err { OnErr result (self.new ≡ self.old) }
    {
        self.free = self.nodes.grow(self.free)?;
        self.spare += CHUNK;
        Ok(())
    }

    /// Adds an empty chain after the others. It is refused for want of memory alone, and then changes
    /// nothing.
    pub fn add_chain(&mut self) -> Result<ChainId, NoMemory>
        requires { length self.old.lists < 2 ^ 32 - 1 }
        ensures id { IfOk result (λ chain. chain ≡ length self.old.lists) }
        ensures lists { OnOk result (self.new.lists ≡ self.old.lists ++ [] ∷ []) }
        ensures spare { self.new.spare ≡ self.old.spare }
        ensures err { OnErr result (self.new ≡ self.old) }
    {
        let chain = ChainId(self.ends.len() as u32);
        self.ends.push(Ends {
            first: None,
            last: None,
        })?;
        Ok(chain)
    }

    /// Puts an item into a chain, after the node `after`, or first where that is `None`, and gives the
    /// id of its node, which was in use nowhere. It takes no memory.
    pub fn insert_after(&mut self, chain: ChainId, after: Option<NodeId>, item: T) -> NodeId
        requires room { 0 < self.old.spare }
        requires chain { chain < length self.old.lists }
        requires after { ForSome after (Has (list_at self.old.lists chain)) }
        ensures fresh { IsInUse self.old.lists result → ⊥ }
        ensures lists { self.new.lists ≡ slice_set self.old.lists chain (inserted (list_at self.old.lists chain) after (result, item)) }
        ensures spare { self.new.spare + 1 ≡ self.old.spare }
        ensures keeps { KeepsOthers self.old.lists self.new.lists result }
    {
        let Some(id) = self.free else { unreachable!() };
        let place = chain.0 as usize;
        let before = link(after);
        let next = links::after(&self.nodes, self.ends[place], before);
        let node = Node {
            chain: chain.0,
            before,
            next,
            item: Some(item),
        };
        let old = self.nodes.replace(id, node);
        self.free = old.next;
        links::relink(
            &mut self.nodes,
            &mut self.ends[place],
            (before, next),
            Some(id),
            Some(id),
        );
        self.spare -= 1;
        NodeId(id)
    }

    /// Takes the item of a node out of its chain. The id may then be handed out again. It takes no
    /// memory.
    pub fn remove(&mut self, id: NodeId) -> T
        requires { IsInUse self.old.lists id }
        ensures item { IsItemOf self.old.lists id result }
        ensures lists { self.new.lists ≡ map (without id) self.old.lists }
        ensures spare { self.new.spare ≡ self.old.spare + 1 }
        ensures keeps { KeepsOthers self.old.lists self.new.lists id }
    {
        let vacant = Node {
            chain: 0,
            before: None,
            next: self.free,
            item: None,
        };
        let Node {
            chain,
            before,
            next,
            item,
        } = self.nodes.replace(id.0, vacant);
        let place = chain as usize;
        links::relink(
            &mut self.nodes,
            &mut self.ends[place],
            (before, next),
            next,
            before,
        );
        self.free = Some(id.0);
        self.spare += 1;
        match item {
            Some(item) => item,
            None => unreachable!(),
        }
    }

    /// Tells that no id is in use twice, and that 32 bits count the nodes. It takes no memory.
    pub fn ids_differ(&self)
        ensures differ { IdsDiffer self.now.lists }
        ensures few { in_use self.now.lists + self.now.spare ≤ 2 ^ 32 }
    {
        let _ = &self.spare;
    }

    /// The item of a node.
    pub fn get(&self, id: NodeId) -> &T
        requires { IsInUse self.now.lists id }
        ensures item { IsItemOf self.now.lists id result.now }
        ensures differ { IdsDiffer self.now.lists }
    {
        match &self.nodes.node(id.0).item {
            Some(item) => item,
            None => unreachable!(),
        }
    }

    /// The item of a node, to be changed.
    pub fn get_mut(&mut self, id: NodeId) -> &mut T
        requires { IsInUse self.old.lists id }
        ensures* writes_back { sem 𝓛 (lends_item T.row self.entry id result) }
        ensures item { IsItemOf self.old.lists id result.now }
    {
        self.nodes.node_mut(id.0).item_mut()
    }

    /// The first node of a chain.
    pub fn first(&self, chain: ChainId) -> Option<NodeId>
        requires { chain < length self.now.lists }
        ensures first { result ≡ first_id (list_at self.now.lists chain) }
        ensures found { IfSome result (Has (list_at self.now.lists chain)) }
        ensures differ { IdsDiffer self.now.lists }
    {
        linked(self.ends[chain.0 as usize].first)
    }

    /// The last node of a chain.
    pub fn last(&self, chain: ChainId) -> Option<NodeId>
        requires { chain < length self.now.lists }
        ensures last { result ≡ last_id None (list_at self.now.lists chain) }
        ensures found { IfSome result (Has (list_at self.now.lists chain)) }
        ensures differ { IdsDiffer self.now.lists }
    {
        linked(self.ends[chain.0 as usize].last)
    }

    /// The node after a node, in its chain.
    pub fn next(&self, id: NodeId) -> Option<NodeId>
        requires { IsInUse self.now.lists id }
        ensures next { (chain : ℕ) → Has (list_at self.now.lists chain) id → result ≡ next_in (list_at self.now.lists chain) id }
        ensures found { (chain : ℕ) → Has (list_at self.now.lists chain) id → IfSome result (Has (list_at self.now.lists chain)) }
        ensures differ { IdsDiffer self.now.lists }
    {
        linked(self.nodes.node(id.0).next)
    }

    /// The node before a node, in its chain.
    pub fn before(&self, id: NodeId) -> Option<NodeId>
        requires { IsInUse self.now.lists id }
        ensures before { (chain : ℕ) → Has (list_at self.now.lists chain) id → result ≡ before_in None (list_at self.now.lists chain) id }
        ensures found { (chain : ℕ) → Has (list_at self.now.lists chain) id → IfSome result (Has (list_at self.now.lists chain)) }
        ensures differ { IdsDiffer self.now.lists }
    {
        linked(self.nodes.node(id.0).before)
    }
}
