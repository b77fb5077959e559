//! Procedures and modules. Contracts see a procedure as its name, line, slots and blocks, beside the
//! ids of the nodes in which its values stand and the number of values that fit without memory; and
//! a module as the list of its procedures.

ghost use Rattle.std.specs.Prelude.{◌≡◌, ℕ, ◌≤◌, ◌+◌, ◌-◌, ◌^◌, ◌<◌, [], ◌∷◌, ◌++◌, length, Some, None, OnOk, OnErr, IfOk, IfSome, IsOk, slice_get, slice_set, slice_index_or, take, drop, insert, remove};
ghost use Rattle.std.specs.Borrow.{sem};
ghost use Rattle.ir_arena.specs.Chains.{list_at};
ghost use Rattle.b3_ir.specs.Fits.{Fits};
ghost use Rattle.b3_ir.specs.Layout.{IsHeld};
ghost use Rattle.b3_ir.specs.Lending.{LendsProc};
ghost use Rattle.b3_ir.specs.Procedure.{AddsNode, IsAt, IsIn, IsNode, IsWhole, empty_block, empty_kept, marked, no_block, nodes_of, numbered, place_of, total, values_from, values_of, with_values};

use crate::value::Value;
use b3_base::{NoMemory, Seq};
use ir_arena::{ChainId, Chains, NodeId};
use std::alloc::Global;
use std::marker::Model;
use std::mem;

/// A stack slot as its line gives it: its number, its size in bytes, and the line, counted from 1.
#[derive(Clone, Copy, Debug, PartialEq, Eq)]
pub struct SlotLine {
    pub number: u32,
    pub bytes: u32,
    pub line: u32,
}

/// A block's heading: its number, and its line, counted from 1.
#[derive(Clone, Copy, Debug, PartialEq, Eq)]
pub struct BlockLine {
    pub number: u32,
    pub line: u32,
}

/// A block: its number, the line of its heading, and the chain of its values.
#[derive(Clone, Copy)]
pub(crate) struct Heading {
    pub(crate) number: u32,
    pub(crate) line: u32,
    pub(crate) chain: ChainId,
}

/// A procedure: its name, the line of its header, its slots, and its blocks. Each value stands in a
/// node of its own, and keeps it until it is removed.
#[derive(Drop)]
pub struct Proc {
    name: String,
    line: u32,
    slots: Seq<SlotLine>,
    // The live blocks first, and after them blocks with empty chains that wait to be used again.
    headings: Vec<Heading>,
    live: usize,
    chains: Chains<Value>,
}

impl Model for Proc {
    ghost use Rattle.std.specs.Prelude.{map, take};
    ghost use Rattle.std.specs.String.{string_bytes};
    ghost use Rattle.b3_ir.specs.Procedure.{Kept};

    ghost Value = { Kept };

    ghost use Rattle.b3_ir.specs.Layout.{block_of, ids_of, IsSound};

    ghost view = { λ p. record {
      procedure = record { name = string_bytes p.name; line = p.line; slots = p.slots; blocks = map (block_of p.chains.lists) (take p.live p.headings.items) };
      nodes = map (ids_of p.chains.lists) (take p.live p.headings.items);
      spare = p.chains.spare;
    } };

    ghost invariant = { λ p. IsSound p.slots p.chains.lists p.headings.items p.live };
}

impl Proc {
    /// A procedure without slots and blocks. It is refused for want of memory alone.
    pub fn new(alloc: Global, name: &str, line: u32) -> Result<Proc, NoMemory>
        ensures { IfOk result (λ p. p ≡ empty_kept name.now line) }
    {
        Ok(Proc {
            name: String::from_str(alloc, name)?,
            line,
            slots: Seq::new(alloc),
            headings: Vec::new(alloc),
            live: 0,
            chains: Chains::new(alloc),
        })
    }

    /// The procedure's name.
    pub fn name(&self) -> &str
        ensures { result.now ≡ self.now.procedure.name }
    {
        self.name.as_str()
    }

    /// The line of its header, counted from 1.
    pub fn line(&self) -> u32
        ensures { result ≡ self.now.procedure.line }
    {
        self.line
    }

    /// The number of its slots.
    pub fn slots(&self) -> usize
        ensures { result ≡ length self.now.procedure.slots }
    {
        self.slots.len()
    }

    /// The slot at a place, counted from 0.
    pub fn slot(&self, at: usize) -> SlotLine
        requires { at < length self.now.procedure.slots }
        ensures { slice_get self.now.procedure.slots at ≡ Some result }
    {
        *self.slots.get(at)
    }

    /// The number of its blocks.
    pub fn blocks(&self) -> usize
        ensures { result ≡ length self.now.procedure.blocks }
    {
        self.live
    }

    /// The heading of the block at a place, counted from 0.
    pub fn block(&self, at: usize) -> BlockLine
        requires { at < length self.now.procedure.blocks }
        ensures number { result.number ≡ (slice_index_or self.now.procedure.blocks at no_block).number }
        ensures line { result.line ≡ (slice_index_or self.now.procedure.blocks at no_block).line }
    {
        let heading = self.headings[at];
        BlockLine {
            number: heading.number,
            line: heading.line,
        }
    }

    /// Tells that each value fits and has its node, that no two places have one node, and that 32 bits
    /// count blocks, slots, and values with the room for more. It takes no memory.
    pub fn whole(&self)
        ensures { IsWhole self.now }
    {
        self.chains.ids_differ();
    }

    /// The first node of a block, or None where the block is empty.
    pub fn first(&self, block: usize) -> Option<NodeId>
        requires { block < length self.now.procedure.blocks }
        ensures first { result ≡ slice_get (nodes_of self.now block) 0 }
        ensures rest { values_from self.now block result ≡ values_of self.now.procedure block }
        ensures there { IfSome result (λ node. IsIn self.now node block) }
    {
        let heading = self.headings[block];
        self.chains.first(heading.chain)
    }

    /// The node after a node in its block, or None where it is the last.
    pub fn next(&self, at: NodeId) -> Option<NodeId>
        requires { IsNode self.now at }
        ensures next { (block place : ℕ) → IsAt self.now at block place → result ≡ slice_get (nodes_of self.now block) (place + 1) }
        ensures place { (block place : ℕ) → IsAt self.now at block place → place_of (nodes_of self.now block) result ≡ place + 1 }
        ensures rest { (block : ℕ) → IsIn self.now at block → values_from self.now block result ≡ drop 1 (values_from self.now block (Some at)) }
        ensures there { (block : ℕ) → IsIn self.now at block → IfSome result (λ node. IsIn self.now node block) }
    {
        self.chains.next(at)
    }

    /// The value of a node.
    pub fn value(&self, at: NodeId) -> &Value
        requires { IsNode self.now at }
        ensures value { (block place : ℕ) → IsAt self.now at block place → slice_get (values_of self.now.procedure block) place ≡ Some result.now }
        ensures head { (block : ℕ) → IsIn self.now at block → slice_get (values_from self.now block (Some at)) 0 ≡ Some result.now }
        ensures fits { Fits result.now }
    {
        self.chains.get(at)
    }

    /// Adds a slot of `bytes` bytes with the next number and the procedure's line. It is refused for
    /// want of memory alone, and then changes nothing.
    pub fn add_slot(&mut self, bytes: u32) -> Result<(), NoMemory>
        requires { length self.old.procedure.slots < 2 ^ 32 - 2 }
        ensures ok { OnOk result (self.new ≡ record self.old { procedure = record self.old.procedure { slots = self.old.procedure.slots ++ record { number = length self.old.procedure.slots; bytes = bytes; line = self.old.procedure.line } ∷ [] } }) }
        ensures err { OnErr result (self.new ≡ self.old) }
    {
        let number = self.slots.len() as u32;
        let line = self.line;
        self.add_slot_at(number, bytes, line)
    }

    /// Adds a slot of `bytes` bytes with a number and a line. It is refused for want of memory alone,
    /// and then changes nothing.
    pub fn add_slot_at(&mut self, number: u32, bytes: u32, line: u32) -> Result<(), NoMemory>
        requires { length self.old.procedure.slots < 2 ^ 32 - 2 }
        ensures ok { OnOk result (self.new ≡ record self.old { procedure = record self.old.procedure { slots = self.old.procedure.slots ++ record { number = number; bytes = bytes; line = line } ∷ [] } }) }
        ensures err { OnErr result (self.new ≡ self.old) }
    {
        self.slots.push(SlotLine {
            number,
            bytes,
            line,
        })
    }

    /// Adds an empty block with the next number and the procedure's line, and gives its place. It is
    /// refused for want of memory alone, and then changes nothing.
    pub fn add_block(&mut self) -> Result<u32, NoMemory>
        requires { length self.old.procedure.blocks < 2 ^ 32 - 2 }
        ensures ok { OnOk result (self.new.procedure ≡ record self.old.procedure { blocks = self.old.procedure.blocks ++ empty_block (length self.old.procedure.blocks) self.old.procedure.line ∷ [] }) }
        ensures nodes { OnOk result (self.new.nodes ≡ self.old.nodes ++ [] ∷ []) }
        ensures count { total self.new.procedure ≡ total self.old.procedure }
        ensures place { IfOk result (λ place. place ≡ length self.old.procedure.blocks) }
        ensures spare { self.new.spare ≡ self.old.spare }
        ensures err { OnErr result (self.new ≡ self.old) }
    {
        let number = self.live as u32;
        let line = self.line;
        self.add_block_at(number, line)
    }

    /// Adds an empty block with a number and a line, and gives its place. It is refused for want of
    /// memory alone, and then changes nothing.
    pub fn add_block_at(&mut self, number: u32, line: u32) -> Result<u32, NoMemory>
        requires { length self.old.procedure.blocks < 2 ^ 32 - 2 }
        ensures ok { OnOk result (self.new.procedure ≡ record self.old.procedure { blocks = self.old.procedure.blocks ++ empty_block number line ∷ [] }) }
        ensures nodes { OnOk result (self.new.nodes ≡ self.old.nodes ++ [] ∷ []) }
        ensures count { total self.new.procedure ≡ total self.old.procedure }
        ensures place { IfOk result (λ place. place ≡ length self.old.procedure.blocks) }
        ensures spare { self.new.spare ≡ self.old.spare }
        ensures err { OnErr result (self.new ≡ self.old) }
    {
        let place = self.live as u32;
        find_idle(&mut self.headings, &mut self.chains, self.live)?;
        let heading = &mut self.headings[self.live];
        heading.number = number;
        heading.line = line;
        self.live += 1;
        Ok(place)
    }

    /// Makes room for at least `n` more values. It is refused for want of memory alone, and may then
    /// have made some of it.
    pub fn reserve(&mut self, n: usize) -> Result<(), NoMemory>
        requires { total self.old.procedure + n < 2 ^ 32 - 1 }
        ensures ok { OnOk result (n ≤ self.new.spare) }
        ensures procedure { self.new.procedure ≡ self.old.procedure }
        ensures nodes { self.new.nodes ≡ self.old.nodes }
        ensures spare { self.old.spare ≤ self.new.spare }
        ensures had_room { n ≤ self.old.spare → IsOk result }
        ensures kept { n ≤ self.old.spare → self.new.spare ≡ self.old.spare }
    {
        self.chains.reserve(n)
    }

    /// Adds a value at the end of a block, and makes room for it where there is none. It is refused for
    /// want of memory alone, and then changes no value and no node; where there is room it isn't refused.
    pub fn push(&mut self, block: u32, value: Value) -> Result<(), NoMemory>
        requires in_blocks { block < length self.old.procedure.blocks }
        requires few { total self.old.procedure < 2 ^ 32 - 2 }
        requires fits { Fits value }
        ensures ok { OnOk result (self.new.procedure ≡ with_values self.old.procedure block (values_of self.old.procedure block ++ value ∷ [])) }
        ensures nodes { OnOk result (AddsNode self.old self.new block) }
        ensures count { OnOk result (total self.new.procedure ≡ total self.old.procedure + 1) }
        ensures spare { self.old.spare ≤ self.new.spare + 1 }
        ensures had_room { 0 < self.old.spare → IsOk result }
        ensures took_room { 0 < self.old.spare → self.new.spare + 1 ≡ self.old.spare }
        ensures err { OnErr result (self.new.procedure ≡ self.old.procedure) }
        ensures err_nodes { OnErr result (self.new.nodes ≡ self.old.nodes) }
    {
        self.chains.reserve(1)?;
        let heading = self.headings[block as usize];
        let last = self.chains.last(heading.chain);
        self.chains.insert_after(heading.chain, last, value);
        Ok(())
    }

    /// Puts a value before the node `at` of a block, and gives its node, which was none before. It
    /// takes no memory.
    pub fn insert_before(&mut self, block: usize, at: NodeId, value: Value) -> NodeId
        requires room { 0 < self.old.spare }
        requires at { IsIn self.old at block }
        requires fits { Fits value }
        ensures fresh { IsNode self.old result → ⊥ }
        ensures procedure { (place : ℕ) → IsAt self.old at block place → self.new.procedure ≡ with_values self.old.procedure block (insert (values_of self.old.procedure block) place value) }
        ensures nodes { (place : ℕ) → IsAt self.old at block place → self.new.nodes ≡ slice_set self.old.nodes block (insert (nodes_of self.old block) place result) }
        ensures count { total self.new.procedure ≡ total self.old.procedure + 1 }
        ensures spare { self.new.spare + 1 ≡ self.old.spare }
    {
        let heading = self.headings[block];
        let before = self.chains.before(at);
        self.chains.insert_after(heading.chain, before, value)
    }

    /// Takes a node's value out. The node's id may then be handed out again. It takes no memory.
    pub fn remove(&mut self, at: NodeId) -> Value
        requires { IsNode self.old at }
        ensures was { (block place : ℕ) → IsAt self.old at block place → slice_get (values_of self.old.procedure block) place ≡ Some result }
        ensures procedure { (block place : ℕ) → IsAt self.old at block place → self.new.procedure ≡ with_values self.old.procedure block (remove (values_of self.old.procedure block) place) }
        ensures nodes { (block place : ℕ) → IsAt self.old at block place → self.new.nodes ≡ slice_set self.old.nodes block (remove (nodes_of self.old block) place) }
        ensures count { total self.new.procedure + 1 ≡ total self.old.procedure }
        ensures spare { self.new.spare ≡ self.old.spare + 1 }
    {
        self.chains.ids_differ();
        self.chains.remove(at)
    }

    /// Puts another value in a node, and hands the old one back. It takes no memory.
    pub fn replace(&mut self, at: NodeId, value: Value) -> Value
        requires at { IsNode self.old at }
        requires fits { Fits value }
        ensures was { (block place : ℕ) → IsAt self.old at block place → slice_get (values_of self.old.procedure block) place ≡ Some result }
        ensures procedure { (block place : ℕ) → IsAt self.old at block place → self.new.procedure ≡ with_values self.old.procedure block (slice_set (values_of self.old.procedure block) place value) }
        ensures nodes { self.new.nodes ≡ self.old.nodes }
        ensures count { total self.new.procedure ≡ total self.old.procedure }
        ensures spare { self.new.spare ≡ self.old.spare }
    {
        self.chains.ids_differ();
        mem::replace(self.chains.get_mut(at), value)
    }

    /// Keeps the blocks that `keep` marks, in order, under the numbers 0, 1, 2 and so on; the others go
    /// with their values. What values say of blocks stays as it is. It takes no memory.
    pub fn keep_blocks(&mut self, keep: &[bool])
        requires { length keep.now ≡ length self.old.procedure.blocks }
        ensures procedure { self.new.procedure ≡ record self.old.procedure { blocks = numbered 0 (marked keep.now self.old.procedure.blocks) } }
        ensures nodes { self.new.nodes ≡ marked keep.now self.old.nodes }
        ensures spare { self.new.spare + total self.new.procedure ≡ self.old.spare + total self.old.procedure }
    {
        self.whole();
        let mut live: u32 = 0;
        for from in 0..keep.len() {
            if keep[from] {
                self.move_up(from, live as usize, live);
                live += 1;
            } else {
                self.clear(from);
            }
        }
        self.truncate(live as usize);
    }

    // Takes all values out of a block.
    fn clear(&mut self, block: usize)
        requires { block < length self.old.procedure.blocks }
        ensures procedure { self.new.procedure ≡ with_values self.old.procedure block [] }
        ensures nodes { self.new.nodes ≡ slice_set self.old.nodes block [] }
        ensures spare { self.new.spare ≡ self.old.spare + length (values_of self.old.procedure block) }
    {
        self.whole();
        while let Some(node) = self.first(block) {
            let_go(self.remove(node));
        }
    }

    // Puts a block in the place of an earlier one or its own, under that place's number.
    fn move_up(&mut self, from: usize, to: usize, number: u32)
        requires from { from < length self.old.procedure.blocks }
        requires to { to ≤ from }
        requires number { number ≡ to }
        ensures procedure { self.new.procedure ≡ record self.old.procedure { blocks = slice_set (slice_set self.old.procedure.blocks from (slice_index_or self.old.procedure.blocks to no_block)) to (record (slice_index_or self.old.procedure.blocks from no_block) { number = to }) } }
        ensures nodes { self.new.nodes ≡ slice_set (slice_set self.old.nodes from (nodes_of self.old to)) to (nodes_of self.old from) }
        ensures spare { self.new.spare ≡ self.old.spare }
    {
        let heading = self.headings[from];
        self.headings[from] = self.headings[to];
        self.headings[to] = Heading {
            number,
            line: heading.line,
            chain: heading.chain,
        };
    }

    // Lets go of the empty blocks from a place on.
    fn truncate(&mut self, live: usize)
        requires live { live ≤ length self.old.procedure.blocks }
        requires empty { (block : ℕ) → live ≤ block → values_of self.old.procedure block ≡ [] }
        ensures procedure { self.new.procedure ≡ record self.old.procedure { blocks = take live self.old.procedure.blocks } }
        ensures nodes { self.new.nodes ≡ take live self.old.nodes }
        ensures spare { self.new.spare ≡ self.old.spare }
    {
        self.live = live;
    }
}

// Lets go of a value.
fn let_go(_value: Value) {}

// Sees to it that a block waits behind the live ones.
fn find_idle(
    headings: &mut Vec<Heading>,
    chains: &mut Chains<Value>,
    live: usize,
) -> Result<(), NoMemory>
    requires held { IsHeld chains.old.lists headings.old.items live }
    requires few { live < 2 ^ 32 - 2 }
    requires short { length headings.old.items < 2 ^ 32 }
    ensures ok { OnOk result (live < length headings.new.items) }
    ensures held { IsHeld chains.new.lists headings.new.items live }
    ensures short { length headings.new.items < 2 ^ 32 }
    ensures live_blocks { take live headings.new.items ≡ take live headings.old.items }
    ensures lists { (chain : ℕ) → list_at chains.new.lists chain ≡ list_at chains.old.lists chain }
    ensures spare { chains.new.spare ≡ chains.old.spare }
{
    if live < headings.len() {
        return Ok(());
    }
    headings.reserve(1)?;
    let chain = chains.add_chain()?;
    headings.push_reserved(Heading {
        number: 0,
        line: 0,
        chain,
    });
    Ok(())
}

/// A module: procedures in order.
#[derive(Drop)]
pub struct Module {
    alloc: Global,
    procs: Vec<Proc>,
}

impl Model for Module {
    ghost use Rattle.std.specs.Prelude.{List};
    ghost use Rattle.b3_ir.specs.Procedure.{Kept};

    ghost Value = { List Kept };

    ghost view = { λ m. m.procs.items };
}

impl Module {
    /// A module without procedures. It takes no memory.
    pub fn new(alloc: Global) -> Module
        ensures { result ≡ [] }
    {
        Module {
            alloc,
            procs: Vec::new(alloc),
        }
    }

    /// The number of procedures.
    pub fn procs(&self) -> usize
        ensures { result ≡ length self.now }
    {
        self.procs.len()
    }

    /// The procedure at a place, counted from 0.
    pub fn proc(&self, at: usize) -> &Proc
        requires { at < length self.now }
        ensures { slice_get self.now at ≡ Some result.now }
    {
        &self.procs[at]
    }

    /// The procedure at a place, to be changed.
    pub fn proc_mut(&mut self, at: usize) -> &mut Proc
        requires { at < length self.old }
        ensures* writes_back { sem 𝓛 (LendsProc self.entry at result) }
        ensures value { slice_get self.old at ≡ Some result.now }
    {
        &mut self.procs[at]
    }

    /// Adds a procedure without slots and blocks. It is refused for want of memory alone, and
    /// then changes nothing.
    pub fn add_proc(&mut self, name: &str, line: u32) -> Result<(), NoMemory>
        requires { length self.old < 2 ^ 32 - 2 }
        ensures ok { OnOk result (self.new ≡ self.old ++ empty_kept name.now line ∷ []) }
        ensures err { OnErr result (self.new ≡ self.old) }
    {
        let added = Proc::new(self.alloc, name, line)?;
        self.procs.push(added)?;
        Ok(())
    }
}
