//! Where control comes to a block from, and which block defines an id.

ghost use Rattle.std.specs.Prelude.{◌≡◌, ◌<◌, length, IfOk, IfSome, IsTrue, OnOk};
ghost use Rattle.b3_ir.specs.Procedure.{Procedure, values_of};
ghost use Rattle.b3_rules.specs.Paths.{successors_in};
ghost use Rattle.b3_uses.specs.Lists.{AddsTo};
ghost use Rattle.b3_uses.specs.Origins.{AddsHome, AreHomes, AreOrigins, IsOnlySource, IsPassed};
ghost use Rattle.b3_uses.specs.Reversed.{LeadsTo, LeadsToAny, LeadsToOne};

use crate::lists::Lists;
use b3_base::NoMemory;
use b3_ir::{Body, Proc, Value};
use indexmap::IndexMap;
use std::alloc::Global;

/// The most steps from a block to its only predecessor that are taken for one use.
const STEPS: usize = 16;

/// For each block the blocks that it is a successor of, where the last block stands first, and for each id a
/// block that defines it.
#[derive(Drop)]
pub(crate) struct Origins {
    sources: Lists,
    homes: IndexMap<u32, usize>,
}

/// The origins of a procedure. It is refused for want of memory alone.
pub(crate) fn find_origins(alloc: Global, p: &Proc) -> Result<Origins, NoMemory>
    ensures { IfOk result (AreOrigins p.now.procedure) }
{
    let blocks = p.blocks();
    let mut origins = Origins {
        sources: Lists::new(alloc, blocks)?,
        homes: IndexMap::new(alloc),
    };
    for block in 0..blocks {
        origins.add_block(p, block)?;
    }
    Ok(origins)
}

impl Origins {
    /// For each block the blocks that it is a successor of, where the last block stands first.
    pub(crate) fn into_sources(self) -> Lists
        ensures { result ≡ self.sources }
    {
        self.sources
    }

    /// Whether a few steps from a block to its only predecessor, again and again, come to one that defines an
    /// id: then each path to the block passes it.
    pub(crate) fn is_passed(&self, block: usize, id: u32) -> bool
        requires { block < length self.now.sources }
        ensures { (p : Procedure) → AreOrigins p self.now → IsTrue result → IsPassed p block id }
    {
        let home = match self.homes.get(&id) {
            Some(home) => *home,
            None => return false,
        };
        let mut at = block;
        for _ in 0..STEPS {
            let source = match self.only_source(at) {
                Some(source) => source,
                None => return false,
            };
            if source == home {
                return true;
            }
            at = source;
        }
        false
    }

    /// The only predecessor of a block other than block 0, if it has just one.
    fn only_source(&self, block: usize) -> Option<usize>
        requires { block < length self.now.sources }
        ensures within { IfSome result (λ source. source < length self.now.sources) }
        ensures only { IfSome result (λ source.
            (p : Procedure) → AreOrigins p self.now → IsOnlySource p block source) }
    {
        let last = self.sources.len() - 1;
        let sources = self.sources.list(last - block);
        let count = sources.len();
        if block == 0 || count != 1 {
            return None;
        }
        last.checked_sub(sources[0])
    }

    /// Adds what the values of a block lead to and define.
    fn add_block(&mut self, p: &Proc, block: usize) -> Result<(), NoMemory>
        requires block { block < length p.now.procedure.blocks }
        requires blocks { length self.old.sources ≡ length p.now.procedure.blocks }
        requires homes { AreHomes p.now.procedure self.old.homes }
        ensures sources { OnOk result (AddsTo self.old.sources self.new.sources
            (LeadsToAny (length p.now.procedure.blocks) block (values_of p.now.procedure block))) }
        ensures homes { OnOk result (AreHomes p.now.procedure self.new.homes) }
    {
        let mut at = p.first(block);
        while let Some(node) = at {
            let value = p.value(node);
            self.add_value(block, value)?;
            at = p.next(node);
        }
        Ok(())
    }

    /// Adds what a value of a block leads to and defines.
    fn add_value(&mut self, block: usize, value: &Value) -> Result<(), NoMemory>
        requires { block < length self.old.sources }
        ensures sources { OnOk result (AddsTo self.old.sources self.new.sources
            (LeadsTo (length self.old.sources) block (successors_in value.now.body))) }
        ensures homes { OnOk result (AddsHome self.old.homes self.new.homes value.now.id block) }
    {
        self.homes.insert(value.id, block)?;
        self.add_successors(block, successors(&value.body))
    }

    /// Makes a block a source of some others.
    fn add_successors(&mut self, block: usize, successors: &[u32]) -> Result<(), NoMemory>
        requires { block < length self.old.sources }
        ensures sources { OnOk result (AddsTo self.old.sources self.new.sources
            (LeadsTo (length self.old.sources) block successors.now)) }
        ensures homes { OnOk result (self.new.homes ≡ self.old.homes) }
    {
        for next in successors {
            self.add_successor(block, *next as usize)?;
        }
        Ok(())
    }

    /// Makes a block a source of another, where that is a block.
    fn add_successor(&mut self, block: usize, next: usize) -> Result<(), NoMemory>
        requires { block < length self.old.sources }
        ensures sources { OnOk result (AddsTo self.old.sources self.new.sources
            (LeadsToOne (length self.old.sources) block next)) }
        ensures homes { OnOk result (self.new.homes ≡ self.old.homes) }
    {
        let last = self.sources.len() - 1;
        if next > last {
            return Ok(());
        }
        self.sources.add(last - next, last - block)
    }
}

/// The blocks that a body names as successors.
fn successors(body: &Body) -> &[u32]
    ensures { result.now ≡ successors_in body.now }
{
    match body {
        Body::Targets(targets) => targets.as_slice(),
        Body::Cases { cases: _, targets } => targets.as_slice(),
        _ => &[],
    }
}
