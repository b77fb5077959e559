//! The uses that no value earlier in their block defines, and names for what they use.

ghost use Rattle.std.specs.Prelude.{◌≡◌, ℕ, ◌<◌, ◌==◌, ◌||◌, length, IfOk, OnOk};
ghost use Rattle.std.specs.BTreeSet as keys;
ghost use Rattle.std.specs.Ordering.{nat_cmp};
ghost use Rattle.b3_ir.specs.Procedure.{Procedure, values_of};
ghost use Rattle.b3_uses.specs.Open.{Adds, IsAskedHere, IsOneUse, IsOpenIn, ListsBelow};
ghost use Rattle.b3_uses.specs.Origins.{AreOrigins};

use crate::names::Names;
use crate::origins::Origins;
use b3_base::{NoMemory, Seq};
use b3_ir::{Proc, Value};
use std::alloc::Global;
use std::collections::BTreeSet;

/// A use that no value earlier in its block defines: its block, the name of what it uses, and the line of
/// the value that uses it.
#[derive(Clone, Copy)]
pub(crate) struct OpenUse {
    pub(crate) block: usize,
    pub(crate) name: usize,
    pub(crate) line: u32,
}

/// Open uses, and the names of the ids that they use.
#[derive(Drop)]
pub(crate) struct OpenUses {
    pub(crate) names: Names,
    uses: Seq<OpenUse>,
}

/// The open uses of a procedure, but not those where the origins tell that each path to the block passes one
/// that defines what is used. It is refused for want of memory alone.
pub(crate) fn open_uses(alloc: Global, p: &Proc, origins: &Origins) -> Result<OpenUses, NoMemory>
    requires { AreOrigins p.now.procedure origins.now }
    ensures { IfOk result (ListsBelow p.now.procedure (length p.now.procedure.blocks)) }
{
    let mut found = OpenUses {
        names: Names::new(alloc),
        uses: Seq::new(alloc),
    };
    for block in 0..p.blocks() {
        found.add_block(alloc, p, origins, block)?;
    }
    Ok(found)
}

impl OpenUses {
    /// All open uses, in order.
    pub(crate) fn uses(&self) -> &[OpenUse]
        ensures { result.now ≡ self.now.uses }
    {
        self.uses.as_slice()
    }

    /// Adds the open uses of a block.
    fn add_block(
        &mut self,
        alloc: Global,
        p: &Proc,
        origins: &Origins,
        block: usize,
    ) -> Result<(), NoMemory>
        requires block { block < length p.now.procedure.blocks }
        requires origins { AreOrigins p.now.procedure origins.now }
        ensures { OnOk result (Adds p.now.procedure self.old self.new
            (IsOpenIn block (values_of p.now.procedure block))) }
    {
        let mut earlier = BTreeSet::new(alloc);
        let mut at = p.first(block);
        while let Some(node) = at {
            let value = p.value(node);
            self.add_value(&earlier, origins, block, value)?;
            add_key(&mut earlier, value.id)?;
            at = p.next(node);
        }
        Ok(())
    }

    /// Adds the uses of a value but those of the ids that are defined earlier in its block or, as the origins
    /// tell, above it.
    fn add_value(
        &mut self,
        earlier: &BTreeSet<u32>,
        origins: &Origins,
        block: usize,
        value: &Value,
    ) -> Result<(), NoMemory>
        requires { block < length origins.now.sources }
        ensures { OnOk result ((p : Procedure) → AreOrigins p origins.now → Adds p self.old self.new
            (IsAskedHere block value.now.line (keys.contains nat_cmp earlier.now) value.now.children)) }
    {
        for id in value.children.as_slice() {
            if !earlier.contains(id) && !origins.is_passed(block, *id) {
                self.add(block, *id, value.line)?;
            }
        }
        Ok(())
    }

    /// Adds a use of an id in a block on a line.
    fn add(&mut self, block: usize, id: u32, line: u32) -> Result<(), NoMemory>
        ensures { OnOk result ((p : Procedure) → Adds p self.old self.new (IsOneUse block line id)) }
    {
        let name = self.names.make(id)?;
        self.uses.push(OpenUse { block, name, line })
    }
}

/// Adds a key to a set. It is refused for want of memory alone.
fn add_key(set: &mut BTreeSet<u32>, key: u32) -> Result<(), NoMemory>
    ensures { OnOk result ((q : ℕ) →
        keys.contains nat_cmp set.new q ≡ (keys.contains nat_cmp set.old q || (key == q))) }
{
    set.insert(key)?;
    Ok(())
}
