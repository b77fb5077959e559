//! The blocks of a procedure as a flow that goes backwards. The last block stands first.

ghost use Rattle.std.specs.Prelude.{◌≡◌, ◌<◌, ◌≤◌, [], length, replicate, IfOk, OnOk};
ghost use Rattle.std.specs.BTreeMap as tree;
ghost use Rattle.std.specs.Ordering.{nat_cmp};
ghost use Rattle.b3_ir.specs.Procedure.{values_of};
ghost use Rattle.b3_uses.specs.Lists.{AddsTo};
ghost use Rattle.b3_uses.specs.Reversed.{DefinesAt, DefinesOne, IsReversed, LedBelow, graph_of};
ghost use Rattle.flow_live.specs.Graph.{IsInRange};

use crate::lists::Lists;
use crate::names::Names;
use b3_base::NoMemory;
use b3_ir::Proc;
use flow_live::{Flow, Touch};
use std::alloc::Global;

/// For each block the blocks that it is a successor of, and the names that its values define.
#[derive(Drop)]
pub(crate) struct Reversed {
    names: usize,
    sources: Lists,
    defined: Lists,
    ghost as_many: { length defined ≡ length sources },
}

impl Flow for Reversed {
    ghost shape = { λ s. graph_of s.names s.sources s.defined };

    fn blocks(&self) -> usize {
        self.sources.len()
    }

    fn names(&self) -> usize {
        self.names
    }

    fn places(&self, block: usize) -> usize {
        if block == self.sources.len() - 1 {
            2
        } else {
            1
        }
    }

    fn successors(&self, block: usize) -> usize {
        self.sources.list(block).len()
    }

    fn successor(&self, block: usize, k: usize) -> usize {
        self.sources.list(block)[k]
    }

    fn touches(&self, block: usize, place: usize) -> usize {
        if place == 0 {
            self.defined.list(block).len()
        } else {
            self.names
        }
    }

    fn touch(&self, block: usize, place: usize, k: usize) -> Touch {
        if place == 0 {
            Touch::Def(self.defined.list(block)[k])
        } else {
            Touch::Use(k)
        }
    }
}

/// The reversed flow of a procedure, in which some ids have names, from the blocks that each is a successor of.
/// It is refused for want of memory alone.
pub(crate) fn reverse(
    alloc: Global,
    p: &Proc,
    sources: Lists,
    names: &Names,
) -> Result<Reversed, NoMemory>
    requires { AddsTo (replicate (length p.now.procedure.blocks) []) sources
        (LedBelow p.now.procedure (length p.now.procedure.blocks)) }
    ensures reversed { IfOk result (λ flow. IsReversed p.now.procedure (tree.get nat_cmp names.now.numbers)
        (graph_of flow.names flow.sources flow.defined)) }
    ensures range { IfOk result (λ flow. IsInRange (graph_of flow.names flow.sources flow.defined)) }
{
    let blocks = p.blocks();
    let mut flow = Reversed {
        names: names.len(),
        sources,
        defined: Lists::new(alloc, blocks)?,
    };
    for block in 0..blocks {
        flow.add_block(p, names, block)?;
    }
    Ok(flow)
}

impl Reversed {
    /// Adds the names that the values of a block define.
    fn add_block(&mut self, p: &Proc, names: &Names, block: usize) -> Result<(), NoMemory>
        requires block { block < length p.now.procedure.blocks }
        requires blocks { length self.old.sources ≡ length p.now.procedure.blocks }
        ensures names { OnOk result (self.new.names ≡ self.old.names) }
        ensures sources { OnOk result (self.new.sources ≡ self.old.sources) }
        ensures defined { OnOk result (AddsTo self.old.defined self.new.defined
            (DefinesAt (length p.now.procedure.blocks) block (tree.get nat_cmp names.now.numbers)
            (values_of p.now.procedure block))) }
    {
        let mut at = p.first(block);
        while let Some(node) = at {
            let value = p.value(node);
            self.add_name(block, names.get(value.id))?;
            at = p.next(node);
        }
        Ok(())
    }

    /// Adds a name that a block defines, if there is one.
    fn add_name(&mut self, block: usize, name: Option<usize>) -> Result<(), NoMemory>
        requires { block < length self.old.sources }
        ensures names { OnOk result (self.new.names ≡ self.old.names) }
        ensures sources { OnOk result (self.new.sources ≡ self.old.sources) }
        ensures defined { OnOk result (AddsTo self.old.defined self.new.defined
            (DefinesOne (length self.old.sources) block name)) }
    {
        let last = self.sources.len() - 1;
        match name {
            Some(name) => self.defined.add(last - block, name),
            None => Ok(()),
        }
    }
}
