//! The first spot at which a procedure by itself breaks a rule, uses aside.

ghost use Rattle.std.specs.Prelude.{◌≡◌, ◌<◌, length, slice_index_or, IfOk};
ghost use Rattle.b3_ir.specs.Procedure.{no_block, values_of};
ghost use Rattle.b3_rules.specs.Least.{IsLeastBroken};
ghost use Rattle.b3_rules.specs.Valid.{HeaderKeeps, HeadingKeeps, SlotKeeps};
ghost use Rattle.b3_validate.specs.Index.{IsIndexOf};
ghost use Rattle.b3_validate.specs.Spots.{IsAny, IsInBlock, IsLeastIn, IsOfBlocksBelow, IsSlotBelow};

use crate::index::Index;
use crate::spot::{Spot, sooner, spot_on};
use crate::values::value_breach;
use b3_base::NoMemory;
use b3_ir::{Proc, SlotLine};
use b3_rules::Rule;
use std::alloc::Global;

/// The rule that a header breaks.
fn header_breach(p: &Proc) -> Option<Rule>
    ensures { IsLeastBroken 1 19 (λ r. HeaderKeeps r p.now.procedure) result }
{
    if p.blocks() == 0 {
        return Some(Rule::Endings);
    }
    None
}

/// The rule that the slot at a place breaks.
fn slot_breach(slot: SlotLine, place: usize) -> Option<Rule>
    ensures { IsLeastBroken 1 19 (λ r. SlotKeeps r place slot) result }
{
    if slot.number as usize != place || slot.bytes == 0 {
        return Some(Rule::Slots);
    }
    None
}

/// The first rule that the heading of a block breaks.
fn heading_breach(p: &Proc, block: usize) -> Option<Rule>
    requires { block < length p.now.procedure.blocks }
    ensures { IsLeastBroken 1 19 (λ r. HeadingKeeps r block (slice_index_or p.now.procedure.blocks block no_block)) result }
{
    if p.block(block).number as usize != block {
        return Some(Rule::Blocks);
    }
    p.whole();
    if p.first(block).is_none() {
        return Some(Rule::Endings);
    }
    None
}

/// The first spot at which a slot breaks a rule.
fn slots_breach(p: &Proc) -> Option<Spot>
    ensures { IsLeastIn p.now.procedure (IsSlotBelow (length p.now.procedure.slots)) result }
{
    let mut least = None;
    for place in 0..p.slots() {
        let slot = p.slot(place);
        let here = spot_on(slot.line, slot_breach(slot, place));
        least = sooner(least, here);
    }
    least
}

/// The first spot at which a value of a block breaks a rule.
fn values_breach(
    alloc: Global,
    p: &Proc,
    index: &Index,
    block: usize,
) -> Result<Option<Spot>, NoMemory>
    requires index { IsIndexOf p.now index.now }
    requires in_blocks { block < length p.now.procedure.blocks }
    ensures { IfOk result (IsLeastIn p.now.procedure (IsInBlock block (length (values_of p.now.procedure block)))) }
{
    let mut least = None;
    let mut at = p.first(block);
    while let Some(node) = at {
        let value = p.value(node);
        let broken = value_breach(alloc, p, index, block, node, value)?;
        least = sooner(least, spot_on(value.line, broken));
        at = p.next(node);
    }
    Ok(least)
}

/// The first spot at which a block breaks a rule.
fn blocks_breach(alloc: Global, p: &Proc, index: &Index) -> Result<Option<Spot>, NoMemory>
    requires index { IsIndexOf p.now index.now }
    ensures { IfOk result (IsLeastIn p.now.procedure (IsOfBlocksBelow (length p.now.procedure.blocks))) }
{
    let mut least = None;
    for block in 0..p.blocks() {
        let of_heading = spot_on(p.block(block).line, heading_breach(p, block));
        let of_values = values_breach(alloc, p, index, block)?;
        let here = sooner(of_heading, of_values);
        least = sooner(least, here);
    }
    Ok(least)
}

/// The first spot at which a procedure by itself breaks a rule, of all but that on uses. It is refused for
/// want of memory alone.
pub(crate) fn procedure_breach(alloc: Global, p: &Proc) -> Result<Option<Spot>, NoMemory>
    ensures { IfOk result (IsLeastIn p.now.procedure IsAny) }
{
    let index = Index::new(alloc, p)?;
    let of_blocks = blocks_breach(alloc, p, &index)?;
    let of_slots = slots_breach(p);
    let of_header = spot_on(p.line(), header_breach(p));
    let of_front = sooner(of_header, of_slots);
    Ok(sooner(of_front, of_blocks))
}
