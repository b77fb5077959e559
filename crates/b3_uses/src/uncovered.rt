//! The first use that isn't covered.

ghost use Rattle.std.specs.Prelude.{◌≡◌, ℕ, ◌*◌, ◌^◌, ◌<◌, ◌≤◌, ◌↔◌, None, Contains, IfOk, IfSome, IsTrue};
ghost use Rattle.b3_rules.specs.Least.{CoversAll, IsFirstUncovered};
ghost use Rattle.b3_uses.specs.Leasts.{IsLeastMissed, IsMissed, lower_of};
ghost use Rattle.b3_uses.specs.declared.gather.OpenUse.{OpenUse as OpenUseOf};
ghost use Rattle.flow_live.specs.Graph.{Graph};
ghost use Rattle.flow_live.specs.Liveness.{IsLivenessOf};

use crate::flow::reverse;
use crate::gather::{OpenUse, open_uses};
use crate::origins::find_origins;
use b3_base::NoMemory;
use b3_ir::Proc;
use flow_live::{Flow, LiveSets, live};
use std::alloc::Global;

/// The least line of a value with a use that isn't covered, or None where each path to a use of a value runs
/// the value first. It is refused for want of memory alone. It always is where the number of blocks times
/// that of some ids is above 2^32: those which some block uses before it defines them, or without, and which
/// no block defines that is reached by a few steps from a block to its only predecessor.
pub fn uncovered_use(alloc: Global, p: &Proc) -> Result<Option<u32>, NoMemory>
    ensures covered { IfOk result (λ line. line ≡ None → CoversAll p.now.procedure) }
    ensures uncovered { IfOk result (λ line. IfSome line (IsFirstUncovered p.now.procedure)) }
{
    let origins = find_origins(alloc, p)?;
    let found = open_uses(alloc, p, &origins)?;
    if found.uses().is_empty() {
        return Ok(None);
    }
    let flow = reverse(alloc, p, origins.into_sources(), &found.names)?;
    if !is_small(flow.blocks(), flow.names()) {
        return Err(NoMemory);
    }
    let sets = live(alloc, &flow)?;
    Ok(least_missed(&sets, flow.blocks(), found.uses()))
}

/// Whether there are at most 2^32 pairs of a block and a name.
fn is_small(blocks: usize, names: usize) -> bool
    ensures { IsTrue result → blocks * names ≤ 2 ^ 32 }
{
    match blocks.checked_mul(names) {
        Some(pairs) => pairs <= 1 << 32,
        None => false,
    }
}

/// The least line of the uses that are missed.
fn least_missed(sets: &LiveSets, blocks: usize, uses: &[OpenUse]) -> Option<u32>
    requires blocks { blocks ≡ sets.now.blocks }
    requires block { (use_ : OpenUseOf) → Contains uses.now use_ → use_.block < blocks }
    requires name { (use_ : OpenUseOf) → Contains uses.now use_ → use_.name < sets.now.names }
    ensures { (g : Graph) → IsLivenessOf g sets.now → IsLeastMissed g uses.now result }
{
    let mut least = None;
    for used in uses {
        if is_missed(sets, blocks, *used) {
            least = Some(lower(least, used.line));
        }
    }
    least
}

/// Whether a use is in block 0, or its name is live out of its block.
fn is_missed(sets: &LiveSets, blocks: usize, used: OpenUse) -> bool
    requires blocks { blocks ≡ sets.now.blocks }
    requires block { used.block < blocks }
    requires name { used.name < sets.now.names }
    ensures { (g : Graph) → IsLivenessOf g sets.now → IsTrue result ↔ IsMissed g used }
{
    used.block == 0 || sets.live_out(blocks - 1 - used.block, used.name)
}

/// The lower of two lines, the first of which may be missing.
fn lower(least: Option<u32>, line: u32) -> u32
    ensures { result ≡ lower_of least line }
{
    match least {
        Some(least) => least.min(line),
        None => line,
    }
}
