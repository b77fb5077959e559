//! Which homes are live along a block.

ghost use Rattle.std.specs.Prelude.{◌≡◌, filter, not, ◌↔◌, ◌⊎◌, ◌+◌, ◌<◌, ℕ, Contains, IfOk, OnOk, length};
ghost use Rattle.flow_live.specs.Graph.{LiveOut};
ghost use Rattle.flow_live.specs.Liveness.{IsLivenessOf};
ghost use Rattle.air_ir.specs.declared.procedure.AirProc.{AirProc};
ghost use Rattle.air_flow.specs.Flow.{flow_of};
ghost use Rattle.air_graph.specs.Walk.{AreBelow, in_list, name_at};

use crate::homes::number_named;
use crate::met::in_list;
use crate::touched::{Numbers, Touched, push_some};
use b3_base::NoMemory;
use flow_live::LiveSets;
use std::alloc::Global;

/// The homes that are live out of a block.
pub(crate) fn live_out(
    alloc: Global,
    tmps: u32,
    live: &LiveSets,
    block: usize,
) -> Result<Numbers, NoMemory>
    requires names { live.now.names ≡ tmps + 31 }
    requires block { block < live.now.blocks }
    ensures below { IfOk result (λ list. AreBelow (tmps + 25) list) }
    ensures live { IfOk result (λ list. (p : AirProc) → IsLivenessOf (flow_of p) live.now → (n : ℕ) → n < tmps + 25
        → Contains list n ↔ LiveOut (flow_of p) (name_at tmps n) block) }
{
    let names = live.names_out(alloc, block)?;
    let mut list = Numbers::new(alloc);
    for name in names.as_slice() {
        push_some(&mut list, number_named(tmps, *name))?;
    }
    Ok(list)
}

/// The homes of a list that aren't in a list of those that are defined.
fn undefined(alloc: Global, defined: &[usize], live: &[usize]) -> Result<Numbers, NoMemory>
    ensures { IfOk result (λ list. list ≡ filter (λ y. not (in_list defined.now y)) live.now) }
{
    let mut list = Numbers::new(alloc);
    for y in live {
        if !in_list(defined, *y) {
            list.push(*y)?;
        }
    }
    Ok(list)
}

/// The live homes without those that are defined. Where nothing is defined, the list stays as it is.
fn without_defined(alloc: Global, defined: &[usize], live: Numbers) -> Result<Numbers, NoMemory>
    ensures { IfOk result (λ list. (y : ℕ)
        → Contains list y ↔ (Contains live y × (Contains defined.now y → ⊥))) }
{
    if defined.is_empty() {
        return Ok(live);
    }
    undefined(alloc, defined, live.as_slice())
}

/// Adds to a list the homes of another that it doesn't have.
fn add_missing(list: &mut Numbers, more: &[usize]) -> Result<(), NoMemory>
    ensures { OnOk result ((y : ℕ) → Contains list.new y ↔ (Contains list.old y ⊎ Contains more.now y)) }
{
    for y in more {
        if !in_list(list.as_slice(), *y) {
            list.push(*y)?;
        }
    }
    Ok(())
}

/// The homes that are live before an instruction, from those that are live after it.
pub(crate) fn live_before(alloc: Global, t: &Touched, live: Numbers) -> Result<Numbers, NoMemory>
    ensures { IfOk result (λ list. (y : ℕ) → Contains list y
        ↔ ((Contains t.now.used y ⊎ Contains t.now.late y) ⊎ (Contains live y × (Contains t.now.defined y → ⊥)))) }
{
    let mut list = without_defined(alloc, t.defined.as_slice(), live)?;
    add_missing(&mut list, t.used.as_slice())?;
    add_missing(&mut list, t.late.as_slice())?;
    Ok(list)
}
