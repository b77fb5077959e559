//! Selection.

ghost use Rattle.std.specs.Prelude.{◌≡◌, ◌++◌, ◌∷◌, [], ◌+◌, ◌*◌, ◌^◌, ◌≤◌, ◌<◌, All, Some, length, map, slice_get, IfOk, OnOk};
ghost use Rattle.b3_ir.specs.Procedure.{Block, total, values_of};
ghost use Rattle.b3_ir.specs.declared.procedure.SlotLine.{SlotLine};
ghost use Rattle.b3_rules.specs.Valid.{IsValidProcedure};
ghost use Rattle.b3_ir.specs.declared.opcode.Ty.TheVariants.{Int32, Int64};
ghost use Rattle.b3_rules.specs.Paths.{successors_in};
ghost use Rattle.stackmap.specs.declared.site.Returns.TheVariants as returns;
ghost use Rattle.air_ir.specs.Run.{HasBlocksOf};
ghost use Rattle.air_ir.specs.Weight.{weight};
ghost use Rattle.air_ir.specs.WellFormed.{HasOneSiteEach, IsWellFormed, NamesSpillsBelow};
ghost use Rattle.air_select.specs.Contract.{HasArithmeticAlone, HasNoTraps, AreExpressed, AreMadeFor, IsArithmetic, IsFew, IsFolded, IsSelected, IsUntrapped, IsWithinLimits, ReturnsType, child_count, procedure_at};
ghost use Rattle.air_select.specs.Selected as code;

use crate::entry::{entry, returns};
use crate::tables::{Tables, tmp_count};
use crate::values::push_value;
use air_fold::{folded_values, index_of};
use air_ir::{AirBlock, AirBlocks, AirInsts, AirProc};
use b3_base::{Ids, NoMemory};
use b3_ir::{Body, Proc, Value};
use b3_validate::Valid;
use std::alloc::Global;

/// What is looked up of a procedure.
fn tables_of(alloc: Global, p: &Proc) -> Result<Tables, NoMemory>
    requires valid { IsValidProcedure p.now.procedure }
    requires few { total p.now.procedure ≤ 16384 }
    ensures { IfOk result (λ t. t ≡ code.tables p.now.procedure) }
{
    let index = index_of(alloc, p)?;
    let folds = folded_values(alloc, p, &index)?;
    Ok(Tables { index, folds })
}

/// Adds the blocks of Air for some blocks of B3.
fn push_moved(targets: &mut Ids, blocks: &[u32]) -> Result<(), NoMemory>
    requires { All (λ b. b < 2 ^ 31) blocks.now }
    ensures { OnOk result (targets.new ≡ targets.old ++ map (λ b. b + 1) blocks.now) }
{
    for block in blocks {
        targets.push(*block + 1)?;
    }
    Ok(())
}

/// Adds the targets of a value.
fn push_targets(targets: &mut Ids, value: &Value) -> Result<(), NoMemory>
    requires { All (λ b. b < 2 ^ 31) (successors_in value.now.body) }
    ensures { OnOk result (targets.new ≡ targets.old ++ code.targets_of value.now) }
{
    match &value.body {
        Body::Targets(blocks) => push_moved(targets, blocks.as_slice()),
        Body::Cases {
            targets: blocks,
            ..
        } => push_moved(targets, blocks.as_slice()),
        _ => Ok(()),
    }
}

/// The block of Air for a block of B3.
#[tactic(auto, unfolding(crate::specs::Selected::block_code))]
fn block_of(alloc: Global, p: &Proc, t: &Tables, block: usize) -> Result<AirBlock, NoMemory>
    requires in_blocks { block < length p.now.procedure.blocks }
    requires valid { IsValidProcedure p.now.procedure }
    requires few { length p.now.procedure.blocks ≤ 4096 }
    ensures { IfOk result (λ b. (of : Block) → slice_get p.now.procedure.blocks block ≡ Some of
        → b ≡ code.block_code t.now of) }
{
    p.whole();
    let mut insts = AirInsts::new(alloc);
    let mut targets = Ids::new(alloc);
    let mut at = p.first(block);
    while let Some(node) = at {
        let value = p.value(node);
        push_value(alloc, &mut insts, t, value)?;
        push_targets(&mut targets, value)?;
        at = p.next(node);
    }
    Ok(AirBlock { insts, targets })
}

/// The blocks of Air: the entry, and one for each block of B3.
fn blocks_of(alloc: Global, p: &Proc, t: &Tables) -> Result<AirBlocks, NoMemory>
    requires valid { IsValidProcedure p.now.procedure }
    requires few { length p.now.procedure.blocks ≤ 4096 }
    ensures { IfOk result (λ list. list ≡ code.entry_of t.now.index (values_of p.now.procedure 0)
        ∷ map (code.block_code t.now) p.now.procedure.blocks) }
{
    let mut list = AirBlocks::new(alloc);
    list.push(entry(alloc, p, &t.index)?)?;
    for block in 0..p.blocks() {
        list.push(block_of(alloc, p, t, block)?)?;
    }
    Ok(list)
}

/// The sizes of the slots, in bytes.
fn slot_sizes(alloc: Global, p: &Proc) -> Result<Ids, NoMemory>
    ensures { IfOk result (λ list. list ≡ map (λ (slot : SlotLine). slot.bytes) p.now.procedure.slots) }
{
    p.whole();
    let mut list = Ids::new(alloc);
    for at in 0..p.slots() {
        list.push(p.slot(at).bytes)?;
    }
    Ok(list)
}

/// The procedure of Air for a procedure.
#[tactic(auto, unfolding(crate::specs::Selected::selected_by))]
fn selected(alloc: Global, p: &Proc) -> Result<AirProc, NoMemory>
    requires valid { IsValidProcedure p.now.procedure }
    requires limits { IsWithinLimits p.now.procedure }
    ensures { IfOk result (λ q. q ≡ code.selected p.now.procedure) }
{
    let t = tables_of(alloc, p)?;
    Ok(AirProc {
        blocks: blocks_of(alloc, p, &t)?,
        tmps: tmp_count(&t.index),
        slots: slot_sizes(alloc, p)?,
        returns: returns(p, &t.index),
    })
}

/// Selects instructions for a procedure of a valid module, by its place. A value that is foldable has no instruction of
/// its own: a comparison or a test of one bit that is the condition of one value of its block, a sum that is the pointer
/// of one access of its block, a shift in it, and a constant that fits as an immediate in each of its uses. It is refused
/// for want of memory alone.
pub fn select(alloc: Global, valid: &Valid, proc: usize) -> Result<AirProc, NoMemory>
    requires there { proc < length valid.now }
    requires limits { IsWithinLimits (procedure_at valid.now proc) }
    ensures is { IfOk result (λ q. q ≡ code.selected (procedure_at valid.now proc)) }
    ensures same { IfOk result (λ q. HasBlocksOf (procedure_at valid.now proc) q) }
    ensures well { IfOk result (λ q. IsWellFormed q) }
    ensures sites { IfOk result (λ q. HasOneSiteEach q) }
    ensures made_for { IfOk result (λ q. AreMadeFor (procedure_at valid.now proc) q) }
    ensures expressed { IfOk result (λ q. AreExpressed (procedure_at valid.now proc) q) }
    ensures spills { IfOk result (λ q. NamesSpillsBelow 0 q) }
    ensures selected { IfOk result (λ q. IsSelected q) }
    ensures arithmetic { IfOk result (λ q. HasArithmeticAlone (procedure_at valid.now proc) → IsArithmetic q) }
    ensures untrapped { IfOk result (λ q. HasNoTraps (procedure_at valid.now proc) → IsUntrapped q) }
    ensures light { IfOk result (λ q. weight q ≤ 120 * total (procedure_at valid.now proc)
        + 32 * child_count (procedure_at valid.now proc) + 256) }
    ensures few { IfOk result (λ q. IsFew (procedure_at valid.now proc) q) }
    ensures kept { IfOk result (λ q. q.slots ≡ map (λ (slot : SlotLine). slot.bytes)
        (procedure_at valid.now proc).slots) }
    ensures returns_32 { IfOk result (λ q. q.returns ≡ returns.W32 → ReturnsType (procedure_at valid.now proc) Int32) }
    ensures returns_64 { IfOk result (λ q. q.returns ≡ returns.W64 → ReturnsType (procedure_at valid.now proc) Int64) }
    ensures folded { IfOk result (λ q. IsFolded (procedure_at valid.now proc) q) }
{
    let p = valid.module().proc(proc);
    p.whole();
    selected(alloc, p)
}
