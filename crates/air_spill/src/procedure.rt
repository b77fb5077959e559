//! Rewriting by an assignment.

ghost use Rattle.std.specs.Prelude.{◌≡◌, ◌+◌, ◌^◌, ◌≤◌, ◌++◌, length, map, IfOk, OnOk};
ghost use Rattle.air_flow.specs.Proper.{IsProper};
ghost use Rattle.air_ir.specs.Run.{HasSameBlocks};
ghost use Rattle.air_ir.specs.Weight.{weight};
ghost use Rattle.air_ir.specs.WellFormed.{HasOneSiteEach, IsWellFormed, NamesSpillsBelow};
ghost use Rattle.air_spill.specs.Rewritten.{home_by, is_copy, rewritten, rewritten_block, rewritten_inst};
ghost use Rattle.air_spill.specs.Stays.{AddsPlaces, ComesFromEach};

use crate::operands::{kept_operands, renamed_operands};
use air_ir::{AirBlock, AirBlocks, AirInst, AirInsts, AirOp, AirProc, Assignment, Operands};
use b3_base::NoMemory;
use std::alloc::Global;

/// Whether an instruction of this op copies words.
fn is_copy(op: &AirOp) -> bool
    ensures { result ≡ is_copy op.now }
{
    matches!(op, AirOp::Move | AirOp::Shuffle)
}

/// An instruction with other operands.
fn with_operands(alloc: Global, inst: &AirInst, operands: Operands) -> Result<AirInst, NoMemory>
    ensures { IfOk result (λ i. i ≡ record inst.now { operands = operands }) }
{
    Ok(AirInst {
        op: inst.op.copy(alloc)?,
        operands,
        value: inst.value,
        traps: inst.traps,
    })
}

/// Adds an instruction by other homes, but a copy that has no pair left.
#[tactic(auto, unfolding(crate::specs::Rewritten::rewritten_inst))]
fn add_inst(
    alloc: Global,
    insts: &mut AirInsts,
    inst: &AirInst,
    assignment: &Assignment,
) -> Result<(), NoMemory>
    requires { length assignment.now.homes + 56 ≤ 2 ^ 32 }
    ensures { OnOk result (insts.new ≡ insts.old ++ rewritten_inst (home_by assignment.now) inst.now) }
{
    let operands = inst.operands.as_slice();
    if !is_copy(&inst.op) {
        let operands = renamed_operands(alloc, operands, assignment)?;
        return insts.push(with_operands(alloc, inst, operands)?);
    }
    let operands = kept_operands(alloc, operands, assignment)?;
    if operands.is_empty() {
        return Ok(());
    }
    insts.push(with_operands(alloc, inst, operands)?)
}

/// A block by other homes. It is refused for want of memory alone.
#[tactic(auto, unfolding(crate::specs::Rewritten::rewritten_block))]
fn rewritten_block(
    alloc: Global,
    block: &AirBlock,
    assignment: &Assignment,
) -> Result<AirBlock, NoMemory>
    requires { length assignment.now.homes + 56 ≤ 2 ^ 32 }
    ensures { IfOk result (λ b. b ≡ rewritten_block (home_by assignment.now) block.now) }
{
    let mut insts = AirInsts::new(alloc);
    for inst in block.insts.as_slice() {
        add_inst(alloc, &mut insts, inst, assignment)?;
    }
    Ok(AirBlock {
        insts,
        targets: block.targets.copy(alloc)?,
    })
}

/// The blocks by other homes. It is refused for want of memory alone.
pub(crate) fn rewritten_blocks(
    alloc: Global,
    blocks: &[AirBlock],
    assignment: &Assignment,
) -> Result<AirBlocks, NoMemory>
    requires { length assignment.now.homes + 56 ≤ 2 ^ 32 }
    ensures { IfOk result (λ list. list ≡ map (rewritten_block (home_by assignment.now)) blocks.now) }
{
    let mut list = AirBlocks::new(alloc);
    for block in blocks {
        list.push(rewritten_block(alloc, block, assignment)?)?;
    }
    Ok(list)
}

/// Puts each temporary of a procedure into its register, or into the spill place of its number and 56 more. A Move,
/// or a pair of a Shuffle, whose two homes become one is left out, at any width, and so is a Shuffle without
/// pairs. All else stays. The sites of an instruction that is expressed for a value obey its constraints. It is
/// refused for want of memory alone.
pub fn rewrite(alloc: Global, p: AirProc, assignment: &Assignment) -> Result<AirProc, NoMemory>
    requires well { IsWellFormed p }
    requires proper { IsProper p assignment.now }
    requires named { NamesSpillsBelow 56 p }
    requires few { p.tmps + 56 ≤ 2 ^ 32 }
    ensures is { IfOk result (λ q. q ≡ rewritten p assignment.now) }
    ensures same { IfOk result (λ q. HasSameBlocks p q) }
    ensures well { IfOk result (λ q. IsWellFormed q) }
    ensures no_tmps { IfOk result (λ q. q.tmps ≡ 0) }
    ensures kept { IfOk result (λ q. (q.slots ≡ p.slots) × (q.returns ≡ p.returns)) }
    ensures spills { IfOk result (λ q. NamesSpillsBelow (56 + p.tmps) q) }
    ensures places { IfOk result (λ q. AddsPlaces p assignment.now q) }
    ensures lighter { IfOk result (λ q. weight q ≤ weight p) }
    ensures sites { HasOneSiteEach p → IfOk result (λ q. HasOneSiteEach q) }
    ensures comes { IfOk result (λ q. ComesFromEach p q) }
{
    Ok(AirProc {
        blocks: rewritten_blocks(alloc, p.blocks.as_slice(), assignment)?,
        tmps: 0,
        slots: p.slots,
        returns: p.returns,
    })
}
