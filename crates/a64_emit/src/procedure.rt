//! The code of a procedure.

ghost use Rattle.std.specs.Prelude.{◌≡◌, ◌+◌, ◌++◌, ◌<◌, ◌≤◌, ◌^◌, length, All, IfOk, OnOk};
ghost use Rattle.air_ir.specs.Kinds.{kind_of};
ghost use Rattle.air_ir.specs.Weight.{weight};
ghost use Rattle.air_ir.specs.WellFormed.{HasOneSiteEach, IsWellFormed};
ghost use Rattle.air_frame.specs.Frames.{IsFrameOf};
ghost use Rattle.a64_emit.specs.Built.{IsBuilt};
ghost use Rattle.a64_emit.specs.Code.{block_exits, block_labels, block_marks, blocks_exits, blocks_items, emitted, exits_by, has_exit, inner_marks, insts_exits, insts_items, own_labels};
ghost use Rattle.a64_emit.specs.Emitted.{IsCodeOfAir};
ghost use Rattle.a64_emit.specs.Fitting.{AreFitting, IsFittingBlock};

use crate::checks::push_exit;
use crate::sites::{own_exits, own_marks, procedure_sites};
use crate::switched::switch_labels;
use crate::terminals::push_items;
use a64_code::push_prologue;
use a64_inst::{Item, Labelled};
use air_ir::{AirBlock, AirOp, AirProc, Frame};
use b3_base::NoMemory;
use stackmap::Sites;
use std::alloc::Global;

/// Labelled code, and the sites of its marks: mark k is the place of site k.
#[derive(Drop)]
pub struct Emitted {
    pub code: Labelled,
    pub sites: Sites,
}

/// The code of a procedure of Air without temporaries, with the frame that was laid out for it: the first labels are those
/// of its blocks. It is refused for want of memory alone.
pub fn emit(alloc: Global, p: &AirProc, frame: &Frame) -> Result<Emitted, NoMemory>
    requires well { IsWellFormed p.now }
    requires no_tmps { p.now.tmps ≡ 0 }
    requires frame { IsFrameOf p.now frame.now }
    requires short { weight p.now < 2 ^ 24 }
    requires built { IsBuilt p.now }
    requires one_site { HasOneSiteEach p.now }
    ensures { IfOk result (λ e. IsCodeOfAir p.now frame.now e.code e.sites) }
{
    let code = procedure_code(alloc, p, frame)?;
    let sites = procedure_sites(alloc, p, frame)?;
    Ok(Emitted { code, sites })
}

/// The code of a procedure. It is refused for want of memory alone.
#[tactic(auto, unfolding(crate::specs::Code::emitted))]
fn procedure_code(alloc: Global, p: &AirProc, frame: &Frame) -> Result<Labelled, NoMemory>
    requires fits { All IsFittingBlock p.now.blocks }
    requires labels { AreFitting p.now }
    ensures { IfOk result (λ code. code ≡ emitted p.now frame.now) }
{
    let mut code = Labelled::new(alloc);
    push_prologue(&mut code, frame)?;
    let marks = push_blocks(alloc, &mut code, p, frame)?;
    push_exits(&mut code, p, marks)?;
    Ok(code)
}

/// The items of the blocks, in order; and how many marks stand within them.
fn push_blocks(
    alloc: Global,
    code: &mut Labelled,
    p: &AirProc,
    frame: &Frame,
) -> Result<u32, NoMemory>
    requires fits { All IsFittingBlock p.now.blocks }
    requires labels { AreFitting p.now }
    ensures items { OnOk result (code.new ≡ code.old ++ blocks_items frame.now 0 (length p.now.blocks) 0 p.now.blocks) }
    ensures marks { IfOk result (λ marks. marks ≡ inner_marks p.now.blocks) }
{
    let count = p.blocks.len() as u32;
    let mut label = count;
    let mut mark = 0;
    for b in 0..count {
        let block = p.blocks.get(b as usize);
        code.push(Item::Label(b))?;
        push_block(alloc, code, frame, b + 1, label, mark, block)?;
        label += block_labels(block);
        mark += block_marks(block);
    }
    Ok(mark)
}

/// The exits of the blocks, in order, with marks from this one on.
fn push_exits(code: &mut Labelled, p: &AirProc, marks: u32) -> Result<(), NoMemory>
    requires labels { AreFitting p.now }
    requires marks { marks ≡ inner_marks p.now.blocks }
    ensures { OnOk result (code.new ≡ code.old ++ blocks_exits (length p.now.blocks) marks p.now.blocks) }
{
    let mut label = p.blocks.len() as u32;
    let mut mark = marks;
    for b in 0..p.blocks.len() {
        let block = p.blocks.get(b);
        push_block_exits(code, label, mark, block)?;
        label += block_labels(block);
        mark += block_exits(block);
    }
    Ok(())
}

/// The exits of a block.
fn push_block_exits(
    code: &mut Labelled,
    label: u32,
    mark: u32,
    block: &AirBlock,
) -> Result<(), NoMemory>
    requires labels { label + block_labels block.now < 2 ^ 32 }
    requires marks { mark + block_exits block.now < 2 ^ 32 }
    ensures { OnOk result (code.new ≡ code.old ++ insts_exits label mark block.now.insts) }
{
    let mut own = label;
    let mut number = mark;
    for k in 0..block.insts.len() {
        let inst = block.insts.get(k);
        push_own_exit(code, own, number, &inst.op)?;
        own += own_labels(&inst.op);
        number += own_exits(&inst.op);
    }
    Ok(())
}

/// The exit of an instruction, where it has one.
fn push_own_exit(code: &mut Labelled, label: u32, mark: u32, op: &AirOp) -> Result<(), NoMemory>
    ensures { OnOk result (code.new ≡ code.old ++ exits_by (has_exit (kind_of op.now)) label mark) }
{
    match op {
        AirOp::CheckIf(_) | AirOp::CheckAdd | AirOp::CheckSub | AirOp::CheckMul => {
            push_exit(code, label, mark)
        }
        _ => Ok(()),
    }
}

/// The items of the instructions of a block, before the block `next`.
fn push_block(
    alloc: Global,
    code: &mut Labelled,
    frame: &Frame,
    next: u32,
    label: u32,
    mark: u32,
    block: &AirBlock,
) -> Result<(), NoMemory>
    requires fits { IsFittingBlock block.now }
    requires labels { label + block_labels block.now < 2 ^ 32 }
    requires marks { mark + block_marks block.now < 2 ^ 32 }
    ensures { OnOk result (code.new ≡ code.old
        ++ insts_items frame.now next label mark block.now.targets block.now.insts) }
{
    let mut own = label;
    let mut number = mark;
    for k in 0..block.insts.len() {
        let inst = block.insts.get(k);
        push_items(alloc, code, frame, next, own, number, &block.targets, inst)?;
        own += own_labels(&inst.op);
        number += own_marks(&inst.op, inst.traps);
    }
    Ok(())
}

/// How many labels an instruction has of its own.
fn own_labels(op: &AirOp) -> u32
    requires { own_labels op.now < 2 ^ 32 }
    ensures { result ≡ own_labels op.now }
{
    match op {
        AirOp::Switch(cases) => switch_labels(cases),
        AirOp::CheckIf(_) | AirOp::CheckAdd | AirOp::CheckSub | AirOp::CheckMul => 1,
        _ => 0,
    }
}

/// How many labels the instructions of a block have of their own.
fn block_labels(block: &AirBlock) -> u32
    requires { block_labels block.now < 2 ^ 32 }
    ensures { result ≡ block_labels block.now }
{
    let mut count = 0;
    for inst in block.insts.as_slice() {
        count += own_labels(&inst.op);
    }
    count
}

/// How many marks stand within the items of a block.
fn block_marks(block: &AirBlock) -> u32
    requires { block_marks block.now < 2 ^ 32 }
    ensures { result ≡ block_marks block.now }
{
    let mut count = 0;
    for inst in block.insts.as_slice() {
        count += own_marks(&inst.op, inst.traps);
    }
    count
}

/// How many exits the instructions of a block have.
fn block_exits(block: &AirBlock) -> u32
    requires { block_exits block.now < 2 ^ 32 }
    ensures { result ≡ block_exits block.now }
{
    let mut count = 0;
    for inst in block.insts.as_slice() {
        count += own_exits(&inst.op);
    }
    count
}
