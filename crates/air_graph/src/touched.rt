//! What an instruction does to the homes that are coloured.

ghost use Rattle.std.specs.Prelude.{◌≡◌, filter_map, ◌++◌, ◌<◌, length, OnOk, IfOk};
ghost use Rattle.std.specs.Option.{option_to_list};
ghost use Rattle.air_ir.specs.Blocks.{block_of};
ghost use Rattle.air_ir.specs.WellFormed.{StandsAt};
ghost use Rattle.air_ir.specs.declared.procedure.AirInst.{AirInst};
ghost use Rattle.air_flow.specs.Flow.{touches_at};
ghost use Rattle.air_graph.specs.Walk.{IsTouchedOf, defined_by, early_arg, early_of, used_by, used_late_by};

use crate::homes::{number_named, number_of};
use crate::moves::{Moves, add_inst};
use air_flow::AirFlow;
use air_ir::{AirInst, Arg, Operand, Role};
use b3_base::{NoMemory, Seq};
use flow_live::{Flow, Touch};
use std::alloc::Global;

/// Homes by their numbers.
pub(crate) type Numbers = Seq<usize>;

/// What an instruction uses, uses late and defines, what it may define before it has read its uses, and its moves.
#[derive(Drop)]
pub(crate) struct Touched {
    pub(crate) used: Numbers,
    pub(crate) late: Numbers,
    pub(crate) defined: Numbers,
    pub(crate) early: Numbers,
    pub(crate) moves: Moves,
}

/// Adds a number, where there is one.
pub(crate) fn push_some(numbers: &mut Numbers, number: Option<usize>) -> Result<(), NoMemory>
    ensures { OnOk result (numbers.new ≡ numbers.old ++ option_to_list number) }
{
    match number {
        Some(n) => numbers.push(n),
        None => Ok(()),
    }
}

fn used_by(tmps: u32, touch: Touch) -> Option<usize>
    ensures { result ≡ used_by tmps touch }
{
    match touch {
        Touch::Use(name) => number_named(tmps, name),
        Touch::LateUse(_) | Touch::Def(_) => None,
    }
}

fn used_late_by(tmps: u32, touch: Touch) -> Option<usize>
    ensures { result ≡ used_late_by tmps touch }
{
    match touch {
        Touch::LateUse(name) => number_named(tmps, name),
        Touch::Use(_) | Touch::Def(_) => None,
    }
}

fn defined_by(tmps: u32, touch: Touch) -> Option<usize>
    ensures { result ≡ defined_by tmps touch }
{
    match touch {
        Touch::Def(name) => number_named(tmps, name),
        Touch::Use(_) | Touch::LateUse(_) => None,
    }
}

fn early_of(tmps: u32, operand: &Operand) -> Option<usize>
    ensures { result ≡ early_of tmps operand.now }
{
    match (operand.role, operand.arg) {
        (Role::EarlyDef, Arg::At(home)) => number_of(tmps, home),
        _ => None,
    }
}

/// Adds what the operands may define early.
fn add_early(early: &mut Numbers, tmps: u32, operands: &[Operand]) -> Result<(), NoMemory>
    ensures { OnOk result (early.new ≡ early.old ++ filter_map (early_of tmps) operands.now) }
{
    for operand in operands {
        push_some(early, early_of(tmps, operand))?;
    }
    Ok(())
}

/// What the instruction at a place does. It is refused for want of memory alone.
pub(crate) fn touched_at(
    alloc: Global,
    flow: &AirFlow<'_>,
    block: usize,
    place: usize,
) -> Result<Touched, NoMemory>
    requires block { block < length flow.now.proc.now.blocks }
    requires place { place < length (block_of flow.now.proc.now block).insts }
    ensures { IfOk result (λ t. (i : AirInst) → StandsAt flow.now.proc.now block place i
        → IsTouchedOf flow.now.proc.now.tmps (touches_at flow.now.proc.now block place) i t) }
{
    let tmps = flow.proc.tmps;
    let inst = flow.proc.blocks.get(block).insts.get(place);
    let mut early = Numbers::new(alloc);
    add_early(&mut early, tmps, inst.operands.as_slice())?;
    let mut moves = Moves::new(alloc);
    add_inst(&mut moves, inst)?;
    let mut used = Numbers::new(alloc);
    let mut late = Numbers::new(alloc);
    let mut defined = Numbers::new(alloc);
    for k in 0..flow.touches(block, place) {
        let touch = flow.touch(block, place, k);
        push_some(&mut used, used_by(tmps, touch))?;
        push_some(&mut late, used_late_by(tmps, touch))?;
        push_some(&mut defined, defined_by(tmps, touch))?;
    }
    Ok(Touched {
        used,
        late,
        defined,
        early,
        moves,
    })
}
