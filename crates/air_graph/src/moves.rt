//! The moves of a procedure.

ghost use Rattle.std.specs.Prelude.{◌≡◌, ◌++◌, IfOk, OnOk};
ghost use Rattle.air_graph.specs.Moves.{block_moves, copied, inst_moves, moves_of, pairs_of};

use air_ir::{AirBlock, AirInst, AirOp, AirProc, Arg, Home, Operand};
use b3_base::{NoMemory, Seq};
use std::alloc::Global;

/// A copy from one home to another.
#[derive(Clone, Copy, Debug, PartialEq, Eq)]
pub struct Copied {
    /// The home that is read.
    pub from: Home,
    /// The home that is written.
    pub to: Home,
}

/// Copies, in order.
pub(crate) type Moves = Seq<Copied>;

/// Adds the copy of one argument to another, where both are homes.
fn add_copied(moves: &mut Moves, from: Arg, to: Arg) -> Result<(), NoMemory>
    ensures { OnOk result (moves.new ≡ moves.old ++ copied from to) }
{
    match (from, to) {
        (Arg::At(from), Arg::At(to)) => moves.push(Copied { from, to }),
        _ => Ok(()),
    }
}

/// Adds the copies of operands by pairs of a source and a destination.
fn add_pairs(moves: &mut Moves, operands: &[Operand]) -> Result<(), NoMemory>
    ensures { OnOk result (moves.new ≡ moves.old ++ pairs_of operands.now) }
{
    for k in 0..operands.len() / 2 {
        add_copied(moves, operands[2 * k].arg, operands[2 * k + 1].arg)?;
    }
    Ok(())
}

/// Adds the moves of an instruction.
pub(crate) fn add_inst(moves: &mut Moves, inst: &AirInst) -> Result<(), NoMemory>
    ensures { OnOk result (moves.new ≡ moves.old ++ inst_moves inst.now) }
{
    match inst.op {
        AirOp::Move | AirOp::Shuffle => add_pairs(moves, inst.operands.as_slice()),
        _ => Ok(()),
    }
}

/// Adds the moves of a block.
fn add_block(moves: &mut Moves, block: &AirBlock) -> Result<(), NoMemory>
    ensures { OnOk result (moves.new ≡ moves.old ++ block_moves block.now) }
{
    for inst in block.insts.as_slice() {
        add_inst(moves, inst)?;
    }
    Ok(())
}

/// The moves of a procedure, in order. It is refused for want of memory alone.
pub(crate) fn moves_of(alloc: Global, p: &AirProc) -> Result<Moves, NoMemory>
    ensures { IfOk result (λ moves. moves ≡ moves_of p.now) }
{
    let mut moves = Moves::new(alloc);
    for block in p.blocks.as_slice() {
        add_block(&mut moves, block)?;
    }
    Ok(moves)
}
