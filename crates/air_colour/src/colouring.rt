//! An assignment from a colouring.

ghost use Rattle.std.specs.Prelude.{◌≡◌, ◌^◌, ◌<◌, ◌≤◌, map, length, All, IfSome, IfOk};
ghost use Rattle.air_ir.specs.declared.procedure.AirProc.{AirProc};
ghost use Rattle.air_flow.specs.Proper.{IsProper};
ghost use Rattle.air_graph.specs.Graph.{IsInterferenceOf};
ghost use Rattle.air_graph.specs.Homes.{register_at};
ghost use Rattle.air_colour.specs.Assigned.{IsColouringOf, as_register, move_of, number_in};
ghost use Rattle.b3_ir.specs.declared.value.Reg.{Reg};

use crate::assign::colour_homes;
use crate::moves::Move;
use air_graph::{Copied, Interference, number_of};
use air_ir::{Assignment, Home};
use b3_base::{Ids, NoMemory, Seq};
use b3_ir::Reg;
use std::alloc::Global;

/// How many registers values may stand in.
const REGISTERS: usize = 25;

/// The number of a home, that behind the last one for a home that isn't coloured.
fn number_in(tmps: u32, home: Home) -> usize
    ensures { result ≡ number_in tmps home }
{
    match number_of(tmps, home) {
        Some(n) => n,
        None => tmps as usize + REGISTERS,
    }
}

/// The moves, by the numbers of their homes. It is refused for want of memory alone.
fn numbered(alloc: Global, tmps: u32, moves: &[Copied]) -> Result<Seq<Move>, NoMemory>
    ensures { IfOk result (λ list. list ≡ map (move_of tmps) moves.now) }
{
    let mut list = Seq::new(alloc);
    for m in moves {
        list.push(Move {
            from: number_in(tmps, m.from),
            to: number_in(tmps, m.to),
        })?;
    }
    Ok(list)
}

/// The register at a place among the 25.
fn as_register(given: Option<usize>) -> Option<Reg>
    requires { IfSome given (λ k. k < 25) }
    ensures { result ≡ as_register given }
{
    match given {
        Some(k) => {
            if k < 15 {
                Some(Reg(k as u8))
            } else {
                Some(Reg((k + 4) as u8))
            }
        }
        None => None,
    }
}

/// Registers by what is given. It is refused for want of memory alone.
fn registers_of(alloc: Global, given: &[Option<usize>]) -> Result<Seq<Option<Reg>>, NoMemory>
    requires { All (λ g. IfSome g (λ k. k < 25)) given.now }
    ensures { IfOk result (λ list. list ≡ map as_register given.now) }
{
    let mut list = Seq::new(alloc);
    for g in given {
        list.push(as_register(*g))?;
    }
    Ok(list)
}

/// Gives the temporaries of an interference graph registers, after moves were joined. No two homes that interfere are
/// given one register, and all members of a class that moves have joined are given the same. Where the graph is easy
/// nothing is spilled, and otherwise a class only where each of the 25 registers is barred. It is refused for want of
/// memory alone.
pub fn colour(alloc: Global, graph: Interference) -> Result<Assignment, NoMemory>
    requires { length graph.moves ≤ 2 ^ 32 }
    ensures coloured { IfOk result (λ a. IsColouringOf graph a) }
    ensures proper { (p : AirProc) → IsInterferenceOf p graph → IfOk result (λ a. IsProper p a) }
{
    let tmps = graph.tmps;
    let moves = numbered(alloc, tmps, graph.moves.as_slice())?;
    let colouring = colour_homes(
        alloc,
        graph.edges,
        tmps as usize,
        REGISTERS,
        moves.as_slice(),
    )?;
    let homes = registers_of(alloc, &colouring.given[..tmps as usize])?;
    let mut joins = Ids::new(alloc);
    joins.extend(&colouring.joins)?;
    Ok(Assignment { homes, joins })
}
