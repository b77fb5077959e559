//! Colouring: joining, taking away, choosing.

ghost use Rattle.std.specs.Prelude.{◌≡◌, ℕ, ◌+◌, ◌-◌, ◌<◌, ◌≤◌, ◌^◌, length, slice_index_or, IfOk};
ghost use Rattle.air_colour.specs.Interference.{IsInterference};
ghost use Rattle.air_colour.specs.Kept.{given_in};
ghost use Rattle.air_colour.specs.Progress.{class_in, moves_of};
ghost use Rattle.air_colour.specs.Colouring.{IsColouring};
ghost use Rattle.air_colour.specs.Homes.{home_graph, register_of, IsStarted};

use crate::choose::choose;
use crate::classes::Classes;
use crate::homes::{give_registers, mark_registers, spread};
use crate::moves::{Move, join_moves};
use crate::simplify::simplify;
use air_graph::Edges;
use b3_base::NoMemory;
use std::alloc::Global;

/// What each home is given, a register counted from 0 or none, and the numbers of the moves that
/// were joined, in order.
#[derive(Drop)]
pub(crate) struct Colouring {
    pub(crate) given: Vec<Option<usize>>,
    pub(crate) joins: Vec<u32>,
}

/// Joins, takes away and chooses: afterwards each home's class is given what the home is given.
fn colour_classes(
    alloc: Global,
    edges: &mut Edges,
    left: &mut [bool],
    fixed: &[bool],
    class: &mut Classes,
    given: &mut [Option<usize>],
    temporaries: usize,
    k: usize,
    moves: &[Move],
) -> Result<Vec<u32>, NoMemory>
    requires homes { temporaries + k ≤ 2 ^ 33 }
    requires start { IsStarted edges.old left.old fixed.now class.old given.old temporaries k }
    requires few { length moves.now ≤ 2 ^ 32 }
    requires interference { IsInterference (home_graph edges.old temporaries k) }
    ensures long { IfOk result (λ _. length class.new ≡ length class.old) }
    ensures below { IfOk result (λ _. (u : ℕ) → u < length class.new
        → slice_index_or class.new u 0 < length given.new) }
    ensures coloured { IfOk result (λ joins. IsColouring k (home_graph edges.old temporaries k)
        (register_of temporaries) (moves_of moves.now) joins.items (λ u. given_in given.new (class_in class.new u))) }
{
    let joins = join_moves(alloc, edges, left, fixed, class, moves, k)?;
    give_registers(given, class.as_slice(), temporaries, k);
    let order = simplify(alloc, edges, left, fixed, k)?;
    choose(alloc, edges, given, &order, k)?;
    Ok(joins)
}

/// Colours the homes of an interference graph: `temporaries` temporaries and after them `k`
/// registers. It is refused for want of memory alone.
pub(crate) fn colour_homes(
    alloc: Global,
    mut edges: Edges,
    temporaries: usize,
    k: usize,
    moves: &[Move],
) -> Result<Colouring, NoMemory>
    requires homes { temporaries + k ≤ 2 ^ 33 }
    requires names { edges.names ≡ temporaries + k }
    requires few { length moves.now ≤ 2 ^ 32 }
    requires interference { IsInterference (home_graph edges temporaries k) }
    ensures long { IfOk result (λ c. length c.given.items ≡ temporaries + k) }
    ensures coloured { IfOk result (λ c. IsColouring k (home_graph edges temporaries k) (register_of temporaries)
        (moves_of moves.now) c.joins.items (given_in c.given.items)) }
{
    let homes = temporaries + k;
    let fixed = mark_registers(alloc, temporaries, homes)?;
    let mut left = vec![in alloc; true; homes]?;
    let mut class = Classes::new(alloc, homes)?;
    let mut given = vec![in alloc; None; homes]?;
    let joins = colour_classes(
        alloc,
        &mut edges,
        &mut left,
        &fixed,
        &mut class,
        &mut given,
        temporaries,
        k,
        moves,
    )?;
    let given = spread(alloc, &given, class.as_slice())?;
    Ok(Colouring { given, joins })
}
