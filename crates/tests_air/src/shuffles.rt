//! Moves in order, with ample memory.

ghost use Rattle.std.specs.Prelude.{◌≡◌};
ghost use Rattle.std.specs.List.{list_any};
ghost use Rattle.air_shuffle.specs.Moves.{writes};
ghost use Rattle.tests_air.specs.Orderable.{goes_before, may_go};

use air_ir::{Arg, Home};
use air_shuffle::{Move, Moves, sequence};
use b3_base::{NoMemory, Width};
use b3_ir::Reg;
use std::alloc::Global;
use std::test::Fail;

const SCRATCH: Reg = Reg(17);

/// A home by its number: a register below 31, and from there on a spill place.
fn home(number: u32) -> Home {
    if number < 31 {
        Home::Reg(Reg(number as u8))
    } else {
        Home::Spill(number - 31)
    }
}

/// A move of 64 bits to a home from another one, by their numbers.
fn move_to(to: u32, from: u32) -> Move {
    Move {
        from: Arg::At(home(from)),
        to: home(to),
        width: Width::W64,
    }
}

/// Whether one of the moves is to a home.
fn is_written(moves: &[Move], home: Home) -> bool
    ensures { result ≡ list_any (writes home) moves.now }
{
    for one in moves {
        if one.to == home {
            return true;
        }
    }
    false
}

/// Whether a move has a source and a destination of its own.
fn goes_before(one: Move, rest: &[Move], scratch: Reg) -> bool
    ensures { result ≡ goes_before scratch one rest.now }
{
    let source = matches!(one.from, Arg::At(_) | Arg::Imm(_));
    source && one.to != Home::Reg(scratch) && !is_written(rest, one.to)
}

/// Whether moves may be put in order.
fn may_go(moves: &[Move], scratch: Reg) -> bool
    ensures { result ≡ may_go scratch moves.now }
{
    let mut rest = moves;
    while let Some((first, after)) = rest.split_first() {
        if !goes_before(*first, after, scratch) {
            return false;
        }
        rest = after;
    }
    true
}

/// The moves in order, none where they may not be put in order.
fn ordered(alloc: Global, moves: &[Move]) -> Result<Moves, NoMemory> {
    if may_go(moves, SCRATCH) {
        sequence(alloc, moves, SCRATCH)
    } else {
        Ok(Moves::new(alloc))
    }
}

/// Moves by the numbers of their destinations and sources.
fn moves_of(alloc: Global, pairs: &[(u32, u32)]) -> Result<Moves, NoMemory> {
    let mut moves = Moves::new(alloc);
    for (to, from) in pairs {
        moves.push(move_to(*to, *from))?;
    }
    Ok(moves)
}

/// Moves, and the moves in order that they become.
type Row = (&'static [(u32, u32)], &'static [(u32, u32)]);

/// A chain, a cycle of three, two cycles, a move to itself, and a source of three destinations in a cycle.
const ROWS: [Row; 5] = [
    (&[(1, 0), (38, 1), (0, 5)], &[(38, 1), (1, 0), (0, 5)]),
    (
        &[(0, 1), (1, 2), (2, 0)],
        &[(17, 1), (1, 2), (2, 0), (0, 17)],
    ),
    (
        &[(0, 1), (1, 0), (2, 34), (34, 2)],
        &[(17, 1), (1, 0), (0, 17), (17, 34), (34, 2), (2, 17)],
    ),
    (&[(4, 4), (5, 4)], &[(5, 4)]),
    (
        &[(0, 3), (1, 3), (3, 0), (31, 3)],
        &[(1, 3), (31, 3), (17, 3), (3, 0), (0, 17)],
    ),
];

#[test]
fn chains_and_cycles_are_put_in_order(rt: HostRuntime) -> Result<(), Fail> {
    for (moves, expected) in ROWS {
        let done = ordered(rt.alloc(), moves_of(rt.alloc(), moves)?.as_slice())?;
        assert_eq!(rt; done.as_slice(), moves_of(rt.alloc(), expected)?.as_slice());
    }
    Ok(())
}

/// Each of so many spill places from the next one, around.
fn circle(alloc: Global, places: u32) -> Result<Moves, NoMemory> {
    let mut moves = Moves::new(alloc);
    for place in 0..places {
        let next = if place + 1 < places { place + 1 } else { 0 };
        moves.push(Move {
            from: Arg::At(Home::Spill(next)),
            to: Home::Spill(place),
            width: Width::W64,
        })?;
    }
    Ok(moves)
}

#[test]
fn a_thousand_moves_are_put_in_order(rt: HostRuntime) -> Result<(), Fail> {
    let done = ordered(rt.alloc(), circle(rt.alloc(), 1_000)?.as_slice())?;
    assert_eq!(rt; done.len(), 1_001);
    // the first word waits in the scratch
    assert_eq!(rt; done.as_slice().first(), Some(&move_to(17, 32)));
    assert_eq!(rt; done.as_slice().last(), Some(&move_to(31, 17)));
    Ok(())
}
