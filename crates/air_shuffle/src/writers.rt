//! Which move writes a home.

ghost use Rattle.std.specs.Prelude.{◌≡◌, IfOk, length};
ghost use Rattle.air_shuffle.specs.Waiting.{AreWriters, number_of, writer_of};

use crate::moves::Move;
use air_ir::{Arg, Home};
use b3_base::NoMemory;
use indexmap::IndexMap;
use std::alloc::Global;

/// The places of the moves to homes, by the homes' numbers.
pub(crate) type Writers = IndexMap<u64, usize>;

/// A number for each home.
fn number_of(home: Home) -> u64
    ensures { result ≡ number_of home }
{
    match home {
        Home::Tmp(number) => number as u64 * 3,
        Home::Reg(reg) => reg.0 as u64 * 3 + 1,
        Home::Spill(number) => number as u64 * 3 + 2,
    }
}

/// The moves to homes. It is refused for want of memory alone.
pub(crate) fn writers_of(alloc: Global, moves: &[Move]) -> Result<Writers, NoMemory>
    ensures { IfOk result (AreWriters moves.now) }
{
    let mut writers = IndexMap::new(alloc);
    for place in 0..moves.len() {
        writers.insert(number_of(moves[place].to), place)?;
    }
    Ok(writers)
}

/// The place of the move to the home that a source is.
pub(crate) fn writer_of(writers: &Writers, from: Arg) -> Option<usize>
    ensures { result ≡ writer_of writers.now from }
{
    match from {
        Arg::At(home) => writers.get(&number_of(home)).copied(),
        _ => None,
    }
}
