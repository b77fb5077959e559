//! Moves between homes.

ghost use Rattle.std.specs.Prelude.{◌≡◌};
ghost use Rattle.air_shuffle.specs.Moves.{is_self};

use air_ir::{Arg, Home};
use b3_base::{Seq, Width};

/// A move of a word of a width, from a home or an immediate to a home.
#[derive(Clone, Copy, Debug, PartialEq, Eq)]
pub struct Move {
    pub from: Arg,
    pub to: Home,
    pub width: Width,
}

/// Moves in order.
pub type Moves = Seq<Move>;

/// Whether a move is from a home to itself.
pub(crate) fn is_self(one: Move) -> bool
    ensures { result ≡ is_self one }
{
    match one.from {
        Arg::At(home) => home == one.to,
        _ => false,
    }
}
