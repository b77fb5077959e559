//! Shuffles: copies in an order in which they do what all of them do at once.

ghost use Rattle.std.specs.Prelude.{◌≡◌, ◌++◌, IfOk, OnOk};
ghost use Rattle.a64_code.specs.Places.{plains};
ghost use Rattle.a64_emit.specs.Code.{copies_code, home_of, moves_of, shuffle_code};
ghost use Rattle.a64_emit.specs.Fitting.{AreOrderable};

use crate::insts::push_copy;
use a64_inst::Labelled;
use air_ir::{Arg, Frame, Home, Operands};
use air_shuffle::{Move, Moves, sequence};
use b3_base::NoMemory;
use b3_ir::Reg;
use std::alloc::Global;

/// The home of an argument, where it is one.
fn home_of(arg: Arg) -> Home
    ensures { result ≡ home_of arg }
{
    match arg {
        Arg::At(home) => home,
        _ => Home::Tmp(0),
    }
}

/// Pairs of a source and a destination as moves. It is refused for want of memory alone.
fn moves_of(alloc: Global, operands: &Operands) -> Result<Moves, NoMemory>
    ensures { IfOk result (λ moves. moves ≡ moves_of operands.now) }
{
    let mut moves = Moves::new(alloc);
    for k in 0..operands.len() / 2 {
        let from = *operands.get(2 * k);
        let to = *operands.get(2 * k + 1);
        moves.push(Move {
            from: from.arg,
            to: home_of(to.arg),
            width: from.width,
        })?;
    }
    Ok(moves)
}

/// Moves are carried out one after the other.
fn push_copies(code: &mut Labelled, frame: &Frame, moves: &Moves) -> Result<(), NoMemory>
    ensures { OnOk result (code.new ≡ code.old ++ plains (copies_code frame.now moves.now)) }
{
    for k in 0..moves.len() {
        let one = *moves.get(k);
        push_copy(code, frame, one.width, one.from, Arg::At(one.to))?;
    }
    Ok(())
}

/// The copies of a Shuffle, with x17 as the register that keeps a word where they make a cycle.
pub(crate) fn push_shuffle(
    alloc: Global,
    code: &mut Labelled,
    frame: &Frame,
    operands: &Operands,
) -> Result<(), NoMemory>
    requires { AreOrderable (moves_of operands.now) }
    ensures { OnOk result (code.new ≡ code.old ++ plains (shuffle_code frame.now operands.now)) }
{
    let moves = moves_of(alloc, operands)?;
    let done = sequence(alloc, moves.as_slice(), Reg(17))?;
    push_copies(code, frame, &done)
}
