//! Moves in order that do what moves do at once.

ghost use Rattle.std.specs.Prelude.{◌≡◌, ◌≢◌, ℕ, ◌+◌, ◌*◌, ◌≤◌, List, None, All, AllPairs, IfOk, OnOk, length};
ghost use Rattle.std.specs.List.{count_by};
ghost use Rattle.air_ir.specs.declared.operand.Home.{Home};
ghost use Rattle.air_ir.specs.declared.operand.Home.TheVariants as home;
ghost use Rattle.air_shuffle.specs.Following.{IsAt};
ghost use Rattle.air_shuffle.specs.Moves.{DoAtOnce, GoUp, IsMadeOf, IsSource, Move, is_self, writes};
ghost use Rattle.air_shuffle.specs.Sequenced.{sequenced};
ghost use Rattle.air_shuffle.specs.Waiting.{IsCounted};

use crate::moves::{Move, Moves};
use crate::pending::Pending;
use b3_base::NoMemory;
use b3_ir::Reg;
use std::alloc::Global;

/// Moves in order that do what `moves` do at once, by way of `scratch`. It is refused for want of memory alone.
pub fn sequence(alloc: Global, moves: &[Move], scratch: Reg) -> Result<Moves, NoMemory>
    requires sources { All (λ one. IsSource one.from) moves.now }
    requires differ { AllPairs (λ one other. one.to ≢ other.to) moves.now }
    requires apart { All (λ one. one.to ≢ home.Reg scratch) moves.now }
    ensures is { IfOk result (λ done. done ≡ sequenced scratch moves.now) }
    ensures at_once { IfOk result (DoAtOnce scratch moves.now) }
    ensures made { IfOk result (All (IsMadeOf scratch moves.now)) }
    ensures no_self { IfOk result (λ done. count_by is_self done ≡ 0) }
    ensures length { IfOk result (λ done. length done + count_by is_self moves.now
        ≡ length moves.now + count_by (writes (home.Reg scratch)) done) }
    ensures straight { IfOk result (λ done. (rank : Home → ℕ) → GoUp rank moves.now
        → count_by (writes (home.Reg scratch)) done ≡ 0) }
    ensures few { IfOk result (λ done. length done + 2 * count_by is_self moves.now ≤ 2 * length moves.now) }
{
    let mut pending = Pending::new(alloc, moves, scratch)?;
    let mut done = Moves::new(alloc);
    for place in 0..moves.len() {
        pending.follow(Some(place), &mut done)?;
    }
    cut_cycles(&mut pending, moves.len(), &mut done)?;
    Ok(done)
}

/// Does the moves that are left once none of them is free: all of them are cycles, and one source of each is saved.
fn cut_cycles(pending: &mut Pending, count: usize, done: &mut Moves) -> Result<(), NoMemory>
    requires counted { IsCounted pending.old }
    requires count { count ≡ length pending.old.moves.items }
    ensures { OnOk result ((whole : List Move) → IsAt whole count None done.old pending.old → done.new ≡ whole) }
{
    for place in 0..count {
        if pending.is_left(place) {
            let (saving, next) = pending.save(place);
            done.push(saving)?;
            pending.follow(next, done)?;
        }
    }
    Ok(())
}
