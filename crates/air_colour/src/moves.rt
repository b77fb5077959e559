//! Joining moves until none may be joined.

ghost use Rattle.std.specs.Prelude.{◌≡◌, ◌^◌, ℕ, ◌<◌, ◌≤◌, ◌↔◌, ◌⊎◌, List, Bool, length, slice_index_or, cond, true, false, [], Contains, IsTrue, IfOk, OnOk};
ghost use Rattle.air_colour.specs.Interference.{Graph, IsInterference};
ghost use Rattle.air_colour.specs.Classes.{MayJoinMove, after_move, JoinsFrom, after_joins};
ghost use Rattle.air_colour.specs.Progress.{class_in, IsState, IsKept, moves_of, IsJoinedSoFar, left_count};

use crate::classes::Classes;
use crate::joining::{join, may_join};
use crate::waiting::Waiting;
use air_graph::Edges;
use b3_base::NoMemory;
use std::alloc::Global;

/// A move from one home to another, by their numbers.
#[derive(Clone, Copy)]
pub struct Move {
    /// The home that is read.
    pub from: usize,
    /// The home that is written.
    pub to: usize,
}

/// The class of the move that stays, if it is joined, and the one that goes into it.
fn sides(fixed: &[bool], class: &[usize], m: Move) -> (usize, usize)
    requires from { m.from < length class.now }
    requires to { m.to < length class.now }
    requires below { (u : ℕ) → u < length class.now → slice_index_or class.now u 0 < length fixed.now }
    ensures stays { result.0 ≡ cond (slice_index_or fixed.now (slice_index_or class.now m.from 0) false)
        (slice_index_or class.now m.from 0) (slice_index_or class.now m.to 0) }
    ensures goes { result.1 ≡ cond (slice_index_or fixed.now (slice_index_or class.now m.from 0) false)
        (slice_index_or class.now m.to 0) (slice_index_or class.now m.from 0) }
    ensures below { (result.0 < length fixed.now) × (result.1 < length fixed.now) }
{
    let from = class[m.from];
    let to = class[m.to];
    if fixed[from] { (from, to) } else { (to, from) }
}

/// Joins the classes of a move, if they may be, and lists the moves that may pass a test now. True where they were
/// joined. It is refused for want of memory alone.
fn join_move(
    alloc: Global,
    edges: &mut Edges,
    left: &mut [bool],
    fixed: &[bool],
    class: &mut Classes,
    waiting: &mut Waiting,
    m: Move,
    k: usize,
) -> Result<bool, NoMemory>
    requires state { IsState edges.old left.old fixed.now class.old }
    ensures waiting { length waiting.new.listed.items ≡ length waiting.old.listed.items }
    ensures state { IfOk result (λ _. IsState edges.new left.new fixed.now class.new) }
    ensures unchanged { IfOk result (λ done. done ≡ false → (edges.new ≡ edges.old) × (left.new ≡ left.old)
        × (class.new ≡ class.old)) }
    ensures fewer { IfOk result (λ done. done ≡ true → left_count left.new < left_count left.old) }
    ensures not_joined { IfOk result (λ done. done ≡ false → (g : Graph) → IsInterference g
        → IsKept g edges.old left.old fixed.now class.old → MayJoinMove k g (class_in class.old) m → ⊥) }
    ensures joined { IfOk result (λ done. done ≡ true → (g : Graph) → IsInterference g
        → IsKept g edges.old left.old fixed.now class.old → MayJoinMove k g (class_in class.old) m
        × IsKept g edges.new left.new fixed.now class.new
        × (class_in class.new ≡ after_move g (class_in class.old) m)) }
{
    let homes = class.as_slice();
    if m.from >= homes.len() || m.to >= homes.len() {
        return Ok(false);
    }
    let (a, b) = sides(fixed, homes, m);
    if !may_join(edges, left, fixed, a, b, k) {
        return Ok(false);
    }
    let near = join(alloc, edges, left, a, b)?;
    class.merge(alloc, a, b)?;
    waiting.note_join(alloc, edges, left, fixed, a, b, &near, k)?;
    Ok(true)
}

/// Tries moves, one after the other: each is joined, if it may be, and its number is added to `joins`. True where some
/// were joined. It is refused for want of memory alone.
fn join_pass(
    alloc: Global,
    edges: &mut Edges,
    left: &mut [bool],
    fixed: &[bool],
    class: &mut Classes,
    waiting: &mut Waiting,
    moves: &[Move],
    tried: &[u32],
    joins: &mut Vec<u32>,
    k: usize,
) -> Result<bool, NoMemory>
    requires waiting { length waiting.old.listed.items ≡ length moves.now }
    requires below { (j : ℕ) → Contains tried.now j → j < length moves.now }
    requires state { IsState edges.old left.old fixed.now class.old }
    ensures waiting { length waiting.new.listed.items ≡ length moves.now }
    ensures state { IfOk result (λ _. IsState edges.new left.new fixed.now class.new) }
    ensures fewer { IfOk result (λ any. any ≡ true → left_count left.new < left_count left.old) }
    ensures no_more { IfOk result (λ any. left_count left.new ≤ left_count left.old) }
    ensures joined { IfOk result (λ any. (g : Graph) → (first : ℕ → ℕ) → IsInterference g
        → IsKept g edges.old left.old fixed.now class.old
        → IsJoinedSoFar k g (moves_of moves.now) first joins.old.items (class_in class.old)
        → IsKept g edges.new left.new fixed.now class.new
        × IsJoinedSoFar k g (moves_of moves.now) first joins.new.items (class_in class.new)
        × (any ≡ false → (j : ℕ) → Contains tried.now j
        → MayJoinMove k g (class_in class.new) ((moves_of moves.now).at j) → ⊥)) }
{
    let mut any = false;
    for j in tried {
        let at = *j as usize;
        waiting.note_tried(at);
        let joined = join_move(alloc, edges, left, fixed, class, waiting, moves[at], k)?;
        if joined {
            joins.push(*j)?;
            any = true;
        }
    }
    Ok(any)
}

/// Tries the moves that wait, until none of them may be joined and none waits. It is refused for want of memory alone.
fn join_waiting(
    alloc: Global,
    edges: &mut Edges,
    left: &mut [bool],
    fixed: &[bool],
    class: &mut Classes,
    waiting: &mut Waiting,
    moves: &[Move],
    joins: &mut Vec<u32>,
    k: usize,
) -> Result<(), NoMemory>
    requires waiting { length waiting.old.listed.items ≡ length moves.now }
    requires state { IsState edges.old left.old fixed.now class.old }
    ensures waiting { length waiting.new.listed.items ≡ length moves.now }
    ensures state { OnOk result (IsState edges.new left.new fixed.now class.new) }
    ensures no_more { OnOk result (left_count left.new ≤ left_count left.old) }
    ensures joined { OnOk result ((g : Graph) → (first : ℕ → ℕ) → IsInterference g
        → IsKept g edges.old left.old fixed.now class.old
        → IsJoinedSoFar k g (moves_of moves.now) first joins.old.items (class_in class.old)
        → IsKept g edges.new left.new fixed.now class.new
        × IsJoinedSoFar k g (moves_of moves.now) first joins.new.items (class_in class.new)) }
{
    let mut going = true;
    while going {
        let tried = waiting.take(alloc);
        going = join_pass(
            alloc, edges, left, fixed, class, waiting, moves, &tried, joins, k,
        )?;
    }
    Ok(())
}

/// The numbers below a bound. It is refused for want of memory alone.
pub(crate) fn numbers(alloc: Global, n: usize) -> Result<Vec<u32>, NoMemory>
    requires { n ≤ 2 ^ 32 }
    ensures { IfOk result (λ list. (j : ℕ) → Contains list.items j ↔ (j < n)) }
{
    let mut list = Vec::new(alloc);
    for j in 0..n {
        list.push(j as u32)?;
    }
    Ok(list)
}

/// Joins moves until none may be joined, and gives their numbers in this order. A move that was refused is tried again
/// where a join may have let it pass; a last pass over all moves makes sure that none is left, and where it joins one,
/// what waits then is tried again. It is refused for want of memory alone.
pub(crate) fn join_moves(
    alloc: Global,
    edges: &mut Edges,
    left: &mut [bool],
    fixed: &[bool],
    class: &mut Classes,
    moves: &[Move],
    k: usize,
) -> Result<Vec<u32>, NoMemory>
    requires few { length moves.now ≤ 2 ^ 32 }
    requires state { IsState edges.old left.old fixed.now class.old }
    ensures state { IfOk result (λ _. IsState edges.new left.new fixed.now class.new) }
    ensures joined { IfOk result (λ joins. (g : Graph) → IsInterference g
        → IsKept g edges.old left.old fixed.now class.old → IsKept g edges.new left.new fixed.now class.new
        × JoinsFrom k g (moves_of moves.now) (class_in class.old) joins.items
        × (class_in class.new ≡ after_joins g (moves_of moves.now) (class_in class.old) joins.items)) }
{
    let mut joins = Vec::new(alloc);
    let mut waiting = Waiting::new(alloc, left.len(), moves)?;
    let all = numbers(alloc, moves.len())?;
    let mut going = true;
    while going {
        join_waiting(
            alloc,
            edges,
            left,
            fixed,
            class,
            &mut waiting,
            moves,
            &mut joins,
            k,
        )?;
        going = join_pass(
            alloc,
            edges,
            left,
            fixed,
            class,
            &mut waiting,
            moves,
            &all,
            &mut joins,
            k,
        )?;
    }
    Ok(joins)
}
