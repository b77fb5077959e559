//! The moves that are to be tried.

ghost use Rattle.std.specs.Prelude.{◌≡◌, ◌^◌, ℕ, ◌<◌, ◌≤◌, length, [], Contains, IfOk};
ghost use Rattle.air_colour.specs.Kept.{HasRoom};

use crate::joining::{Shared, reaches};
use crate::moves::{Move, numbers};
use air_graph::Edges;
use b3_base::{NoMemory, Seq};
use std::alloc::Global;

/// Moves that are to be tried, each once, and for each class the moves of its members. A move that was refused is
/// listed again only where a join may have let one of the two tests pass, so it tells what to try and promises nothing
/// of the moves that it doesn't list.
#[derive(Drop)]
pub(crate) struct Waiting {
    list: Vec<u32>,
    listed: Vec<bool>,
    of_class: Vec<Seq<u32>>,
    ghost below: { (j : ℕ) → Contains list.items j → j < length listed.items },
}

/// So many empty lists.
fn no_moves(alloc: Global, n: usize) -> Result<Vec<Seq<u32>>, NoMemory> {
    let mut lists = Vec::new(alloc);
    for _ in 0..n {
        lists.push(Seq::new(alloc))?;
    }
    Ok(lists)
}

/// Adds the number of a move to the list of a home, if there is one.
fn add_at(lists: &mut [Seq<u32>], home: usize, j: u32) -> Result<(), NoMemory> {
    if home < lists.len() {
        lists[home].push(j)?;
    }
    Ok(())
}

/// For each home the moves from it or to it.
fn moves_at(alloc: Global, homes: usize, moves: &[Move]) -> Result<Vec<Seq<u32>>, NoMemory>
    requires few { length moves.now ≤ 2 ^ 32 }
{
    let mut lists = no_moves(alloc, homes)?;
    for j in 0..moves.len() {
        add_at(&mut lists, moves[j].from, j as u32)?;
        add_at(&mut lists, moves[j].to, j as u32)?;
    }
    Ok(lists)
}

/// Moves the numbers in one list to the end of another.
fn hand_over(
    alloc: Global,
    lists: &mut [Seq<u32>],
    to: usize,
    from: usize,
) -> Result<(), NoMemory> {
    if to < lists.len() && from < lists.len() {
        let going = lists[from].copy(alloc)?;
        lists[to].extend(going.as_slice())?;
        lists[from] = Seq::new(alloc);
    }
    Ok(())
}

/// Lists those of some moves that aren't listed. It is refused for want of memory alone.
fn list_all(list: &mut Vec<u32>, listed: &mut [bool], moves: &[u32]) -> Result<(), NoMemory>
    requires below { (j : ℕ) → Contains list.old.items j → j < length listed.old }
    ensures long { length listed.new ≡ length listed.old }
    ensures below { (j : ℕ) → Contains list.new.items j → j < length listed.old }
{
    for j in moves {
        let at = *j as usize;
        if at < listed.len() && !listed[at] {
            listed[at] = true;
            list.push(*j)?;
        }
    }
    Ok(())
}

/// Whether some of the classes hold a register.
fn some_fixed(fixed: &[bool], classes: &[u32]) -> bool {
    for x in classes {
        if fixed.get(*x as usize) == Some(&true) {
            return true;
        }
    }
    false
}

impl Waiting {
    /// All moves between so many homes, each of which is a class by itself.
    pub(crate) fn new(alloc: Global, homes: usize, moves: &[Move]) -> Result<Waiting, NoMemory>
        requires few { length moves.now ≤ 2 ^ 32 }
        ensures long { IfOk result (λ w. length w.listed.items ≡ length moves.now) }
    {
        let list = numbers(alloc, moves.len())?;
        let listed = vec![in alloc; true; moves.len()]?;
        let of_class = moves_at(alloc, homes, moves)?;
        Ok(Waiting {
            list,
            listed,
            of_class,
        })
    }

    /// Takes the moves that are listed.
    pub(crate) fn take(&mut self, alloc: Global) -> Vec<u32>
        ensures long { length self.new.listed.items ≡ length self.old.listed.items }
        ensures below { (j : ℕ) → Contains result.items j → j < length self.old.listed.items }
    {
        std::mem::replace(&mut self.list, Vec::new(alloc))
    }

    /// Notes that a move is tried: it may be listed again.
    pub(crate) fn note_tried(&mut self, j: usize)
        requires { j < length self.old.listed.items }
        ensures { length self.new.listed.items ≡ length self.old.listed.items }
    {
        self.listed[j] = false;
    }

    /// Lists the moves of a class.
    fn wake(&mut self, class: usize) -> Result<(), NoMemory>
        ensures { length self.new.listed.items ≡ length self.old.listed.items }
    {
        if class < self.of_class.len() {
            list_all(
                &mut self.list,
                &mut self.listed,
                self.of_class[class].as_slice(),
            )?;
        }
        Ok(())
    }

    /// Lists the moves of those of some classes that hold no register.
    fn wake_all(&mut self, fixed: &[bool], classes: &[u32]) -> Result<(), NoMemory>
        ensures { length self.new.listed.items ≡ length self.old.listed.items }
    {
        for x in classes {
            if fixed.get(*x as usize) == Some(&false) {
                self.wake(*x as usize)?;
            }
        }
        Ok(())
    }

    /// Lists the moves of the neighbours of each of some classes that has just come to have fewer than `k`: all of them
    /// have lost one.
    fn wake_beside(
        &mut self,
        edges: &Edges,
        left: &[bool],
        fixed: &[bool],
        classes: &[u32],
        k: usize,
    ) -> Result<(), NoMemory>
        requires room { HasRoom edges.now (length left.now) (length left.now) }
        requires below { (x : ℕ) → Contains classes.now x → x < length left.now }
        ensures { length self.new.listed.items ≡ length self.old.listed.items }
    {
        for y in classes {
            let x = *y as usize;
            if !reaches(edges, left, x, k) && reaches(edges, left, x, k.saturating_sub(1)) {
                self.wake_all(fixed, edges.near(x))?;
            }
        }
        Ok(())
    }

    /// Lists the moves that one of the tests may let pass after class `b` has gone into class `a`: those of the
    /// neighbours of `b`, in whose neighbourhood the two are one now, and of those beside a class that had both as
    /// neighbours. The moves of `b` itself are tried by the other test where `a` holds a register. Where `b` brings a
    /// register beside `a`, `a` stands no longer against moves of its neighbours to that register.
    pub(crate) fn note_join(
        &mut self,
        alloc: Global,
        edges: &Edges,
        left: &[bool],
        fixed: &[bool],
        a: usize,
        b: usize,
        near: &Shared,
        k: usize,
    ) -> Result<(), NoMemory>
        requires room { HasRoom edges.now (length left.now) (length fixed.now) }
        requires a { a < length left.now }
        requires below { (x : ℕ) → Contains near.now.both.items x → x < length left.now }
        ensures { length self.new.listed.items ≡ length self.old.listed.items }
    {
        self.wake_all(fixed, &near.both)?;
        self.wake_all(fixed, &near.fresh)?;
        self.wake_beside(edges, left, fixed, &near.both, k)?;
        if fixed[a] {
            return self.wake(b);
        }
        if some_fixed(fixed, &near.fresh) {
            self.wake_all(fixed, edges.near(a))?;
        }
        hand_over(alloc, &mut self.of_class, a, b)
    }
}
