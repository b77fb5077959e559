//! The moves that are left while they are put in order.

ghost use Rattle.std.specs.Prelude.{◌≡◌, ◌≢◌, ◌<◌, ◌^◌, ℕ, List, None, IfOk, IfSome, OnOk, length, map, not, slice_index_or, slice_set, true, false};
ghost use Rattle.air_ir.specs.declared.operand.Home.TheVariants as home;
ghost use Rattle.air_shuffle.specs.Following.{IsAt};
ghost use Rattle.air_shuffle.specs.Moves.{Move, from_scratch, is_self, saved};
ghost use Rattle.air_shuffle.specs.Waiting.{AreCounts, AreWriters, IsCounted, IsSequenceable, is_free_at, left_of, lowered, move_at, raised, writer_of};

use crate::moves::{Move, Moves, is_self};
use crate::writers::{Writers, writer_of, writers_of};
use air_ir::{Arg, Home};
use b3_base::NoMemory;
use b3_ir::Reg;
use std::alloc::Global;

/// Moves by their places, and which of them are left.
#[derive(Drop)]
pub(crate) struct Pending {
    scratch: Reg,
    /// All moves, each with the source that it has by now.
    moves: Vec<Move>,
    /// Which moves are left.
    left: Vec<bool>,
    /// How many of those that are left read the destination of each move.
    counts: Vec<usize>,
    /// Which move writes a home.
    writers: Writers,
}

/// Which moves aren't from a home to itself.
fn first_left(alloc: Global, moves: &[Move]) -> Result<Vec<bool>, NoMemory>
    ensures { IfOk result (λ left. left.items ≡ map (λ one. not (is_self one)) moves.now) }
{
    let mut left = Vec::new(alloc);
    for one in moves {
        left.push(!is_self(*one))?;
    }
    Ok(left)
}

/// A source is read by one move more.
fn add_reader(counts: &mut Vec<usize>, writers: &Writers, from: Arg)
    requires counted { IfSome (writer_of writers.now from) (λ j. j < length counts.old.items) }
    requires few { IfSome (writer_of writers.now from) (λ j. slice_index_or counts.old.items j 0 < 2 ^ 63) }
    ensures { counts.new.items ≡ raised (writer_of writers.now from) counts.old.items }
{
    if let Some(writer) = writer_of(writers, from) {
        counts[writer] += 1;
    }
}

/// How many of the moves that are left read the destination of each move.
fn first_counts(
    alloc: Global,
    moves: &[Move],
    left: &[bool],
    writers: &Writers,
) -> Result<Vec<usize>, NoMemory>
    requires many { length left.now ≡ length moves.now }
    requires sound { IsSequenceable moves.now }
    requires writers { AreWriters moves.now writers.now }
    ensures { IfOk result (λ counts. AreCounts moves.now (left_of moves.now left.now) counts.items) }
{
    let mut counts: Vec<usize> = Vec::new(alloc);
    for _ in 0..moves.len() {
        counts.push(0)?;
    }
    for place in 0..moves.len() {
        if left[place] {
            add_reader(&mut counts, writers, moves[place].from);
        }
    }
    Ok(counts)
}

impl Pending {
    /// All moves but those from a home to itself. It is refused for want of memory alone.
    pub(crate) fn new(alloc: Global, moves: &[Move], scratch: Reg) -> Result<Pending, NoMemory>
        requires sound { IsSequenceable moves.now }
        requires apart { (k : ℕ) → k < length moves.now → (move_at moves.now k).to ≢ home.Reg scratch }
        ensures counted { IfOk result IsCounted }
        ensures scratch { IfOk result (λ p. p.scratch ≡ scratch) }
        ensures moves { IfOk result (λ p. p.moves.items ≡ moves.now) }
        ensures left { IfOk result (λ p. p.left.items ≡ map (λ one. not (is_self one)) moves.now) }
    {
        let writers = writers_of(alloc, moves)?;
        let left = first_left(alloc, moves)?;
        let counts = first_counts(alloc, moves, left.as_slice(), &writers)?;
        Ok(Pending {
            scratch,
            moves: Vec::from_slice(alloc, moves)?,
            left,
            counts,
            writers,
        })
    }

    /// Whether a move is left.
    pub(crate) fn is_left(&self, place: usize) -> bool
        requires { place < length self.now.left.items }
        ensures { result ≡ slice_index_or self.now.left.items place false }
    {
        self.left[place]
    }

    /// Whether a move is left, and its destination isn't read.
    fn is_free(&self, place: usize) -> bool
        requires left { place < length self.now.left.items }
        requires counts { place < length self.now.counts.items }
        ensures { result ≡ is_free_at self.now place }
    {
        self.left[place] && self.counts[place] == 0
    }

    /// A source is read by one move less. The place of the move to the home that it is.
    fn release(&mut self, from: Arg) -> Option<usize>
        requires counted { IfSome (writer_of self.old.writers from) (λ j. j < length self.old.counts.items) }
        requires some { IfSome (writer_of self.old.writers from) (λ j. 0 < slice_index_or self.old.counts.items j 0) }
        ensures scratch { self.new.scratch ≡ self.old.scratch }
        ensures moves { self.new.moves ≡ self.old.moves }
        ensures left { self.new.left ≡ self.old.left }
        ensures writers { self.new.writers ≡ self.old.writers }
        ensures counts { self.new.counts.items ≡ lowered (writer_of self.old.writers from) self.old.counts.items }
        ensures next { result ≡ writer_of self.old.writers from }
    {
        let writer = writer_of(&self.writers, from);
        if let Some(place) = writer {
            self.counts[place] -= 1;
        }
        writer
    }

    /// A move is no longer left. The place of the move to the home that it read.
    fn finish(&mut self, place: usize) -> Option<usize>
        requires counted { IsCounted self.old }
        requires within { place < length self.old.moves.items }
        requires left { slice_index_or self.old.left.items place false ≡ true }
        ensures scratch { self.new.scratch ≡ self.old.scratch }
        ensures moves { self.new.moves ≡ self.old.moves }
        ensures left { self.new.left.items ≡ slice_set self.old.left.items place false }
        ensures writers { self.new.writers ≡ self.old.writers }
        ensures counts { self.new.counts.items
            ≡ lowered (writer_of self.old.writers (move_at self.old.moves.items place).from) self.old.counts.items }
        ensures next { result ≡ writer_of self.old.writers (move_at self.old.moves.items place).from }
    {
        let from = self.moves[place].from;
        self.left[place] = false;
        self.release(from)
    }

    /// Saves the source of a move that is left, and gives the move that does it, and the place of the move to the home
    /// that it read.
    pub(crate) fn save(&mut self, place: usize) -> (Move, Option<usize>)
        requires counted { IsCounted self.old }
        requires within { place < length self.old.moves.items }
        requires left { slice_index_or self.old.left.items place false ≡ true }
        ensures scratch { self.new.scratch ≡ self.old.scratch }
        ensures moves { self.new.moves.items ≡ slice_set self.old.moves.items place
            (from_scratch self.old.scratch (move_at self.old.moves.items place)) }
        ensures left { self.new.left ≡ self.old.left }
        ensures writers { self.new.writers ≡ self.old.writers }
        ensures counts { self.new.counts.items
            ≡ lowered (writer_of self.old.writers (move_at self.old.moves.items place).from) self.old.counts.items }
        ensures saved { result.0 ≡ saved self.old.scratch (move_at self.old.moves.items place) }
        ensures next { result.1 ≡ writer_of self.old.writers (move_at self.old.moves.items place).from }
    {
        let one = self.moves[place];
        let scratch = Home::Reg(self.scratch);
        self.moves[place].from = Arg::At(scratch);
        let next = self.release(one.from);
        let saving = Move {
            from: one.from,
            to: scratch,
            width: one.width,
        };
        (saving, next)
    }

    /// Does the move at a place if it is free, and then, as long as that is free, the move to the home that was read
    /// last.
    pub(crate) fn follow(&mut self, first: Option<usize>, done: &mut Moves) -> Result<(), NoMemory>
        requires counted { IsCounted self.old }
        requires there { IfSome first (λ k. k < length self.old.moves.items) }
        ensures scratch { self.new.scratch ≡ self.old.scratch }
        ensures moves { self.new.moves ≡ self.old.moves }
        ensures counted { OnOk result (IsCounted self.new) }
        ensures left { OnOk result ((k : ℕ) → slice_index_or self.new.left.items k false ≡ true
            → slice_index_or self.old.left.items k false ≡ true) }
        ensures rests { OnOk result ((whole : List Move) (bound : ℕ) → IsAt whole bound first done.old self.old
            → IsAt whole bound None done.new self.new) }
    {
        let mut next = first;
        while let Some(place) = next {
            if !self.is_free(place) {
                return Ok(());
            }
            done.push(self.moves[place])?;
            next = self.finish(place);
        }
        Ok(())
    }
}
