//! The least solution, found block by block.

ghost use Rattle.std.specs.Prelude.{◌≡◌, ℕ, ◌+◌, ◌*◌, ◌^◌, ◌<◌, ◌≤◌, ◌⊎◌, ◌↔◌, ◌&&◌, ◌||◌, not, length, true, false, slice_index_or};
ghost use Rattle.bit_rows.specs.BitRows.{row_of};
ghost use Rattle.flow_live.specs.Graph.{IsInRange, IsSuccessor};
ghost use Rattle.flow_live.specs.Solving.{has, HasRoom, IsSolving, Flows, IsKeptUp, Advances, Joins, Passes};

use crate::flow::Flow;
use bit_rows::Rows;

/// Adds to what goes out of a block what goes into its successors.
fn join_successors<F: Flow>(flow: &F, rows: &mut Rows, blocks: usize, block: usize)
    requires range { IsInRange (F.shape flow.now) }
    requires room { HasRoom (F.shape flow.now) rows.old }
    requires blocks { blocks ≡ (F.shape flow.now).blocks }
    requires block { block < blocks }
    ensures room { HasRoom (F.shape flow.now) rows.new }
    ensures joins { Joins (F.shape flow.now) blocks block rows.old rows.new }
{
    let out = blocks + block;
    for k in 0..flow.successors(block) {
        let next = flow.successor(block, k);
        rows.union_into(out, next);
    }
}

/// Adds to what goes into a block what goes out of it and isn't defined in it. True exactly where
/// that adds a name.
fn pass_through(rows: &mut Rows, blocks: usize, block: usize) -> bool
    requires all { length rows.old.sets ≡ 3 * blocks + 1 }
    requires few { blocks ≤ 2 ^ 32 }
    requires block { block < blocks }
    ensures bits { rows.new.bits ≡ rows.old.bits }
    ensures rows { length rows.new.sets ≡ length rows.old.sets }
    ensures passes { Passes blocks block rows.old rows.new result }
{
    let work = 3 * blocks;
    rows.take_away(work, work);
    rows.union_into(work, blocks + block);
    rows.take_away(work, 2 * blocks + block);
    rows.union_into(block, work)
}

/// Visits a block: what goes into its successors goes out of it, and what goes out of it and
/// isn't defined in it goes in. True exactly where a name came to be known that goes in.
fn visit<F: Flow>(flow: &F, rows: &mut Rows, blocks: usize, block: usize) -> bool
    requires range { IsInRange (F.shape flow.now) }
    requires solving { IsSolving (F.shape flow.now) rows.old }
    requires blocks { blocks ≡ (F.shape flow.now).blocks }
    requires block { block < blocks }
    ensures solving { IsSolving (F.shape flow.now) rows.new }
    ensures ins { (b : ℕ) → b < blocks → (b ≡ block → ⊥) → row_of rows.new b ≡ row_of rows.old b }
    ensures outs { (b : ℕ) → b < blocks → (b ≡ block → ⊥) → row_of rows.new (blocks + b) ≡ row_of rows.old (blocks + b) }
    ensures joined { (next name : ℕ) → IsSuccessor (F.shape flow.now) block next → has rows.old next name ≡ true → has rows.new (blocks + block) name ≡ true }
    ensures still { result ≡ false → row_of rows.new block ≡ row_of rows.old block }
    ensures advances { Advances (F.shape flow.now) rows.old rows.new result }
{
    join_successors(flow, rows, blocks, block);
    pass_through(rows, blocks, block)
}

/// Whether the set of some successor of a block grew.
fn successor_grew<F: Flow>(flow: &F, grew: &[bool], block: usize) -> bool
    requires range { IsInRange (F.shape flow.now) }
    requires grew { length grew.now ≡ (F.shape flow.now).blocks }
    requires block { block < (F.shape flow.now).blocks }
    ensures { (result ≡ true) ↔ ((next : ℕ) × IsSuccessor (F.shape flow.now) block next × (slice_index_or grew.now next false ≡ true)) }
{
    for k in 0..flow.successors(block) {
        if grew[flow.successor(block, k)] {
            return true;
        }
    }
    false
}

/// Visits a block where `all` says so or the set of a successor grew. True exactly where a name
/// came to be known that goes in.
fn look_at<F: Flow>(
    flow: &F,
    rows: &mut Rows,
    blocks: usize,
    grew: &[bool],
    block: usize,
    all: bool,
) -> bool
    requires range { IsInRange (F.shape flow.now) }
    requires solving { IsSolving (F.shape flow.now) rows.old }
    requires blocks { blocks ≡ (F.shape flow.now).blocks }
    requires grew { length grew.now ≡ (F.shape flow.now).blocks }
    requires block { block < blocks }
    ensures solving { IsSolving (F.shape flow.now) rows.new }
    ensures ins { (b : ℕ) → b < blocks → (b ≡ block → ⊥) → row_of rows.new b ≡ row_of rows.old b }
    ensures outs { (b : ℕ) → b < blocks → (b ≡ block → ⊥) → row_of rows.new (blocks + b) ≡ row_of rows.old (blocks + b) }
    ensures joined { (next : ℕ) → IsSuccessor (F.shape flow.now) block next → (all ≡ true) ⊎ (Flows (F.shape flow.now) rows.old block next ⊎ (slice_index_or grew.now next false ≡ true)) → (name : ℕ) → has rows.old next name ≡ true → has rows.new (blocks + block) name ≡ true }
    ensures still { result ≡ false → row_of rows.new block ≡ row_of rows.old block }
    ensures advances { Advances (F.shape flow.now) rows.old rows.new result }
{
    if !all {
        if !successor_grew(flow, grew, block) {
            return false;
        }
    }
    visit(flow, rows, blocks, block)
}

/// Looks at all blocks once, from the last to the first. True exactly where some set grew.
fn pass<F: Flow>(flow: &F, rows: &mut Rows, blocks: usize, grew: &mut [bool], all: bool) -> bool
    requires range { IsInRange (F.shape flow.now) }
    requires solving { IsSolving (F.shape flow.now) rows.old }
    requires blocks { blocks ≡ (F.shape flow.now).blocks }
    requires grew { length grew.old ≡ (F.shape flow.now).blocks }
    requires kept_up { all ≡ false → IsKeptUp (F.shape flow.now) rows.old grew.old (λ _. Unit {0}) blocks }
    ensures solving { IsSolving (F.shape flow.now) rows.new }
    ensures kept_up { IsKeptUp (F.shape flow.now) rows.new grew.new (λ _. Unit {0}) blocks }
    ensures settled { result ≡ false → (block next : ℕ) → block < blocks → IsSuccessor (F.shape flow.now) block next → Flows (F.shape flow.now) rows.new block next }
    ensures advances { Advances (F.shape flow.now) rows.old rows.new result }
{
    let mut any = false;
    for i in 0..blocks {
        let block = blocks - 1 - i;
        let grows = look_at(flow, rows, blocks, grew, block, all);
        grew[block] = grows;
        any |= grows;
    }
    any
}

/// Passes over the blocks until no set grows.
pub(crate) fn solve<F: Flow>(flow: &F, rows: &mut Rows, blocks: usize, grew: &mut [bool])
    requires range { IsInRange (F.shape flow.now) }
    requires solving { IsSolving (F.shape flow.now) rows.old }
    requires blocks { blocks ≡ (F.shape flow.now).blocks }
    requires grew { length grew.old ≡ (F.shape flow.now).blocks }
    ensures solving { IsSolving (F.shape flow.now) rows.new }
    ensures settled { (block next : ℕ) → block < blocks → IsSuccessor (F.shape flow.now) block next → Flows (F.shape flow.now) rows.new block next }
{
    let mut all = true;
    'passes: while pass(flow, rows, blocks, grew, all) {
        all = false;
    }
}
