//! What each block uses and defines by itself, gathered once.

ghost use Rattle.std.specs.Prelude.{◌≡◌, ℕ, ◌+◌, ◌*◌, ◌^◌, ◌<◌, ◌≤◌, ◌⊎◌, ◌↔◌, length, true, false};
ghost use Rattle.bit_rows.specs.BitRows.{row_of};
ghost use Rattle.flow_live.specs.Graph.{IsInRange, Uses, Defines, Place, IsUseOf, IsDefOf, name_of};
ghost use Rattle.flow_live.specs.Solving.{has, HasRoom, IsGatheredBelow, IsBlank, IsSolving};

use crate::flow::Flow;
use crate::touch::Touch;
use bit_rows::Rows;

/// Adds the name of a use to those of its block, but a name that the block has defined already.
fn add_use(rows: &mut Rows, block: usize, defined: usize, touch: Touch)
    requires block { block < length rows.old.sets }
    requires defined { defined < length rows.old.sets }
    requires name { name_of touch < rows.old.bits }
    ensures bits { rows.new.bits ≡ rows.old.bits }
    ensures rows { length rows.new.sets ≡ length rows.old.sets }
    ensures others { (row : ℕ) → (row ≡ block → ⊥) → row_of rows.new row ≡ row_of rows.old row }
    ensures used { (name : ℕ) → (has rows.new block name ≡ true) ↔ ((has rows.old block name ≡ true) ⊎ (IsUseOf touch name × (has rows.old defined name ≡ false))) }
{
    match touch {
        Touch::Use(name) => {
            if !rows.has(defined, name) {
                rows.set(block, name);
            }
        }
        Touch::LateUse(name) => {
            if !rows.has(defined, name) {
                rows.set(block, name);
            }
        }
        Touch::Def(_) => {}
    }
}

/// Adds the name of a definition to those of its block.
fn add_def(rows: &mut Rows, defined: usize, touch: Touch)
    requires defined { defined < length rows.old.sets }
    requires name { name_of touch < rows.old.bits }
    ensures bits { rows.new.bits ≡ rows.old.bits }
    ensures rows { length rows.new.sets ≡ length rows.old.sets }
    ensures others { (row : ℕ) → (row ≡ defined → ⊥) → row_of rows.new row ≡ row_of rows.old row }
    ensures defined { (name : ℕ) → (has rows.new defined name ≡ true) ↔ ((has rows.old defined name ≡ true) ⊎ IsDefOf touch name) }
{
    if let Touch::Def(name) = touch {
        rows.set(defined, name);
    }
}

/// Adds the names that a place uses to those of its block, but those that the block defines at an
/// earlier place.
fn gather_uses<F: Flow>(flow: &F, rows: &mut Rows, blocks: usize, block: usize, place: usize)
    requires range { IsInRange (F.shape flow.now) }
    requires room { HasRoom (F.shape flow.now) rows.old }
    requires blocks { blocks ≡ (F.shape flow.now).blocks }
    requires block { block < blocks }
    requires place { place < (F.shape flow.now).places block }
    ensures room { HasRoom (F.shape flow.now) rows.new }
    ensures others { (row : ℕ) → (row ≡ block → ⊥) → row_of rows.new row ≡ row_of rows.old row }
    ensures used { (name : ℕ) → (has rows.new block name ≡ true) ↔ ((has rows.old block name ≡ true) ⊎ (Uses (F.shape flow.now) name (record { block = block; place = place }) × (has rows.old (2 * blocks + block) name ≡ false))) }
{
    let defined = 2 * blocks + block;
    for k in 0..flow.touches(block, place) {
        add_use(rows, block, defined, flow.touch(block, place, k));
    }
}

/// Adds the names that a place defines to those of its block.
fn gather_defs<F: Flow>(flow: &F, rows: &mut Rows, blocks: usize, block: usize, place: usize)
    requires range { IsInRange (F.shape flow.now) }
    requires room { HasRoom (F.shape flow.now) rows.old }
    requires blocks { blocks ≡ (F.shape flow.now).blocks }
    requires block { block < blocks }
    requires place { place < (F.shape flow.now).places block }
    ensures room { HasRoom (F.shape flow.now) rows.new }
    ensures others { (row : ℕ) → (row ≡ 2 * blocks + block → ⊥) → row_of rows.new row ≡ row_of rows.old row }
    ensures defined { (name : ℕ) → (has rows.new (2 * blocks + block) name ≡ true) ↔ ((has rows.old (2 * blocks + block) name ≡ true) ⊎ Defines (F.shape flow.now) name (record { block = block; place = place })) }
{
    let defined = 2 * blocks + block;
    for k in 0..flow.touches(block, place) {
        add_def(rows, defined, flow.touch(block, place, k));
    }
}

/// Gathers what a block uses before it defines it, and what it defines.
fn gather_block<F: Flow>(flow: &F, rows: &mut Rows, blocks: usize, block: usize)
    requires range { IsInRange (F.shape flow.now) }
    requires room { HasRoom (F.shape flow.now) rows.old }
    requires blocks { blocks ≡ (F.shape flow.now).blocks }
    requires block { block < blocks }
    requires blank { IsBlank (F.shape flow.now) block rows.old }
    ensures room { HasRoom (F.shape flow.now) rows.new }
    ensures others { (row : ℕ) → (row ≡ block → ⊥) → (row ≡ 2 * blocks + block → ⊥) → row_of rows.new row ≡ row_of rows.old row }
    ensures gathered { IsGatheredBelow (F.shape flow.now) block ((F.shape flow.now).places block) rows.new }
{
    for place in 0..flow.places(block) {
        gather_uses(flow, rows, blocks, block, place);
        gather_defs(flow, rows, blocks, block, place);
    }
}

/// Gathers what each block uses before it defines it, and what it defines.
pub(crate) fn gather<F: Flow>(flow: &F, rows: &mut Rows, blocks: usize)
    requires range { IsInRange (F.shape flow.now) }
    requires room { HasRoom (F.shape flow.now) rows.old }
    requires blocks { blocks ≡ (F.shape flow.now).blocks }
    requires blank { (row name : ℕ) → has rows.old row name ≡ false }
    ensures { IsSolving (F.shape flow.now) rows.new }
{
    for block in 0..blocks {
        gather_block(flow, rows, blocks, block);
    }
}
