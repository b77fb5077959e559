//! Where labels and marks stand.

ghost use Rattle.std.specs.Prelude.{◌≡◌, ℕ, ◌<◌, ◌^◌, length, IfOk};
ghost use Rattle.a64_layout.specs.Passes.{LabelBelow, MarkBelow, TellsPositions, with_label, with_mark};
ghost use Rattle.a64_layout.specs.Text.{chosen, is_any_label, is_any_mark, IsWellLabelled, label_count, mark_count, TellsLabels, TellsMarks};

use crate::branch::size;
use crate::layout::Flags;
use a64_inst::{Item, Labelled};
use b3_base::{Ids, NoMemory, Seq};
use std::alloc::Global;

/// For each label its position among the items.
pub(crate) type Positions = Seq<usize>;

fn is_label(item: &Item) -> bool
    ensures { result ≡ is_any_label item.now }
{
    matches!(item, Item::Label(_))
}

fn is_mark(item: &Item) -> bool
    ensures { result ≡ is_any_mark item.now }
{
    matches!(item, Item::Mark(_))
}

/// How many labels stand among the items.
pub(crate) fn count_labels(code: &Labelled) -> usize
    ensures { result ≡ label_count code.now }
{
    let mut count = 0;
    for at in 0..code.len() {
        if is_label(code.get(at)) {
            count += 1;
        }
    }
    count
}

/// How many marks stand among the items.
pub(crate) fn count_marks(code: &Labelled) -> usize
    ensures { result ≡ mark_count code.now }
{
    let mut count = 0;
    for at in 0..code.len() {
        if is_mark(code.get(at)) {
            count += 1;
        }
    }
    count
}

/// So many zeros.
pub(crate) fn zeros(alloc: Global, count: usize) -> Result<Ids, NoMemory>
    ensures { IfOk result (λ ids. length ids ≡ count) }
{
    let mut ids = Ids::new(alloc);
    for _ in 0..count {
        ids.push(0)?;
    }
    Ok(ids)
}

fn zero_positions(alloc: Global, count: usize) -> Result<Positions, NoMemory>
    ensures { IfOk result (λ positions. length positions ≡ count) }
{
    let mut positions = Positions::new(alloc);
    for _ in 0..count {
        positions.push(0)?;
    }
    Ok(positions)
}

/// The position of each label. It is refused for want of memory alone.
pub(crate) fn label_positions(alloc: Global, code: &Labelled) -> Result<Positions, NoMemory>
    requires { IsWellLabelled code.now }
    ensures count { IfOk result (λ positions. length positions ≡ label_count code.now) }
    ensures told { IfOk result (λ positions. TellsPositions code.now positions) }
{
    let mut positions = zero_positions(alloc, count_labels(code))?;
    for at in 0..code.len() {
        if let Item::Label(label) = *code.get(at) {
            positions.set(label as usize, at);
        }
    }
    Ok(positions)
}

/// Puts the place of an item where it is a label.
pub(crate) fn put_label(item: Item, here: u32, places: &mut Ids)
    requires { LabelBelow (length places.old) item }
    ensures { places.new ≡ with_label item here places.old }
{
    if let Item::Label(label) = item {
        places.set(label as usize, here);
    }
}

/// Puts the place of an item where it is a mark.
fn put_mark(item: Item, here: u32, places: &mut Ids)
    requires { MarkBelow (length places.old) item }
    ensures { places.new ≡ with_mark item here places.old }
{
    if let Item::Mark(mark) = item {
        places.set(mark as usize, here);
    }
}

/// Puts the places of labels and marks, in words.
pub(crate) fn put_places(code: &Labelled, long: &Flags, labels: &mut Ids, marks: &mut Ids)
    requires good { IsWellLabelled code.now }
    requires flags { length long.now ≡ length code.now }
    requires labels { length labels.old ≡ label_count code.now }
    requires marks { length marks.old ≡ mark_count code.now }
    ensures label_count { length labels.new ≡ label_count code.now }
    ensures mark_count { length marks.new ≡ mark_count code.now }
    ensures labels { TellsLabels code.now (chosen long.now) labels.new }
    ensures marks { TellsMarks code.now (chosen long.now) marks.new }
{
    let mut here = 0;
    for at in 0..code.len() {
        let item = *code.get(at);
        put_label(item, here, labels);
        put_mark(item, here, marks);
        here += size(item, *long.get(at));
    }
}
