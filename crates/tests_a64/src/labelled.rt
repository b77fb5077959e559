//! Labelled code that is seen to be fit for layout.

ghost use Rattle.std.specs.Prelude.{◌≡◌, ◌<◌, length, slice_get, slice_index, IsTrue};
ghost use Rattle.a64_inst.specs.declared.item.Item.TheVariants.{Label, Mark};
ghost use Rattle.a64_layout.specs.Text.{IsWellLabelled, is_any_label, is_any_mark, label_count, mark_count};
ghost use Rattle.tests_a64.specs.Checked.{AreGood, IsGood, LabelsThere, MarksThere};

use a64_inst::{Inst, Item, Labelled};
use a64_layout::{Text, resolve};
use b3_base::{Ids, NoMemory};
use std::alloc::Global;
use std::test::Fail;

/// The text of labelled code. It is refused where the code isn't fit for layout.
pub(crate) fn text_of(alloc: Global, code: Labelled) -> Result<Text, Fail> {
    let labels = positions(alloc, &code, count_labels(&code), false)?;
    let marks = positions(alloc, &code, count_marks(&code), true)?;
    if !is_well_labelled(&code, &labels, &marks) {
        return Err(Fail::from("the code has no layout"));
    }
    Ok(resolve(alloc, code)?)
}

/// The position of each label, or of each mark, of so many.
fn positions(
    alloc: Global,
    code: &Labelled,
    count: usize,
    of_marks: bool,
) -> Result<Ids, NoMemory> {
    let mut found = Ids::new(alloc);
    for _ in 0..count {
        found.push(0)?;
    }
    for at in 0..code.len() {
        let number = match *code.get(at) {
            Item::Label(number) if !of_marks => number as usize,
            Item::Mark(number) if of_marks => number as usize,
            _ => count,
        };
        if number < found.len() && at < 0x40_0000 {
            found.set(number, at as u32);
        }
    }
    Ok(found)
}

/// Whether the labels and marks of the items stand at these positions, and all else is as layout asks.
fn is_well_labelled(code: &Labelled, labels: &Ids, marks: &Ids) -> bool
    ensures { IsTrue result → IsWellLabelled code.now }
{
    if code.len() >= 0x40_0000 {
        return false;
    }
    if labels.len() != count_labels(code) {
        return false;
    }
    if marks.len() != count_marks(code) {
        return false;
    }
    if !are_good(code, labels, marks) {
        return false;
    }
    if !labels_are_there(code, labels) {
        return false;
    }
    marks_are_there(code, marks)
}

/// Whether an item is well formed, its label is in the list, and a label or a mark has its position in
/// its list.
fn is_good(item: Item, at: usize, labels: &Ids, marks: &Ids) -> bool
    ensures { IsTrue result → IsGood labels.now marks.now at item }
{
    match item {
        Item::Plain(Inst::Nop) => true,
        Item::Jump(label) | Item::If(_, label) => (label as usize) < labels.len(),
        Item::IfZero { reg, label, .. } => reg <= 31 && (label as usize) < labels.len(),
        Item::IfBit {
            reg,
            bit,
            label,
            ..
        } => reg <= 31 && bit < 64 && (label as usize) < labels.len(),
        Item::Label(label) => has_position(labels, label, at),
        Item::Mark(mark) => has_position(marks, mark, at),
        Item::Plain(_) => false,
    }
}

fn has_position(positions: &Ids, number: u32, at: usize) -> bool
    ensures listed { IsTrue result → number < length positions.now }
    ensures there { IsTrue result → slice_index positions.now number ≡ at }
{
    (number as usize) < positions.len() && *positions.get(number as usize) as usize == at
}

fn are_good(code: &Labelled, labels: &Ids, marks: &Ids) -> bool
    ensures { IsTrue result → AreGood code.now labels.now marks.now }
{
    for at in 0..code.len() {
        if !is_good(*code.get(at), at, labels, marks) {
            return false;
        }
    }
    true
}

fn is_label_at(code: &Labelled, at: usize, label: usize) -> bool
    ensures { IsTrue result → slice_get code.now at ≡ Some (Label label) }
{
    if at >= code.len() {
        return false;
    }
    match *code.get(at) {
        Item::Label(number) => number as usize == label,
        _ => false,
    }
}

fn is_mark_at(code: &Labelled, at: usize, mark: usize) -> bool
    ensures { IsTrue result → slice_get code.now at ≡ Some (Mark mark) }
{
    if at >= code.len() {
        return false;
    }
    match *code.get(at) {
        Item::Mark(number) => number as usize == mark,
        _ => false,
    }
}

fn labels_are_there(code: &Labelled, labels: &Ids) -> bool
    ensures { IsTrue result → LabelsThere code.now labels.now }
{
    for label in 0..labels.len() {
        if !is_label_at(code, *labels.get(label) as usize, label) {
            return false;
        }
    }
    true
}

fn marks_are_there(code: &Labelled, marks: &Ids) -> bool
    ensures { IsTrue result → MarksThere code.now marks.now }
{
    for mark in 0..marks.len() {
        if !is_mark_at(code, *marks.get(mark) as usize, mark) {
            return false;
        }
    }
    true
}

fn is_label(item: &Item) -> bool
    ensures { result ≡ is_any_label item.now }
{
    matches!(item, Item::Label(_))
}

fn is_mark(item: &Item) -> bool
    ensures { result ≡ is_any_mark item.now }
{
    matches!(item, Item::Mark(_))
}

/// How many labels stand among the items.
fn count_labels(code: &Labelled) -> usize
    ensures { result ≡ label_count code.now }
{
    let mut count = 0;
    for at in 0..code.len() {
        if is_label(code.get(at)) {
            count += 1;
        }
    }
    count
}

/// How many marks stand among the items.
fn count_marks(code: &Labelled) -> usize
    ensures { result ≡ mark_count code.now }
{
    let mut count = 0;
    for at in 0..code.len() {
        if is_mark(code.get(at)) {
            count += 1;
        }
    }
    count
}
