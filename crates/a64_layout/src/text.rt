//! The text of labelled code: its words, and the places of its labels and marks.

ghost use Rattle.std.specs.Prelude.{◌≡◌, ℕ, ◌+◌, ◌-◌, ◌^◌, ◌<◌, ◌≤◌, ◌++◌, ◌≤ℤ◌, pos, negsuc, false, length, slice_index, OnOk, IfOk};
ghost use Rattle.a64_layout.specs.Branch.{IsTest, reach, size_of};
ghost use Rattle.a64_layout.specs.Layout.{Fits, IsLeast, most_words};
ghost use Rattle.a64_layout.specs.Machine.{IsShortestText};
ghost use Rattle.a64_layout.specs.Passes.{CanStand, GoesBelow};
ghost use Rattle.a64_layout.specs.Text.{chosen, if_words, IsWellLabelled, jump_word, label_count, mark_count, test_word, TellsLabels, words_before, words_of};

use crate::branch::Test;
use crate::layout::{Flags, choose};
use crate::places::{count_labels, count_marks, label_positions, put_places, zeros};
use a64_inst::{Inst, Item, Labelled};
use a64_word::encode;
use b3_base::{CodeWords, Ids, NoMemory};
use std::alloc::Global;

/// The words of labelled code, and at which of them its labels and marks stand.
#[derive(Drop)]
pub struct Text {
    /// The words, in order.
    pub words: CodeWords,
    /// The place of each label, in words from the first one on.
    pub labels: Ids,
    /// The place of each mark, in words from the first one on.
    pub marks: Ids,
}

/// The text of labelled code, with each conditional item as short as it can be: one branch where its
/// distance in the text fits the branch's field, and otherwise the opposite branch over a B. It is
/// refused for want of memory alone.
pub fn resolve(alloc: Global, code: Labelled) -> Result<Text, NoMemory>
    requires { IsWellLabelled code }
    ensures text { IfOk result (IsShortestText code) }
    ensures words { IfOk result (λ text. length text.words ≤ most_words code) }
    ensures labels { IfOk result (λ text. length text.labels ≡ label_count code) }
    ensures marks { IfOk result (λ text. length text.marks ≡ mark_count code) }
{
    let mut labels = zeros(alloc, count_labels(&code))?;
    let mut marks = zeros(alloc, count_marks(&code))?;
    let positions = label_positions(alloc, &code)?;
    let long = choose(alloc, &code, &positions, &mut labels)?;
    put_places(&code, &long, &mut labels, &mut marks);
    let words = text_words(alloc, &code, &long, &labels)?;
    Ok(Text {
        words,
        labels,
        marks,
    })
}

/// The words of all items, where some are long and the labels have these places.
fn text_words(
    alloc: Global,
    code: &Labelled,
    long: &Flags,
    labels: &Ids,
) -> Result<CodeWords, NoMemory>
    requires good { IsWellLabelled code.now }
    requires flags { length long.now ≡ length code.now }
    requires least { IsLeast code.now (chosen long.now) }
    requires count { length labels.now ≡ label_count code.now }
    requires places { TellsLabels code.now (chosen long.now) labels.now }
    ensures { IfOk result (λ words. words ≡ words_before code.now (chosen long.now) (length code.now)) }
{
    let mut words = CodeWords::new(alloc);
    for at in 0..code.len() {
        push_item(&mut words, *code.get(at), *long.get(at), labels)?;
    }
    Ok(words)
}

/// The words of an item, at the end of these.
fn push_item(words: &mut CodeWords, item: Item, long: bool, labels: &Ids) -> Result<(), NoMemory>
    requires room { length words.old + size_of long item < 2 ^ 24 }
    requires named { GoesBelow (length labels.now) item }
    requires stands { CanStand long (length words.old) (slice_index labels.now) item }
    ensures { OnOk result (words.new ≡ words.old ++ words_of long (length words.old) (slice_index labels.now) item) }
{
    let here = words.len() as u32;
    match item {
        Item::Plain(inst) => words.push(encode(&inst)),
        Item::Jump(label) => words.push(jump_word(here, *labels.get(label as usize))),
        Item::If(cond, label) => {
            push_if(
                words,
                Test::Holds(cond),
                long,
                here,
                *labels.get(label as usize),
            )
        }
        Item::IfZero {
            width,
            nonzero,
            reg,
            label,
        } => {
            let test = Test::Zero {
                width,
                nonzero,
                reg,
            };
            push_if(words, test, long, here, *labels.get(label as usize))
        }
        Item::IfBit {
            nonzero,
            reg,
            bit,
            label,
        } => {
            let test = Test::Bit { nonzero, reg, bit };
            push_if(words, test, long, here, *labels.get(label as usize))
        }
        Item::Label(_) | Item::Mark(_) => Ok(()),
    }
}

/// The words of a conditional item at a place.
fn push_if(
    words: &mut CodeWords,
    test: Test,
    long: bool,
    here: u32,
    to: u32,
) -> Result<(), NoMemory>
    requires test { IsTest test }
    requires here { here + 1 < 2 ^ 24 }
    requires to { to < 2 ^ 24 }
    requires fits { long ≡ false → Fits (reach test) here to }
    ensures { OnOk result (words.new ≡ words.old ++ if_words long test here to) }
{
    if long {
        words.push(test_word(test.opposite(), 2))?;
        words.push(jump_word(here + 1, to))
    } else {
        words.push(test_word(test, to as i32 - here as i32))
    }
}

/// The branch from one place to another.
fn jump_word(from: u32, to: u32) -> u32
    requires from { from < 2 ^ 24 }
    requires to { to < 2 ^ 24 }
    ensures { result ≡ jump_word from to }
{
    encode(&Inst::Branch {
        offset: to as i32 - from as i32,
    })
}

/// The conditional branch by so many words.
fn test_word(test: Test, offset: i32) -> u32
    requires test { IsTest test }
    requires least { negsuc (reach test - 1) ≤ℤ offset }
    requires most { offset ≤ℤ pos (reach test - 1) }
    ensures { result ≡ test_word test offset }
{
    match test {
        Test::Holds(cond) => encode(&Inst::BranchIf { cond, offset }),
        Test::Zero {
            width,
            nonzero,
            reg,
        } => encode(&Inst::BranchZero {
            width,
            nonzero,
            rt: reg,
            offset,
        }),
        Test::Bit { nonzero, reg, bit } => encode(&Inst::BranchBit {
            nonzero,
            rt: reg,
            bit,
            offset,
        }),
    }
}
