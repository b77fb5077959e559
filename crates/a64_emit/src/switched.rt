//! The items of a Switch: a binary search over its cases.

ghost use Rattle.std.specs.Prelude.{◌≡◌, ◌+◌, ◌^◌, ◌<◌, ◌++◌, length, IfOk, OnOk};
ghost use Rattle.b3_base.specs.Arithmetic.{low};
ghost use Rattle.b3_base.specs.Word.{bits};
ghost use Rattle.a64_code.specs.Places.{plains};
ghost use Rattle.a64_emit.specs.Switched.{AreDifferent, AreSmall, case_items, cases_in_order, compare_word, search_items, switch_items, switch_labels};
ghost use Rattle.a64_emit.specs.Trees.{node_count, tree};

use crate::case::Case;
use crate::terminals::{push_jump, target_at};
use a64_code::{is_sum_word, push, push_constant, sum_with};
use a64_inst::{Cond, Inst, Item, Labelled};
use b3_base::{Ids, NoMemory, Width, Words};
use std::alloc::Global;

fn low_word(width: Width, word: u64) -> u64
    ensures { result ≡ low width word }
{
    match width {
        Width::W32 => word % 0x1_0000_0000,
        Width::W64 => word,
    }
}

/// The cases in ascending order of their words.
fn cases_in_order(
    alloc: Global,
    width: Width,
    cases: &Words,
    targets: &Ids,
) -> Result<Vec<Case>, NoMemory>
    requires { AreDifferent width cases.now }
    ensures { IfOk result (λ ordered. ordered.items ≡ cases_in_order width cases.now targets.now) }
{
    let mut ordered = Vec::new(alloc);
    for k in 0..cases.len() {
        let word = low_word(width, *cases.get(k));
        let target = target_at(targets, k);
        ordered.push(Case { word, target })?;
    }
    ordered.sort_unstable_by_key(|case| case.word);
    Ok(ordered)
}

/// How many labels the search among these cases has.
fn tree_labels(cases: &[u64]) -> u32
    requires { node_count (tree cases.now) < 2 ^ 32 }
    ensures { result ≡ node_count (tree cases.now) }
{
    if cases.len() <= 3 {
        return 0;
    }
    let half = cases.len() / 2;
    tree_labels(&cases[..half]) + 1 + tree_labels(&cases[half + 1..])
}

/// How many labels a Switch has of its own.
pub(crate) fn switch_labels(cases: &Words) -> u32
    requires { switch_labels cases.now < 2 ^ 32 }
    ensures { result ≡ switch_labels cases.now }
{
    tree_labels(cases.as_slice())
}

/// A word in a register is compared with a word of a width.
fn push_compare(code: &mut Labelled, width: Width, reg: u8, word: u64) -> Result<(), NoMemory>
    requires { word < 2 ^ bits width }
    ensures { OnOk result (code.new ≡ code.old ++ plains (compare_word width reg word)) }
{
    if is_sum_word(width, word) {
        return push(code, sum_with(width, true, true, 31, reg, word));
    }
    push_constant(code, width, 16, word)?;
    push(
        code,
        Inst::AddSubReg {
            width,
            sub: true,
            flags: true,
            rd: 31,
            rn: reg,
            rm: 16,
            shift: 0,
            amount: 0,
        },
    )
}

/// A word in a register is compared with one case after the other.
fn push_cases(code: &mut Labelled, width: Width, reg: u8, cases: &[Case]) -> Result<(), NoMemory>
    requires { AreSmall width cases.now }
    ensures { OnOk result (code.new ≡ code.old ++ case_items width reg cases.now) }
{
    for case in cases {
        push_compare(code, width, reg, case.word)?;
        code.push(Item::If(Cond::Eq, case.target))?;
    }
    Ok(())
}

/// A word in a register is sought among cases in order, and where it isn't there the search leads to the block `other`. It
/// stands before the label `next`, and its own labels are those from `label` on; the first one behind them is told.
fn push_search(
    code: &mut Labelled,
    width: Width,
    reg: u8,
    other: u32,
    next: u32,
    label: u32,
    cases: &[Case],
) -> Result<u32, NoMemory>
    requires small { AreSmall width cases.now }
    requires labels { label + node_count (tree cases.now) < 2 ^ 32 }
    ensures code { OnOk result (code.new ≡ code.old ++ search_items width reg other next label (tree cases.now)) }
    ensures label { IfOk result (λ free. free ≡ label + node_count (tree cases.now)) }
{
    if cases.len() <= 3 {
        push_cases(code, width, reg, cases)?;
        push_jump(code, next, other)?;
        return Ok(label);
    }
    let half = cases.len() / 2;
    let case = cases[half];
    push_compare(code, width, reg, case.word)?;
    code.push(Item::If(Cond::Eq, case.target))?;
    code.push(Item::If(Cond::Hi, label))?;
    let free = push_search(code, width, reg, other, label, label + 1, &cases[..half])?;
    code.push(Item::Label(label))?;
    push_search(code, width, reg, other, next, free, &cases[half + 1..])
}

/// The items of a Switch on a word in a register, before the block `next`.
pub(crate) fn push_switch(
    alloc: Global,
    code: &mut Labelled,
    width: Width,
    reg: u8,
    next: u32,
    label: u32,
    cases: &Words,
    targets: &Ids,
) -> Result<(), NoMemory>
    requires differ { AreDifferent width cases.now }
    requires labels { label + switch_labels cases.now < 2 ^ 32 }
    ensures { OnOk result (code.new ≡ code.old ++ switch_items width reg next label cases.now targets.now) }
{
    let ordered = cases_in_order(alloc, width, cases, targets)?;
    let other = target_at(targets, cases.len());
    push_search(code, width, reg, other, next, label, ordered.as_slice())?;
    Ok(())
}
