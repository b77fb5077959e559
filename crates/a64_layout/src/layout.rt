//! Which conditional items are long. All are short at first. A pass from the first item on makes those long
//! that don't reach a label before them, and a pass from the last item back those that don't reach a label
//! after them, each with the items as they are then: so a chain of branches one way is settled in one pass.
//! The passes take turns until all items fit.

ghost use Rattle.std.specs.Prelude.{◌≡◌, ℕ, ◌<◌, ◌≤◌, ◌^◌, ◌↔◌, false, length, sum_by, IsTrue, IfOk};
ghost use Rattle.a64_inst.specs.Fields.{bit};
ghost use Rattle.a64_layout.specs.Branch.{branch_of};
ghost use Rattle.a64_layout.specs.Layout.{IsLeast};
ghost use Rattle.a64_layout.specs.Passes.{GrowsByNeed, IsNearBack, IsNearForward, NamesBelow, ReachBack, ReachForward, TellsPositions};
ghost use Rattle.a64_layout.specs.Text.{chosen, IsWellLabelled, label_count};

use crate::branch::{branch_of, size};
use crate::places::{Positions, put_label};
use a64_inst::{Item, Labelled};
use b3_base::{Ids, NoMemory, Seq};
use std::alloc::Global;

/// For each item whether it is long.
pub(crate) type Flags = Seq<bool>;

/// Flags for so many items, all of them short. It is refused for want of memory alone.
fn all_short(alloc: Global, items: usize) -> Result<Flags, NoMemory>
    ensures count { IfOk result (λ flags. length flags ≡ items) }
    ensures short { IfOk result (λ flags. (k : ℕ) → chosen flags k ≡ false) }
{
    let mut flags = Seq::new(alloc);
    for _ in 0..items {
        flags.push(false)?;
    }
    Ok(flags)
}

/// Whether an item is long, or reaches its label where that stands before it. `here` is how many words
/// stand before the item.
fn is_near_back(
    item: Item,
    long: bool,
    at: usize,
    here: u32,
    positions: &Positions,
    places: &Ids,
) -> bool
    requires named { NamesBelow (length positions.now) (branch_of item) }
    requires count { length places.now ≡ length positions.now }
    ensures { IsTrue result ↔ IsNearBack long at here positions.now places.now (branch_of item) }
{
    match branch_of(item) {
        Some((test, label)) => {
            let label = label as usize;
            long || *positions.get(label) >= at
                || here.saturating_sub(*places.get(label)) <= test.reach()
        }
        None => true,
    }
}

/// Whether an item is long, or reaches its label where that stands after it. `rest` is how many words
/// stand after the item.
fn is_near_forward(
    item: Item,
    long: bool,
    at: usize,
    rest: u32,
    positions: &Positions,
    places: &Ids,
) -> bool
    requires named { NamesBelow (length positions.now) (branch_of item) }
    requires count { length places.now ≡ length positions.now }
    ensures { IsTrue result ↔ IsNearForward long at rest positions.now places.now (branch_of item) }
{
    match branch_of(item) {
        Some((test, label)) => {
            let label = label as usize;
            long || *positions.get(label) <= at
                || rest.saturating_sub(*places.get(label)) < test.reach() - 1
        }
        None => true,
    }
}

/// Makes each short item long that doesn't reach a label before it.
fn lengthen_back(code: &Labelled, positions: &Positions, places: &mut Ids, long: &mut Flags)
    requires good { IsWellLabelled code.now }
    requires positions { length positions.now ≡ label_count code.now }
    requires told { TellsPositions code.now positions.now }
    requires places { length places.old ≡ label_count code.now }
    requires flags { length long.old ≡ length code.now }
    ensures places { length places.new ≡ label_count code.now }
    ensures flags { length long.new ≡ length code.now }
    ensures least { GrowsByNeed code.now (chosen long.old) (chosen long.new) }
    ensures more { sum_by bit long.old ≤ sum_by bit long.new }
    ensures reach { ReachBack code.now (chosen long.new) }
{
    let mut here = 0;
    for at in 0..code.len() {
        let item = *code.get(at);
        if !is_near_back(item, *long.get(at), at, here, positions, places) {
            long.set(at, true);
        }
        put_label(item, here, places);
        here += size(item, *long.get(at));
    }
}

/// Makes each short item long that doesn't reach a label after it. It tells whether there was one.
fn lengthen_forward(
    code: &Labelled,
    positions: &Positions,
    places: &mut Ids,
    long: &mut Flags,
) -> bool
    requires good { IsWellLabelled code.now }
    requires positions { length positions.now ≡ label_count code.now }
    requires told { TellsPositions code.now positions.now }
    requires places { length places.old ≡ label_count code.now }
    requires flags { length long.old ≡ length code.now }
    ensures places { length places.new ≡ label_count code.now }
    ensures flags { length long.new ≡ length code.now }
    ensures least { GrowsByNeed code.now (chosen long.old) (chosen long.new) }
    ensures more { IsTrue result → sum_by bit long.old < sum_by bit long.new }
    ensures same { result ≡ false → long.new ≡ long.old }
    ensures reach { ReachForward code.now (chosen long.new) }
{
    let mut changed = false;
    let mut rest = 0;
    for done in 0..code.len() {
        let at = code.len() - 1 - done;
        let item = *code.get(at);
        if !is_near_forward(item, *long.get(at), at, rest, positions, places) {
            long.set(at, true);
            changed = true;
        }
        put_label(item, rest, places);
        rest += size(item, *long.get(at));
    }
    changed
}

/// Which items are long: the least set that lets each other one fit. What stands in `places` is lost.
/// It is refused for want of memory alone.
pub(crate) fn choose(
    alloc: Global,
    code: &Labelled,
    positions: &Positions,
    places: &mut Ids,
) -> Result<Flags, NoMemory>
    requires good { IsWellLabelled code.now }
    requires positions { length positions.now ≡ label_count code.now }
    requires told { TellsPositions code.now positions.now }
    requires places { length places.old ≡ label_count code.now }
    ensures places { length places.new ≡ label_count code.now }
    ensures flags { IfOk result (λ long. length long ≡ length code.now) }
    ensures least { IfOk result (λ long. IsLeast code.now (chosen long)) }
{
    let mut long = all_short(alloc, code.len())?;
    lengthen_back(code, positions, places, &mut long);
    while lengthen_forward(code, positions, places, &mut long) {
        lengthen_back(code, positions, places, &mut long);
    }
    Ok(long)
}
