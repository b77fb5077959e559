//! The bytes of a frame that are in no slot.

ghost use Rattle.std.specs.Prelude.{◌≡◌, ℕ, ◌+◌, ◌^◌, ◌<◌, ◌≤◌, ◌-◌, ◌&&◌, ◌||◌, not, IfOk, OnOk, All};
ghost use Rattle.b3_base.specs.Observed.{machine_start_of};
ghost use Rattle.exit_table.specs.Good.{IsGoodSlot};
ghost use Rattle.a64_run.specs.Placement.{in_frame, in_slot};
ghost use Rattle.a64_run.specs.Hidden.{covers, is_between, EndsBelow};

use crate::memories::slot_address;
use b3_base::{MachineStart, NoMemory, Range, Ranges};
use exit_table::FrameRow;
use std::alloc::Global;

/// Adds the bytes from `first` to below `end`, where there are any.
fn push_part(ranges: &mut Ranges, first: u64, end: u64) -> Result<(), NoMemory>
    ensures covered { OnOk result ((q : ℕ) → covers ranges.new q ≡ (covers ranges.old q || is_between first end q)) }
    ensures ends { OnOk result (All EndsBelow ranges.old → All EndsBelow ranges.new) }
{
    if first < end {
        ranges.push(Range {
            first,
            len: end - first,
        })?;
    }
    Ok(())
}

/// Some ranges without the bytes from `first` to below `end`.
fn carve(alloc: Global, ranges: &[Range], first: u64, end: u64) -> Result<Ranges, NoMemory>
    requires { All EndsBelow ranges.now }
    ensures covered { IfOk result (λ left. (q : ℕ) → covers left q ≡ (covers ranges.now q && not (is_between first end q))) }
    ensures ends { IfOk result (All EndsBelow) }
{
    let mut left = Ranges::new(alloc);
    for range in ranges {
        let last = range.first + range.len;
        push_part(&mut left, range.first, last.min(first))?;
        push_part(&mut left, range.first.max(end), last)?;
    }
    Ok(left)
}

/// The bytes of a frame that are in no slot.
pub(crate) fn hidden(
    alloc: Global,
    frame: &FrameRow,
    start: &MachineStart,
) -> Result<Ranges, NoMemory>
    requires room { frame.now.bytes ≤ start.now.sp }
    requires slots { All (IsGoodSlot frame.now.bytes) frame.now.slots }
    ensures { IfOk result (λ ranges. (q : ℕ) → covers ranges q ≡ (in_frame frame.now (machine_start_of start.now) q && not (in_slot frame.now (machine_start_of start.now) q))) }
{
    let bytes = u64::from(frame.bytes);
    let mut ranges = Ranges::new(alloc);
    push_part(&mut ranges, start.sp - bytes, start.sp)?;
    for slot in frame.slots.as_slice() {
        let first = slot_address(start, *slot);
        ranges = carve(
            alloc,
            ranges.as_slice(),
            first,
            first + u64::from(slot.size),
        )?;
    }
    Ok(ranges)
}
