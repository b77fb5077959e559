//! What a step of the outside leaves in memory: the bytes that it wrote where it sees any, and nothing in
//! the frame below SP.

ghost use Rattle.std.specs.Prelude.{◌≡◌, ℕ, ◌<◌, ◌≤◌, ◌||◌, is_some, nat_eq, if◌then◌else◌, IfOk, OnOk, All};
ghost use Rattle.std.specs.FinMap as map;
ghost use Rattle.b3_base.specs.Observed.{machine_start_of};
ghost use Rattle.stackmap.specs.World as world;
ghost use Rattle.exit_table.specs.Good.{IsGoodSlot};
ghost use Rattle.a64_run.specs.Hidden.{is_between};
ghost use Rattle.a64_run.specs.Leaving.{with_seen, without, without_below};
ghost use Rattle.a64_run.specs.Placement as place;
ghost use Rattle.a64_run.specs.Taking.{with_range};

use crate::bytes::{byte_at, has_byte, is_any_within, mapped_above, take_over};
use crate::memories::slot_address;
use crate::placement::is_within;
use b3_base::{MachineStart, Memory, NoMemory};
use exit_table::FrameRow;
use std::alloc::Global;

/// Takes the byte at an address over, where the address isn't one from `first` to below `end`.
fn take_outside(
    into: &mut Memory,
    from: &Memory,
    address: u64,
    first: u64,
    end: u64,
) -> Result<(), NoMemory>
    ensures { OnOk result (map.get into.new ≡ (if is_between first end address then map.get into.old
        else with_range (map.get into.old) (map.get from.now) address 1)) }
{
    if first <= address && address < end {
        Ok(())
    } else {
        take_over(into, from, address)
    }
}

/// A memory without the bytes from `first` to below `end`.
fn without_range(alloc: Global, memory: &Memory, first: u64, end: u64) -> Result<Memory, NoMemory>
    ensures { IfOk result (λ left. map.get left ≡ without first end (map.get memory.now)) }
{
    let mut left = Memory::new(alloc);
    let mut next = memory.next_mapped(0);
    while let Some(address) = next {
        take_outside(&mut left, memory, address, first, end)?;
        next = mapped_above(memory, address);
    }
    Ok(left)
}

/// What stands in the frame below SP is lost. Nothing is copied where nothing stands there.
fn lose_below(
    alloc: Global,
    frame: &FrameRow,
    start: &MachineStart,
    sp: u64,
    memory: &mut Memory,
) -> Result<(), NoMemory>
    requires { frame.now.bytes ≤ start.now.sp }
    ensures { OnOk result
        (map.get memory.new ≡ without_below frame.now (machine_start_of start.now) sp (map.get memory.old)) }
{
    let first = start.sp - u64::from(frame.bytes);
    let end = start.sp.min(sp);
    if first < end && is_any_within(memory, first, end - first) {
        *memory = without_range(alloc, memory, first, end)?;
    }
    Ok(())
}

/// Whether an address is one of a slot.
fn is_in_slot(frame: &FrameRow, start: &MachineStart, address: u64) -> bool
    requires room { frame.now.bytes ≤ start.now.sp }
    requires slots { All (IsGoodSlot frame.now.bytes) frame.now.slots }
    ensures { result ≡ place.in_slot frame.now (machine_start_of start.now) address }
{
    let mut found = false;
    for slot in frame.slots.as_slice() {
        found = found || is_within(slot_address(start, *slot), u64::from(slot.size), address);
    }
    found
}

/// Puts a written byte at an address that holds one.
fn put_byte(memory: &mut Memory, writes: &Memory, address: u64)
    ensures { map.get memory.new ≡ with_seen (λ q. nat_eq q address) (map.get memory.old) (map.get writes.now) }
{
    if let Some(byte) = byte_at(writes, address) {
        memory.write(address, 1, u64::from(byte));
    }
}

/// The same at an address that the outside sees: a mapped one, or one of a slot.
fn put_where_seen(
    frame: &FrameRow,
    start: &MachineStart,
    writes: &Memory,
    memory: &mut Memory,
    address: u64,
)
    requires room { frame.now.bytes ≤ start.now.sp }
    requires slots { All (IsGoodSlot frame.now.bytes) frame.now.slots }
    ensures { map.get memory.new ≡ (if is_some (map.get start.now.memory address)
        || place.in_slot frame.now (machine_start_of start.now) address
        then with_seen (λ q. nat_eq q address) (map.get memory.old) (map.get writes.now) else map.get memory.old) }
{
    if has_byte(&start.memory, address) || is_in_slot(frame, start, address) {
        put_byte(memory, writes, address);
    }
}

/// Puts the written bytes at the mapped addresses and in the slots, where the memory holds one.
fn put_seen(frame: &FrameRow, start: &MachineStart, writes: &Memory, memory: &mut Memory)
    requires room { frame.now.bytes ≤ start.now.sp }
    requires slots { All (IsGoodSlot frame.now.bytes) frame.now.slots }
    ensures { map.get memory.new ≡ with_seen
        (λ q. is_some (map.get start.now.memory q) || place.in_slot frame.now (machine_start_of start.now) q)
        (map.get memory.old) (map.get writes.now) }
{
    let mut next = writes.next_mapped(0);
    while let Some(address) = next {
        put_where_seen(frame, start, writes, memory, address);
        next = mapped_above(writes, address);
    }
}

/// The outside writes bytes that it sees, and what stands in the frame below SP is lost.
pub(crate) fn leave_memory(
    alloc: Global,
    frame: &FrameRow,
    start: &MachineStart,
    sp: u64,
    writes: &Memory,
    memory: &mut Memory,
) -> Result<(), NoMemory>
    requires room { frame.now.bytes ≤ start.now.sp }
    requires slots { All (IsGoodSlot frame.now.bytes) frame.now.slots }
    ensures { OnOk result (map.get memory.new ≡ world.memory_after
        (λ q. is_some ((machine_start_of start.now).memory q) || place.in_slot frame.now (machine_start_of start.now) q)
        (place.in_frame frame.now (machine_start_of start.now)) sp (map.get writes.now) (map.get memory.old)) }
{
    lose_below(alloc, frame, start, sp, memory)?;
    put_seen(frame, start, writes, memory);
    Ok(())
}
