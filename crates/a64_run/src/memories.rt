//! The bytes that data accesses may touch when a run begins, and the bytes that are seen of them.

ghost use Rattle.std.specs.Prelude.{◌≡◌, ◌+◌, ◌^◌, ◌<◌, ◌≤◌, IfOk, All};
ghost use Rattle.std.specs.FinMap as map;
ghost use Rattle.b3_base.specs.Observed.{machine_start_of};
ghost use Rattle.exit_table.specs.Good.{IsGoodSlot};
ghost use Rattle.a64_run.specs.Placement as spec;

use crate::bytes::{byte_at, put, take_places, take_range};
use b3_base::{MachineStart, Memory, NoMemory};
use exit_table::FrameRow;
use stackmap::SlotRow;
use std::alloc::Global;

/// The byte of the frame that stands at an address at entry.
fn stack_byte(start: &MachineStart, address: u64) -> u8
    ensures { result ≡ (machine_start_of start.now).stack address }
{
    match byte_at(&start.stack, address) {
        Some(byte) => byte,
        None => 0,
    }
}

/// The address of a slot.
pub(crate) fn slot_address(start: &MachineStart, slot: SlotRow) -> u64
    requires begins { slot.offset + 16 ≤ start.now.sp }
    requires ends { slot.size ≤ slot.offset }
    ensures value { result ≡ spec.slot_address (machine_start_of start.now) slot }
    ensures small { result + slot.size < 2 ^ 64 }
{
    start.sp - 16 - u64::from(slot.offset)
}

/// The bytes that data accesses may touch at entry: the mapped ones and the frame's.
pub(crate) fn entry_memory(
    alloc: Global,
    frame: &FrameRow,
    start: &MachineStart,
) -> Result<Memory, NoMemory>
    requires { frame.now.bytes ≤ start.now.sp }
    ensures { IfOk result (λ memory. map.get memory ≡ spec.entry_memory frame.now (machine_start_of start.now)) }
{
    let mut memory = start.memory.copy(alloc)?;
    let first = start.sp - u64::from(frame.bytes);
    for i in 0..u64::from(frame.bytes) {
        let address = first + i;
        put(&mut memory, address, stack_byte(start, address))?;
    }
    Ok(memory)
}

/// Of a memory the mapped bytes and the slots' bytes.
pub(crate) fn visible(
    alloc: Global,
    frame: &FrameRow,
    start: &MachineStart,
    memory: &Memory,
) -> Result<Memory, NoMemory>
    requires room { frame.now.bytes ≤ start.now.sp }
    requires slots { All (IsGoodSlot frame.now.bytes) frame.now.slots }
    ensures { IfOk result (λ seen. map.get seen ≡ spec.visible frame.now (machine_start_of start.now) (map.get memory.now)) }
{
    let mut seen = Memory::new(alloc);
    take_places(&mut seen, memory, &start.memory)?;
    for slot in frame.slots.as_slice() {
        let first = slot_address(start, *slot);
        take_range(&mut seen, memory, first, u64::from(slot.size))?;
    }
    Ok(seen)
}
