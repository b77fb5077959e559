//! Places for words and slots, from x29 down.

ghost use Rattle.std.specs.Prelude.{◌≡◌, ◌+◌, ◌*◌, ◌^◌, ◌<◌, ◌≤◌, length, IfOk};
ghost use Rattle.std.specs.List.{filter};
ghost use Rattle.stackmap.specs.Registers.{has};
ghost use Rattle.air_frame.specs.Frames.{rounded, slot_bytes};
ghost use Rattle.air_frame.specs.Placing.{flag_bytes, saved_rows, slot_offsets, spill_offsets, word_bytes};

use b3_base::{Ids, NoMemory};
use b3_ir::Reg;
use stackmap::{Saved, SavedRow, set};
use std::alloc::Global;

/// The next multiple of 16.
pub(crate) fn rounded(bytes: u32) -> u32
    requires { bytes < 2 ^ 31 }
    ensures { result ≡ rounded bytes }
{
    (bytes + 15) / 16 * 16
}

/// The bytes of slots of these sizes.
pub(crate) fn slot_bytes(sizes: &[u32]) -> u32
    requires { slot_bytes sizes.now < 2 ^ 31 }
    ensures { result ≡ slot_bytes sizes.now }
{
    let mut bytes = 0;
    for size in sizes {
        bytes += rounded(*size);
    }
    bytes
}

/// A word for each of the registers that are in a set, from x29 down.
pub(crate) fn place_saved(alloc: Global, set: u32, registers: &[u8]) -> Result<Saved, NoMemory>
    requires { length registers.now ≤ 10 }
    ensures saved { IfOk result (λ saved. saved ≡ saved_rows 0 (filter (has set) registers.now)) }
    ensures few { IfOk result (λ saved. length saved ≤ 10) }
{
    let mut saved = Saved::new(alloc);
    let mut offset = 0;
    for r in registers {
        if set::is_in(set, *r) {
            offset += 8;
            saved.push(SavedRow {
                reg: Reg(*r),
                offset,
            })?;
        }
    }
    Ok(saved)
}

/// The bytes of the words that flags ask for.
pub(crate) fn word_bytes(named: &[bool]) -> u32
    requires { 8 * length named.now < 2 ^ 32 }
    ensures bytes { result ≡ word_bytes named.now }
    ensures most { result ≤ 8 * length named.now }
{
    let mut bytes = 0;
    for asked in named {
        bytes += flag_bytes(*asked);
    }
    bytes
}

fn flag_bytes(asked: bool) -> u32
    ensures { result ≡ flag_bytes asked }
{
    if asked { 8 } else { 0 }
}

/// A word below an offset for each flag that is set.
pub(crate) fn place_spills(alloc: Global, low: u32, named: &[bool]) -> Result<Ids, NoMemory>
    requires { low + 8 * length named.now < 2 ^ 32 }
    ensures { IfOk result (λ spills. spills ≡ spill_offsets low named.now) }
{
    let mut spills = Ids::new(alloc);
    let mut offset = low;
    for asked in named {
        offset += flag_bytes(*asked);
        spills.push(offset)?;
    }
    Ok(spills)
}

/// Slots of these sizes below an offset.
pub(crate) fn place_slots(alloc: Global, low: u32, sizes: &[u32]) -> Result<Ids, NoMemory>
    requires { low + slot_bytes sizes.now < 2 ^ 31 }
    ensures { IfOk result (λ slots. slots ≡ slot_offsets low sizes.now) }
{
    let mut slots = Ids::new(alloc);
    let mut offset = low;
    for size in sizes {
        offset += rounded(*size);
        slots.push(offset)?;
    }
    Ok(slots)
}
