//! Single bytes of a memory, and bytes that are taken over from one memory into another.

ghost use Rattle.std.specs.Prelude.{◌≡◌, ◌+◌, ◌^◌, ◌<◌, ◌≤◌, is_some, ℕ, None, IfSome, IfNone, OnOk, IsTrue, ◌↔◌};
ghost use Rattle.std.specs.FinMap as map;
ghost use Rattle.b3_base.specs.Memory.{put_byte, IsNextMapped};
ghost use Rattle.a64_run.specs.Taking.{with_range, with_places, IsAnyWithin};

use b3_base::{Memory, NoMemory};

/// The byte at an address, `None` exactly where it isn't mapped.
pub(crate) fn byte_at(memory: &Memory, address: u64) -> Option<u8>
    ensures { result ≡ map.get memory.now address }
{
    memory.ranged();
    match memory.read(address, 1) {
        Some(word) => Some(word as u8),
        None => None,
    }
}

/// Whether an address is mapped.
pub(crate) fn has_byte(memory: &Memory, address: u64) -> bool
    ensures { result ≡ is_some (map.get memory.now address) }
{
    byte_at(memory, address).is_some()
}

/// Puts a byte at an address, mapped or not.
pub(crate) fn put(memory: &mut Memory, address: u64, byte: u8) -> Result<(), NoMemory>
    ensures { OnOk result (map.get memory.new ≡ put_byte (map.get memory.old) address byte) }
{
    if memory.write(address, 1, u64::from(byte)) {
        return Ok(());
    }
    match memory.map(address, &[byte]) {
        Ok(()) => Ok(()),
        Err(_) => Err(NoMemory),
    }
}

/// Takes the byte at an address over, where there is one.
pub(crate) fn take_over(into: &mut Memory, from: &Memory, address: u64) -> Result<(), NoMemory>
    ensures { OnOk result (map.get into.new ≡ with_range (map.get into.old) (map.get from.now) address 1) }
{
    match byte_at(from, address) {
        Some(byte) => put(into, address, byte),
        None => Ok(()),
    }
}

/// Takes the bytes at `len` addresses from `first` on over.
pub(crate) fn take_range(
    into: &mut Memory,
    from: &Memory,
    first: u64,
    len: u64,
) -> Result<(), NoMemory>
    requires { first + len ≤ 2 ^ 64 }
    ensures { OnOk result (map.get into.new ≡ with_range (map.get into.old) (map.get from.now) first len) }
{
    for i in 0..len {
        take_over(into, from, first + i)?;
    }
    Ok(())
}

/// Whether one of `len` addresses from `first` on is mapped.
pub(crate) fn is_any_within(memory: &Memory, first: u64, len: u64) -> bool
    ensures { IsTrue result ↔ IsAnyWithin (map.get memory.now) first len }
{
    match memory.next_mapped(first) {
        Some(at) => at - first < len,
        None => false,
    }
}

/// Takes the bytes at the addresses of a third memory over.
pub(crate) fn take_places(into: &mut Memory, from: &Memory, places: &Memory) -> Result<(), NoMemory>
    ensures { OnOk result (map.get into.new ≡ with_places (map.get into.old) (map.get from.now) (map.get places.now)) }
{
    let mut next = places.next_mapped(0);
    while let Some(address) = next {
        take_over(into, from, address)?;
        next = mapped_above(places, address);
    }
    Ok(())
}

/// The least mapped address above one.
pub(crate) fn mapped_above(memory: &Memory, address: u64) -> Option<u64>
    ensures least { IfSome result (IsNextMapped (map.get memory.now) (address + 1)) }
    ensures none { IfNone result ((q : ℕ) → address < q → map.get memory.now q ≡ None) }
{
    if address == u64::MAX {
        memory.ranged();
        return None;
    }
    memory.next_mapped(address + 1)
}
