//! When a machine start may begin a procedure of an object, and the start of the B3 run that agrees.

ghost use Rattle.std.specs.Prelude.{◌≡◌, ℕ, ◌+◌, ◌*◌, ◌%◌, ◌^◌, ◌<◌, ◌≤◌, ◌↔◌, Err, IfOk, IfSome, IfNone, IsSomeAnd, IsTrue, All, length, map, slice_get, Some, true, false};
ghost use Rattle.std.specs.List.{Contains};
ghost use Rattle.b3_base.specs.Observed.{machine_start_of};
ghost use Rattle.b3_base.specs.Observed as observed;
ghost use Rattle.elf_obj.specs.Good.{IsGood, names_of};
ghost use Rattle.elf_obj.specs.declared.object.Symbol.{Symbol};
ghost use Rattle.exit_table.specs.declared.tables.FrameRow.{FrameRow as Frame};
ghost use Rattle.exit_table.specs.Good.{IsGoodFrame, IsGoodSlot};
ghost use Rattle.a64_run.specs.Placement.{is_within, start_of, Places};
ghost use Rattle.a64_run.specs.Placement as spec;
ghost use Rattle.a64_run.specs.Sharing.{SharesNoByte};
ghost use Rattle.a64_run.specs.Finding.{IsMisplaced, IsProcedure, MayBegin};

use crate::bytes::is_any_within;
use crate::fault::PlaceFault;
use crate::find::procedure_of;
use crate::hidden::hidden;
use crate::memories::{entry_memory, slot_address, visible};
use b3_base::{MachineStart, NoMemory, Range, Start, Words};
use elf_obj::Object;
use exit_table::FrameRow;
use std::alloc::Global;

/// Whether an address is one of the `len` from `first` on.
pub(crate) fn is_within(first: u64, len: u64, address: u64) -> bool
    ensures { result ≡ is_within first len address }
{
    first <= address && address - first < len
}

/// Whether `len` addresses from `first` on and `other_len` from `other` on have none in common.
fn are_apart(first: u64, len: u64, other: u64, other_len: u64) -> bool
    ensures { IsTrue result ↔ ((q : ℕ) → is_within first len q ≡ true → is_within other other_len q ≡ false) }
{
    len == 0
        || other_len == 0
        || !is_within(first, len, other) && !is_within(other, other_len, first)
}

/// The bytes of the text.
pub(crate) fn text_bytes(object: &Object) -> u64
    requires { length object.now.text < 2 ^ 24 }
    ensures { result ≡ 4 * length object.now.text }
{
    4 * object.text.len() as u64
}

/// Whether SP is aligned with room for the frame below it, and the text is aligned and ends by 2^64.
fn has_room(frame: &FrameRow, start: &MachineStart, len: u64) -> bool
    requires { len < 2 ^ 26 }
    ensures { IsTrue result ↔ ((start.now.sp % 16 ≡ 0) × (frame.now.bytes ≤ start.now.sp) × (start.now.code % 4 ≡ 0) × (start.now.code + len ≤ 2 ^ 64)) }
{
    start.sp % 16 == 0
        && u64::from(frame.bytes) <= start.sp
        && start.code % 4 == 0
        && (len == 0 || len - 1 <= u64::MAX - start.code)
}

/// Whether the return address is outside the text, and mapped bytes, frame and text share no byte.
fn shares_no_byte(frame: &FrameRow, start: &MachineStart, len: u64) -> bool
    requires room { frame.now.bytes ≤ start.now.sp }
    ensures { IsTrue result ↔ SharesNoByte frame.now (machine_start_of start.now) len }
{
    let bytes = u64::from(frame.bytes);
    let first = start.sp - bytes;
    !is_within(start.code, len, start.registers[30])
        && are_apart(first, bytes, start.code, len)
        && !is_any_within(&start.memory, first, bytes)
        && !is_any_within(&start.memory, start.code, len)
}

/// Whether a machine start may begin a procedure with this frame.
fn may_begin(object: &Object, frame: &FrameRow, start: &MachineStart) -> bool
    requires { length object.now.text < 2 ^ 24 }
    ensures { (symbol : Symbol) → IsTrue result ↔ Places object.now symbol frame.now (machine_start_of start.now) }
{
    start.ranged();
    let len = text_bytes(object);
    has_room(frame, start, len) && shares_no_byte(frame, start, len)
}

/// The place of the procedure of a name, where the machine start may begin it.
pub(crate) fn begins(object: &Object, name: &str, start: &MachineStart) -> Result<usize, PlaceFault>
    requires { IsGood object.now }
    ensures ok { IfOk result (λ k. (symbol : Symbol) × (frame : Frame)
        × (slice_get object.now.symbols k ≡ Some symbol) × (slice_get object.now.tables.frames k ≡ Some frame)
        × MayBegin object.now name.now (machine_start_of start.now) symbol frame) }
    ensures named { IfOk result (λ k. k < length object.now.symbols) }
    ensures there { IfOk result (λ k. k < length object.now.tables.frames) }
    ensures no_procedure { (result ≡ Err PlaceFault.NoProcedure) ↔ (¬ (Contains (names_of object.now.symbols) name.now)) }
    ensures placement { (result ≡ Err PlaceFault.Placement) ↔ IsMisplaced object.now name.now (machine_start_of start.now) }
{
    let Some(k) = procedure_of(object, name) else {
        return Err(PlaceFault::NoProcedure);
    };
    if may_begin(object, object.tables.frames.get(k), start) {
        Ok(k)
    } else {
        Err(PlaceFault::Placement)
    }
}

/// The start of the B3 run that agrees with a machine start of a procedure with this frame.
fn start_at(
    alloc: Global,
    object: &Object,
    frame: &FrameRow,
    start: &MachineStart,
) -> Result<Start, NoMemory>
    requires words { length object.now.text < 2 ^ 24 }
    requires room { frame.now.bytes ≤ start.now.sp }
    requires frame { IsGoodFrame frame.now }
    ensures { IfOk result (λ placed. observed.start_of placed ≡ start_of object.now frame.now (machine_start_of start.now)) }
{
    let entry = entry_memory(alloc, frame, start)?;
    let x = &start.registers;
    Ok(Start {
        arguments: [x[0], x[1], x[2], x[3], x[4], x[5], x[6], x[7]],
        frame_pointer: start.sp - 16,
        slots: slot_addresses(alloc, frame, start)?,
        memory: visible(alloc, frame, start, &entry)?,
        hidden: hidden(alloc, frame, start)?,
        code: Range {
            first: start.code,
            len: text_bytes(object),
        },
    })
}

/// The addresses of the slots, in order.
fn slot_addresses(alloc: Global, frame: &FrameRow, start: &MachineStart) -> Result<Words, NoMemory>
    requires room { frame.now.bytes ≤ start.now.sp }
    requires slots { All (IsGoodSlot frame.now.bytes) frame.now.slots }
    ensures { IfOk result (λ addresses. addresses ≡ map (spec.slot_address (machine_start_of start.now)) frame.now.slots) }
{
    let mut addresses = Words::new(alloc);
    for slot in frame.slots.as_slice() {
        addresses.push(slot_address(start, *slot))?;
    }
    Ok(addresses)
}

/// The start of the B3 run that agrees with a machine start of the procedure of a name: `NoProcedure`
/// exactly where no symbol has the name, `Placement` exactly where the symbol is there and the machine
/// start may not begin it (AAPCS64, 6.4.5.1, for SP).
pub fn place(
    alloc: Global,
    object: &Object,
    name: &str,
    start: &MachineStart,
) -> Result<Start, PlaceFault>
    requires { IsGood object.now }
    ensures ok { IfOk result (λ placed. (symbol : Symbol) × (frame : Frame) × MayBegin object.now name.now (machine_start_of start.now) symbol frame × (observed.start_of placed ≡ start_of object.now frame (machine_start_of start.now))) }
    ensures no_procedure { (result ≡ Err PlaceFault.NoProcedure) ↔ (¬ (Contains (names_of object.now.symbols) name.now)) }
    ensures placement { (result ≡ Err PlaceFault.Placement) ↔ IsMisplaced object.now name.now (machine_start_of start.now) }
{
    let k = begins(object, name, start)?;
    match start_at(alloc, object, object.tables.frames.get(k), start) {
        Ok(placed) => Ok(placed),
        Err(NoMemory) => Err(PlaceFault::NoMemory),
    }
}
