//! What is seen of a run, printed.

ghost use Rattle.std.specs.Prelude.{◌≡◌, ◌++◌, ◌<◌, ◌^◌, OnOk, IfOk, IfSome};
ghost use Rattle.std.specs.List.{flat_map};
ghost use Rattle.std.specs.Prelude.{map as list_map};
ghost use Rattle.std.specs.FinMap as map;
ghost use Rattle.b3_base.specs.Observed.{event_of, observation_of};
ghost use Rattle.b3_trial.specs.Shown as spec;

use crate::numbers::{put_address, put_byte, put_decimal, put_id, put_words};
use b3_base::{Bytes, Event, EventKind, Memory, NoMemory, Observation, Status};
use std::alloc::Global;

fn put_returned(out: &mut Bytes, word: Option<u64>) -> Result<(), NoMemory>
    ensures { OnOk result (out.new ≡ out.old ++ spec.returned_text word) }
{
    match word {
        None => out.extend(b"returned"),
        Some(word) => {
            out.extend(b"returned ")?;
            put_decimal(out, word)
        }
    }
}

fn put_status(alloc: Global, out: &mut Bytes, status: &Status) -> Result<(), NoMemory>
    ensures { OnOk result (out.new ≡ out.old ++ spec.status_text status.now) }
{
    match status {
        Status::Going => out.extend(b"going"),
        Status::Waiting => out.extend(b"waiting"),
        Status::Left => out.extend(b"left"),
        Status::Returned(word) => put_returned(out, *word),
        Status::Trapped { value, address } => {
            out.extend(b"trapped ")?;
            put_id(out, *value)?;
            out.extend(b" ")?;
            put_address(alloc, out, *address)
        }
        Status::Exited { value, reported } => {
            out.extend(b"exited ")?;
            put_id(out, *value)?;
            put_words(out, reported.as_slice())
        }
        Status::Undefined => out.extend(b"undefined"),
        Status::Stuck => out.extend(b"stuck"),
    }
}

fn put_status_line(alloc: Global, out: &mut Bytes, status: &Status) -> Result<(), NoMemory>
    ensures { OnOk result (out.new ≡ out.old ++ spec.status_line status.now) }
{
    out.extend(b"status ")?;
    put_status(alloc, out, status)?;
    out.extend(b"\n")
}

fn put_kind(alloc: Global, out: &mut Bytes, kind: EventKind) -> Result<(), NoMemory>
    ensures { OnOk result (out.new ≡ out.old ++ spec.kind_text kind) }
{
    match kind {
        EventKind::Call { callee } => {
            out.extend(b"call ")?;
            put_address(alloc, out, callee)
        }
        EventKind::Patch { value } => {
            out.extend(b"patch ")?;
            put_id(out, value)
        }
    }
}

fn put_event(alloc: Global, out: &mut Bytes, event: &Event) -> Result<(), NoMemory>
    ensures { OnOk result (out.new ≡ out.old ++ spec.event_line (event_of event.now)) }
{
    out.extend(b"event ")?;
    put_kind(alloc, out, event.kind)?;
    out.extend(b":")?;
    put_words(out, event.arguments.as_slice())?;
    out.extend(b"\n")
}

fn put_events(alloc: Global, out: &mut Bytes, events: &[Event]) -> Result<(), NoMemory>
    ensures { OnOk result (out.new ≡ out.old ++ flat_map spec.event_line (list_map event_of events.now)) }
{
    let mut left = events;
    while let Some((event, more)) = left.split_first() {
        put_event(alloc, out, event)?;
        left = more;
    }
    Ok(())
}

/// The byte at an address.
fn byte_in(memory: &Memory, address: u64) -> Option<u64>
    ensures is { result ≡ map.get memory.now address }
    ensures byte { IfSome result (λ byte. byte < 256) }
{
    memory.ranged();
    memory.read(address, 1)
}

/// Whether no byte stands just before an address.
fn is_first(memory: &Memory, address: u64) -> bool
    ensures { result ≡ spec.is_first (map.get memory.now) address }
{
    address == 0 || byte_in(memory, address - 1).is_none()
}

/// Whether none stands just behind it.
fn is_last(memory: &Memory, address: u64) -> bool
    ensures { result ≡ spec.is_last (map.get memory.now) address }
{
    memory.ranged();
    address == u64::MAX || byte_in(memory, address + 1).is_none()
}

fn put_front(alloc: Global, out: &mut Bytes, memory: &Memory, address: u64) -> Result<(), NoMemory>
    ensures { OnOk result (out.new ≡ out.old ++ spec.run_front (map.get memory.now) address) }
{
    if !is_first(memory, address) {
        return Ok(());
    }
    out.extend(b"memory ")?;
    put_address(alloc, out, address)?;
    out.extend(b" ")
}

fn put_back(out: &mut Bytes, memory: &Memory, address: u64) -> Result<(), NoMemory>
    ensures { OnOk result (out.new ≡ out.old ++ spec.run_back (map.get memory.now) address) }
{
    if is_last(memory, address) {
        out.extend(b"\n")
    } else {
        Ok(())
    }
}

/// The byte at an address, as one of its run.
fn put_byte_at(
    alloc: Global,
    out: &mut Bytes,
    memory: &Memory,
    address: u64,
) -> Result<(), NoMemory>
    ensures { OnOk result (out.new
        ≡ out.old ++ spec.byte_at (map.get memory.now) address (map.get memory.now address)) }
{
    let Some(byte) = byte_in(memory, address) else {
        return Ok(());
    };
    put_front(alloc, out, memory, address)?;
    put_byte(out, byte)?;
    put_back(out, memory, address)
}

fn put_memory(alloc: Global, out: &mut Bytes, memory: &Memory) -> Result<(), NoMemory>
    ensures { OnOk result (out.new ≡ out.old ++ spec.memory_below (map.get memory.now) (2 ^ 64)) }
{
    let mut from: u64 = 0;
    while let Some(address) = memory.next_mapped(from) {
        put_byte_at(alloc, out, memory, address)?;
        if address == u64::MAX {
            return Ok(());
        }
        from = address + 1;
    }
    Ok(())
}

/// The text in which an observation is printed: the line of its status, then one for each event in order,
/// then one for each run of mapped addresses in rising order, with LF behind each line. It is refused for
/// want of memory alone.
pub fn show(alloc: Global, observation: &Observation) -> Result<Bytes, NoMemory>
    ensures { IfOk result (λ text. text ≡ spec.shown (observation_of observation.now)) }
{
    let mut out = Bytes::new(alloc);
    put_status_line(alloc, &mut out, &observation.status)?;
    put_events(alloc, &mut out, observation.events.as_slice())?;
    put_memory(alloc, &mut out, &observation.memory)?;
    Ok(out)
}
