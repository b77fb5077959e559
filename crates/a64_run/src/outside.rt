//! Steps of the outside: events, and the answers that are taken.

ghost use Rattle.std.specs.Prelude.{◌≡◌, ◌⊎◌, ◌/◌, slice_index, IfOk, OnOk};
ghost use Rattle.std.specs.FinMap as map;
ghost use Rattle.b3_base.specs.Observed as observed;
ghost use Rattle.b3_base.specs.Word.{bits};
ghost use Rattle.stackmap.specs.World as world;
ghost use Rattle.a64_run.specs.Kept.{entry_of, state_of, HasRegisters, IsSound, Leads};
ghost use Rattle.a64_run.specs.Machine as spec;

use crate::clobbers::leave_registers;
use crate::entry::{Entry, Flow, State};
use crate::leaving::leave_memory;
use crate::memories::visible;
use crate::text::is_text_word;
use a64_inst::State as Registers;
use b3_base::{Answer, Event, EventKind, Memory, NoMemory, Status, Width, Widths, Words, low};
use b3_ir::Reg;
use stackmap::{Place, Rep, Site};
use std::alloc::Global;

/// The word of a register, 0 where there is none of its number.
fn register(registers: &Registers, reg: Reg) -> u64
    ensures { result ≡ slice_index registers.now.x reg.0 }
{
    match registers.x.get(reg.0 as usize) {
        Some(word) => *word,
        None => 0,
    }
}

/// The bytes of a word of a width.
fn bytes_of(width: Width) -> u32
    ensures value { result ≡ bits width / 8 }
    ensures one_of { (result ≡ 4) ⊎ (result ≡ 8) }
{
    match width {
        Width::W32 => 4,
        Width::W64 => 8,
    }
}

/// The word that stands in a place, None where a byte of it is missing.
fn word_in(registers: &Registers, memory: &Memory, place: Place) -> Option<u64>
    ensures { result ≡ world.word_in (slice_index registers.now.x) (map.get memory.now) place.width place.rep }
{
    match place.rep {
        Rep::Register(reg) => Some(low(place.width, register(registers, reg))),
        Rep::Slot(offset) => {
            let address = registers.x[29].wrapping_sub(u64::from(offset));
            memory.read(address, bytes_of(place.width))
        }
        Rep::Constant(word) => Some(word),
    }
}

/// The words in some places, where each has one.
pub(crate) fn words_in(
    alloc: Global,
    st: &State<'_>,
    places: &[Place],
) -> Result<Option<Words>, NoMemory>
    ensures { IfOk result
        (λ words. words ≡ world.words_in (slice_index st.now.registers.x) (map.get st.now.memory) places.now) }
{
    let mut words = Words::new(alloc);
    for place in places {
        match word_in(&st.registers, &st.memory, *place) {
            Some(word) => words.push(word)?,
            None => return Ok(None),
        }
    }
    Ok(Some(words))
}

/// The widths of some places.
fn widths_of(alloc: Global, places: &[Place]) -> Result<Widths, NoMemory>
    ensures { IfOk result (λ widths. widths ≡ world.widths_of places.now) }
{
    let mut widths = Widths::new(alloc);
    for place in places {
        widths.push(place.width)?;
    }
    Ok(widths)
}

/// The event of a site, with the memory of the moment.
fn event_of(
    alloc: Global,
    e: &Entry<'_>,
    memory: &Memory,
    site: &Site,
    kind: EventKind,
    arguments: Words,
) -> Result<Event, NoMemory>
    requires { IsSound (entry_of e.now) }
    ensures { IfOk result (λ event. observed.event_of event ≡ record {
      kind = kind;
      arguments = arguments;
      widths = world.widths_of site.now.reps;
      memory = spec.seen_memory (entry_of e.now) (map.get memory.now);
    }) }
{
    Ok(Event {
        kind,
        arguments,
        widths: widths_of(alloc, site.reps.as_slice())?,
        memory: visible(alloc, e.frame, e.start, memory)?,
    })
}

/// The run goes on at a word of the text, or is stuck.
pub(crate) fn goes_on(e: &Entry<'_>, st: &State<'_>) -> Flow
    ensures { Leads (entry_of e.now) result (state_of st.now) (spec.goes_on (entry_of e.now) (state_of st.now)) }
{
    if is_text_word(e, st.registers.pc) {
        Flow::On
    } else {
        Flow::Over(Status::Stuck)
    }
}

/// The outside gives a value and writes bytes after the i-th event, and the run is to go on at an address.
fn give(
    alloc: Global,
    e: &Entry<'_>,
    st: &mut State<'_>,
    site: &Site,
    pc: u64,
    i: u64,
    value: u64,
    writes: &Memory,
) -> Result<(), NoMemory>
    requires sound { IsSound (entry_of e.now) }
    requires registers { HasRegisters site.now }
    ensures { OnOk result
        (state_of st.new ≡ spec.after_world (entry_of e.now) site.now pc i value (map.get writes.now)
        (state_of st.old)) }
{
    leave_memory(
        alloc,
        e.frame,
        e.start,
        st.registers.sp,
        writes,
        &mut st.memory,
    )?;
    leave_registers(e.start, site, i, value, pc, &mut st.registers);
    Ok(())
}

/// Takes the next answer: the run goes on with what it gives, ends where it leaves, and waits where there
/// is none.
fn answer(
    alloc: Global,
    e: &Entry<'_>,
    st: &mut State<'_>,
    site: &Site,
    pc: u64,
    i: u64,
) -> Result<Flow, NoMemory>
    requires sound { IsSound (entry_of e.now) }
    requires registers { HasRegisters site.now }
    ensures { IfOk result (λ flow. Leads (entry_of e.now) flow (state_of st.new)
        (spec.answered (entry_of e.now) site.now pc i (state_of st.old) (state_of st.old).answers)) }
{
    let Some((first, rest)) = st.answers.split_first() else {
        return Ok(Flow::Over(Status::Waiting));
    };
    st.answers = rest;
    match first {
        Answer::Leave => Ok(Flow::Over(Status::Left)),
        Answer::Give { value, writes } => {
            give(alloc, e, st, site, pc, i, *value, writes)?;
            Ok(goes_on(e, st))
        }
    }
}

/// The outside acts at a site: an event is added with the words of its places, and the next answer is
/// taken. Where a place has no word the run is stuck, and none is added.
pub(crate) fn world_step(
    alloc: Global,
    e: &Entry<'_>,
    st: &mut State<'_>,
    site: &Site,
    kind: EventKind,
    pc: u64,
) -> Result<Flow, NoMemory>
    requires sound { IsSound (entry_of e.now) }
    requires registers { HasRegisters site.now }
    ensures { IfOk result (λ flow. Leads (entry_of e.now) flow (state_of st.new)
        (spec.world_step (entry_of e.now) site.now kind pc (state_of st.old))) }
{
    let Some(words) = words_in(alloc, st, site.reps.as_slice())? else {
        return Ok(Flow::Over(Status::Stuck));
    };
    let i = st.events.len() as u64;
    let event = event_of(alloc, e, &st.memory, site, kind, words)?;
    st.events.push(event)?;
    answer(alloc, e, st, site, pc, i)
}
