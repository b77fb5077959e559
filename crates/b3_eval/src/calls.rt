//! Calls and patchpoints: events, and the answers that are taken.

ghost use Rattle.std.specs.Prelude.{◌≡◌, List, IfOk, map};
ghost use Rattle.std.specs.FinMap as finite;
ghost use Rattle.b3_base.specs.Observed as observed;
ghost use Rattle.b3_base.specs.Observed.{start_of, Answer as LeftAnswer};
ghost use Rattle.b3_eval.specs.Stands.{answers_from, state_of, Shows};
ghost use Rattle.b3_eval.specs.Writes.{with_byte};
ghost use Rattle.b3_ir.specs.Types as types_of;
ghost use Rattle.b3_meaning.specs.Run as run;

use crate::access::in_range;
use crate::children::width_of;
use crate::state::{Flow, State};
use b3_base::{Answer, Event, EventKind, Memory, NoMemory, Seq, Start, Status, Widths, low};
use b3_ir::{Ty, Value};
use std::alloc::Global;

/// A call of the function at the first child's address, with the others as arguments.
pub(crate) fn call(
    alloc: Global,
    start: &Start,
    answers: &[Answer],
    taken: &mut usize,
    st: &mut State,
    v: &Value,
    types: &[Ty],
    words: &[u64],
) -> Result<Flow, NoMemory>
    ensures { IfOk result (λ flow. Shows flow (state_of (answers_from answers.now taken.new) st.new)
        (run.calls (start_of start.now)
        (state_of (answers_from answers.now taken.old) st.old) v.now types.now words.now)) }
{
    let ([_, types @ ..], [callee, words @ ..]) = (types, words) else {
        return Ok(Flow::Lost);
    };
    if in_range(*callee, start.code) {
        return Ok(Flow::Lost);
    }
    let kind = EventKind::Call { callee: *callee };
    call_out(alloc, answers, taken, st, v, kind, types, words)
}

/// A patchpoint, with its children as arguments.
pub(crate) fn patch(
    alloc: Global,
    answers: &[Answer],
    taken: &mut usize,
    st: &mut State,
    v: &Value,
    types: &[Ty],
    words: &[u64],
) -> Result<Flow, NoMemory>
    ensures { IfOk result (λ flow. Shows flow (state_of (answers_from answers.now taken.new) st.new)
        (run.patches (state_of (answers_from answers.now taken.old) st.old) v.now types.now words.now)) }
{
    let kind = EventKind::Patch { value: v.id };
    call_out(alloc, answers, taken, st, v, kind, types, words)
}

/// Adds an event, and takes the next answer.
fn call_out(
    alloc: Global,
    answers: &[Answer],
    taken: &mut usize,
    st: &mut State,
    v: &Value,
    kind: EventKind,
    types: &[Ty],
    words: &[u64],
) -> Result<Flow, NoMemory>
    ensures { IfOk result (λ flow. Shows flow (state_of (answers_from answers.now taken.new) st.new)
        (run.calls_out (state_of (answers_from answers.now taken.old) st.old) v.now
        (run.event_of (state_of (answers_from answers.now taken.old) st.old) kind types.now words.now))) }
{
    let event = event_of(alloc, &st.memory, kind, types, words)?;
    st.events.push(event)?;
    answer(answers, taken, st, v)
}

/// The event of a call, with the memory of the moment.
fn event_of(
    alloc: Global,
    memory: &Memory,
    kind: EventKind,
    types: &[Ty],
    words: &[u64],
) -> Result<Event, NoMemory>
    ensures { IfOk result (λ event. observed.event_of event ≡ record {
      kind = kind;
      arguments = words.now;
      widths = map types_of.width_of types.now;
      memory = finite.get memory.now;
    }) }
{
    let mut arguments = Seq::new(alloc);
    arguments.extend(words)?;
    Ok(Event {
        kind,
        arguments,
        widths: widths_of(alloc, types)?,
        memory: memory.copy(alloc)?,
    })
}

fn widths_of(alloc: Global, types: &[Ty]) -> Result<Widths, NoMemory>
    ensures { IfOk result (λ widths. widths ≡ map types_of.width_of types.now) }
{
    let mut widths = Seq::new(alloc);
    for ty in types {
        widths.push(width_of(*ty))?;
    }
    Ok(widths)
}

/// Takes the next answer: the run goes on with what it gives, ends where it leaves, and waits where
/// there is none.
fn answer(
    answers: &[Answer],
    taken: &mut usize,
    st: &mut State,
    v: &Value,
) -> Result<Flow, NoMemory>
    ensures { IfOk result (λ flow. Shows flow (state_of (answers_from answers.now taken.new) st.new)
        (run.answers (state_of (answers_from answers.now taken.old) st.old) v.now
        (answers_from answers.now taken.old))) }
{
    let at = *taken;
    if at >= answers.len() {
        return Ok(Flow::Over(Status::Waiting));
    }
    *taken = at + 1;
    match &answers[at] {
        Answer::Leave => Ok(Flow::Over(Status::Left)),
        Answer::Give { value, writes } => {
            put_writes(&mut st.memory, writes);
            give_value(st, v, *value)
        }
    }
}

/// A value takes the word of an answer, modulo its width; a Void value takes none.
fn give_value(st: &mut State, v: &Value, value: u64) -> Result<Flow, NoMemory>
    ensures { (rest : List LeftAnswer)
        → IfOk result (λ flow. Shows flow (state_of rest st.new)
        (run.Next (run.with_answer (state_of rest st.old) v.now.id v.now.ty value))) }
{
    match v.ty {
        Ty::Void => Ok(Flow::Next),
        Ty::Int32 => st.give(v.id, Some(low(width_of(Ty::Int32), value))),
        Ty::Int64 => st.give(v.id, Some(low(width_of(Ty::Int64), value))),
    }
}

/// Puts the bytes of an answer at the addresses that the memory holds.
fn put_writes(memory: &mut Memory, writes: &Memory)
    ensures { finite.get memory.new ≡ run.with_writes (finite.get memory.old) (finite.get writes.now) }
{
    writes.ranged();
    let mut from = 0u128;
    while from < 0x1_0000_0000_0000_0000 {
        match writes.next_mapped(from as u64) {
            Some(address) => {
                put_byte(memory, writes, address);
                from = u128::from(address) + 1;
            }
            None => return,
        }
    }
}

/// Puts the byte of an answer at an address that it has, where the memory holds it.
fn put_byte(memory: &mut Memory, writes: &Memory, address: u64)
    ensures { finite.get memory.new ≡ with_byte (finite.get memory.old) (finite.get writes.now) address }
{
    writes.ranged();
    match writes.read(address, 1) {
        Some(byte) => {
            memory.write(address, 1, byte);
        }
        None => {}
    }
}
