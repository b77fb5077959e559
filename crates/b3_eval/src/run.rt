//! Block steps, and the run.

ghost use Rattle.std.specs.Prelude.{◌≡◌, IfOk, List, map};
ghost use Rattle.b3_base.specs.Observed as observed;
ghost use Rattle.b3_base.specs.Observed.{start_of, Answer as LeftAnswer};
ghost use Rattle.b3_eval.specs.Lookup.{type_in};
ghost use Rattle.b3_eval.specs.Stands.{answers_from, state_of, Leads};
ghost use Rattle.b3_ir.specs.Procedure.{values_of};
ghost use Rattle.b3_meaning.specs.Run as run;

use crate::effect::effect;
use crate::state::{Flow, State};
use crate::types::types_of;
use b3_base::{Answer, Memory, NoMemory, Observation, Seq, Start, Status};
use b3_ir::{Proc, Ty};
use std::alloc::Global;
use std::collections::BTreeMap;

/// What is seen of the run of a procedure after `n` block steps, with these answers to its events. A run
/// that does what B3 leaves undefined, or comes to what no valid procedure has, is Undefined. It is
/// refused for want of memory alone.
pub fn eval(
    alloc: Global,
    p: &Proc,
    start: &Start,
    answers: &[Answer],
    n: u64,
) -> Result<Observation, NoMemory>
    ensures { IfOk result (λ seen. observed.observation_of seen
        ≡ run.b3_run p.now.procedure (start_of start.now) (map observed.answer_of answers.now) n) }
{
    let types = types_of(alloc, p)?;
    let mut st = State::first(alloc, start)?;
    let mut taken = 0;
    let mut block = 0;
    let mut left = n;
    while left > 0 {
        left -= 1;
        match block_step(alloc, p, &types, start, answers, &mut taken, &mut st, block)? {
            Flow::To(next) => block = next,
            Flow::Over(status) => return Ok(seen_as(st, status)),
            Flow::Lost => return Ok(undefined(alloc)),
            Flow::Next => unreachable!(),
        }
    }
    Ok(seen_as(st, Status::Going))
}

/// The values of a block one after the other: an end without a terminal is none of a valid procedure.
fn block_step(
    alloc: Global,
    p: &Proc,
    types: &BTreeMap<u32, Ty>,
    start: &Start,
    answers: &[Answer],
    taken: &mut usize,
    st: &mut State,
    block: u32,
) -> Result<Flow, NoMemory>
    ensures { IfOk result (λ flow. Leads flow (state_of (answers_from answers.now taken.new) st.new)
        (run.run_values (type_in types.now) (start_of start.now) (values_of p.now.procedure block)
        (state_of (answers_from answers.now taken.old) st.old))) }
{
    if block as usize >= p.blocks() {
        return Ok(Flow::Lost);
    }
    let mut at = p.first(block as usize);
    while let Some(node) = at {
        match effect(alloc, types, start, answers, taken, st, p.value(node))? {
            Flow::Next => at = p.next(node),
            Flow::To(next) => return Ok(Flow::To(next)),
            Flow::Over(status) => return Ok(Flow::Over(status)),
            Flow::Lost => return Ok(Flow::Lost),
        }
    }
    Ok(Flow::Lost)
}

/// What is seen of a state.
fn seen_as(st: State, status: Status) -> Observation
    ensures { (rest : List LeftAnswer) → observed.observation_of result ≡ run.seen_as (state_of rest st) status }
{
    Observation {
        status,
        events: st.events,
        memory: st.memory,
    }
}

/// What is seen of a run that is lost.
fn undefined(alloc: Global) -> Observation
    ensures { observed.observation_of result ≡ observed.undefined }
{
    Observation {
        status: Status::Undefined,
        events: Seq::new(alloc),
        memory: Memory::new(alloc),
    }
}
