//! The run of the machine.

ghost use Rattle.std.specs.Prelude.{◌≡◌, ◌↔◌, ◌+◌, ◌<◌, ◌^◌, Err, IfOk, map};
ghost use Rattle.std.specs.List.{Contains};
ghost use Rattle.b3_base.specs.Observed.{answer_of, machine_start_of};
ghost use Rattle.b3_base.specs.Observed as observed;
ghost use Rattle.elf_obj.specs.Good.{IsGood, names_of};
ghost use Rattle.elf_obj.specs.declared.object.Symbol.{Symbol as Named};
ghost use Rattle.exit_table.specs.declared.tables.FrameRow.{FrameRow as Frame};
ghost use Rattle.a64_run.specs.Finding.{IsMisplaced, MayBegin};
ghost use Rattle.a64_run.specs.Kept.{entry_of, state_of, IsSound};
ghost use Rattle.a64_run.specs.Machine as spec;
ghost use Rattle.a64_run.specs.Running.{entry_at};

use crate::entry::{Entry, Flow, State};
use crate::execute::step_once;
use crate::fault::PlaceFault;
use crate::memories::{entry_memory, visible};
use crate::placement::begins;
use a64_inst::{Flags, State as Registers};
use b3_base::{Answer, Events, MachineStart, NoMemory, Observation, Status};
use elf_obj::Object;
use std::alloc::Global;

/// What is seen of the run of the machine from the procedure of a name after `k` steps, with these answers
/// to its events: `NoProcedure` exactly where no symbol has the name, `Placement` exactly where the symbol
/// is there and the machine start may not begin it (DDI 0487 for instructions, AAPCS64 for calls).
pub fn run(
    alloc: Global,
    object: &Object,
    name: &str,
    start: &MachineStart,
    answers: &[Answer],
    k: u64,
) -> Result<Observation, PlaceFault>
    requires { IsGood object.now }
    ensures ok { IfOk result (λ seen. (symbol : Named) × (frame : Frame)
        × MayBegin object.now name.now (machine_start_of start.now) symbol frame
        × (observed.observation_of seen
        ≡ spec.machine_run (entry_at object.now symbol frame start.now) (map answer_of answers.now) k)) }
    ensures no_procedure { (result ≡ Err PlaceFault.NoProcedure) ↔
        (¬ (Contains (names_of object.now.symbols) name.now)) }
    ensures placement { (result ≡ Err PlaceFault.Placement) ↔ IsMisplaced object.now name.now
        (machine_start_of start.now) }
{
    let at = begins(object, name, start)?;
    let e = Entry {
        object,
        symbol: object.symbols.get(at),
        frame: object.tables.frames.get(at),
        start,
    };
    match run_from(alloc, &e, answers, k) {
        Ok(seen) => Ok(seen),
        Err(NoMemory) => Err(PlaceFault::NoMemory),
    }
}

/// What is seen after `k` steps from the symbol.
fn run_from(
    alloc: Global,
    e: &Entry<'_>,
    answers: &[Answer],
    k: u64,
) -> Result<Observation, NoMemory>
    requires sound { IsSound (entry_of e.now) }
    requires starts { e.now.start.now.code + e.now.symbol.now.offset < 2 ^ 64 }
    ensures { IfOk result (λ seen. observed.observation_of seen
        ≡ spec.machine_run (entry_of e.now) (map answer_of answers.now) k) }
{
    let mut st = first(alloc, e, answers)?;
    let mut left = k;
    while left > 0 {
        left -= 1;
        match step_once(alloc, e, &mut st)? {
            Flow::On => {}
            Flow::Over(status) => return seen_as(alloc, e, st, status),
        }
    }
    seen_as(alloc, e, st, Status::Going)
}

/// The run stands at the symbol, with every register as the start says and the flags clear.
fn first<'a>(alloc: Global, e: &Entry<'_>, answers: &'a [Answer]) -> Result<State<'a>, NoMemory>
    requires sound { IsSound (entry_of e.now) }
    requires starts { e.now.start.now.code + e.now.symbol.now.offset < 2 ^ 64 }
    ensures { IfOk result (λ st. spec.Runs (state_of st) ≡ spec.first (entry_of e.now) (map answer_of answers.now)) }
{
    let flags = Flags {
        n: false,
        z: false,
        c: false,
        v: false,
    };
    Ok(State {
        registers: Registers {
            x: e.start.registers,
            sp: e.start.sp,
            pc: e.start.code + u64::from(e.symbol.offset),
            flags,
        },
        memory: entry_memory(alloc, e.frame, e.start)?,
        events: Events::new(alloc),
        answers,
    })
}

/// What is seen of a state.
fn seen_as(
    alloc: Global,
    e: &Entry<'_>,
    st: State<'_>,
    status: Status,
) -> Result<Observation, NoMemory>
    requires { IsSound (entry_of e.now) }
    ensures { IfOk result
        (λ seen. observed.observation_of seen ≡ spec.seen_as (entry_of e.now) (state_of st.entry) status) }
{
    Ok(Observation {
        status,
        memory: visible(alloc, e.frame, e.start, &st.memory)?,
        events: st.events,
    })
}
