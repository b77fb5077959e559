//! One step of the machine.

ghost use Rattle.std.specs.Prelude.{◌≡◌, ◌+◌, ◌*◌, ◌%◌, ◌^◌, IfOk};
ghost use Rattle.a64_inst.specs.WellFormed.{IsWellFormed};
ghost use Rattle.a64_run.specs.Kept.{entry_of, state_of, IsSound, Leads};
ghost use Rattle.a64_run.specs.Machine as spec;

use crate::entry::{Entry, Flow, State};
use crate::outside::{goes_on, words_in, world_step};
use crate::saved::{has_returned, keeps_saved, returned_word};
use crate::text::{is_text_byte, site_of, word_at};
use crate::touching::touches_empty_at;
use a64_inst::{BranchKind, Inst, Outcome, step};
use a64_word::decode;
use b3_base::{EventKind, NoMemory, Status};
use stackmap::{Site, SiteKind};
use std::alloc::Global;

/// Whether an instruction is a RET.
fn is_ret(inst: &Inst) -> bool
    ensures { result ≡ spec.is_ret inst.now }
{
    matches!(
        *inst,
        Inst::BranchReg {
            kind: BranchKind::Ret,
            rn: _
        }
    )
}

/// After an instruction: a return to the caller, the next instruction, or a stop where no word begins.
fn arrive(e: &Entry<'_>, st: &State<'_>, inst: &Inst) -> Flow
    ensures { Leads (entry_of e.now) result (state_of st.now)
        (spec.arrive (entry_of e.now) inst.now (state_of st.now)) }
{
    if is_ret(inst) && has_returned(e, &st.registers) {
        Flow::Over(Status::Returned(returned_word(e.frame.returns, &st.registers)))
    } else {
        goes_on(e, st)
    }
}

/// After a BLR at `pc`: at a call, to an address that is no byte of the text, the outside acts.
fn linked(
    alloc: Global,
    e: &Entry<'_>,
    st: &mut State<'_>,
    inst: &Inst,
    pc: u64,
    target: u64,
) -> Result<Flow, NoMemory>
    requires { IsSound (entry_of e.now) }
    ensures { IfOk result (λ flow. Leads (entry_of e.now) flow (state_of st.new)
        (spec.linked (entry_of e.now) inst.now pc target (state_of st.old)
        (spec.of_kind SiteKind.Call (spec.site_at (entry_of e.now) pc)))) }
{
    match site_of(e, SiteKind::Call, pc) {
        Some(site) if !is_text_byte(e, target) => {
            let kind = EventKind::Call { callee: target };
            world_step(alloc, e, st, site, kind, pc.wrapping_add(4))
        }
        _ => Ok(arrive(e, st, inst)),
    }
}

/// A fault at `pc`: at a trap the run ends with the trap's value and the access's first address.
fn faulted(e: &Entry<'_>, pc: u64, address: u64) -> Flow
    requires { IsSound (entry_of e.now) }
    ensures { (s : spec.State) → Leads (entry_of e.now) result s (spec.faulted (entry_of e.now) address s
        (spec.of_kind SiteKind.Trap (spec.site_at (entry_of e.now) pc))) }
{
    match site_of(e, SiteKind::Trap, pc) {
        Some(site) => Flow::Over(Status::Trapped {
            value: site.value,
            address,
        }),
        None => Flow::Over(Status::Stuck),
    }
}

/// A break at `pc`: BRK #1 at an exit ends the run with the words of its places, where saved registers are
/// kept.
fn broken(
    alloc: Global,
    e: &Entry<'_>,
    st: &State<'_>,
    pc: u64,
    number: u16,
) -> Result<Flow, NoMemory>
    requires { IsSound (entry_of e.now) }
    ensures { IfOk result (λ flow. Leads (entry_of e.now) flow (state_of st.now)
        (spec.broken (entry_of e.now) number (state_of st.now)
        (spec.of_kind SiteKind.Exit (spec.site_at (entry_of e.now) pc)))) }
{
    let Some(site) = site_of(e, SiteKind::Exit, pc) else {
        return Ok(Flow::Over(Status::Stuck));
    };
    if number != 1 || !keeps_saved(e, st) {
        return Ok(Flow::Over(Status::Stuck));
    }
    match words_in(alloc, st, site.reps.as_slice())? {
        Some(words) => Ok(Flow::Over(Status::Exited {
            value: site.value,
            reported: words,
        })),
        None => Ok(Flow::Over(Status::Stuck)),
    }
}

/// A well-formed instruction is executed.
fn execute(alloc: Global, e: &Entry<'_>, st: &mut State<'_>, inst: &Inst) -> Result<Flow, NoMemory>
    requires sound { IsSound (entry_of e.now) }
    requires formed { IsWellFormed inst.now }
    ensures { IfOk result (λ flow. Leads (entry_of e.now) flow (state_of st.new)
        (spec.execute (entry_of e.now) (state_of st.old) inst.now)) }
{
    if touches_empty_at(e, st, inst) {
        return Ok(Flow::Over(Status::Stuck));
    }
    let pc = st.registers.pc;
    match step(&mut st.registers, &mut st.memory, inst) {
        Outcome::Next => Ok(arrive(e, st, inst)),
        Outcome::Linked { target } => linked(alloc, e, st, inst, pc, target),
        Outcome::Fault { address } => Ok(faulted(e, pc, address)),
        Outcome::Break(number) => broken(alloc, e, st, pc, number),
    }
}

/// The word at pc is executed, where one stands there and is that of an instruction.
fn fetch(alloc: Global, e: &Entry<'_>, st: &mut State<'_>) -> Result<Flow, NoMemory>
    requires { IsSound (entry_of e.now) }
    ensures { IfOk result (λ flow. Leads (entry_of e.now) flow (state_of st.new)
        (spec.fetched (entry_of e.now) (state_of st.old) (spec.word_at (entry_of e.now) st.old.registers.pc))) }
{
    let Some(word) = word_at(e, st.registers.pc) else {
        return Ok(Flow::Over(Status::Stuck));
    };
    match decode(word) {
        Some(inst) => execute(alloc, e, st, &inst),
        None => Ok(Flow::Over(Status::Stuck)),
    }
}

/// The address after a site that begins at `pc`.
fn end_of(site: &Site, pc: u64) -> u64
    ensures { result ≡ (pc + 4 * site.now.size) % 2 ^ 64 }
{
    pc.wrapping_add(4 * u64::from(site.size))
}

/// One step: at a patchpoint the outside acts in its place, and the run goes on after it.
pub(crate) fn step_once(alloc: Global, e: &Entry<'_>, st: &mut State<'_>) -> Result<Flow, NoMemory>
    requires { IsSound (entry_of e.now) }
    ensures { IfOk result (λ flow. Leads (entry_of e.now) flow (state_of st.new)
        (spec.machine_step (entry_of e.now) (spec.Runs (state_of st.old)))) }
{
    let pc = st.registers.pc;
    match site_of(e, SiteKind::Patchpoint, pc) {
        Some(site) => {
            let kind = EventKind::Patch { value: site.value };
            world_step(alloc, e, st, site, kind, end_of(site, pc))
        }
        None => fetch(alloc, e, st),
    }
}
