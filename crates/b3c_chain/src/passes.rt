//! The passes, called one after the other.

ghost use Rattle.std.specs.Prelude.{◌≡◌, ◌-◌, ◌^◌, ◌<◌, ◌≤◌, length, IfOk};
ghost use Rattle.b3_ir.specs.Procedure.{AllFit, procedures};
ghost use Rattle.b3_rules.specs.Valid.{IsValidProcedure};
ghost use Rattle.b3_module.specs.Limits.{KeepsLimits};
ghost use Rattle.air_ir.specs.Weight.{weight};
ghost use Rattle.air_ir.specs.WellFormed.{IsWellFormed};
ghost use Rattle.air_flow.specs.Proper.{IsProper};
ghost use Rattle.air_select.specs.Contract.{IsWithinLimits, procedure_at};
ghost use Rattle.a64_object.specs.Made.{IsPlacedOf};
ghost use Rattle.a64_object.specs.Taken.{HasFewSlots};

use crate::fault::Fault;
use a64_emit::emit;
use a64_layout::{Text, resolve};
use air_colour::colour;
use air_flow::{AirFlow, kept_homes};
use air_frame::{layout, spill_counts};
use air_graph::graph;
use air_ir::{AirProc, Assignment, same_blocks_laws};
use air_select::select;
use air_spill::rewrite;
use b3_base::{CodeWords, NoMemory};
use b3_module::read;
use b3_validate::{Valid, validate};
use flow_live::live;
use std::alloc::Global;

/// What the passes make of a text.
#[derive(Drop)]
pub struct Chained {
    /// How many procedures it has.
    pub procedures: usize,
    /// The words of their code, one procedure after the other.
    pub words: CodeWords,
    /// How many temporaries have no register.
    pub spilled: usize,
}

/// A procedure in registers and spill places, and how many of its temporaries have no register.
#[derive(Drop)]
struct Placed {
    proc: AirProc,
    spilled: usize,
}

/// How many temporaries have no register.
fn spilled_by(assignment: &Assignment) -> usize {
    let mut count: usize = 0;
    for home in assignment.homes.as_slice() {
        if home.is_none() {
            count = count.saturating_add(1);
        }
    }
    count
}

/// Registers for the temporaries of a procedure: its live homes, its interference graph, and the colouring of that.
fn assigned(alloc: Global, p: &AirProc) -> Result<Assignment, NoMemory>
    requires well { IsWellFormed p.now }
    requires tmps { p.now.tmps ≤ 65536 }
    requires blocks { length p.now.blocks ≤ 4097 }
    requires light { weight p.now ≤ 2 ^ 32 }
    ensures { IfOk result (IsProper p.now) }
{
    kept_homes();
    let flow = AirFlow::new(alloc, p)?;
    let live = live(alloc, &flow)?;
    let graph = graph(alloc, p, &live)?;
    let assignment = colour(alloc, graph)?;
    Ok(assignment)
}

/// Tells that a procedure of a valid module, by its place, keeps all rules, and that each of its values is one that may
/// stand in a procedure. It takes no memory.
fn keeps_rules(valid: &Valid, proc: usize)
    requires { proc < length valid.now }
    ensures valid { IsValidProcedure (procedure_at valid.now proc) }
    ensures fit { AllFit (procedure_at valid.now proc).blocks }
{
    valid.module().proc(proc).whole();
}

/// A procedure of a valid module, by its place: selected, and rewritten by its assignment.
fn place(alloc: Global, valid: &Valid, proc: usize) -> Result<Placed, NoMemory>
    requires there { proc < length valid.now }
    requires limits { IsWithinLimits (procedure_at valid.now proc) }
    ensures { IfOk result (λ made. IsPlacedOf (procedure_at valid.now proc) made.proc) }
{
    keeps_rules(valid, proc);
    same_blocks_laws();
    spill_counts();
    let selected = select(alloc, valid, proc)?;
    let assignment = assigned(alloc, &selected)?;
    let spilled = spilled_by(&assignment);
    let placed = rewrite(alloc, selected, &assignment)?;
    Ok(Placed {
        proc: placed,
        spilled,
    })
}

/// The text of such a procedure: its frame is laid out, and its code emitted and resolved.
fn resolved(alloc: Global, valid: &Valid, proc: usize, placed: &AirProc) -> Result<Text, NoMemory>
    requires there { proc < length valid.now }
    requires limits { IsWithinLimits (procedure_at valid.now proc) }
    requires slots { HasFewSlots (procedure_at valid.now proc) }
    requires placed { IsPlacedOf (procedure_at valid.now proc) placed.now }
{
    keeps_rules(valid, proc);
    let frame = layout(alloc, placed)?;
    let emitted = emit(alloc, placed, &frame)?;
    resolve(alloc, emitted.code)
}

/// Takes a procedure of a valid module, by its place, through the passes behind those before it.
fn push_procedure(
    alloc: Global,
    made: &mut Chained,
    valid: &Valid,
    proc: usize,
) -> Result<(), NoMemory>
    requires there { proc < length valid.now }
    requires limits { IsWithinLimits (procedure_at valid.now proc) }
    requires slots { HasFewSlots (procedure_at valid.now proc) }
{
    let placed = place(alloc, valid, proc)?;
    let text = resolved(alloc, valid, proc, &placed.proc)?;
    made.words.extend(text.words.as_slice())?;
    made.procedures = made.procedures.saturating_add(1);
    made.spilled = made.spilled.saturating_add(placed.spilled);
    Ok(())
}

/// Takes each procedure of a valid module through the passes.
fn chain_valid(alloc: Global, valid: &Valid) -> Result<Chained, NoMemory>
    requires { KeepsLimits (procedures valid.now) }
{
    let mut made = Chained {
        procedures: 0,
        words: CodeWords::new(alloc),
        spilled: 0,
    };
    for at in 0..valid.module().procs() {
        push_procedure(alloc, &mut made, valid, at)?;
    }
    Ok(made)
}

/// Takes a text through the passes: it is read and validated, and each procedure is selected, its live homes, its
/// interference graph and a colouring of that are made, and it is rewritten, laid out, emitted and resolved.
pub fn chain(alloc: Global, text: &[u8]) -> Result<Chained, Fault>
    requires { length text.now < 2 ^ 32 - 1 }
{
    let module = read(alloc, text)?;
    let valid = validate(alloc, module)?;
    let made = chain_valid(alloc, &valid)?;
    Ok(made)
}
