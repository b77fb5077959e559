//! The passes of one procedure, one after the other.

ghost use Rattle.std.specs.Prelude.{◌≡◌, ◌^◌, ◌<◌, ◌≤◌, length, All, IfOk};
ghost use Rattle.b3_ir.specs.Procedure.{AllFit};
ghost use Rattle.b3_rules.specs.Valid.{IsValidProcedure};
ghost use Rattle.air_ir.specs.Weight.{weight};
ghost use Rattle.air_ir.specs.WellFormed.{IsWellFormed};
ghost use Rattle.air_flow.specs.Proper.{IsProper};
ghost use Rattle.air_graph.specs.Graph.{IsInterferenceOf};
ghost use Rattle.air_graph.specs.declared.interference.Interference.{Interference};
ghost use Rattle.air_colour.specs.Assigned.{IsColouringOf};
ghost use Rattle.air_frame.specs.Frames as frames;
ghost use Rattle.air_select.specs.Contract.{IsWithinLimits, procedure_at};
ghost use Rattle.a64_object.specs.Made.{IsColouredOf, IsMadeOf, IsPlacedOf, site_rows};
ghost use Rattle.a64_object.specs.Taken.{HasFewSlots};

use a64_emit::emit;
use a64_layout::resolve;
use air_colour::colour;
use air_flow::{AirFlow, kept_homes};
use air_frame::{layout, spill_counts};
use air_graph::graph;
use air_ir::{AirProc, Assignment, Frame, same_blocks_laws};
use air_select::select;
use air_spill::rewrite;
use b3_base::{CodeWords, Ids, NoMemory};
use b3_validate::Valid;
use exit_table::FrameRow;
use flow_live::live;
use stackmap::{Returns, Sites, SlotRow, SlotRows};
use std::alloc::Global;

/// The words of a procedure's code, the row of its frame, and its sites: each begins at the word of its mark.
#[derive(Drop)]
pub struct ProcedureText {
    pub words: CodeWords,
    pub row: FrameRow,
    pub marks: Ids,
    pub sites: Sites,
}

/// Registers for the temporaries of a procedure, by colouring its interference graph. It is refused for want of memory
/// alone.
pub fn coloured(alloc: Global, p: &AirProc) -> Result<Assignment, NoMemory>
    requires well { IsWellFormed p.now }
    requires tmps { p.now.tmps ≤ 65536 }
    requires blocks { length p.now.blocks ≤ 4097 }
    requires light { weight p.now ≤ 2 ^ 32 }
    ensures proper { IfOk result (IsProper p.now) }
    ensures coloured { IfOk result (λ a. (g : Interference) × IsInterferenceOf p.now g × IsColouringOf g a) }
{
    kept_homes();
    let flow = AirFlow::new(alloc, p)?;
    let live = live(alloc, &flow)?;
    let graph = graph(alloc, p, &live)?;
    let assignment = colour(alloc, graph)?;
    Ok(assignment)
}

/// Tells that a procedure of a valid module, by its place, keeps all rules, and that each of its values is one that may
/// stand in a procedure. It takes no memory.
fn keeps_rules(valid: &Valid, proc: usize)
    requires { proc < length valid.now }
    ensures valid { IsValidProcedure (procedure_at valid.now proc) }
    ensures fit { AllFit (procedure_at valid.now proc).blocks }
{
    valid.module().proc(proc).whole();
}

/// A procedure of a valid module, by its place, in registers and spill places: it is selected, and its temporaries are
/// coloured. It is refused for want of memory alone.
pub fn placed_procedure(alloc: Global, valid: &Valid, proc: usize) -> Result<AirProc, NoMemory>
    requires there { proc < length valid.now }
    requires limits { IsWithinLimits (procedure_at valid.now proc) }
    ensures placed { IfOk result (IsPlacedOf (procedure_at valid.now proc)) }
    ensures coloured { IfOk result (IsColouredOf (procedure_at valid.now proc)) }
{
    keeps_rules(valid, proc);
    same_blocks_laws();
    spill_counts();
    let selected = select(alloc, valid, proc)?;
    let assignment = coloured(alloc, &selected)?;
    let placed = rewrite(alloc, selected, &assignment)?;
    Ok(placed)
}

/// The text of a procedure of a valid module, by its place: it is selected, rewritten, laid out, emitted and resolved.
/// It is refused for want of memory alone.
pub fn procedure_text(alloc: Global, valid: &Valid, proc: usize) -> Result<ProcedureText, NoMemory>
    requires there { proc < length valid.now }
    requires limits { IsWithinLimits (procedure_at valid.now proc) }
    requires slots { HasFewSlots (procedure_at valid.now proc) }
    ensures made { IfOk result (λ t. IsMadeOf (procedure_at valid.now proc) t.words t.row (site_rows t.marks t.sites)) }
    ensures marks { IfOk result (λ t. length t.marks ≡ length t.sites) }
    ensures within { IfOk result (λ t. All (λ mark. mark < 2 ^ 24) t.marks) }
{
    keeps_rules(valid, proc);
    let placed = placed_procedure(alloc, valid, proc)?;
    let frame = layout(alloc, &placed)?;
    let emitted = emit(alloc, &placed, &frame)?;
    let text = resolve(alloc, emitted.code)?;
    let row = frame_row(alloc, frame, &placed.slots, placed.returns)?;
    Ok(ProcedureText {
        words: text.words,
        row,
        marks: text.marks,
        sites: emitted.sites,
    })
}

/// The rows of slots at these offsets, with these sizes.
fn slot_rows(alloc: Global, offsets: &Ids, sizes: &Ids) -> Result<SlotRows, NoMemory>
    requires { length offsets.now ≡ length sizes.now }
    ensures { IfOk result (λ rows. rows ≡ frames.slot_rows offsets.now sizes.now) }
{
    let mut rows = SlotRows::new(alloc);
    for k in 0..offsets.len() {
        rows.push(SlotRow {
            offset: *offsets.get(k),
            size: *sizes.get(k),
        })?;
    }
    Ok(rows)
}

/// The row of a frame whose slots have these sizes.
fn frame_row(
    alloc: Global,
    frame: Frame,
    sizes: &Ids,
    returns: Returns,
) -> Result<FrameRow, NoMemory>
    requires { length frame.slots ≡ length sizes.now }
    ensures { IfOk result (λ row. row ≡ frames.row_of frame sizes.now returns) }
{
    let slots = slot_rows(alloc, &frame.slots, sizes)?;
    Ok(FrameRow {
        bytes: frame.bytes,
        returns,
        slots,
        saved: frame.saved,
    })
}
