//! Counting what is limited.

ghost use Rattle.std.specs.Prelude.{◌≡◌, ℕ, ◌+◌, ◌<◌, ◌≤◌, nat_lt, false, map, Ok, Err, length, slice_get, Some, IfOk};
ghost use Rattle.std.specs.List.{flat_map};
ghost use Rattle.b3_ir.specs.Procedure.{Block, no_block, procedures, values_of};
ghost use Rattle.b3_module.specs.Limits.{operands, parts_of, parts_of_block, parts_of_slots, parts_of_values};
ghost use Rattle.b3_module.specs.Counting.{anew, counted_all, counted_on, first_told, no_counts, with_header, with_heading, with_slot, with_value};

use crate::fault::LimitName;
use b3_ir::{Body, Module, Proc, Value};

/// How much of what is limited was seen, in the text and in the present procedure.
#[derive(Clone, Copy)]
pub(crate) struct Counts {
    procedures: u64,
    values: u64,
    children: u64,
    procedure_values: u64,
    procedure_blocks: u64,
    procedure_children: u64,
    slots: u64,
    slot_bytes: u64,
}

/// A limit that is passed, and the line that passes it.
#[derive(Clone, Copy)]
pub(crate) struct Passed {
    pub(crate) which: LimitName,
    pub(crate) line: u32,
}

/// Whether so much more passes a limit.
fn is_over(count: u64, more: u64, most: u64) -> bool
    ensures is { result ≡ nat_lt most (count + more) }
    ensures within { result ≡ false → count + more ≤ most }
{
    match count.checked_add(more) {
        Some(sum) => sum > most,
        None => true,
    }
}

fn header(counts: Counts, line: u32) -> Result<Counts, Passed>
    ensures { result ≡ with_header counts line }
{
    if is_over(counts.procedures, 1, 256) {
        return Err(Passed {
            which: LimitName::Procedures,
            line,
        });
    }
    Ok(Counts {
        procedures: counts.procedures + 1,
        ..counts
    })
}

fn slot(counts: Counts, line: u32, bytes: u32) -> Result<Counts, Passed>
    ensures { result ≡ with_slot counts line bytes }
{
    if is_over(counts.slots, 1, 4096) {
        return Err(Passed {
            which: LimitName::Slots,
            line,
        });
    }
    if is_over(counts.slot_bytes, u64::from(bytes), 65536) {
        return Err(Passed {
            which: LimitName::SlotBytes,
            line,
        });
    }
    Ok(Counts {
        slots: counts.slots + 1,
        slot_bytes: counts.slot_bytes + u64::from(bytes),
        ..counts
    })
}

fn heading(counts: Counts, line: u32) -> Result<Counts, Passed>
    ensures { result ≡ with_heading counts line }
{
    if is_over(counts.procedure_blocks, 1, 4096) {
        return Err(Passed {
            which: LimitName::ProcedureBlocks,
            line,
        });
    }
    Ok(Counts {
        procedure_blocks: counts.procedure_blocks + 1,
        ..counts
    })
}

fn value(counts: Counts, line: u32, operands: u64) -> Result<Counts, Passed>
    ensures { result ≡ with_value counts line operands }
{
    if is_over(counts.values, 1, 65536) {
        return Err(Passed {
            which: LimitName::Values,
            line,
        });
    }
    if is_over(counts.children, operands, 262144) {
        return Err(Passed {
            which: LimitName::Children,
            line,
        });
    }
    if is_over(counts.procedure_values, 1, 16384) {
        return Err(Passed {
            which: LimitName::ProcedureValues,
            line,
        });
    }
    if is_over(counts.procedure_children, operands, 131072) {
        return Err(Passed {
            which: LimitName::ProcedureChildren,
            line,
        });
    }
    Ok(Counts {
        values: counts.values + 1,
        children: counts.children + operands,
        procedure_values: counts.procedure_values + 1,
        procedure_children: counts.procedure_children + operands,
        ..counts
    })
}

/// How many children and cases a value has.
fn operands(value: &Value) -> u64
    ensures { result ≡ operands value.now }
{
    let children = value.children.as_slice().len();
    let cases = match &value.body {
        Body::Cases { cases, targets: _ } => cases.as_slice().len(),
        _ => 0,
    };
    (children + cases) as u64
}

fn slots(counts: Counts, p: &Proc) -> Result<Counts, Passed>
    ensures { result ≡ counted_on (Ok counts) (parts_of_slots p.now.procedure.slots) }
{
    let mut counts = counts;
    for at in 0..p.slots() {
        let line = p.slot(at);
        counts = slot(counts, line.line, line.bytes)?;
    }
    Ok(counts)
}

fn values(counts: Counts, p: &Proc, block: usize) -> Result<Counts, Passed>
    requires { block < length p.now.procedure.blocks }
    ensures { result ≡ counted_on (Ok counts) (parts_of_values (values_of p.now.procedure block)) }
{
    let mut counts = counts;
    let mut node = p.first(block);
    while let Some(at) = node {
        let value_at = p.value(at);
        counts = value(counts, value_at.line, operands(value_at))?;
        node = p.next(at);
    }
    Ok(counts)
}

fn block(counts: Counts, p: &Proc, at: usize) -> Result<Counts, Passed>
    requires { at < length p.now.procedure.blocks }
    ensures { (b : Block) → slice_get p.now.procedure.blocks at ≡ Some b → result ≡ counted_on (Ok counts) (parts_of_block b) }
{
    let counts = heading(counts, p.block(at).line)?;
    values(counts, p, at)
}

fn blocks(counts: Counts, p: &Proc) -> Result<Counts, Passed>
    ensures { result ≡ counted_on (Ok counts) (flat_map parts_of_block p.now.procedure.blocks) }
{
    let mut counts = counts;
    for at in 0..p.blocks() {
        counts = block(counts, p, at)?;
    }
    Ok(counts)
}

fn procedure(counts: Counts, p: &Proc) -> Result<Counts, Passed>
    ensures { result ≡ counted_on (anew (Ok counts)) (parts_of p.now.procedure) }
{
    let fresh = Counts {
        procedure_values: 0,
        procedure_blocks: 0,
        procedure_children: 0,
        slots: 0,
        slot_bytes: 0,
        ..counts
    };
    let begun = header(fresh, p.line())?;
    let with_slots = slots(begun, p)?;
    blocks(with_slots, p)
}

fn procs(made: &Module) -> Result<Counts, Passed>
    ensures { result ≡ counted_all (Ok no_counts) (procedures made.now) }
{
    let mut counts = Counts {
        procedures: 0,
        values: 0,
        children: 0,
        procedure_values: 0,
        procedure_blocks: 0,
        procedure_children: 0,
        slots: 0,
        slot_bytes: 0,
    };
    for at in 0..made.procs() {
        counts = procedure(counts, made.proc(at))?;
    }
    Ok(counts)
}

/// The first limit that a module passes.
pub(crate) fn first_passed(made: &Module) -> Option<Passed>
    ensures { result ≡ first_told (counted_all (Ok no_counts) (procedures made.now)) }
{
    procs(made).err()
}
