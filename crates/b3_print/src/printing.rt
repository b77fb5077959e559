//! Writing the lines of a module.

ghost use Rattle.std.specs.Prelude.{◌≡◌, ◌<◌, ◌∷◌, [], ◌++◌, length, map, OnOk, IfOk, slice_get, Some};
ghost use Rattle.std.specs.List.{flat_map};
ghost use Rattle.b3_ir.specs.Fits.{Fits};
ghost use Rattle.b3_ir.specs.Procedure.{Block, procedures, values_of};
ghost use Rattle.b3_rows.specs.declared.row.Row.TheVariants as rows;
ghost use Rattle.b3_rows.specs.Written as spec;
ghost use Rattle.b3_module.specs.Canonical.{bare, canonical_rows, row_of_slot, row_of_targets, rows_of_block, rows_of_procedure, rows_of_value, successors_of};
ghost use Rattle.b3_print.specs.Printed.{canonical, text_of};

use b3_base::{Bytes, NoMemory};
use b3_ir::{Body, Module, Proc, Value};
use b3_written::{
    write_header, write_heading, write_many, write_one, write_slot, write_two, write_value,
};
use std::alloc::Global;

/// Writes the successors of a Jump or a Branch.
fn put_targets(out: &mut Bytes, targets: &[u32]) -> Result<(), NoMemory>
    ensures { OnOk result (out.new ≡ out.old ++ text_of (row_of_targets targets.now)) }
{
    match targets {
        [target] => {
            write_one(out, *target)?;
            out.push(b'\n')
        }
        [then_block, else_block] => {
            write_two(out, *then_block, *else_block)?;
            out.push(b'\n')
        }
        _ => Ok(()),
    }
}

/// Writes the line of a slot.
fn put_slot(out: &mut Bytes, number: u32, bytes: u32) -> Result<(), NoMemory>
    ensures { OnOk result (out.new ≡ out.old ++ text_of (rows.Slot number bytes ∷ [])) }
{
    write_slot(out, number, bytes)?;
    out.push(b'\n')
}

/// Writes the line of a heading.
fn put_heading(out: &mut Bytes, number: u32) -> Result<(), NoMemory>
    ensures { OnOk result (out.new ≡ out.old ++ text_of (rows.Heading number ∷ [])) }
{
    write_heading(out, number)?;
    out.push(b'\n')
}

/// Writes the line of a header.
fn put_header(out: &mut Bytes, name: &str) -> Result<(), NoMemory>
    ensures { OnOk result (out.new ≡ out.old ++ text_of (rows.Header name.now ∷ [])) }
{
    write_header(out, name.as_bytes())?;
    out.push(b'\n')
}

/// Writes the line of a value.
#[tactic(auto, using(crate::proofs::TextLemmas::value_line))]
fn put_line(out: &mut Bytes, value: &Value) -> Result<(), NoMemory>
    requires { Fits value.now }
    ensures { OnOk result (out.new ≡ out.old ++ text_of (rows.ValueRow (bare value.now) ∷ [])) }
{
    write_value(out, value)?;
    out.push(b'\n')
}

/// Writes the line of the successors of cases.
fn put_many(out: &mut Bytes, targets: &[u32]) -> Result<(), NoMemory>
    ensures { OnOk result (out.new ≡ out.old ++ text_of (rows.Many targets.now ∷ [])) }
{
    write_many(out, targets)?;
    out.push(b'\n')
}

/// Writes the line of successors that a body has.
fn put_successors(out: &mut Bytes, body: &Body) -> Result<(), NoMemory>
    ensures { OnOk result (out.new ≡ out.old ++ text_of (successors_of body.now)) }
{
    match body {
        Body::Targets(targets) => put_targets(out, targets.as_slice()),
        Body::Cases { cases: _, targets } => put_many(out, targets.as_slice()),
        _ => Ok(()),
    }
}

/// Writes the line of a value, and that of its successors.
fn put_value(out: &mut Bytes, value: &Value) -> Result<(), NoMemory>
    requires { Fits value.now }
    ensures { OnOk result (out.new ≡ out.old ++ text_of (rows_of_value value.now)) }
{
    put_line(out, value)?;
    put_successors(out, &value.body)
}

fn put_values(out: &mut Bytes, p: &Proc, block: usize) -> Result<(), NoMemory>
    requires { block < length p.now.procedure.blocks }
    ensures { OnOk result (out.new ≡ out.old ++ text_of (flat_map rows_of_value (values_of p.now.procedure block))) }
{
    let mut node = p.first(block);
    while let Some(at) = node {
        put_value(out, p.value(at))?;
        node = p.next(at);
    }
    Ok(())
}

fn put_block(out: &mut Bytes, p: &Proc, at: usize) -> Result<(), NoMemory>
    requires { at < length p.now.procedure.blocks }
    ensures { (b : Block) → slice_get p.now.procedure.blocks at ≡ Some b → OnOk result (out.new ≡ out.old ++ text_of (rows_of_block b)) }
{
    put_heading(out, p.block(at).number)?;
    put_values(out, p, at)
}

fn put_blocks(out: &mut Bytes, p: &Proc) -> Result<(), NoMemory>
    ensures { OnOk result (out.new ≡ out.old ++ text_of (flat_map rows_of_block p.now.procedure.blocks)) }
{
    for at in 0..p.blocks() {
        put_block(out, p, at)?;
    }
    Ok(())
}

fn put_slots(out: &mut Bytes, p: &Proc) -> Result<(), NoMemory>
    ensures { OnOk result (out.new ≡ out.old ++ text_of (map row_of_slot p.now.procedure.slots)) }
{
    for at in 0..p.slots() {
        let slot = p.slot(at);
        put_slot(out, slot.number, slot.bytes)?;
    }
    Ok(())
}

fn put_procedure(out: &mut Bytes, p: &Proc) -> Result<(), NoMemory>
    ensures { OnOk result (out.new ≡ out.old ++ text_of (rows_of_procedure p.now.procedure)) }
{
    put_header(out, p.name())?;
    put_slots(out, p)?;
    put_blocks(out, p)
}

/// The canonical text of a module. It is refused for want of memory alone.
pub fn print(alloc: Global, text: &Module) -> Result<Bytes, NoMemory>
    ensures { IfOk result (λ bytes. bytes ≡ canonical (procedures text.now)) }
{
    let mut out = Bytes::new(alloc);
    for at in 0..text.procs() {
        put_procedure(&mut out, text.proc(at))?;
    }
    Ok(out)
}
