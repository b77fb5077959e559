//! The text of a large module, made from a number.

ghost use Rattle.std.specs.Prelude.{◌≡◌, ◌≤◌, ◌<◌, ◌^◌, ◌++◌, ◌∷◌, [], OnOk, IfOk, codes, length};
ghost use Rattle.std.specs.Fmt.{decimal};
ghost use Rattle.b3_ir.specs.Table.{row_of};
ghost use Rattle.b3_rows.specs.declared.row.Row.TheVariants as rows;
ghost use Rattle.b3_written.specs.Listed.{FitsWord};
ghost use Rattle.b3_trial.specs.Generated as spec;

use crate::numbers::put_decimal;
use b3_base::{Bytes, Name, NoMemory};
use b3_ir::{Body, Children, Kind, Opcode, Reg, Ty, Value};
use b3_written::{write_header, write_heading, write_one, write_two, write_value};
use std::alloc::Global;

/// One draw.
#[tactic(auto, using(crate::proofs::GeneratedLemmas::state_next))]
fn draw(state: &mut u64) -> u64
    ensures moved { state.new ≡ spec.next_state state.old }
    ensures gives { result ≡ spec.drawn state.old }
{
    *state = state
        .wrapping_mul(6364136223846793005)
        .wrapping_add(1442695040888963407);
    *state >> 33
}

fn opcode_of(number: u64) -> Opcode
    ensures { result ≡ spec.opcode_of number }
{
    match number {
        0 => Opcode::Add,
        1 => Opcode::Sub,
        2 => Opcode::Mul,
        3 => Opcode::BitAnd,
        4 => Opcode::BitOr,
        _ => Opcode::BitXor,
    }
}

/// A value that stands before value `k`.
fn child_before(k: u32, draw: u64) -> u32
    requires low { 3 ≤ k }
    requires high { k < 2 ^ 31 }
    ensures { result ≡ spec.child_before k draw }
{
    let at = (draw % u64::from(k - 2)) as u32;
    if at < 10 { at } else { at + 2 }
}

// ---- lines

fn children_of(alloc: Global, ids: &[u32]) -> Result<Children, NoMemory>
    ensures { IfOk result (λ children. children ≡ ids.now) }
{
    let mut children = Children::new(alloc);
    let mut left = ids;
    while let Some((id, more)) = left.split_first() {
        children.push(*id)?;
        left = more;
    }
    Ok(children)
}

fn put_end(out: &mut Bytes) -> Result<(), NoMemory>
    ensures { OnOk result (out.new ≡ out.old ++ 10 ∷ []) }
{
    out.push(b'\n')
}

fn put_value(
    alloc: Global,
    out: &mut Bytes,
    ty: Ty,
    id: u32,
    opcode: Opcode,
    ids: &[u32],
    body: Body,
) -> Result<(), NoMemory>
    requires { FitsWord (row_of opcode).carries body }
    ensures { OnOk result (out.new ≡ out.old ++ spec.text_of (spec.value_row ty id opcode ids.now body ∷ [])) }
{
    let value = Value {
        id,
        ty,
        kind: Kind::plain(opcode),
        children: children_of(alloc, ids)?,
        body,
        line: 0,
    };
    write_value(out, &value)?;
    put_end(out)
}

fn put_header(out: &mut Bytes, p: u32) -> Result<(), NoMemory>
    ensures { OnOk result (out.new ≡ out.old ++ spec.text_of (rows.Header (codes "g" ++ decimal p) ∷ [])) }
{
    out.extend(b"procedure g")?;
    put_decimal(out, u64::from(p))?;
    put_end(out)
}

fn put_heading(out: &mut Bytes, number: u32) -> Result<(), NoMemory>
    ensures { OnOk result (out.new ≡ out.old ++ spec.text_of (rows.Heading number ∷ [])) }
{
    write_heading(out, number)?;
    put_end(out)
}

fn put_one(out: &mut Bytes, target: u32) -> Result<(), NoMemory>
    ensures { OnOk result (out.new ≡ out.old ++ spec.text_of (rows.One target ∷ [])) }
{
    write_one(out, target)?;
    put_end(out)
}

fn put_two(out: &mut Bytes, then_block: u32, else_block: u32) -> Result<(), NoMemory>
    ensures { OnOk result (out.new ≡ out.old ++ spec.text_of (rows.Two then_block else_block ∷ [])) }
{
    write_two(out, then_block, else_block)?;
    put_end(out)
}

// ---- blocks

fn put_arguments(alloc: Global, out: &mut Bytes) -> Result<(), NoMemory>
    ensures { OnOk result (out.new ≡ out.old ++ spec.text_of (spec.arguments 8 0)) }
{
    for r in 0..8u8 {
        put_value(
            alloc,
            out,
            Ty::Int64,
            u32::from(r),
            Opcode::ArgumentReg,
            &[],
            Body::Argument(Reg(r)),
        )?;
    }
    Ok(())
}

#[tactic(auto, using(crate::proofs::GeneratedLemmas::texts_joined))]
fn put_constants(alloc: Global, out: &mut Bytes, constant: u64) -> Result<(), NoMemory>
    ensures { OnOk result (out.new ≡ out.old ++ spec.text_of (spec.constants constant)) }
{
    put_value(
        alloc,
        out,
        Ty::Int64,
        8,
        Opcode::Const64,
        &[],
        Body::Constant(1),
    )?;
    put_value(
        alloc,
        out,
        Ty::Int64,
        9,
        Opcode::Const64,
        &[],
        Body::Constant(constant),
    )
}

#[tactic(auto, using(crate::proofs::GeneratedLemmas::texts_joined))]
fn put_entry_end(alloc: Global, out: &mut Bytes) -> Result<(), NoMemory>
    ensures { OnOk result (out.new ≡ out.old ++ spec.text_of spec.entry_end) }
{
    put_value(
        alloc,
        out,
        Ty::Void,
        10,
        Opcode::Upsilon,
        &[0],
        Body::Target(12),
    )?;
    put_value(alloc, out, Ty::Void, 11, Opcode::Jump, &[], Body::Plain)?;
    put_one(out, 1)
}

#[tactic(auto, using(crate::proofs::GeneratedLemmas::texts_joined))]
fn put_loop_front(alloc: Global, out: &mut Bytes) -> Result<(), NoMemory>
    ensures { OnOk result (out.new ≡ out.old ++ spec.text_of spec.loop_front) }
{
    put_heading(out, 1)?;
    put_value(alloc, out, Ty::Int64, 12, Opcode::Phi, &[], Body::Plain)
}

/// One value of arithmetic.
fn put_operation(alloc: Global, out: &mut Bytes, state: &mut u64, k: u32) -> Result<(), NoMemory>
    requires low { 3 ≤ k }
    requires high { k < 2 ^ 31 }
    ensures text { OnOk result (out.new ≡ out.old ++ spec.text_of (spec.operation state.old k ∷ [])) }
    ensures moved { state.new ≡ spec.next_state (spec.next_state (spec.next_state state.old)) }
{
    let opcode = opcode_of(draw(state) % 6);
    let first = child_before(k, draw(state));
    let second = child_before(k, draw(state));
    put_value(
        alloc,
        out,
        Ty::Int64,
        k,
        opcode,
        &[first, second],
        Body::Plain,
    )
}

fn put_operations(alloc: Global, out: &mut Bytes, state: &mut u64) -> Result<(), NoMemory>
    ensures text { OnOk result (out.new ≡ out.old ++ spec.text_of (spec.operations 500 state.old 13)) }
    ensures moved { OnOk result (state.new ≡ spec.state_behind 1500 state.old) }
{
    for k in 13..513u32 {
        put_operation(alloc, out, state, k)?;
    }
    Ok(())
}

#[tactic(auto, using(crate::proofs::GeneratedLemmas::texts_joined))]
fn put_loop_back(alloc: Global, out: &mut Bytes) -> Result<(), NoMemory>
    ensures { OnOk result (out.new ≡ out.old ++ spec.text_of spec.loop_back) }
{
    put_value(
        alloc,
        out,
        Ty::Void,
        513,
        Opcode::Upsilon,
        &[512],
        Body::Target(12),
    )?;
    put_value(
        alloc,
        out,
        Ty::Int32,
        514,
        Opcode::LessThan,
        &[512, 1],
        Body::Plain,
    )?;
    put_value(
        alloc,
        out,
        Ty::Void,
        515,
        Opcode::Branch,
        &[514],
        Body::Plain,
    )?;
    put_two(out, 1, 2)
}

#[tactic(auto, using(crate::proofs::GeneratedLemmas::texts_joined))]
fn put_last(alloc: Global, out: &mut Bytes) -> Result<(), NoMemory>
    ensures { OnOk result (out.new ≡ out.old ++ spec.text_of spec.last_block) }
{
    put_heading(out, 2)?;
    put_value(
        alloc,
        out,
        Ty::Void,
        516,
        Opcode::Return,
        &[512],
        Body::Plain,
    )
}

#[tactic(auto, using(crate::proofs::GeneratedLemmas::texts_joined), unfolding(crate::specs::Generated::entry))]
fn put_entry(alloc: Global, out: &mut Bytes, p: u32, constant: u64) -> Result<(), NoMemory>
    ensures { OnOk result (out.new ≡ out.old ++ spec.text_of (spec.entry p constant)) }
{
    put_header(out, p)?;
    put_heading(out, 0)?;
    put_arguments(alloc, out)?;
    put_constants(alloc, out, constant)?;
    put_entry_end(alloc, out)
}

#[tactic(auto, using(crate::proofs::GeneratedLemmas::texts_joined), unfolding(crate::specs::Generated::procedure_rows))]
/// Procedure `g` p.
fn put_procedure(alloc: Global, out: &mut Bytes, state: &mut u64, p: u32) -> Result<(), NoMemory>
    ensures text { OnOk result (out.new ≡ out.old ++ spec.text_of (spec.procedure_rows state.old p)) }
    ensures moved { OnOk result (state.new ≡ spec.state_behind 1501 state.old) }
{
    let constant = draw(state);
    put_entry(alloc, out, p, constant)?;
    put_loop_front(alloc, out)?;
    put_operations(alloc, out, state)?;
    put_loop_back(alloc, out)?;
    put_last(alloc, out)
}

/// The text of the module that is made from `n`: 16 procedures of 517 values. It has at most 16,777,216 bytes. It is
/// refused for want of memory alone.
pub fn generate(alloc: Global, n: u32) -> Result<Bytes, NoMemory>
    ensures text { IfOk result (λ text. text ≡ spec.generated n) }
    ensures small { IfOk result (λ text. length text ≤ 16777216) }
{
    let mut out = Bytes::new(alloc);
    let mut state = u64::from(n);
    for p in 0..16u32 {
        put_procedure(alloc, &mut out, &mut state, p)?;
    }
    Ok(out)
}
