//! The line of a value.

ghost use Rattle.std.specs.Prelude.{◌≡◌, ◌≤◌, ◌<◌, ◌∷◌, [], ◌++◌, length, drop, IfOk, IfSome, option_map};
ghost use Rattle.b3_ir.specs.Table.{row_of};
ghost use Rattle.b3_lines.specs.Tokens.{tokens};
ghost use Rattle.b3_rows.specs.Values as spec;
ghost use Rattle.b3_items.specs.Numbers.{viewed};

use crate::gathered::{Gathered, Lead, items_in};
use b3_base::{Ids, NoMemory, Width, Words};
use b3_ir::{
    Body, Carries, Children, Constraint, Constraints, Kind, Reg, RegSet, Stackmap, Ty, Value,
};
use b3_items::{carries_of, is_mark_of, read_id, read_kind, read_type, taken_by};
use b3_lines::next_token;
use std::alloc::Global;

/// What stands before the parentheses.
#[derive(Clone, Copy, Debug, PartialEq, Eq)]
pub struct Head {
    pub ty: Ty,
    pub id: u32,
    pub kind: Kind,
}

#[tactic(auto, unfolding(crate::specs::Values::head_parts))]
fn head_parts(ty: &[u8], id: &[u8], kind: &[u8]) -> Option<Head>
    ensures { result ≡ spec.head_parts ty.now id.now kind.now }
{
    Some(Head {
        ty: read_type(ty)?,
        id: read_id(id)?,
        kind: read_kind(kind)?,
    })
}

/// `TYPE ID = KIND`.
#[tactic(auto, unfolding(crate::specs::Values::head_of))]
fn read_head(text: &[u8]) -> Option<Head>
    ensures { result ≡ spec.head_of (tokens text.now) }
{
    let (ty, rest) = next_token(text)?;
    let (id, rest) = next_token(rest)?;
    let (mark, rest) = next_token(rest)?;
    let (kind, rest) = next_token(rest)?;
    if next_token(rest).is_some() || !is_mark_of(mark, b'=') {
        return None;
    }
    head_parts(ty, id, kind)
}

// ---- the body that items give

fn lead_word(width: Width, lead: Lead) -> Option<u64>
    ensures { result ≡ spec.lead_word width lead }
{
    match lead {
        Lead::NumberLead(number) => number.word(width),
        _ => None,
    }
}

fn lead_reg(lead: Lead) -> Option<Reg>
    ensures { result ≡ spec.lead_reg lead }
{
    match lead {
        Lead::RegisterLead(reg) => Some(reg),
        _ => None,
    }
}

fn lead_slot(lead: Lead) -> Option<u32>
    ensures { result ≡ spec.lead_slot lead }
{
    match lead {
        Lead::SlotLead(number) => Some(number),
        _ => None,
    }
}

fn constant_body(width: Width, lead: Lead) -> Option<Body>
    ensures { result ≡ spec.constant_body width lead }
{
    Some(Body::Constant(lead_word(width, lead)?))
}

fn argument_body(lead: Lead) -> Option<Body>
    ensures { result ≡ spec.argument_body lead }
{
    Some(Body::Argument(lead_reg(lead)?))
}

fn slot_body(lead: Lead) -> Option<Body>
    ensures { result ≡ spec.slot_body lead }
{
    Some(Body::Slot(lead_slot(lead)?))
}

fn target_body(phi: Option<u32>) -> Option<Body>
    ensures { result ≡ spec.target_body phi }
{
    Some(Body::Target(phi?))
}

fn offset_or_zero(offset: Option<i32>) -> i32
    ensures { result ≡ spec.offset_or_zero offset }
{
    match offset {
        Some(bytes) => bytes,
        None => 0,
    }
}

fn size_or_one(size: Option<u32>) -> u32
    ensures { result ≡ spec.or_else 1 size }
{
    match size {
        Some(size) => size,
        None => 1,
    }
}

fn set_or_none(set: Option<RegSet>) -> RegSet
    ensures { result ≡ spec.or_else 0 set }
{
    match set {
        Some(set) => set,
        None => RegSet::new(),
    }
}

fn place_or_any(place: Option<Constraint>) -> Constraint
    ensures { result ≡ spec.or_else Constraint.SomeRegister place }
{
    match place {
        Some(place) => place,
        None => Constraint::SomeRegister,
    }
}

/// The place of the result of a Patchpoint.
fn result_place(ty: Ty, place: Option<Constraint>) -> Constraint
    ensures { result ≡ spec.result_of ty place }
{
    match ty {
        Ty::Void => Constraint::SomeRegister,
        Ty::Int32 | Ty::Int64 => place_or_any(place),
    }
}

/// The constraints behind the first `skip`.
fn behind(alloc: Global, constraints: &Constraints, skip: usize) -> Result<Constraints, NoMemory>
    ensures { IfOk result (λ list. list ≡ drop skip constraints.now) }
{
    let mut list = Constraints::new(alloc);
    let all = constraints.as_slice();
    if skip < all.len() {
        list.extend(&all[skip..])?;
    }
    Ok(list)
}

#[tactic(auto, unfolding(crate::specs::Values::site_map))]
fn site_map(alloc: Global, ty: Ty, skip: usize, items: &Gathered) -> Result<Stackmap, NoMemory>
    ensures { IfOk result (λ map. map ≡ spec.site_map ty skip items.now) }
{
    Ok(Stackmap {
        constraints: behind(alloc, &items.constraints, skip)?,
        result: result_place(ty, items.result_place),
        early: set_or_none(items.early),
        late: set_or_none(items.late),
        size: size_or_one(items.size),
    })
}

#[tactic(auto, unfolding(crate::specs::Values::exit_map))]
fn exit_map(alloc: Global, skip: usize, items: &Gathered) -> Result<Stackmap, NoMemory>
    ensures { IfOk result (λ map. map ≡ spec.exit_map skip items.now) }
{
    Ok(Stackmap {
        constraints: behind(alloc, &items.constraints, skip)?,
        result: Constraint::SomeRegister,
        early: set_or_none(items.early),
        late: set_or_none(items.late),
        size: 1,
    })
}

fn cases_body(alloc: Global, cases: &Option<Words>) -> Result<Option<Body>, NoMemory>
    ensures { IfOk result (λ found. found ≡ spec.cases_body cases.now) }
{
    match cases {
        Some(words) => Ok(Some(Body::Cases {
            cases: words.copy(alloc)?,
            targets: Ids::new(alloc),
        })),
        None => Ok(None),
    }
}

/// The body, without successors; the opcode computes with `skip` children.
#[tactic(auto, unfolding(crate::specs::Values::body_of))]
fn body_of(
    alloc: Global,
    carries: Carries,
    ty: Ty,
    skip: usize,
    items: &Gathered,
) -> Result<Option<Body>, NoMemory>
    ensures { IfOk result (λ found. found ≡ spec.body_of carries ty skip items.now) }
{
    match carries {
        Carries::Nothing => Ok(Some(Body::Plain)),
        Carries::Number(width) => Ok(constant_body(width, items.lead)),
        Carries::Register => Ok(argument_body(items.lead)),
        Carries::SlotNumber => Ok(slot_body(items.lead)),
        Carries::Offset => Ok(Some(Body::Offset(offset_or_zero(items.offset)))),
        Carries::PhiId => Ok(target_body(items.phi)),
        Carries::Site => Ok(Some(Body::Map(site_map(alloc, ty, skip, items)?))),
        Carries::Exit => Ok(Some(Body::Map(exit_map(alloc, skip, items)?))),
        Carries::OneSuccessor | Carries::TwoSuccessors => Ok(Some(Body::Targets(Ids::new(alloc)))),
        Carries::CaseSuccessors => cases_body(alloc, &items.cases),
    }
}

fn value(head: Head, children: Children, body: Body) -> Value
    ensures { result ≡ spec.value head children body }
{
    Value {
        id: head.id,
        ty: head.ty,
        kind: head.kind,
        children,
        body,
        line: 0,
    }
}

#[tactic(auto, unfolding(crate::specs::Values::built))]
fn built(alloc: Global, head: Head, items: Gathered) -> Result<Option<Value>, NoMemory>
    ensures { IfOk result (λ found. found ≡ spec.built head items) }
{
    let opcode = head.kind.opcode;
    match body_of(alloc, carries_of(opcode), head.ty, taken_by(opcode), &items)? {
        Some(body) => Ok(Some(value(head, items.children, body))),
        None => Ok(None),
    }
}

// ---- the line

#[tactic(auto, unfolding(crate::specs::Values::open_in))]
fn open_in(text: &[u8]) -> Option<usize>
    ensures is { result ≡ spec.open_in text.now }
    ensures within { IfSome result (λ at. at < length text.now) }
{
    text.iter().position(|b| *b == b'(')
}

/// What stands before `)` at the end.
#[tactic(auto, using(crate::proofs::ValueLemmas::inner_yes, crate::proofs::ValueLemmas::inner_no, crate::proofs::ValueLemmas::inner_none))]
fn inner(text: &[u8]) -> Option<&[u8]>
    ensures { viewed result ≡ spec.inner_of text.now }
{
    let (last, inner) = text.split_last()?;
    if *last == b')' { Some(inner) } else { None }
}

fn value_at(alloc: Global, text: &[u8], at: usize) -> Result<Option<Value>, NoMemory>
    requires { at < length text.now }
    ensures { IfOk result (λ found. found ≡ spec.value_at text.now at) }
{
    let Some(head) = read_head(&text[..at]) else {
        return Ok(None);
    };
    let Some(inner) = inner(&text[at + 1..]) else {
        return Ok(None);
    };
    let Some(items) = items_in(alloc, carries_of(head.kind.opcode), inner)? else {
        return Ok(None);
    };
    built(alloc, head, items)
}

/// What the line of a value says, without blanks at its end.
#[tactic(auto, unfolding(crate::specs::Values::value_of))]
pub(crate) fn read_value(alloc: Global, text: &[u8]) -> Result<Option<Value>, NoMemory>
    ensures { IfOk result (λ found. found ≡ spec.value_of text.now) }
{
    match open_in(text) {
        None => Ok(None),
        Some(at) => value_at(alloc, text, at),
    }
}
