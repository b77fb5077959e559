//! Items, written.

ghost use Rattle.std.specs.Prelude.{◌≡◌, ◌-◌, ◌≤◌, ◌<◌, ◌+◌, ◌++◌, ◌^◌, ◌∷◌, [], ℕ, false, All, Some, None, Option, OnOk, OnSome, IfOk, length, map, codes, nat_eq};
ghost use Rattle.std.specs.Fmt.{decimal, signed_decimal};
ghost use Rattle.std.specs.Int.{bit_at};
ghost use Rattle.b3_ir.specs.Table.{row_of};
ghost use Rattle.b3_rows.specs.Written as spec;
ghost use Rattle.b3_written.specs.Listed as list;

use crate::numbers::{
    put_constraint, put_decimal, put_offset, put_register, put_separator, put_word,
};
use b3_base::{Bytes, NoMemory, Width};
use b3_ir::{Body, Carries, Constraint, Reg, RegSet, Stackmap};
use std::alloc::Global;

fn put_id(out: &mut Bytes, id: u32) -> Result<(), NoMemory>
    ensures { OnOk result (out.new ≡ out.old ++ spec.child_text id) }
{
    out.extend(b"b@")?;
    put_decimal(out, id)
}

/// A child, with a constraint where there is one.
fn put_child(out: &mut Bytes, id: u32, constraint: Option<Constraint>) -> Result<(), NoMemory>
    ensures { OnOk result (out.new ≡ out.old ++ list.child_with id constraint) }
{
    put_id(out, id)?;
    match constraint {
        Some(constraint) => {
            out.extend(b":")?;
            put_constraint(out, constraint)
        }
        None => Ok(()),
    }
}

fn one_less(count: usize) -> usize
    ensures { result ≡ count - 1 }
{
    if count == 0 { 0 } else { count - 1 }
}

/// The constraint of the next child, where `left` children come before those that have one.
fn next_place(left: usize, places: &[Constraint]) -> Option<Constraint>
    ensures { result ≡ list.place_of left places.now }
{
    if left > 0 {
        return None;
    }
    let (place, _) = places.split_first()?;
    Some(*place)
}

fn next_places(left: usize, places: &[Constraint]) -> &[Constraint]
    ensures { result.now ≡ list.places_behind left places.now }
{
    if left > 0 {
        return places;
    }
    match places.split_first() {
        Some((_, others)) => others,
        None => places,
    }
}

/// The children, those behind the first `skip` with their constraints. It tells whether items stand before what
/// follows.
#[tactic(auto, using(crate::proofs::ListedLemmas::listed_none))]
pub(crate) fn put_children(
    out: &mut Bytes,
    before: bool,
    skip: usize,
    children: &[u32],
    constraints: &[Constraint],
) -> Result<bool, NoMemory>
    ensures text { OnOk result (out.new ≡ out.old ++ list.listed before (spec.child_texts skip children.now constraints.now)) }
    ensures some { IfOk result (λ some. some ≡ list.some_with before (spec.child_texts skip children.now constraints.now)) }
{
    let mut some = before;
    let mut left = skip;
    let mut ids = children;
    let mut places = constraints;
    while let Some((id, more)) = ids.split_first() {
        put_separator(out, some)?;
        put_child(out, *id, next_place(left, places))?;
        places = next_places(left, places);
        left = one_less(left);
        ids = more;
        some = true;
    }
    Ok(some)
}

// ---- sets of registers

/// Whether x r is a member of a set.
fn has(set: RegSet, r: u8) -> bool
    requires { r ≤ 30 }
    ensures { result ≡ nat_eq (bit_at set r) 1 }
{
    (set.bits() >> r) & 1 == 1
}

/// x r where it is a member of a set. It tells whether items stand before what follows.
#[tactic(auto, using(crate::proofs::ListedLemmas::listed_first, crate::proofs::ListedLemmas::listed_none))]
fn put_member(out: &mut Bytes, some: bool, set: RegSet, r: u8) -> Result<bool, NoMemory>
    requires { r ≤ 30 }
    ensures text { OnOk result (out.new ≡ out.old ++ list.listed some (list.member_texts set r)) }
    ensures some { IfOk result (λ more. more ≡ list.some_with some (list.member_texts set r)) }
{
    if !has(set, r) {
        return Ok(some);
    }
    put_separator(out, some)?;
    put_register(out, Reg(r))?;
    Ok(true)
}

/// The members of a set in rising order.
fn put_members(out: &mut Bytes, set: RegSet) -> Result<(), NoMemory>
    ensures { OnOk result (out.new ≡ out.old ++ spec.joined (map spec.reg_text (spec.members_from set 0 31))) }
{
    let mut some = false;
    let mut r: u8 = 0;
    while r < 31 {
        some = put_member(out, some, set, r)?;
        r += 1;
    }
    Ok(())
}

fn put_set(out: &mut Bytes, set: RegSet) -> Result<(), NoMemory>
    ensures { OnOk result (out.new ≡ out.old ++ spec.set_text set) }
{
    out.extend(b"[")?;
    put_members(out, set)?;
    out.extend(b"]")
}

// ---- cases

#[tactic(auto, using(crate::proofs::ListedLemmas::listed_none))]
fn put_words(out: &mut Bytes, words: &[u64]) -> Result<(), NoMemory>
    ensures { OnOk result (out.new ≡ out.old ++ spec.joined (map (spec.word_text Width.W64) words.now)) }
{
    let mut some = false;
    let mut left = words;
    while let Some((word, more)) = left.split_first() {
        put_separator(out, some)?;
        put_word(out, Width::W64, *word)?;
        some = true;
        left = more;
    }
    Ok(())
}

/// The name of a named item.
fn put_name(out: &mut Bytes, some: bool, name: &[u8]) -> Result<(), NoMemory>
    ensures { OnOk result (out.new ≡ out.old ++ (list.separator some ++ (name.now ++ codes " = "))) }
{
    put_separator(out, some)?;
    out.extend(name)?;
    out.extend(b" = ")
}

#[tactic(auto, using(crate::proofs::ListedLemmas::named_step, crate::proofs::ListedLemmas::listed_none))]
fn put_offset_item(out: &mut Bytes, some: bool, bytes: i32) -> Result<bool, NoMemory>
    ensures text { OnOk result (out.new ≡ out.old ++ list.listed some (spec.named_text (spec.is_zero bytes) (codes "offset") (signed_decimal bytes))) }
    ensures some { IfOk result (λ more. more ≡ list.some_with some (spec.named_text (spec.is_zero bytes) (codes "offset") (signed_decimal bytes))) }
{
    if bytes == 0 {
        return Ok(some);
    }
    put_name(out, some, b"offset")?;
    put_offset(out, bytes)?;
    Ok(true)
}

#[tactic(auto, using(crate::proofs::ListedLemmas::named_step, crate::proofs::ListedLemmas::listed_none))]
fn put_result_item(out: &mut Bytes, some: bool, place: Constraint) -> Result<bool, NoMemory>
    ensures text { OnOk result (out.new ≡ out.old ++ list.listed some (spec.named_text (spec.is_some_register place) (codes "resultConstraint") (spec.constraint_text place))) }
    ensures some { IfOk result (λ more. more ≡ list.some_with some (spec.named_text (spec.is_some_register place) (codes "resultConstraint") (spec.constraint_text place))) }
{
    if matches!(place, Constraint::SomeRegister) {
        return Ok(some);
    }
    put_name(out, some, b"resultConstraint")?;
    put_constraint(out, place)?;
    Ok(true)
}

#[tactic(auto, using(crate::proofs::ListedLemmas::named_step, crate::proofs::ListedLemmas::listed_none))]
fn put_size_item(out: &mut Bytes, some: bool, size: u32) -> Result<bool, NoMemory>
    ensures text { OnOk result (out.new ≡ out.old ++ list.listed some (spec.named_text (nat_eq size 1) (codes "size") (decimal size))) }
    ensures some { IfOk result (λ more. more ≡ list.some_with some (spec.named_text (nat_eq size 1) (codes "size") (decimal size))) }
{
    if size == 1 {
        return Ok(some);
    }
    put_name(out, some, b"size")?;
    put_decimal(out, size)?;
    Ok(true)
}

/// A set under its name, which is left out where it has no member.
#[tactic(auto, using(crate::proofs::ListedLemmas::named_step, crate::proofs::ListedLemmas::listed_none))]
fn put_set_item(out: &mut Bytes, some: bool, name: &[u8], set: RegSet) -> Result<bool, NoMemory>
    ensures text { OnOk result (out.new ≡ out.old ++ list.listed some (spec.named_text (nat_eq set 0) name.now (spec.set_text set))) }
    ensures some { IfOk result (λ more. more ≡ list.some_with some (spec.named_text (nat_eq set 0) name.now (spec.set_text set))) }
{
    if set.bits() == 0 {
        return Ok(some);
    }
    put_name(out, some, name)?;
    put_set(out, set)?;
    Ok(true)
}

fn put_cases(out: &mut Bytes, words: &[u64]) -> Result<(), NoMemory>
    ensures { OnOk result (out.new ≡ out.old ++ spec.in_brackets (map (spec.word_text Width.W64) words.now)) }
{
    out.extend(b"[")?;
    put_words(out, words)?;
    out.extend(b"]")
}

#[tactic(auto, using(crate::proofs::ListedLemmas::named_step, crate::proofs::ListedLemmas::listed_none))]
fn put_cases_item(out: &mut Bytes, some: bool, words: &[u64]) -> Result<(), NoMemory>
    ensures { OnOk result (out.new ≡ out.old ++ list.listed some (spec.cases_texts words.now)) }
{
    put_name(out, some, b"cases")?;
    put_cases(out, words)?;
    Ok(())
}

fn put_map_items(out: &mut Bytes, some: bool, map: &Stackmap) -> Result<(), NoMemory>
    ensures { OnOk result (out.new ≡ out.old ++ list.listed some (spec.map_texts map.now)) }
{
    let sized = put_result_item(out, some, map.result)?;
    let early = put_size_item(out, sized, map.size)?;
    let late = put_set_item(out, early, b"earlyClobbered", map.early)?;
    put_set_item(out, late, b"lateClobbered", map.late)?;
    Ok(())
}

fn put_phi(out: &mut Bytes, some: bool, phi: u32) -> Result<(), NoMemory>
    ensures { OnOk result (out.new ≡ out.old ++ (list.separator some ++ spec.phi_text phi)) }
{
    put_separator(out, some)?;
    out.extend(b"^")?;
    put_decimal(out, phi)
}

fn put_last_offset(out: &mut Bytes, some: bool, bytes: i32) -> Result<(), NoMemory>
    ensures { OnOk result (out.new ≡ out.old ++ list.listed some (spec.offset_texts bytes)) }
{
    put_offset_item(out, some, bytes)?;
    Ok(())
}

/// What stands behind the children.
#[tactic(auto, using(crate::proofs::ListedLemmas::listed_alone, crate::proofs::ListedLemmas::listed_none))]
pub(crate) fn put_last(out: &mut Bytes, some: bool, body: &Body) -> Result<(), NoMemory>
    ensures { OnOk result (out.new ≡ out.old ++ list.listed some (spec.last_texts body.now)) }
{
    match body {
        Body::Target(phi) => put_phi(out, some, *phi),
        Body::Offset(bytes) => put_last_offset(out, some, *bytes),
        Body::Cases { cases, .. } => put_cases_item(out, some, cases.as_slice()),
        Body::Map(map) => put_map_items(out, some, map),
        _ => Ok(()),
    }
}

/// The item that leads. It tells whether there is one.
pub(crate) fn put_lead(out: &mut Bytes, carries: Carries, body: &Body) -> Result<bool, NoMemory>
    requires { list.FitsWord carries body.now }
    ensures text { OnOk result (out.new ≡ out.old ++ list.listed false (spec.lead_texts carries body.now)) }
    ensures some { IfOk result (λ some. some ≡ list.some_with false (spec.lead_texts carries body.now)) }
{
    match body {
        Body::Constant(word) => put_constant(out, carries, *word),
        Body::Argument(reg) => {
            put_register(out, *reg)?;
            Ok(true)
        }
        Body::Slot(number) => {
            out.extend(b"stack")?;
            put_decimal(out, *number)?;
            Ok(true)
        }
        _ => Ok(false),
    }
}

fn put_constant(out: &mut Bytes, carries: Carries, word: u64) -> Result<bool, NoMemory>
    requires { list.FitsWord carries (Body.Constant word) }
    ensures text { OnOk result (out.new ≡ out.old ++ list.listed false (spec.lead_texts carries (Body.Constant word))) }
    ensures some { IfOk result (λ some. some ≡ list.some_with false (spec.lead_texts carries (Body.Constant word))) }
{
    match carries {
        Carries::Number(width) => {
            put_word(out, width, word)?;
            Ok(true)
        }
        _ => Ok(false),
    }
}

/// The constraints of the reported children.
pub(crate) fn constraints_of(body: &Body) -> &[Constraint]
    ensures { result.now ≡ spec.constraints_of body.now }
{
    match body {
        Body::Map(map) => map.constraints.as_slice(),
        _ => &[],
    }
}
