//! The rules that a value keeps.

ghost use Rattle.std.specs.Prelude.{◌≡◌, ◌↔◌, ◌∷◌, [], ℕ, All, IfOk, IsTrue};
ghost use Rattle.b3_ir.specs.Procedure.{IsAt, IsIn, Kept, StandsAt};
ghost use Rattle.b3_ir.specs.Table as table;
ghost use Rattle.b3_rules.specs.Least.{IsLeastBroken};
ghost use Rattle.b3_rules.specs.Paths.{successors_in};
ghost use Rattle.b3_rules.specs.Rules.{IsArgumentAt, IsArgumentIn, IsBlockNumber, IsId, IsLast, KnowsBlocks, KnowsIds, KnowsSlot, NamesId, ReturnsAlike, SuitsPhi, first_type, types_of};
ghost use Rattle.b3_rules.specs.Valid.{ValueKeeps};
ghost use Rattle.b3_validate.specs.Index.{IsIndexOf};

use crate::index::{Index, is_return};
use b3_base::NoMemory;
use b3_ir::{Body, NodeId, Opcode, Proc, Ty, Value, allows_types};
use b3_rules::{Rule, cases_keep, site_breach};
use std::alloc::Global;

/// Whether an opcode ends a block.
fn is_terminal(opcode: Opcode) -> bool
    ensures { result ≡ table.is_terminal opcode }
{
    matches!(
        opcode,
        Opcode::Jump | Opcode::Oops | Opcode::Branch | Opcode::Switch | Opcode::Return
    )
}

/// Whether a node is the last of its block.
fn is_last(p: &Proc, block: usize, node: NodeId) -> bool
    requires { IsIn p.now node block }
    ensures { (j : ℕ) → IsAt p.now node block j → IsTrue result ↔ IsLast p.now.procedure block j }
{
    p.whole();
    p.next(node).is_none()
}

/// The first of the rules on ids and ends of blocks that the value of a node breaks.
fn place_breach(p: &Proc, index: &Index, block: usize, node: NodeId, value: &Value) -> Option<Rule>
    requires index { IsIndexOf p.now index.now }
    requires node { IsIn p.now node block }
    ensures { (j : ℕ) → IsAt p.now node block j → StandsAt p.now.procedure block j value.now →
        IsLeastBroken 1 6 (λ r. ValueKeeps r p.now.procedure block j value.now) result }
{
    p.whole();
    if !index.has_new_id(node, value.id) {
        return Some(Rule::Ids);
    }
    let last = is_last(p, block, node);
    let ends = is_terminal(value.kind.opcode);
    if last && !ends {
        return Some(Rule::Endings);
    }
    if ends && !last {
        return Some(Rule::Terminals);
    }
    None
}

/// Whether each of some ids is one of a value.
fn are_ids(index: &Index, ids: &[u32]) -> bool
    ensures { (p : Kept) → IsIndexOf p index.now → IsTrue result ↔ All (IsId p.procedure) ids.now }
{
    for id in ids {
        if !index.is_id(*id) {
            return false;
        }
    }
    true
}

/// Whether each of some numbers is that of a block.
fn are_blocks(index: &Index, numbers: &[u32]) -> bool
    ensures { (p : Kept) → IsIndexOf p index.now → IsTrue result ↔ All (IsBlockNumber p.procedure) numbers.now }
{
    for number in numbers {
        if !index.has_block(*number) {
            return false;
        }
    }
    true
}

/// Whether the id that an Upsilon names is one of a value.
fn names_id(index: &Index, body: &Body) -> bool
    ensures { (p : Kept) → IsIndexOf p index.now → IsTrue result ↔ NamesId p.procedure body.now }
{
    match body {
        Body::Target(phi) => index.is_id(*phi),
        _ => true,
    }
}

/// Whether the ids that a value names are those of values.
fn knows_ids(index: &Index, value: &Value) -> bool
    ensures { (p : Kept) → IsIndexOf p index.now → IsTrue result ↔ KnowsIds p.procedure value.now }
{
    are_ids(index, value.children.as_slice()) && names_id(index, &value.body)
}

/// Whether there is one type, and it is this one.
fn is_only(types: &[Ty], ty: Ty) -> bool
    ensures { IsTrue result ↔ (types.now ≡ ty ∷ []) }
{
    match types {
        [one] => *one == ty,
        _ => false,
    }
}

fn is_phi(opcode: Opcode) -> bool
    ensures { IsTrue result ↔ (opcode ≡ Opcode.Phi) }
{
    matches!(opcode, Opcode::Phi)
}

/// Whether what an Upsilon with children of these types names is a Phi of its child's type.
fn suits_phi(index: &Index, types: &[Ty], body: &Body) -> bool
    ensures { (p : Kept) → IsIndexOf p index.now → IsTrue result ↔ SuitsPhi p.procedure types.now body.now }
{
    match body {
        Body::Target(phi) => match index.named(*phi) {
            Some(first) => is_phi(first.opcode) && is_only(types, first.ty),
            None => false,
        },
        _ => true,
    }
}

/// Whether what a SlotBase names is a slot.
fn knows_slot(index: &Index, body: &Body) -> bool
    ensures { (p : Kept) → IsIndexOf p index.now → IsTrue result ↔ KnowsSlot p.procedure body.now }
{
    match body {
        Body::Slot(number) => index.has_slot(*number),
        _ => true,
    }
}

/// Whether each successor is a block.
fn knows_blocks(index: &Index, body: &Body) -> bool
    ensures { (p : Kept) → IsIndexOf p index.now →
        IsTrue result ↔ All (IsBlockNumber p.procedure) (successors_in body.now) }
{
    match body {
        Body::Targets(targets) => are_blocks(index, targets.as_slice()),
        Body::Cases { targets, .. } => are_blocks(index, targets.as_slice()),
        _ => true,
    }
}

/// The first of the rules on what a value names that it breaks, where its children are of these types.
fn naming_breach(index: &Index, value: &Value, types: &[Ty]) -> Option<Rule>
    ensures { (p : Kept) (b j : ℕ) → IsIndexOf p index.now → types.now ≡ types_of p.procedure value.now →
        IsLeastBroken 7 11 (λ r. ValueKeeps r p.procedure b j value.now) result }
{
    if !knows_ids(index, value) {
        return Some(Rule::KnownIds);
    }
    if !allows_types(value.kind.opcode, value.ty, types) {
        return Some(Rule::Types);
    }
    if !suits_phi(index, types, &value.body) {
        return Some(Rule::Phis);
    }
    if !knows_slot(index, &value.body) {
        return Some(Rule::KnownSlots);
    }
    if !knows_blocks(index, &value.body) {
        return Some(Rule::Successors);
    }
    None
}

/// Whether types are the same, one by one.
fn same_types(types: &[Ty], others: &[Ty]) -> bool
    ensures { IsTrue result ↔ (types.now ≡ others.now) }
{
    types == others
}

/// Whether a Return whose children are of these types returns as the first one does.
fn returns_alike(index: &Index, value: &Value, types: &[Ty]) -> bool
    ensures { (p : Kept) → IsIndexOf p index.now → types.now ≡ types_of p.procedure value.now →
        IsTrue result ↔ ReturnsAlike p.procedure value.now }
{
    if !is_return(value) {
        return true;
    }
    match &index.returned {
        Some(first) => same_types(types, first.as_slice()),
        None => true,
    }
}

/// Whether a register carries an argument.
fn is_argument_in(body: &Body) -> bool
    ensures { IsTrue result ↔ IsArgumentIn body.now }
{
    match body {
        Body::Argument(reg) => reg.0 <= 7,
        _ => true,
    }
}

/// Whether a value of a block, if it is an ArgumentReg, may stand there and is one of x0 to x7.
fn is_argument_at(block: usize, value: &Value) -> bool
    ensures { IsTrue result ↔ IsArgumentAt block value.now }
{
    match value.kind.opcode {
        Opcode::ArgumentReg => block == 0 && is_argument_in(&value.body),
        _ => true,
    }
}

/// The first of the rules on Returns and arguments that a value breaks, where its children are of these types.
fn flow_breach(index: &Index, block: usize, value: &Value, types: &[Ty]) -> Option<Rule>
    ensures { (p : Kept) (j : ℕ) → IsIndexOf p index.now → types.now ≡ types_of p.procedure value.now →
        IsLeastBroken 13 14 (λ r. ValueKeeps r p.procedure block j value.now) result }
{
    if !returns_alike(index, value, types) {
        return Some(Rule::Returns);
    }
    if !is_argument_at(block, value) {
        return Some(Rule::Arguments);
    }
    None
}

/// The type of the first of some children, Void where there is none.
fn first_type(types: &[Ty]) -> Ty
    ensures { result ≡ first_type types.now }
{
    match types {
        [first, ..] => *first,
        [] => Ty::Void,
    }
}

/// The first rule that the value of a node breaks, of all but that on uses. It is refused for want of
/// memory alone.
pub(crate) fn value_breach(
    alloc: Global,
    p: &Proc,
    index: &Index,
    block: usize,
    node: NodeId,
    value: &Value,
) -> Result<Option<Rule>, NoMemory>
    requires index { IsIndexOf p.now index.now }
    requires node { IsIn p.now node block }
    ensures { IfOk result (λ broken. (j : ℕ) → IsAt p.now node block j → StandsAt p.now.procedure block j value.now →
        IsLeastBroken 1 19 (λ r. ValueKeeps r p.now.procedure block j value.now) broken) }
{
    let of_place = place_breach(p, index, block, node, value);
    if of_place.is_some() {
        return Ok(of_place);
    }
    let children = index.types(alloc, value)?;
    let types = children.as_slice();
    let of_names = naming_breach(index, value, types);
    if of_names.is_some() {
        return Ok(of_names);
    }
    if !cases_keep(alloc, first_type(types), &value.body)? {
        return Ok(Some(Rule::Cases));
    }
    let of_flow = flow_breach(index, block, value, types);
    if of_flow.is_some() {
        return Ok(of_flow);
    }
    Ok(site_breach(value))
}
