//! What is looked up of the parts of a procedure: ids, numbers, and what its first Return returns.

ghost use Rattle.std.specs.Prelude.{◌≡◌, ◌+◌, ◌<◌, ◌↔◌, ℕ, length, None, IfOk, IfSome, IsTrue, OnOk};
ghost use Rattle.b3_ir.specs.Naming.{type_of};
ghost use Rattle.b3_ir.specs.Procedure.{IsAt, IsWhole, Kept, StandsAt};
ghost use Rattle.b3_rules.specs.Rules.{HasNewId, HasSlot, IsBlockNumber, IsId, types_of};
ghost use Rattle.b3_validate.specs.Index.{AreBlocks, AreNamed, AreNamedBefore, AreSlots, IsFirstBy, IsIndexOf, IsNamed, IsReturned, NoneBefore, returns};

use b3_base::{NoMemory, Seq};
use b3_ir::{NodeId, Opcode, Proc, Ty, Value};
use indexmap::{IndexMap, IndexSet};
use std::alloc::Global;

/// What is looked up of the first value with an id.
#[derive(Clone, Copy)]
pub(crate) struct Named {
    pub(crate) ty: Ty,
    pub(crate) opcode: Opcode,
    pub(crate) node: NodeId,
}

/// What is looked up of a procedure: of each id the first value that has it, the numbers of slots and of
/// blocks, and the types of the children of the first Return.
#[derive(Drop)]
pub(crate) struct Index {
    pub(crate) ids: IndexMap<u32, Named>,
    pub(crate) slots: IndexSet<u32>,
    pub(crate) blocks: IndexSet<u32>,
    pub(crate) returned: Option<Seq<Ty>>,
}

impl Index {
    /// The index of a procedure. It is refused for want of memory alone.
    pub(crate) fn new(alloc: Global, p: &Proc) -> Result<Index, NoMemory>
        ensures { IfOk result (IsIndexOf p.now) }
    {
        let ids = entries(alloc, p)?;
        let returned = first_returned(alloc, p, &ids)?;
        Ok(Index {
            ids,
            slots: slot_numbers(alloc, p)?,
            blocks: block_numbers(alloc, p)?,
            returned,
        })
    }

    /// What is known of the first value with an id.
    pub(crate) fn named(&self, id: u32) -> Option<Named>
        ensures { (p : Kept) → IsIndexOf p self.now → IsNamed p id result }
    {
        entry(&self.ids, id)
    }

    /// Whether an id is one of a value.
    pub(crate) fn is_id(&self, id: u32) -> bool
        ensures { (p : Kept) → IsIndexOf p self.now → IsTrue result ↔ IsId p.procedure id }
    {
        self.named(id).is_some()
    }

    /// Whether a value, that of a node, is the first with its id.
    pub(crate) fn has_new_id(&self, node: NodeId, id: u32) -> bool
        ensures { (p : Kept) (b j : ℕ) (v : Value) → IsIndexOf p self.now → IsWhole p → IsAt p node b j →
            StandsAt p.procedure b j v → v.id ≡ id → IsTrue result ↔ HasNewId p.procedure b j v }
    {
        match self.named(id) {
            Some(first) => first.node == node,
            None => true,
        }
    }

    /// The types of the children of a value. It is refused for want of memory alone.
    pub(crate) fn types(&self, alloc: Global, value: &Value) -> Result<Seq<Ty>, NoMemory>
        ensures { IfOk result (λ types. (p : Kept) → IsIndexOf p self.now → types ≡ types_of p.procedure value.now) }
    {
        child_types(alloc, &self.ids, value)
    }

    /// Whether a number is that of a slot.
    pub(crate) fn has_slot(&self, number: u32) -> bool
        ensures { (p : Kept) → IsIndexOf p self.now → IsTrue result ↔ HasSlot p.procedure number }
    {
        self.slots.contains(&number)
    }

    /// Whether a number is that of a block.
    pub(crate) fn has_block(&self, number: u32) -> bool
        ensures { (p : Kept) → IsIndexOf p self.now → IsTrue result ↔ IsBlockNumber p.procedure number }
    {
        self.blocks.contains(&number)
    }
}

/// The entry of an id.
fn entry(ids: &IndexMap<u32, Named>, id: u32) -> Option<Named>
    ensures { (p : Kept) → AreNamed p ids.now → IsNamed p id result }
{
    ids.get(&id).copied()
}

/// The type of the first value with an id, Void where there is none.
fn type_of(ids: &IndexMap<u32, Named>, id: u32) -> Ty
    ensures { (p : Kept) → AreNamed p ids.now → result ≡ type_of p.procedure id }
{
    match entry(ids, id) {
        Some(first) => first.ty,
        None => Ty::Void,
    }
}

/// The types of the children of a value.
fn child_types(
    alloc: Global,
    ids: &IndexMap<u32, Named>,
    value: &Value,
) -> Result<Seq<Ty>, NoMemory>
    ensures { IfOk result (λ types. (p : Kept) → AreNamed p ids.now → types ≡ types_of p.procedure value.now) }
{
    let mut types = Seq::new(alloc);
    let children = value.children.as_slice();
    for id in children {
        types.push(type_of(ids, *id))?;
    }
    Ok(types)
}

/// Adds the values of a block to the entries of those of the blocks before.
fn note_block(ids: &mut IndexMap<u32, Named>, p: &Proc, block: usize) -> Result<(), NoMemory>
    requires in_blocks { block < length p.now.procedure.blocks }
    requires before { AreNamedBefore p.now block 0 ids.old }
    ensures { OnOk result (AreNamedBefore p.now (block + 1) 0 ids.new) }
{
    p.whole();
    let mut at = p.first(block);
    while let Some(node) = at {
        let value = p.value(node);
        if !ids.contains_key(&value.id) {
            let first = Named {
                ty: value.ty,
                opcode: value.kind.opcode,
                node,
            };
            ids.insert(value.id, first)?;
        }
        at = p.next(node);
    }
    Ok(())
}

/// The entries of all ids.
fn entries(alloc: Global, p: &Proc) -> Result<IndexMap<u32, Named>, NoMemory>
    ensures { IfOk result (AreNamed p.now) }
{
    let mut ids = IndexMap::new(alloc);
    for block in 0..p.blocks() {
        note_block(&mut ids, p, block)?;
    }
    Ok(ids)
}

/// The numbers of the slots.
fn slot_numbers(alloc: Global, p: &Proc) -> Result<IndexSet<u32>, NoMemory>
    ensures { IfOk result (AreSlots p.now.procedure) }
{
    let mut numbers = IndexSet::new(alloc);
    for place in 0..p.slots() {
        numbers.insert(p.slot(place).number)?;
    }
    Ok(numbers)
}

/// The numbers of the blocks.
fn block_numbers(alloc: Global, p: &Proc) -> Result<IndexSet<u32>, NoMemory>
    ensures { IfOk result (AreBlocks p.now.procedure) }
{
    let mut numbers = IndexSet::new(alloc);
    for block in 0..p.blocks() {
        numbers.insert(p.block(block).number)?;
    }
    Ok(numbers)
}

/// Whether a value is a Return.
pub(crate) fn is_return(value: &Value) -> bool
    ensures { result ≡ returns value.now }
{
    matches!(value.kind.opcode, Opcode::Return)
}

/// The first Return of a block.
fn return_in(p: &Proc, block: usize) -> Option<&Value>
    requires in_blocks { block < length p.now.procedure.blocks }
    requires before { NoneBefore p.now.procedure returns block 0 }
    ensures none { result ≡ None → NoneBefore p.now.procedure returns (block + 1) 0 }
    ensures first { IfSome result (λ value. (place : ℕ) × IsFirstBy p.now.procedure returns block place value.now) }
{
    p.whole();
    let mut at = p.first(block);
    while let Some(node) = at {
        let value = p.value(node);
        if is_return(value) {
            return Some(value);
        }
        at = p.next(node);
    }
    None
}

/// The types of the children of the first Return, or None where there is none.
fn first_returned(
    alloc: Global,
    p: &Proc,
    ids: &IndexMap<u32, Named>,
) -> Result<Option<Seq<Ty>>, NoMemory>
    requires { AreNamed p.now ids.now }
    ensures { IfOk result (IsReturned p.now.procedure) }
{
    for block in 0..p.blocks() {
        if let Some(value) = return_in(p, block) {
            return Ok(Some(child_types(alloc, ids, value)?));
        }
    }
    Ok(None)
}
