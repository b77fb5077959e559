//! The types of a procedure's values, by their ids.

ghost use Rattle.std.specs.Prelude.{◌≡◌, ◌<◌, ℕ, IfOk, OnOk, length};
ghost use Rattle.std.specs.BTreeMap as tree;
ghost use Rattle.std.specs.Ordering.{nat_cmp};
ghost use Rattle.b3_eval.specs.Lookup.{type_in, with_type, with_types};
ghost use Rattle.b3_ir.specs.Naming as naming;
ghost use Rattle.b3_ir.specs.Procedure.{values_of};

use b3_base::NoMemory;
use b3_ir::{Proc, Ty};
use std::alloc::Global;
use std::collections::BTreeMap;

/// The type of the first value of each id.
pub(crate) fn types_of(alloc: Global, p: &Proc) -> Result<BTreeMap<u32, Ty>, NoMemory>
    ensures { IfOk result (λ types. type_in types ≡ naming.type_of p.now.procedure) }
{
    let mut types = BTreeMap::new(alloc);
    for block in 0..p.blocks() {
        add_block(&mut types, p, block)?;
    }
    Ok(types)
}

/// Adds the values of a block, after those of the blocks before.
fn add_block(types: &mut BTreeMap<u32, Ty>, p: &Proc, block: usize) -> Result<(), NoMemory>
    requires { block < length p.now.procedure.blocks }
    ensures { OnOk result (tree.get nat_cmp types.new
        ≡ with_types (tree.get nat_cmp types.old) (values_of p.now.procedure block)) }
{
    let mut at = p.first(block);
    while let Some(node) = at {
        let value = p.value(node);
        add(types, value.id, value.ty)?;
        at = p.next(node);
    }
    Ok(())
}

/// Adds a type, where the id has none yet.
fn add(types: &mut BTreeMap<u32, Ty>, id: u32, ty: Ty) -> Result<(), NoMemory>
    ensures { OnOk result (tree.get nat_cmp types.new ≡ with_type (tree.get nat_cmp types.old) id ty) }
{
    if !types.contains_key(&id) {
        types.insert(id, ty)?;
    }
    Ok(())
}

/// The type of an id, Void where it has none.
pub(crate) fn type_at(types: &BTreeMap<u32, Ty>, id: u32) -> Ty
    ensures { result ≡ type_in types.now id }
{
    match types.get(&id) {
        Some(ty) => *ty,
        None => Ty::Void,
    }
}
