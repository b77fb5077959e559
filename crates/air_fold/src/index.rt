//! The values of a procedure by their ids.

ghost use Rattle.std.specs.Prelude.{◌≡◌, ◌++◌, ◌≤◌, ◌<◌, ◌+◌, IfOk, OnOk, length, map};
ghost use Rattle.b3_ir.specs.Procedure.{total, values_of};
ghost use Rattle.b3_rules.specs.Valid.{IsValidProcedure};
ghost use Rattle.air_fold.specs.Indexed as indexed;
ghost use Rattle.air_fold.specs.Values as values;

use crate::known::{Known, known_in, unknown};
use crate::rows::width_of;
use b3_base::{NoMemory, Seq, Width};
use b3_ir::Proc;
use indexmap::IndexSet;
use std::alloc::Global;
use std::marker::Model;

/// The ids of all values, in order, and beside each what is known of its value.
#[derive(Drop)]
pub struct Index {
    pub(crate) ids: IndexSet<u32>,
    pub(crate) known: Seq<Known>,
}

impl Model for Index {
    ghost use Rattle.std.specs.Prelude.{◌≤◌, length};
    ghost use Rattle.air_fold.specs.Values as values;

    ghost Value = { values.Index };

    ghost view = { λ x. record { ids = x.ids.keys; known = x.known } };

    ghost invariant = { λ x. length x.ids.keys ≤ 16384 };
}

impl Index {
    /// How many values there are.
    pub fn count(&self) -> u32
        ensures count { result ≡ length self.now.ids }
        ensures most { result ≤ 16384 }
    {
        self.ids.len() as u32
    }

    /// The place of the value that an id names among all values, past the last where it names none.
    pub fn place(&self, id: u32) -> u32
        ensures place { result ≡ values.place self.now id }
        ensures most { result ≤ 16384 }
    {
        match self.ids.get_index_of(&id) {
            Some(place) => place as u32,
            None => self.ids.len() as u32,
        }
    }

    /// What is known of the value that an id names.
    pub fn known(&self, id: u32) -> Known
        ensures { result ≡ values.known self.now id }
    {
        let place = self.place(id) as usize;
        if place < self.known.len() {
            *self.known.get(place)
        } else {
            unknown()
        }
    }

    /// The width of the word of the value that an id names.
    pub fn width_at(&self, id: u32) -> Width
        ensures { result ≡ values.width_at self.now id }
    {
        width_of(self.known(id).ty)
    }
}

/// Adds the values of a block to the ids of those before, and to what is known of them.
fn note_block(
    ids: &mut IndexSet<u32>,
    known: &mut Seq<Known>,
    p: &Proc,
    block: usize,
) -> Result<(), NoMemory>
    requires in_blocks { block < length p.now.procedure.blocks }
    requires valid { IsValidProcedure p.now.procedure }
    requires ids { ids.old.keys ≡ indexed.ids_before p.now.procedure block 0 }
    ensures ids { OnOk result (ids.new.keys ≡ indexed.ids_before p.now.procedure (block + 1) 0) }
    ensures known { OnOk result (known.new ≡ known.old
        ++ map (values.known_in block) (values_of p.now.procedure block)) }
{
    p.whole();
    let mut at = p.first(block);
    while let Some(node) = at {
        let value = p.value(node);
        ids.insert_full(value.id)?;
        known.push(known_in(block as u32, value))?;
        at = p.next(node);
    }
    Ok(())
}

/// The index of a valid procedure of at most 16,384 values. It is refused for want of memory alone.
pub fn index_of(alloc: Global, p: &Proc) -> Result<Index, NoMemory>
    requires valid { IsValidProcedure p.now.procedure }
    requires few { total p.now.procedure ≤ 16384 }
    ensures { IfOk result (λ x. x ≡ values.index_of p.now.procedure) }
{
    let mut ids = IndexSet::new(alloc);
    let mut known = Seq::new(alloc);
    for block in 0..p.blocks() {
        note_block(&mut ids, &mut known, p, block)?;
    }
    Ok(Index { ids, known })
}
