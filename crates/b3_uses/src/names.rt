//! Names of ids: 0, 1, 2 and so on.

ghost use Rattle.std.specs.Prelude.{◌≡◌, ℕ, Some, IfOk};
ghost use Rattle.std.specs.BTreeMap as tree;
ghost use Rattle.std.specs.BTreeMap.{btree_map_len};
ghost use Rattle.std.specs.Ordering.{nat_cmp};
ghost use Rattle.b3_uses.specs.Names.{IsNumbered};

use b3_base::NoMemory;
use std::alloc::Global;
use std::collections::BTreeMap;

/// The names of some ids.
#[derive(Drop)]
pub(crate) struct Names {
    numbers: BTreeMap<u32, usize>,
    ghost numbered: { IsNumbered (tree.get nat_cmp numbers) (btree_map_len numbers) },
}

impl Names {
    /// No names. It takes no memory.
    pub(crate) fn new(alloc: Global) -> Names {
        Names {
            numbers: BTreeMap::new(alloc),
        }
    }

    /// The number of names.
    pub(crate) fn len(&self) -> usize
        ensures { result ≡ btree_map_len self.now.numbers }
    {
        self.numbers.len()
    }

    /// The name of an id, if it has one.
    pub(crate) fn get(&self, id: u32) -> Option<usize>
        ensures { result ≡ tree.get nat_cmp self.now.numbers id }
    {
        self.numbers.get(&id).copied()
    }

    /// The name of an id, which is a new one where it had none. It is refused for want of memory alone.
    pub(crate) fn make(&mut self, id: u32) -> Result<usize, NoMemory>
        ensures named { IfOk result (λ name. tree.get nat_cmp self.new.numbers id ≡ Some name) }
        ensures others { (other name : ℕ) → tree.get nat_cmp self.old.numbers other ≡ Some name
            → tree.get nat_cmp self.new.numbers other ≡ Some name }
    {
        if let Some(name) = self.get(id) {
            return Ok(name);
        }
        let name = self.numbers.len();
        self.numbers.insert(id, name)?;
        Ok(name)
    }
}
