//! Registers for temporaries.

ghost use Rattle.std.specs.Prelude.{◌≡◌, ◌<◌, ◌++◌, ◌∷◌, [], Some, None, IfOk, OnOk, OnErr, length, replicate, slice_get, slice_set};

use b3_base::{Ids, NoMemory, Seq};
use b3_ir::Reg;
use std::alloc::Global;

/// Which temporaries stand in a register, and which: none stands for one that is spilled. `joins` are
/// numbers of moves whose two homes become one, in the order in which they are joined.
#[derive(Drop)]
pub struct Assignment {
    pub homes: Seq<Option<Reg>>,
    pub joins: Ids,
}

impl Assignment {
    /// Each of so many temporaries is spilled, and there are no joins. It is refused for want of memory
    /// alone.
    pub fn new(alloc: Global, tmps: u32) -> Result<Assignment, NoMemory>
        ensures { IfOk result (λ a. a ≡ record { homes = replicate tmps None; joins = [] }) }
    {
        let mut homes = Seq::new(alloc);
        for _ in 0..tmps {
            homes.push(None)?;
        }
        Ok(Assignment {
            homes,
            joins: Seq::new(alloc),
        })
    }

    /// Gives one temporary a register. It takes no memory.
    pub fn give(&mut self, tmp: u32, reg: Reg)
        requires { tmp < length self.old.homes }
        ensures homes { self.new.homes ≡ slice_set self.old.homes tmp (Some reg) }
        ensures joins { self.new.joins ≡ self.old.joins }
    {
        self.homes.set(tmp as usize, Some(reg));
    }

    /// Adds the number of a move at the end of `joins`. It is refused for want of memory alone, and then
    /// changes nothing.
    pub fn join(&mut self, k: u32) -> Result<(), NoMemory>
        ensures homes { self.new.homes ≡ self.old.homes }
        ensures ok { OnOk result (self.new.joins ≡ self.old.joins ++ k ∷ []) }
        ensures err { OnErr result (self.new.joins ≡ self.old.joins) }
    {
        self.joins.push(k)
    }

    /// The register of a temporary, none exactly where it is spilled. It takes no memory.
    pub fn home(&self, tmp: u32) -> Option<Reg>
        requires { tmp < length self.now.homes }
        ensures { slice_get self.now.homes tmp ≡ Some result }
    {
        *self.homes.get(tmp as usize)
    }
}
