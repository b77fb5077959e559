//! Lists of numbers side by side.

ghost use Rattle.std.specs.Prelude.{◌≡◌, ◌<◌, [], length, replicate, IfOk, OnOk};
ghost use Rattle.b3_uses.specs.Lists.{AddsTo, IsPut, list_at};

use b3_base::{NoMemory, Seq};
use std::alloc::Global;
use std::marker::Model;

/// A fixed number of lists of numbers.
#[derive(Drop)]
pub(crate) struct Lists {
    lists: Vec<Seq<usize>>,
}

impl Model for Lists {
    ghost use Rattle.std.specs.Prelude.{List, ℕ};

    ghost Value = { List (List ℕ) };

    ghost view = { λ s. s.lists.items };
}

impl Lists {
    /// So many empty lists. It is refused for want of memory alone.
    pub(crate) fn new(alloc: Global, count: usize) -> Result<Lists, NoMemory>
        ensures { IfOk result (λ lists. lists ≡ replicate count []) }
    {
        let mut lists = Vec::new(alloc);
        for _ in 0..count {
            lists.push(Seq::new(alloc))?;
        }
        Ok(Lists { lists })
    }

    /// The number of lists.
    pub(crate) fn len(&self) -> usize
        ensures { result ≡ length self.now }
    {
        self.lists.len()
    }

    /// The list at a place, counted from 0.
    pub(crate) fn list(&self, at: usize) -> &[usize]
        requires { at < length self.now }
        ensures { result.now ≡ list_at self.now at }
    {
        self.lists[at].as_slice()
    }

    /// Adds a number to the list at a place. It is refused for want of memory alone.
    pub(crate) fn add(&mut self, at: usize, number: usize) -> Result<(), NoMemory>
        requires { at < length self.old }
        ensures added { OnOk result (AddsTo self.old self.new (IsPut at number)) }
        ensures len { length self.new ≡ length self.old }
    {
        self.lists[at].push(number)
    }
}
