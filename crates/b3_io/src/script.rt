//! Which calls fail, as a script says.

ghost use Rattle.std.specs.Prelude.{◌≡◌, ◌+◌, ◌-◌, ◌^◌, ◌≤◌, min, IfOk};
ghost use Rattle.b3_io.specs.Script.{fails_at};

use b3_base::{NoMemory, Words};
use std::alloc::Global;

/// The numbers of the calls that fail, counted from 1, and how many bytes one call moves at most.
#[derive(Drop)]
pub(crate) struct Script {
    fails: Words,
    /// The most bytes that one call moves.
    pub(crate) most: usize,
    calls: u64,
    ghost some: { 1 ≤ most },
}

impl Script {
    /// A script of which no call was made yet.
    pub(crate) fn new(alloc: Global, fails: &[u64], most: usize) -> Result<Script, NoMemory>
        requires { 1 ≤ most }
        ensures fails { IfOk result (λ script. script.fails ≡ fails.now) }
        ensures most { IfOk result (λ script. script.most ≡ most) }
        ensures calls { IfOk result (λ script. script.calls ≡ 0) }
    {
        let mut numbers = Words::new(alloc);
        numbers.extend(fails)?;
        Ok(Script {
            fails: numbers,
            most,
            calls: 0,
        })
    }

    /// Counts one more call, and tells whether it fails.
    pub(crate) fn next_fails(&mut self) -> bool
        ensures calls { self.new.calls ≡ min (self.old.calls + 1) (2 ^ 64 - 1) }
        ensures fails { self.new.fails ≡ self.old.fails }
        ensures most { self.new.most ≡ self.old.most }
        ensures told { result ≡ fails_at self.old.fails (min (self.old.calls + 1) (2 ^ 64 - 1)) }
    {
        self.calls = self.calls.saturating_add(1);
        self.fails.as_slice().iter().any(|call| *call == self.calls)
    }
}
