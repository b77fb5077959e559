//! A source over bytes in memory.

ghost use Rattle.std.specs.Prelude.{◌≡◌, ℕ, ◌^◌, ◌<◌, ◌≤◌, List, [], ◌++◌, length, take, min, Some, Ok, IfOk, OnOk, OnErr};
ghost use Rattle.std.proofs.Common.{lit<};
ghost use Rattle.b3_io.specs.Faults.{Rose, no_faults};

use super::{Failed, Source};
use std::marker::Model;

/// A source over bytes in memory, which never fails. Contracts see it as the bytes still to come.
#[derive(Drop)]
pub struct SliceSource<'a> {
    rest: &'a [u8],
}

impl<'a> Model for SliceSource<'a> {
    ghost Value = { List ℕ };

    ghost view = { λ s. s.rest.now };
}

impl<'a> SliceSource<'a> {
    /// A source that gives `bytes`. It takes no memory.
    pub fn new(bytes: &'a [u8]) -> SliceSource<'a>
        ensures { result ≡ bytes.now }
    {
        SliceSource { rest: bytes }
    }
}

impl<'a> Source for SliceSource<'a> {
    ghost left = { λ s. Some s };

    ghost faults = { no_faults };

    ghost counted = { λ _. lit< tt };

    fn read(&mut self, into: &mut [u8]) -> Result<usize, Failed>
        ensures bound { IfOk result (λ n. n ≤ length into.new) }
        ensures bytes { IfOk result (λ n. self.old ≡ take n into.new ++ self.new) }
        ensures end { IfOk result (λ n. n ≡ 0 → 0 < length into.new → self.old ≡ []) }
        ensures steady { OnOk result (no_faults self.new ≡ no_faults self.old) }
        ensures none_lost { OnErr result (self.new ≡ self.old) }
        ensures cause { OnErr result (Rose (no_faults self.old) (no_faults self.new)) }
        ensures never_falls { no_faults self.old ≤ no_faults self.new }

        // It never fails, and gives as many bytes as it has left and the slice has room for.
        ensures most { result ≡ Ok (min (length self.old) (length into.new)) }
    {
        let count = into.len().min(self.rest.len());
        let (given, rest) = self.rest.split_at(count);
        into[..count].copy_from_slice(given);
        self.rest = rest;
        Ok(count)
    }
}
