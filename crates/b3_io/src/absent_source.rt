//! A source in the place of what could not be opened.

ghost use Rattle.std.specs.Prelude.{◌≡◌, ◌+◌, ◌-◌, ◌^◌, min, None, IsErr};

use super::{Failed, FaultCount, Source};

/// A source in the place of a file that could not be opened: each read of it fails and is counted. It tells
/// no bytes.
#[derive(Drop)]
pub struct AbsentSource {
    faults: FaultCount,
}

impl AbsentSource {
    /// A source of which nothing was read yet. It takes no memory.
    pub fn new() -> AbsentSource
        ensures no_bytes { ⟦<AbsentSource as Source>⟧.left result ≡ None }
        ensures no_fault { ⟦<AbsentSource as Source>⟧.faults result ≡ 0 }
    {
        AbsentSource {
            faults: FaultCount::new(),
        }
    }
}

impl Source for AbsentSource {
    ghost left = { λ _. None };

    ghost faults = { λ s. s.faults.count };

    ghost counted = { λ s. s.faults.counted };

    fn read(&mut self, _into: &mut [u8]) -> Result<usize, Failed>
        ensures fails { IsErr result }
        ensures counts { self.new.faults.count ≡ min (self.old.faults.count + 1) (2 ^ 64 - 1) }
    {
        self.faults.rise();
        Err(Failed)
    }
}
