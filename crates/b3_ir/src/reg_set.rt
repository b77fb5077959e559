//! Sets of general registers.

ghost use Rattle.std.specs.Prelude.{◌≡◌, ℕ, ◌<◌, ◌≤◌, ◌^◌, ◌⊎◌, ◌↔◌, IsTrue, IsBitSet};

use crate::value::Reg;
use std::marker::Model;

/// A set of the registers x0 to x30. Contracts see it as the number whose bit r is set exactly
/// where x r is a member.
#[derive(Clone, Copy, Debug, PartialEq, Eq)]
pub struct RegSet {
    bits: u32,
}

impl Model for RegSet {
    ghost Value = { ℕ };

    ghost view = { λ set. set.bits };

    ghost inverse = { λ number. record { bits = number } };
}

impl RegSet {
    /// The set without members.
    pub fn new() -> RegSet
        ensures { result ≡ 0 }
    {
        RegSet { bits: 0 }
    }

    /// The set that has x r exactly where bit r of `bits` is set.
    pub fn from_bits(bits: u32) -> RegSet
        requires { bits < 2 ^ 31 }
        ensures { result ≡ bits }
    {
        RegSet { bits }
    }

    /// Adds a register, which may be a member already.
    pub fn insert(&mut self, reg: Reg)
        requires { reg.0 ≤ 30 }
        ensures members { (r : ℕ) → IsBitSet self.new r ↔ (IsBitSet self.old r ⊎ (r ≡ reg.0)) }
        ensures bound { self.old < 2 ^ 31 → self.new < 2 ^ 31 }
    {
        self.bits |= 1 << reg.0;
    }

    /// Whether a register is a member.
    pub fn contains(&self, reg: Reg) -> bool
        requires { reg.0 ≤ 30 }
        ensures { IsTrue result ↔ IsBitSet self.now reg.0 }
    {
        self.bits & (1 << reg.0) != 0
    }

    /// The word whose bit r is set exactly where x r is a member.
    pub fn bits(&self) -> u32
        ensures { result ≡ self.now }
    {
        self.bits
    }
}
