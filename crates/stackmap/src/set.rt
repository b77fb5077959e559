//! Sets of registers, each a word whose bit r is set where x r is a member.

ghost use Rattle.std.specs.Prelude.{◌≡◌, ◌<◌, ◌||◌, ◌↔◌, ℕ, nat_eq, true, false, IsTrue};
ghost use Rattle.stackmap.specs.Registers.{has};

/// Whether x r is a member.
pub fn is_in(set: u32, r: u8) -> bool
    ensures { result ≡ has set r }
{
    r < 32 && set >> r & 1 == 1
}

/// The set with x r.
pub fn with(set: u32, r: u8) -> u32
    requires { r < 32 }
    ensures { (q : ℕ) → has result q ≡ (has set q || nat_eq q r) }
{
    set | 1 << r
}

/// The members of either set.
pub fn union(a: u32, b: u32) -> u32
    ensures { (r : ℕ) → has result r ≡ (has a r || has b r) }
{
    a | b
}

/// Whether no register is a member of both.
pub fn are_disjoint(a: u32, b: u32) -> bool
    ensures { IsTrue result ↔ ((r : ℕ) → has a r ≡ true → has b r ≡ false) }
{
    a & b == 0
}

/// Whether both have the same members.
pub fn are_equal(a: u32, b: u32) -> bool
    ensures { IsTrue result ↔ ((r : ℕ) → has a r ≡ has b r) }
{
    a == b
}
