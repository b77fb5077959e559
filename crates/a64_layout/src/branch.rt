//! Conditional items: what they test, and how far the short form reaches.

ghost use Rattle.std.specs.Prelude.{◌≡◌, ◌<◌, ◌≤◌, ◌^◌};
ghost use Rattle.a64_layout.specs.Branch.{branch_of, opposite, opposite_cond, reach, size_of};

use a64_inst::{Cond, Item};
use b3_base::Width;

/// What a conditional branch tests.
#[derive(Clone, Copy, Debug, PartialEq, Eq)]
pub enum Test {
    /// Whether the condition of the flags holds.
    Holds(Cond),
    /// Whether register `reg` (0 to 31, 31 is ZR) is 0 in the width or, where `nonzero`, isn't.
    Zero {
        width: Width,
        nonzero: bool,
        reg: u8,
    },
    /// Whether bit `bit` (0 to 63) of register `reg` (0 to 31, 31 is ZR) is 0 or, where `nonzero`,
    /// isn't.
    Bit {
        nonzero: bool,
        reg: u8,
        bit: u32,
    },
}

impl Test {
    /// How many words back the short form goes at most. Forward it goes one word less.
    pub(crate) fn reach(self) -> u32
        ensures value { result ≡ reach self }
        ensures some { 2 < result }
        ensures most { result ≤ 2 ^ 18 }
    {
        match self {
            Test::Holds(_) | Test::Zero { .. } => 0x4_0000,
            Test::Bit { .. } => 0x2000,
        }
    }

    /// The test that holds exactly where this one doesn't.
    pub(crate) fn opposite(self) -> Test
        ensures { result ≡ opposite self }
    {
        match self {
            Test::Holds(cond) => Test::Holds(opposite_cond(cond)),
            Test::Zero {
                width,
                nonzero,
                reg,
            } => Test::Zero {
                width,
                nonzero: !nonzero,
                reg,
            },
            Test::Bit { nonzero, reg, bit } => Test::Bit {
                nonzero: !nonzero,
                reg,
                bit,
            },
        }
    }
}

fn opposite_cond(cond: Cond) -> Cond
    ensures { result ≡ opposite_cond cond }
{
    match cond {
        Cond::Eq => Cond::Ne,
        Cond::Ne => Cond::Eq,
        Cond::Hs => Cond::Lo,
        Cond::Lo => Cond::Hs,
        Cond::Mi => Cond::Pl,
        Cond::Pl => Cond::Mi,
        Cond::Vs => Cond::Vc,
        Cond::Vc => Cond::Vs,
        Cond::Hi => Cond::Ls,
        Cond::Ls => Cond::Hi,
        Cond::Ge => Cond::Lt,
        Cond::Lt => Cond::Ge,
        Cond::Gt => Cond::Le,
        Cond::Le => Cond::Gt,
    }
}

/// What a conditional item tests, and the label that it goes to.
pub(crate) fn branch_of(item: Item) -> Option<(Test, u32)>
    ensures { result ≡ branch_of item }
{
    match item {
        Item::If(cond, label) => Some((Test::Holds(cond), label)),
        Item::IfZero {
            width,
            nonzero,
            reg,
            label,
        } => Some((
            Test::Zero {
                width,
                nonzero,
                reg,
            },
            label,
        )),
        Item::IfBit {
            nonzero,
            reg,
            bit,
            label,
        } => Some((Test::Bit { nonzero, reg, bit }, label)),
        Item::Plain(_) | Item::Jump(_) | Item::Label(_) | Item::Mark(_) => None,
    }
}

/// How many words an item takes, where a conditional one is long or short.
pub(crate) fn size(item: Item, long: bool) -> u32
    ensures value { result ≡ size_of long item }
    ensures most { result ≤ 2 }
{
    match item {
        Item::Plain(_) | Item::Jump(_) => 1,
        Item::If(..) | Item::IfZero { .. } | Item::IfBit { .. } => { if long { 2 } else { 1 } }
        Item::Label(_) | Item::Mark(_) => 0,
    }
}
