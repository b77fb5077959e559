//! Where words stand, and what instructions do with them.

ghost use Rattle.std.specs.Prelude.{◌≡◌};
ghost use Rattle.air_ir.specs.Operands.{is_read};

use b3_base::{Seq, Width};
use b3_ir::Reg;

/// Where a word may stand. Each of the three may be an operand, also in an address.
#[derive(Clone, Copy, Debug, PartialEq, Eq)]
pub enum Home {
    /// A temporary, by its number.
    Tmp(u32),
    /// A general register.
    Reg(Reg),
    /// A spill place in the frame, by its number. It is no temporary: assignments don't speak of it.
    Spill(u32),
}

/// What an operand names.
#[derive(Clone, Copy, Debug, PartialEq, Eq)]
pub enum Arg {
    /// The word of a home.
    At(Home),
    /// This word.
    Imm(u64),
    /// The address `offset` bytes above the word of `base`.
    Addr { base: Home, offset: i64 },
    /// The address at the word of `base` plus that of `index`, shifted left by `shift` bits.
    Index { base: Home, index: Home, shift: u32 },
    /// A stack slot, by its number.
    FrameSlot(u32),
}

/// What an instruction does with an operand.
#[derive(Clone, Copy, Debug, PartialEq, Eq)]
pub enum Role {
    /// It is read before anything is written.
    Use,
    /// It is read, and may still be read when the others are written.
    LateUse,
    /// It is written, and may be written before the uses are read.
    EarlyDef,
    /// It is written.
    Def,
    /// It is left with any word.
    Clobber,
}

/// An operand: the width of a word, and for an address the width of the access.
#[derive(Clone, Copy, Debug, PartialEq, Eq)]
pub struct Operand {
    pub role: Role,
    pub width: Width,
    pub arg: Arg,
}

/// The operands of an instruction, in order.
pub type Operands = Seq<Operand>;

/// Whether an operand of this role is read.
pub fn is_read(role: Role) -> bool
    ensures { result ≡ is_read role }
{
    matches!(role, Role::Use | Role::LateUse)
}
