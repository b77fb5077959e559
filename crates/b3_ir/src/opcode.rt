//! Types, opcodes and flags.

ghost use Rattle.std.specs.Prelude.{◌≡◌, false};

/// The type of a value. A pointer is an `Int64`.
#[derive(Clone, Copy, Debug, PartialEq, Eq)]
pub enum Ty {
    Void,
    Int32,
    Int64,
}

/// What a value computes or does.
#[derive(Clone, Copy, Debug, PartialEq, Eq)]
pub enum Opcode {
    Nop,
    Identity,
    Const32,
    Const64,
    ArgumentReg,
    FramePointer,
    SlotBase,
    Add,
    Sub,
    Mul,
    BitAnd,
    BitOr,
    BitXor,
    Neg,
    Div,
    Mod,
    UDiv,
    UMod,
    Shl,
    SShr,
    ZShr,
    RotL,
    RotR,
    Clz,
    SExt8,
    SExt16,
    SExt32,
    ZExt32,
    Trunc,
    Equal,
    NotEqual,
    LessThan,
    GreaterThan,
    LessEqual,
    GreaterEqual,
    Above,
    Below,
    AboveEqual,
    BelowEqual,
    Select,
    Load8Z,
    Load8S,
    Load16Z,
    Load16S,
    Load,
    Store8,
    Store16,
    Store,
    CCall,
    Patchpoint,
    Check,
    CheckAdd,
    CheckSub,
    CheckMul,
    Upsilon,
    Phi,
    Jump,
    Oops,
    Branch,
    Switch,
    Return,
}

/// An opcode with its flags: `chill` of Div and Mod, `traps` of loads and stores.
#[derive(Clone, Copy, Debug, PartialEq, Eq)]
pub struct Kind {
    pub opcode: Opcode,
    pub chill: bool,
    pub traps: bool,
}

impl Kind {
    /// The opcode without flags.
    pub fn plain(opcode: Opcode) -> Kind
        ensures { result ≡ record { opcode = opcode; chill = false; traps = false } }
    {
        Kind {
            opcode,
            chill: false,
            traps: false,
        }
    }
}
