//! What opcodes do in a run.

ghost use Rattle.std.specs.Prelude.{◌≡◌};
ghost use Rattle.b3_meaning.specs.Roles as spec;

use b3_ir::Opcode;

/// How much memory an access touches.
#[derive(Clone, Copy, Debug, PartialEq, Eq)]
pub enum Extent {
    /// One byte.
    Byte,
    /// Two bytes.
    Half,
    /// As many as the word of its type has.
    Whole,
}

/// Arithmetic that is checked.
#[derive(Clone, Copy, Debug, PartialEq, Eq)]
pub enum Checked {
    Sum,
    Difference,
    Product,
}

/// What an opcode does in a run.
#[derive(Clone, Copy, Debug, PartialEq, Eq)]
pub enum Role {
    /// Nothing.
    Skip,
    /// It has the word of its body.
    Constant,
    /// It has the word of an argument.
    Argument,
    /// It has the frame pointer.
    Frame,
    /// It has the address of a slot.
    SlotAddress,
    /// It has a word by its children's words alone.
    Pure,
    /// An Upsilon.
    SetPhi,
    /// A Phi.
    GetPhi,
    /// A load; it puts zeros above what it loads or, where it extends, the sign.
    Load { extent: Extent, extends: bool },
    /// A store.
    Store { extent: Extent },
    /// A call of a function.
    Call,
    /// A patchpoint.
    Patch,
    /// An exit where a child isn't 0.
    Check,
    /// An exit where a signed result doesn't fit.
    CheckedResult(Checked),
    /// A jump.
    Jump,
    /// A branch.
    Branch,
    /// A switch.
    Switch,
    /// A return.
    Return,
    /// A terminal that is never reached.
    Fail,
}

/// What an opcode does in a run.
pub fn role_of(opcode: Opcode) -> Role
    ensures { result ≡ spec.role_of opcode }
{
    match opcode {
        Opcode::Nop => Role::Skip,
        Opcode::Const32 | Opcode::Const64 => Role::Constant,
        Opcode::ArgumentReg => Role::Argument,
        Opcode::FramePointer => Role::Frame,
        Opcode::SlotBase => Role::SlotAddress,
        Opcode::Identity
        | Opcode::Add
        | Opcode::Sub
        | Opcode::Mul
        | Opcode::BitAnd
        | Opcode::BitOr
        | Opcode::BitXor
        | Opcode::Neg
        | Opcode::Div
        | Opcode::Mod
        | Opcode::UDiv
        | Opcode::UMod
        | Opcode::Shl
        | Opcode::SShr
        | Opcode::ZShr
        | Opcode::RotL
        | Opcode::RotR
        | Opcode::Clz
        | Opcode::SExt8
        | Opcode::SExt16
        | Opcode::SExt32
        | Opcode::ZExt32
        | Opcode::Trunc
        | Opcode::Equal
        | Opcode::NotEqual
        | Opcode::LessThan
        | Opcode::GreaterThan
        | Opcode::LessEqual
        | Opcode::GreaterEqual
        | Opcode::Above
        | Opcode::Below
        | Opcode::AboveEqual
        | Opcode::BelowEqual
        | Opcode::Select => Role::Pure,
        Opcode::Upsilon => Role::SetPhi,
        Opcode::Phi => Role::GetPhi,
        Opcode::Load8Z => load(Extent::Byte, false),
        Opcode::Load8S => load(Extent::Byte, true),
        Opcode::Load16Z => load(Extent::Half, false),
        Opcode::Load16S => load(Extent::Half, true),
        Opcode::Load => load(Extent::Whole, false),
        Opcode::Store8 => store(Extent::Byte),
        Opcode::Store16 => store(Extent::Half),
        Opcode::Store => store(Extent::Whole),
        Opcode::CCall => Role::Call,
        Opcode::Patchpoint => Role::Patch,
        Opcode::Check => Role::Check,
        Opcode::CheckAdd => Role::CheckedResult(Checked::Sum),
        Opcode::CheckSub => Role::CheckedResult(Checked::Difference),
        Opcode::CheckMul => Role::CheckedResult(Checked::Product),
        Opcode::Jump => Role::Jump,
        Opcode::Branch => Role::Branch,
        Opcode::Switch => Role::Switch,
        Opcode::Return => Role::Return,
        Opcode::Oops => Role::Fail,
    }
}

fn load(extent: Extent, extends: bool) -> Role
    ensures { result ≡ Role.Load extent extends }
{
    Role::Load { extent, extends }
}

fn store(extent: Extent) -> Role
    ensures { result ≡ Role.Store extent }
{
    Role::Store { extent }
}
