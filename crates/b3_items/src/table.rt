//! The table of opcodes, as lines name them.

ghost use Rattle.std.specs.Prelude.{◌≡◌, ◌<◌, length, IfSome};
ghost use Rattle.b3_ir.specs.Table.{row_of};
ghost use Rattle.b3_items.specs.Table.{angle_in, flag_text, flagged, kind_of, opcode_named, type_of, type_text, with_flag};

use b3_base::Width;
use b3_ir::{Carries, Flag, Kind, Opcode, Ty};

const OPCODES: [Opcode; 61] = [
    Opcode::Nop,
    Opcode::Identity,
    Opcode::Const32,
    Opcode::Const64,
    Opcode::ArgumentReg,
    Opcode::FramePointer,
    Opcode::SlotBase,
    Opcode::Add,
    Opcode::Sub,
    Opcode::Mul,
    Opcode::BitAnd,
    Opcode::BitOr,
    Opcode::BitXor,
    Opcode::Neg,
    Opcode::Div,
    Opcode::Mod,
    Opcode::UDiv,
    Opcode::UMod,
    Opcode::Shl,
    Opcode::SShr,
    Opcode::ZShr,
    Opcode::RotL,
    Opcode::RotR,
    Opcode::Clz,
    Opcode::SExt8,
    Opcode::SExt16,
    Opcode::SExt32,
    Opcode::ZExt32,
    Opcode::Trunc,
    Opcode::Equal,
    Opcode::NotEqual,
    Opcode::LessThan,
    Opcode::GreaterThan,
    Opcode::LessEqual,
    Opcode::GreaterEqual,
    Opcode::Above,
    Opcode::Below,
    Opcode::AboveEqual,
    Opcode::BelowEqual,
    Opcode::Select,
    Opcode::Load8Z,
    Opcode::Load8S,
    Opcode::Load16Z,
    Opcode::Load16S,
    Opcode::Load,
    Opcode::Store8,
    Opcode::Store16,
    Opcode::Store,
    Opcode::CCall,
    Opcode::Patchpoint,
    Opcode::Check,
    Opcode::CheckAdd,
    Opcode::CheckSub,
    Opcode::CheckMul,
    Opcode::Upsilon,
    Opcode::Phi,
    Opcode::Jump,
    Opcode::Oops,
    Opcode::Branch,
    Opcode::Switch,
    Opcode::Return,
];

/// The name of an opcode.
pub fn name_of(opcode: Opcode) -> &'static [u8]
    ensures { result.now ≡ (row_of opcode).name }
{
    match opcode {
        Opcode::Nop => b"Nop",
        Opcode::Identity => b"Identity",
        Opcode::Const32 => b"Const32",
        Opcode::Const64 => b"Const64",
        Opcode::ArgumentReg => b"ArgumentReg",
        Opcode::FramePointer => b"FramePointer",
        Opcode::SlotBase => b"SlotBase",
        Opcode::Add => b"Add",
        Opcode::Sub => b"Sub",
        Opcode::Mul => b"Mul",
        Opcode::BitAnd => b"BitAnd",
        Opcode::BitOr => b"BitOr",
        Opcode::BitXor => b"BitXor",
        Opcode::Neg => b"Neg",
        Opcode::Div => b"Div",
        Opcode::Mod => b"Mod",
        Opcode::UDiv => b"UDiv",
        Opcode::UMod => b"UMod",
        Opcode::Shl => b"Shl",
        Opcode::SShr => b"SShr",
        Opcode::ZShr => b"ZShr",
        Opcode::RotL => b"RotL",
        Opcode::RotR => b"RotR",
        Opcode::Clz => b"Clz",
        Opcode::SExt8 => b"SExt8",
        Opcode::SExt16 => b"SExt16",
        Opcode::SExt32 => b"SExt32",
        Opcode::ZExt32 => b"ZExt32",
        Opcode::Trunc => b"Trunc",
        Opcode::Equal => b"Equal",
        Opcode::NotEqual => b"NotEqual",
        Opcode::LessThan => b"LessThan",
        Opcode::GreaterThan => b"GreaterThan",
        Opcode::LessEqual => b"LessEqual",
        Opcode::GreaterEqual => b"GreaterEqual",
        Opcode::Above => b"Above",
        Opcode::Below => b"Below",
        Opcode::AboveEqual => b"AboveEqual",
        Opcode::BelowEqual => b"BelowEqual",
        Opcode::Select => b"Select",
        Opcode::Load8Z => b"Load8Z",
        Opcode::Load8S => b"Load8S",
        Opcode::Load16Z => b"Load16Z",
        Opcode::Load16S => b"Load16S",
        Opcode::Load => b"Load",
        Opcode::Store8 => b"Store8",
        Opcode::Store16 => b"Store16",
        Opcode::Store => b"Store",
        Opcode::CCall => b"CCall",
        Opcode::Patchpoint => b"Patchpoint",
        Opcode::Check => b"Check",
        Opcode::CheckAdd => b"CheckAdd",
        Opcode::CheckSub => b"CheckSub",
        Opcode::CheckMul => b"CheckMul",
        Opcode::Upsilon => b"Upsilon",
        Opcode::Phi => b"Phi",
        Opcode::Jump => b"Jump",
        Opcode::Oops => b"Oops",
        Opcode::Branch => b"Branch",
        Opcode::Switch => b"Switch",
        Opcode::Return => b"Return",
    }
}

/// What a value of an opcode carries.
pub fn carries_of(opcode: Opcode) -> Carries
    ensures { result ≡ (row_of opcode).carries }
{
    match opcode {
        Opcode::Const32 => Carries::Number(Width::W32),
        Opcode::Const64 => Carries::Number(Width::W64),
        Opcode::ArgumentReg => Carries::Register,
        Opcode::SlotBase => Carries::SlotNumber,
        Opcode::Load8Z
        | Opcode::Load8S
        | Opcode::Load16Z
        | Opcode::Load16S
        | Opcode::Load
        | Opcode::Store8
        | Opcode::Store16
        | Opcode::Store => Carries::Offset,
        Opcode::Patchpoint => Carries::Site,
        Opcode::Check | Opcode::CheckAdd | Opcode::CheckSub | Opcode::CheckMul => Carries::Exit,
        Opcode::Upsilon => Carries::PhiId,
        Opcode::Jump => Carries::OneSuccessor,
        Opcode::Branch => Carries::TwoSuccessors,
        Opcode::Switch => Carries::CaseSuccessors,
        _ => Carries::Nothing,
    }
}

/// The flag of an opcode.
fn flag_of(opcode: Opcode) -> Flag
    ensures { result ≡ (row_of opcode).flag }
{
    match opcode {
        Opcode::Div | Opcode::Mod => Flag::Chill,
        Opcode::Load8Z
        | Opcode::Load8S
        | Opcode::Load16Z
        | Opcode::Load16S
        | Opcode::Load
        | Opcode::Store8
        | Opcode::Store16
        | Opcode::Store => Flag::Traps,
        _ => Flag::NoFlag,
    }
}

/// How many children an opcode computes with.
pub fn taken_by(opcode: Opcode) -> usize
    ensures { result ≡ length (row_of opcode).takes }
{
    match opcode {
        Opcode::Nop
        | Opcode::Const32
        | Opcode::Const64
        | Opcode::ArgumentReg
        | Opcode::FramePointer
        | Opcode::SlotBase
        | Opcode::Patchpoint
        | Opcode::Phi
        | Opcode::Jump
        | Opcode::Oops
        | Opcode::Return => 0,
        Opcode::Identity
        | Opcode::Neg
        | Opcode::Clz
        | Opcode::SExt8
        | Opcode::SExt16
        | Opcode::SExt32
        | Opcode::ZExt32
        | Opcode::Trunc
        | Opcode::Load8Z
        | Opcode::Load8S
        | Opcode::Load16Z
        | Opcode::Load16S
        | Opcode::Load
        | Opcode::CCall
        | Opcode::Check
        | Opcode::Upsilon
        | Opcode::Branch
        | Opcode::Switch => 1,
        Opcode::Select => 3,
        _ => 2,
    }
}

#[tactic(auto, unfolding(crate::specs::Table::opcode_named))]
fn opcode_named(bytes: &[u8]) -> Option<Opcode>
    ensures { result ≡ opcode_named bytes.now }
{
    OPCODES.iter().copied().find(|o| name_of(*o) == bytes)
}

fn flag_text(flag: Flag) -> &'static [u8]
    ensures { result.now ≡ flag_text flag }
{
    match flag {
        Flag::NoFlag => b"",
        Flag::Chill => b"<Chill>",
        Flag::Traps => b"<Traps>",
    }
}

fn with_flag(opcode: Opcode, flag: Flag) -> Option<Kind>
    ensures { result ≡ with_flag opcode flag }
{
    match flag {
        Flag::NoFlag => None,
        Flag::Chill => Some(Kind {
            opcode,
            chill: true,
            traps: false,
        }),
        Flag::Traps => Some(Kind {
            opcode,
            chill: false,
            traps: true,
        }),
    }
}

fn flagged(text: &[u8], opcode: Opcode) -> Option<Kind>
    ensures { result ≡ flagged text.now opcode }
{
    let flag = flag_of(opcode);
    if text == flag_text(flag) {
        with_flag(opcode, flag)
    } else {
        None
    }
}

#[tactic(auto, unfolding(crate::specs::Table::angle_in))]
fn angle_in(text: &[u8]) -> Option<usize>
    ensures is { result ≡ angle_in text.now }
    ensures within { IfSome result (λ at. at < length text.now) }
{
    text.iter().position(|b| *b == b'<')
}

/// An opcode with its flags, by the text of its kind.
#[tactic(auto, unfolding(crate::specs::Table::kind_of))]
pub fn read_kind(text: &[u8]) -> Option<Kind>
    ensures { result ≡ kind_of text.now }
{
    match angle_in(text) {
        None => Some(Kind::plain(opcode_named(text)?)),
        Some(at) => {
            let (name, flag) = text.split_at(at);
            flagged(flag, opcode_named(name)?)
        }
    }
}

/// The name of a type.
pub fn type_text(ty: Ty) -> &'static [u8]
    ensures { result.now ≡ type_text ty }
{
    match ty {
        Ty::Void => b"Void",
        Ty::Int32 => b"Int32",
        Ty::Int64 => b"Int64",
    }
}

/// A type by its name.
#[tactic(auto, unfolding(crate::specs::Table::type_of))]
pub fn read_type(text: &[u8]) -> Option<Ty>
    ensures { result ≡ type_of text.now }
{
    if text == b"Void".as_slice() {
        Some(Ty::Void)
    } else if text == b"Int32".as_slice() {
        Some(Ty::Int32)
    } else if text == b"Int64".as_slice() {
        Some(Ty::Int64)
    } else {
        None
    }
}
