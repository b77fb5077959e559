//! The types that the rows of opcodes allow.

ghost use Rattle.std.specs.Prelude.{◌≡◌, ◌≤◌, [], ◌∷◌, take};
ghost use Rattle.std.specs.List.{list_all};
ghost use Rattle.b3_ir.specs.Table as table;
ghost use Rattle.b3_ir.specs.Types as spec;

use crate::opcode::{Opcode, Ty};
use crate::table::{Gives, More, Takes};

/// What the row of an opcode says of types: of the first `count` of `takes`, which children a value
/// computes with; which may follow; and the type of its result.
#[derive(Clone, Copy)]
struct Types {
    takes: [Takes; 3],
    count: usize,
    more: More,
    gives: Gives,
}

/// Whether a value of the opcode may have this type, and children of these types.
pub fn allows_types(opcode: Opcode, ty: Ty, types: &[Ty]) -> bool
    ensures { result ≡ spec.allows_types opcode ty types.now }
{
    allows_alike(Ty::Int32, opcode, ty, types) || allows_alike(Ty::Int64, opcode, ty, types)
}

/// Whether it may where `alike` is the one type of the row.
fn allows_alike(alike: Ty, opcode: Opcode, ty: Ty, types: &[Ty]) -> bool
    ensures { result ≡ spec.allows_alike alike opcode ty types.now }
{
    let row = types_of(opcode);
    takes_types(alike, &row.takes[..row.count], row.more, types) && gives_type(alike, row.gives, ty)
}

/// Whether children of these types may be taken.
fn takes_types(alike: Ty, takes: &[Takes], more: More, types: &[Ty]) -> bool
    ensures { result ≡ spec.takes_types alike takes.now more types.now }
{
    for (at, wanted) in takes.iter().enumerate() {
        if at >= types.len() {
            return false;
        }
        if !takes_type(alike, *wanted, types[at]) {
            return false;
        }
    }
    may_follow(more, &types[takes.len()..])
}

/// Whether children of these types may follow those that a value computes with.
fn may_follow(more: More, types: &[Ty]) -> bool
    ensures { result ≡ spec.may_follow more types.now }
{
    match more {
        More::NoMore => types.is_empty(),
        More::One => types.is_empty() || types.len() == 1 && has_word(types[0]),
        More::Arguments | More::Reported => have_words(types),
    }
}

/// Whether a value of each of these types has a word.
fn have_words(types: &[Ty]) -> bool
    ensures { result ≡ list_all spec.has_word types.now }
{
    types.iter().all(|ty| has_word(*ty))
}

/// Whether a child of this type may be taken.
fn takes_type(alike: Ty, takes: Takes, ty: Ty) -> bool
    ensures { result ≡ spec.takes_type alike takes ty }
{
    match takes {
        Takes::Alike => same_type(ty, alike),
        Takes::Any => has_word(ty),
        Takes::This(wanted) => same_type(ty, wanted),
    }
}

/// Whether a value may have this type.
fn gives_type(alike: Ty, gives: Gives, ty: Ty) -> bool
    ensures { result ≡ spec.gives_type alike gives ty }
{
    match gives {
        Gives::Alike => same_type(ty, alike),
        Gives::AnyOrVoid => true,
        Gives::This(wanted) => same_type(ty, wanted),
    }
}

fn same_type(ty: Ty, other: Ty) -> bool
    ensures { result ≡ spec.same_type ty other }
{
    match (ty, other) {
        (Ty::Void, Ty::Void) | (Ty::Int32, Ty::Int32) | (Ty::Int64, Ty::Int64) => true,
        _ => false,
    }
}

/// Whether a value of this type has a word.
fn has_word(ty: Ty) -> bool
    ensures { result ≡ spec.has_word ty }
{
    match ty {
        Ty::Void => false,
        Ty::Int32 | Ty::Int64 => true,
    }
}

const INT32: Takes = Takes::This(Ty::Int32);

const INT64: Takes = Takes::This(Ty::Int64);

/// The types of a row.
fn types_of(opcode: Opcode) -> Types
    ensures takes { take result.count result.takes ≡ (table.row_of opcode).takes }
    ensures few { result.count ≤ 3 }
    ensures more { result.more ≡ (table.row_of opcode).more }
    ensures gives { result.gives ≡ (table.row_of opcode).gives }
{
    match opcode {
        Opcode::Nop | Opcode::Jump | Opcode::Oops => none(Gives::This(Ty::Void)),
        Opcode::Const32 => none(Gives::This(Ty::Int32)),
        Opcode::Const64 | Opcode::ArgumentReg | Opcode::FramePointer | Opcode::SlotBase => {
            none(Gives::This(Ty::Int64))
        }
        Opcode::Phi => none(Gives::Alike),
        Opcode::Identity | Opcode::Neg | Opcode::Clz => one(Takes::Alike, Gives::Alike),
        Opcode::SExt8 | Opcode::SExt16 => one(INT32, Gives::This(Ty::Int32)),
        Opcode::SExt32 | Opcode::ZExt32 => one(INT32, Gives::This(Ty::Int64)),
        Opcode::Trunc => one(INT64, Gives::This(Ty::Int32)),
        Opcode::Load8Z | Opcode::Load8S | Opcode::Load16Z | Opcode::Load16S => {
            one(INT64, Gives::This(Ty::Int32))
        }
        Opcode::Load => one(INT64, Gives::Alike),
        Opcode::Upsilon | Opcode::Branch | Opcode::Switch => one(Takes::Any, Gives::This(Ty::Void)),
        Opcode::Add
        | Opcode::Sub
        | Opcode::Mul
        | Opcode::BitAnd
        | Opcode::BitOr
        | Opcode::BitXor
        | Opcode::Div
        | Opcode::Mod
        | Opcode::UDiv
        | Opcode::UMod => two(Takes::Alike, Takes::Alike, Gives::Alike),
        Opcode::Shl | Opcode::SShr | Opcode::ZShr | Opcode::RotL | Opcode::RotR => {
            two(Takes::Alike, INT32, Gives::Alike)
        }
        Opcode::Equal
        | Opcode::NotEqual
        | Opcode::LessThan
        | Opcode::GreaterThan
        | Opcode::LessEqual
        | Opcode::GreaterEqual
        | Opcode::Above
        | Opcode::Below
        | Opcode::AboveEqual
        | Opcode::BelowEqual => two(Takes::Alike, Takes::Alike, Gives::This(Ty::Int32)),
        Opcode::Store8 | Opcode::Store16 => two(INT32, INT64, Gives::This(Ty::Void)),
        Opcode::Store => two(Takes::Any, INT64, Gives::This(Ty::Void)),
        Opcode::Select => Types {
            takes: [Takes::Any, Takes::Alike, Takes::Alike],
            count: 3,
            more: More::NoMore,
            gives: Gives::Alike,
        },
        Opcode::CCall => then(one(INT64, Gives::AnyOrVoid), More::Arguments),
        Opcode::Patchpoint => then(none(Gives::AnyOrVoid), More::Reported),
        Opcode::Check => then(one(Takes::Any, Gives::This(Ty::Void)), More::Reported),
        Opcode::CheckAdd | Opcode::CheckSub | Opcode::CheckMul => {
            then(
                two(Takes::Alike, Takes::Alike, Gives::Alike),
                More::Reported,
            )
        }
        Opcode::Return => then(none(Gives::This(Ty::Void)), More::One),
    }
}

/// A row of no child.
fn none(gives: Gives) -> Types
    ensures takes { take result.count result.takes ≡ [] }
    ensures few { result.count ≤ 3 }
    ensures more { result.more ≡ More.NoMore }
    ensures gives { result.gives ≡ gives }
{
    Types {
        takes: [Takes::Any, Takes::Any, Takes::Any],
        count: 0,
        more: More::NoMore,
        gives,
    }
}

/// A row of one child.
fn one(first: Takes, gives: Gives) -> Types
    ensures takes { take result.count result.takes ≡ first ∷ [] }
    ensures few { result.count ≤ 3 }
    ensures more { result.more ≡ More.NoMore }
    ensures gives { result.gives ≡ gives }
{
    Types {
        takes: [first, Takes::Any, Takes::Any],
        count: 1,
        more: More::NoMore,
        gives,
    }
}

/// A row of two children.
fn two(first: Takes, second: Takes, gives: Gives) -> Types
    ensures takes { take result.count result.takes ≡ first ∷ second ∷ [] }
    ensures few { result.count ≤ 3 }
    ensures more { result.more ≡ More.NoMore }
    ensures gives { result.gives ≡ gives }
{
    Types {
        takes: [first, second, Takes::Any],
        count: 2,
        more: More::NoMore,
        gives,
    }
}

/// The row, and what may follow.
fn then(row: Types, more: More) -> Types
    ensures takes { take result.count result.takes ≡ take row.count row.takes }
    ensures few { result.count ≡ row.count }
    ensures more { result.more ≡ more }
    ensures gives { result.gives ≡ row.gives }
{
    let takes = row.takes;
    Types {
        takes,
        count: row.count,
        more,
        gives: row.gives,
    }
}
