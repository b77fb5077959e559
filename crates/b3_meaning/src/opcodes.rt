//! The opcode table.

ghost use Rattle.std.specs.Prelude.{◌≡◌, ◌∷◌, [], ◌<◌, ◌^◌, IfNone};
ghost use Rattle.b3_base.specs.Word.{bits};
ghost use Rattle.b3_ir.specs.Types as types;
ghost use Rattle.b3_meaning.specs.Foldable.{IsFoldable};
ghost use Rattle.b3_meaning.specs.Opcodes.{IsUndefined, result as outcome, word_given};

use crate::words::{
    difference, divided, extended, is_below, left_over, product, rotated_left, rotated_right,
    shifted_left, shifted_right, shifted_right_signed, sum, truth, unsigned_quotient,
    unsigned_remainder, width_of,
};
use b3_base::{Width, leading_zeros, low, sext};
use b3_ir::{Opcode, Ty};

/// The word of a pure opcode other than constants, ArgumentReg, FramePointer and SlotBase, for its
/// children's words, or None exactly where B3 leaves it undefined. The opcode's row allows these
/// types, with one child per type, each a word of its type. It takes no memory.
pub fn fold(
    opcode: Opcode,
    chill: bool,
    ty: Ty,
    children: &[u64],
    child_types: &[Ty],
) -> Option<u64>
    requires { IsFoldable opcode ty children.now child_types.now }
    ensures word { result ≡ word_given (outcome opcode chill ty children.now child_types.now) }
    ensures undefined { IfNone result (IsUndefined (outcome opcode chill ty children.now child_types.now)) }
{
    match children.len() {
        1 => of_one(opcode, chill, ty, children[0], child_types[0]),
        2 => of_two(
            opcode,
            chill,
            ty,
            child_types[0],
            child_types[1],
            children[0],
            children[1],
        ),
        3 => of_three(
            opcode,
            chill,
            ty,
            child_types,
            children[0],
            children[1],
            children[2],
        ),
        _ => None,
    }
}

/// The rows of opcodes of one child.
fn of_one(opcode: Opcode, chill: bool, ty: Ty, x: u64, child_type: Ty) -> Option<u64>
    requires { IsFoldable opcode ty (x ∷ []) (child_type ∷ []) }
    ensures { result ≡ word_given (outcome opcode chill ty (x ∷ []) (child_type ∷ [])) }
{
    match opcode {
        Opcode::Identity | Opcode::ZExt32 => Some(x),
        Opcode::Neg => Some(difference(width_of(ty), 0, x)),
        Opcode::Clz => Some(leading_zeros(width_of(ty), x)),
        Opcode::SExt8 => Some(extended(8, x)),
        Opcode::SExt16 => Some(extended(16, x)),
        Opcode::SExt32 => Some(sext(32, x)),
        Opcode::Trunc => Some(low(Width::W32, x)),
        _ => None,
    }
}

/// The rows of opcodes of two children.
fn of_two(opcode: Opcode, chill: bool, ty: Ty, first: Ty, second: Ty, x: u64, y: u64) -> Option<u64>
    requires { IsFoldable opcode ty (x ∷ y ∷ []) (first ∷ second ∷ []) }
    ensures { result ≡ word_given (outcome opcode chill ty (x ∷ y ∷ []) (first ∷ second ∷ [])) }
{
    let width = width_of(ty);
    match opcode {
        Opcode::Add => Some(sum(width, x, y)),
        Opcode::Sub => Some(difference(width, x, y)),
        Opcode::Mul => Some(product(width, x, y)),
        Opcode::BitAnd => Some(x & y),
        Opcode::BitOr => Some(x | y),
        Opcode::BitXor => Some(x ^ y),
        Opcode::Div => divided(width, chill, x, y),
        Opcode::Mod => left_over(width, chill, x, y),
        Opcode::UDiv => unsigned_quotient(x, y),
        Opcode::UMod => unsigned_remainder(x, y),
        Opcode::Shl => Some(shifted_left(width, x, y)),
        Opcode::SShr => Some(shifted_right_signed(width, x, y)),
        Opcode::ZShr => Some(shifted_right(width, x, y)),
        Opcode::RotL => Some(rotated_left(width, x, y)),
        Opcode::RotR => Some(rotated_right(width, x, y)),
        Opcode::Equal => Some(truth(x == y)),
        Opcode::NotEqual => Some(truth(x != y)),
        Opcode::LessThan => Some(truth(is_below(first, x, y))),
        Opcode::GreaterThan => Some(truth(is_below(first, y, x))),
        Opcode::LessEqual => Some(truth(!is_below(first, y, x))),
        Opcode::GreaterEqual => Some(truth(!is_below(first, x, y))),
        Opcode::Above => Some(truth(y < x)),
        Opcode::Below => Some(truth(x < y)),
        Opcode::AboveEqual => Some(truth(!(x < y))),
        Opcode::BelowEqual => Some(truth(!(y < x))),
        _ => None,
    }
}

/// The row of Select, of three children.
fn of_three(
    opcode: Opcode,
    chill: bool,
    ty: Ty,
    child_types: &[Ty],
    c: u64,
    x: u64,
    y: u64,
) -> Option<u64>
    ensures { result ≡ word_given (outcome opcode chill ty (c ∷ x ∷ y ∷ []) child_types.now) }
{
    match opcode {
        Opcode::Select => Some(if c == 0 { y } else { x }),
        _ => None,
    }
}
