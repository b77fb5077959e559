//! The rows of opcodes: which children may be immediates.

ghost use Rattle.std.specs.Prelude.{◌≡◌, ◌-◌, ◌^◌};
ghost use Rattle.b3_base.specs.Word as words;
ghost use Rattle.b3_ir.specs.Types as types;
ghost use Rattle.air_ir.specs.Forms as forms;
ghost use Rattle.air_fold.specs.Foldable as fold;

use b3_base::{Width, bit_mask_from};
use b3_ir::{Opcode, Ty};

/// The width of the words of a type.
pub fn width_of(ty: Ty) -> Width
    ensures { result ≡ types.width_of ty }
{
    match ty {
        Ty::Int32 => Width::W32,
        Ty::Void | Ty::Int64 => Width::W64,
    }
}

/// Whether a value of an opcode is a constant.
pub fn is_constant(opcode: Opcode) -> bool
    ensures { result ≡ fold.is_constant opcode }
{
    matches!(opcode, Opcode::Const32 | Opcode::Const64)
}

/// Whether a value of an opcode compares two words.
pub fn is_comparison(opcode: Opcode) -> bool
    ensures { result ≡ fold.is_comparison opcode }
{
    matches!(
        opcode,
        Opcode::Equal
            | Opcode::NotEqual
            | Opcode::LessThan
            | Opcode::GreaterThan
            | Opcode::LessEqual
            | Opcode::GreaterEqual
            | Opcode::Above
            | Opcode::Below
            | Opcode::AboveEqual
            | Opcode::BelowEqual
    )
}

/// Whether a word is 12 bits, or 12 bits shifted left by 12.
fn is_short(word: u64) -> bool
    ensures { result ≡ forms.is_short word }
{
    word <= 4095 || word % 4096 == 0 && word <= 4095 * 4096
}

/// Whether the negative of a word is such a word.
fn is_short_negative(width: Width, word: u64) -> bool
    ensures { result ≡ forms.is_short (2 ^ words.bits width - word) }
{
    match width {
        Width::W32 => is_short((1u64 << 32).saturating_sub(word)),
        Width::W64 => word != 0 && is_short(u64::MAX - word + 1),
    }
}

/// Whether a word is an immediate of ADD or SUB.
fn is_of_sum(width: Width, word: u64) -> bool
    ensures { result ≡ fold.is_immediate forms.OfSum width word }
{
    is_short(word) || is_short_negative(width, word)
}

/// Whether a word is an immediate of AND, ORR and EOR.
fn is_mask(width: Width, word: u64) -> bool
    ensures { result ≡ fold.is_mask width word }
{
    bit_mask_from(width, word).is_some()
}

/// Whether a value of an opcode is a sum.
pub(crate) fn is_add(opcode: Opcode) -> bool
    ensures { result ≡ fold.is_add opcode }
{
    matches!(opcode, Opcode::Add)
}

/// Whether a value of an opcode is a shift to the left.
pub(crate) fn is_shl(opcode: Opcode) -> bool
    ensures { result ≡ fold.is_shl opcode }
{
    matches!(opcode, Opcode::Shl)
}

/// Whether a value of an opcode stores a word.
fn is_store(opcode: Opcode) -> bool
    ensures { result ≡ fold.is_store opcode }
{
    matches!(opcode, Opcode::Store8 | Opcode::Store16 | Opcode::Store)
}

/// Whether a word is an immediate that the first child of a value of an opcode may be: 0, where it is stored.
pub(crate) fn is_first(opcode: Opcode, width: Width, word: u64) -> bool
    ensures { result ≡ fold.is_immediate (fold.first_immediates opcode) width word }
{
    let _ = width;
    is_store(opcode) && word == 0
}

/// Whether a word is an immediate that the second child of a value of an opcode may be.
pub(crate) fn is_second(opcode: Opcode, width: Width, word: u64) -> bool
    ensures { result ≡ fold.is_immediate (fold.second_immediates opcode) width word }
{
    match opcode {
        Opcode::Add => is_of_sum(width, word),
        Opcode::BitAnd | Opcode::BitOr | Opcode::BitXor => is_mask(width, word),
        Opcode::Shl | Opcode::SShr | Opcode::ZShr | Opcode::RotL | Opcode::RotR => true,
        _ => is_comparison(opcode) && is_of_sum(width, word),
    }
}

/// The place of the lowest bit of a word.
pub fn bit_of(word: u64) -> u32
    ensures { result ≡ fold.bit_of word }
{
    word.trailing_zeros()
}

/// Whether a word is one bit.
pub(crate) fn is_bit(word: u64) -> bool
    ensures { result ≡ fold.is_bit word }
{
    word != 0 && 1u64 << word.trailing_zeros() == word
}
