//! The words that opcodes give, in a width.

ghost use Rattle.std.specs.Prelude.{◌≡◌, ◌<◌, ◌/◌, ◌%◌, ◌^◌, ◌⊎◌};
ghost use Rattle.std.specs.Int.{cast_signed, cast_unsigned, w32};
ghost use Rattle.std.specs.Int.RustNames.{int_div, int_rem};
ghost use Rattle.b3_base.specs.Arithmetic as arithmetic;
ghost use Rattle.b3_base.specs.Signed as words;
ghost use Rattle.b3_base.specs.Word.{bits};
ghost use Rattle.b3_ir.specs.Types as types;
ghost use Rattle.b3_meaning.specs.Opcodes as spec;

use b3_base::{Width, low, rotate_right, sext};
use b3_ir::Ty;

/// The width of the words of a type.
pub(crate) fn width_of(ty: Ty) -> Width
    ensures { result ≡ types.width_of ty }
{
    match ty {
        Ty::Int32 => Width::W32,
        Ty::Void | Ty::Int64 => Width::W64,
    }
}

/// 1 for true, 0 for false.
pub(crate) fn truth(told: bool) -> u64
    ensures { result ≡ spec.truth told }
{
    u64::from(told)
}

/// The sum of two words, in the width.
pub(crate) fn sum(width: Width, x: u64, y: u64) -> u64
    ensures { result ≡ spec.sum width x y }
{
    low(width, x.wrapping_add(y))
}

/// The difference of two words of a width, in the width.
pub(crate) fn difference(width: Width, x: u64, y: u64) -> u64
    requires first { x < 2 ^ bits width }
    requires second { y < 2 ^ bits width }
    ensures { result ≡ spec.difference width x y }
{
    match width {
        Width::W32 => (x + (0x1_0000_0000 - y)) % 0x1_0000_0000,
        Width::W64 => x.wrapping_sub(y),
    }
}

/// The product of two words, in the width.
pub(crate) fn product(width: Width, x: u64, y: u64) -> u64
    ensures { result ≡ spec.product width x y }
{
    low(width, x.wrapping_mul(y))
}

/// The quotient of two words of a width, taken as signed numbers and rounded toward zero; undefined by
/// zero, and of the least number by -1. Where it is chill these are 0 and the least number.
pub(crate) fn divided(width: Width, chill: bool, x: u64, y: u64) -> Option<u64>
    requires first { x < 2 ^ bits width }
    requires second { y < 2 ^ bits width }
    ensures { result ≡ spec.word_given (spec.divided width chill x y) }
{
    if y == 0 {
        chilled(chill, 0)
    } else if is_least_by_minus_one(width, x, y) {
        chilled(chill, x)
    } else {
        Some(quotient(width, x, y))
    }
}

/// What that quotient leaves, with the sign of the first word; undefined where the quotient is. Where
/// it is chill it is then 0.
pub(crate) fn left_over(width: Width, chill: bool, x: u64, y: u64) -> Option<u64>
    requires first { x < 2 ^ bits width }
    requires second { y < 2 ^ bits width }
    ensures { result ≡ spec.word_given (spec.left_over width chill x y) }
{
    if y == 0 || is_least_by_minus_one(width, x, y) {
        return chilled(chill, 0);
    }
    Some(remainder(width, x, y))
}

/// What an undefined division gives: a word where it is chill.
fn chilled(chill: bool, word: u64) -> Option<u64>
    ensures { result ≡ spec.word_given (spec.chilled chill word spec.DivisionByZero) }
{
    if chill { Some(word) } else { None }
}

/// Whether two words are the least signed number of a width and -1.
fn is_least_by_minus_one(width: Width, x: u64, y: u64) -> bool
    ensures { result ≡ spec.is_least_by_minus_one width x y }
{
    match width {
        Width::W32 => x == 0x8000_0000 && y == 0xFFFF_FFFF,
        Width::W64 => x == 0x8000_0000_0000_0000 && y == u64::MAX,
    }
}

fn quotient(width: Width, x: u64, y: u64) -> u64
    requires first { x < 2 ^ bits width }
    requires second { y < 2 ^ bits width }
    requires divisor { 0 < y }
    ensures { result ≡ spec.quotient width x y }
{
    match width {
        Width::W32 => u64::from(narrow_quotient(x as u32, y as u32)),
        Width::W64 => x
            .cast_signed()
            .wrapping_div(y.cast_signed())
            .cast_unsigned(),
    }
}

fn narrow_quotient(x: u32, y: u32) -> u32
    requires { 0 < y }
    ensures { result ≡ cast_unsigned w32 (int_div (cast_signed w32 x) (cast_signed w32 y)) }
{
    x.cast_signed()
        .wrapping_div(y.cast_signed())
        .cast_unsigned()
}

fn remainder(width: Width, x: u64, y: u64) -> u64
    requires first { x < 2 ^ bits width }
    requires second { y < 2 ^ bits width }
    requires divisor { 0 < y }
    ensures { result ≡ spec.remainder width x y }
{
    match width {
        Width::W32 => u64::from(narrow_remainder(x as u32, y as u32)),
        Width::W64 => x
            .cast_signed()
            .wrapping_rem(y.cast_signed())
            .cast_unsigned(),
    }
}

fn narrow_remainder(x: u32, y: u32) -> u32
    requires { 0 < y }
    ensures { result ≡ cast_unsigned w32 (int_rem (cast_signed w32 x) (cast_signed w32 y)) }
{
    x.cast_signed()
        .wrapping_rem(y.cast_signed())
        .cast_unsigned()
}

/// The quotient of two unsigned words, undefined by zero.
pub(crate) fn unsigned_quotient(x: u64, y: u64) -> Option<u64>
    ensures { result ≡ spec.word_given (spec.unless_zero y (x / y)) }
{
    if y == 0 { None } else { Some(x / y) }
}

/// What that quotient leaves.
pub(crate) fn unsigned_remainder(x: u64, y: u64) -> Option<u64>
    ensures { result ≡ spec.word_given (spec.unless_zero y (x % y)) }
{
    if y == 0 { None } else { Some(x % y) }
}

/// The amount of a shift in a width: its low 5 or 6 bits.
fn amount(width: Width, s: u64) -> u32
    ensures value { result ≡ spec.amount width s }
    ensures small { result < bits width }
{
    match width {
        Width::W32 => (s % 32) as u32,
        Width::W64 => (s % 64) as u32,
    }
}

/// A word shifted left, in the width.
pub(crate) fn shifted_left(width: Width, x: u64, s: u64) -> u64
    ensures { result ≡ spec.shifted_left width x s }
{
    low(width, x << amount(width, s))
}

/// A word shifted right, with zeros from above.
pub(crate) fn shifted_right(width: Width, x: u64, s: u64) -> u64
    ensures { result ≡ x / 2 ^ spec.amount width s }
{
    x >> amount(width, s)
}

/// A word of a width shifted right, with its sign from above.
pub(crate) fn shifted_right_signed(width: Width, x: u64, s: u64) -> u64
    requires { x < 2 ^ bits width }
    ensures { result ≡ words.shifted_right_signed width x (spec.amount width s) }
{
    let by = amount(width, s);
    if is_negative(width, x) {
        let signs = ((1u128 << by) - 1) * limit_of(width);
        ((u128::from(x) + signs) >> by) as u64
    } else {
        x >> by
    }
}

/// 2 to the bits of a width.
fn limit_of(width: Width) -> u128
    ensures { result ≡ 2 ^ bits width }
{
    match width {
        Width::W32 => 0x1_0000_0000,
        Width::W64 => 0x1_0000_0000_0000_0000,
    }
}

/// Whether the highest bit of a word of a width is set.
fn is_negative(width: Width, word: u64) -> bool
    ensures { result ≡ words.is_negative width word }
{
    match width {
        Width::W32 => word >= 0x8000_0000,
        Width::W64 => word >= 0x8000_0000_0000_0000,
    }
}

/// A word of a width rotated left.
pub(crate) fn rotated_left(width: Width, x: u64, s: u64) -> u64
    requires { x < 2 ^ bits width }
    ensures { result ≡ spec.rotate_left width x s }
{
    rotate_right(width, x, width.bits() - amount(width, s))
}

/// A word of a width rotated right.
pub(crate) fn rotated_right(width: Width, x: u64, s: u64) -> u64
    requires { x < 2 ^ bits width }
    ensures { result ≡ arithmetic.rotate_right width x s }
{
    rotate_right(width, x, amount(width, s))
}

/// The low `from` bits of a word, 8 or 16, with their sign above in 32 bits.
pub(crate) fn extended(from: u32, x: u64) -> u64
    requires { (from ≡ 8) ⊎ (from ≡ 16) }
    ensures { result ≡ arithmetic.low Width.W32 (arithmetic.sign_extended from x) }
{
    low(Width::W32, sext(from, x))
}

/// Whether a word of a type is below another, as signed numbers.
pub(crate) fn is_below(ty: Ty, x: u64, y: u64) -> bool
    requires first { x < 2 ^ bits (types.width_of ty) }
    requires second { y < 2 ^ bits (types.width_of ty) }
    ensures { result ≡ spec.is_below ty x y }
{
    match width_of(ty) {
        Width::W32 => (x as u32).cast_signed() < (y as u32).cast_signed(),
        Width::W64 => x.cast_signed() < y.cast_signed(),
    }
}
