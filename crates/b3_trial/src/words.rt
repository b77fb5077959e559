//! Words and bytes, read.

ghost use Rattle.std.specs.Prelude.{◌≡◌, ◌≤◌, ◌^◌, IfOk, IfSome, ◌<◌};
ghost use Rattle.b3_items.specs.Numbers as numbers;
ghost use Rattle.b3_trial.specs.Lines as spec;

use b3_base::{Bytes, NoMemory};
use std::alloc::Global;

#[tactic(auto, unfolding(b3_items::specs::Numbers::hex_digit))]
fn hex_digit(byte: u8) -> Option<u8>
    ensures is { result ≡ numbers.hex_digit byte }
    ensures small { IfSome result (λ digit. digit < 16) }
{
    match byte {
        b'0'..=b'9' => Some(byte - b'0'),
        b'a'..=b'f' => Some(byte - 87),
        b'A'..=b'F' => Some(byte - 55),
        _ => None,
    }
}

fn digit_below(base: u64, byte: u8) -> Option<u64>
    ensures { result ≡ numbers.below base (numbers.hex_digit byte) }
{
    let digit = u64::from(hex_digit(byte)?);
    if digit < base { Some(digit) } else { None }
}

/// The number of digits in a base, where it is below 2^64.
#[tactic(auto, using(crate::proofs::WordLemmas::value_on_grows))]
fn value_in(base: u64, digits: &[u8]) -> Option<u64>
    requires { 1 ≤ base }
    ensures { result ≡ numbers.below (2 ^ 64) (spec.value_on base 0 digits.now) }
{
    let mut value: u64 = 0;
    let mut text = digits;
    while let Some((first, rest)) = text.split_first() {
        let digit = digit_below(base, *first)?;
        value = value.checked_mul(base)?.checked_add(digit)?;
        text = rest;
    }
    Some(value)
}

#[tactic(auto, unfolding(crate::specs::Lines::digits_word))]
fn digits_word(base: u64, most: usize, text: &[u8]) -> Option<u64>
    requires { 1 ≤ base }
    ensures { result ≡ spec.digits_word base most text.now }
{
    if text.is_empty() || text.len() > most {
        return None;
    }
    value_in(base, text)
}

/// A word below 2^64: 1 to 20 digits, or `0x` and 1 to 16 hexadecimal digits.
#[tactic(auto, unfolding(crate::specs::Lines::word_of))]
pub(crate) fn read_word(text: &[u8]) -> Option<u64>
    ensures { result ≡ spec.word_of text.now }
{
    match text {
        [b'0', b'x', digits @ ..] => digits_word(16, 16, digits),
        _ => digits_word(10, 20, text),
    }
}

fn hex_byte(high: u8, low: u8) -> Option<u8>
    ensures { result ≡ spec.hex_byte high low }
{
    let high = hex_digit(high)?;
    let low = hex_digit(low)?;
    Some(high * 16 + low)
}

#[tactic(auto, using(crate::proofs::WordLemmas::bytes_more, crate::proofs::WordLemmas::bytes_odd, crate::proofs::WordLemmas::bytes_not, crate::proofs::WordLemmas::bytes_end, crate::proofs::WordLemmas::onto_nil))]
fn hex_bytes(alloc: Global, text: &[u8]) -> Result<Option<Bytes>, NoMemory>
    ensures { IfOk result (λ bytes. bytes ≡ spec.hex_bytes text.now) }
{
    let mut bytes = Bytes::new(alloc);
    let mut left = text;
    while let Some((high, more)) = left.split_first() {
        let Some((low, rest)) = more.split_first() else {
            return Ok(None);
        };
        let Some(byte) = hex_byte(*high, *low) else {
            return Ok(None);
        };
        bytes.push(byte)?;
        left = rest;
    }
    Ok(Some(bytes))
}

/// Bytes: an even and positive number of hexadecimal digits.
#[tactic(auto, unfolding(crate::specs::Lines::bytes_of))]
pub(crate) fn read_bytes(alloc: Global, text: &[u8]) -> Result<Option<Bytes>, NoMemory>
    ensures { IfOk result (λ bytes. bytes ≡ spec.bytes_of text.now) }
{
    if text.is_empty() {
        return Ok(None);
    }
    hex_bytes(alloc, text)
}
