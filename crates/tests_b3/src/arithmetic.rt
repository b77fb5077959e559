//! Words, at the edges of each width.

use b3_base::{Width, bit_mask_from, leading_zeros, low, mul_high, rotate_right, sext};
use std::alloc::Global;
use std::test::Fail;
use tests_rows::Teller;

/// Tells what a function of words gives.
#[derive(Drop)]
pub(crate) struct Arithmetic;

impl Teller for Arithmetic {
    fn told(&mut self, alloc: Global, asked: &str) -> Result<String, Fail> {
        let mut words = asked.split_whitespace();
        let name = words.next().unwrap_or("");
        let first = words.next().unwrap_or("");
        let second = words.next().unwrap_or("");
        let word = match name {
            "sign_extended" => extended(decimal(first)?, hex(second)?)?,
            "high_signed" => mul_high(true, hex(first)?, hex(second)?),
            "high_unsigned" => mul_high(false, hex(first)?, hex(second)?),
            "rotated_32" => rotate_right(
                Width::W32,
                low(Width::W32, hex(first)?),
                decimal(second)?,
            ),
            "rotated_64" => rotate_right(
                Width::W64,
                low(Width::W64, hex(first)?),
                decimal(second)?,
            ),
            "zeros_32" => leading_zeros(Width::W32, low(Width::W32, hex(first)?)),
            "zeros_64" => leading_zeros(Width::W64, low(Width::W64, hex(first)?)),
            "mask_32" => return mask(alloc, Width::W32, hex(first)?),
            "mask_64" => return mask(alloc, Width::W64, hex(first)?),
            _ => return Err(Fail::from("no such function")),
        };
        Ok(format!(in alloc; "{word:X}")?)
    }
}

/// The sign of the low bits of a word, put above them.
fn extended(from: u32, word: u64) -> Result<u64, Fail> {
    if from == 0 || from > 64 {
        return Err(Fail::from("no such width"));
    }
    Ok(sext(from, word))
}

/// The fields N, immr and imms of a mask.
fn mask(alloc: Global, width: Width, word: u64) -> Result<String, Fail> {
    match bit_mask_from(width, word) {
        Some((n, immr, imms)) => Ok(format!(in alloc; "{n} {immr} {imms}")?),
        None => Ok(String::from_str(alloc, "none")?),
    }
}

fn decimal(digits: &str) -> Result<u32, Fail> {
    Ok(digits.parse::<u32>()?)
}

pub(crate) fn hex(digits: &str) -> Result<u64, Fail> {
    Ok(u64::from_str_radix(digits, 16)?)
}
