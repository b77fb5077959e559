//! Numbers.

ghost use Rattle.std.specs.Prelude.{◌≡◌, ◌≤◌, ◌^◌, ◌*◌, ◌-◌};
ghost use Rattle.std.specs.Char.{is_ascii_digit};
ghost use Rattle.std.specs.List.{list_all};
ghost use Rattle.b3_items.specs.Numbers.{after, are_digits, below, case_of, decimal_of, digits_of, has_number_form, hex_digit, hex_of, hex_on, is_hex_digit, number_of, offset_in, offset_of, plain_after, plain_of, viewed, word_below, word_of};

use b3_base::Width;

/// A number below 2^64 in size, and whether `-` stands before it.
#[derive(Clone, Copy, Debug, PartialEq, Eq)]
pub struct Number {
    pub negative: bool,
    pub size: u64,
}

/// What follows a front, where a text begins with it.
#[tactic(auto, using(crate::proofs::NumberLemmas::after_short, crate::proofs::NumberLemmas::after_is))]
pub fn after<'a>(front: &[u8], text: &'a [u8]) -> Option<&'a [u8]>
    ensures { viewed result ≡ after front.now text.now }
{
    if text.len() < front.len() {
        return None;
    }
    let (start, rest) = text.split_at(front.len());
    if start == front { Some(rest) } else { None }
}

/// The value of digits that is below 2^64.
#[tactic(auto, using(crate::proofs::NumberLemmas::value_on_grows))]
fn digits_value(digits: &[u8]) -> Option<u64>
    ensures { result ≡ below (2 ^ 64) (digits_of digits.now) }
{
    let mut value: u64 = 0;
    let mut text = digits;
    while let Some((digit, rest)) = text.split_first() {
        if !digit.is_ascii_digit() {
            return None;
        }
        value = value
            .checked_mul(10)?
            .checked_add(u64::from(*digit - b'0'))?;
        text = rest;
    }
    Some(value)
}

#[tactic(auto, unfolding(crate::specs::Numbers::hex_digit))]
fn hex_digit(byte: u8) -> Option<u8>
    ensures { result ≡ hex_digit byte }
{
    match byte {
        b'0'..=b'9' => Some(byte - b'0'),
        b'a'..=b'f' => Some(byte - 87),
        b'A'..=b'F' => Some(byte - 55),
        _ => None,
    }
}

/// The value of hexadecimal digits that is below 2^64.
#[tactic(auto, using(crate::proofs::NumberLemmas::hex_on_grows))]
fn hex_value(digits: &[u8]) -> Option<u64>
    ensures { result ≡ below (2 ^ 64) (hex_on 0 digits.now) }
{
    let mut value: u64 = 0;
    let mut text = digits;
    while let Some((first, rest)) = text.split_first() {
        let digit = hex_digit(*first)?;
        value = value.checked_mul(16)?.checked_add(u64::from(digit))?;
        text = rest;
    }
    Some(value)
}

/// A plain number: 1 to 10 digits, below 2^31.
#[tactic(auto, unfolding(crate::specs::Numbers::plain_of))]
pub fn read_plain(text: &[u8]) -> Option<u32>
    ensures { result ≡ plain_of text.now }
{
    if text.is_empty() || text.len() > 10 {
        return None;
    }
    let value = digits_value(text)?;
    if value < 1 << 31 {
        Some(value as u32)
    } else {
        None
    }
}

/// A plain number behind a front.
pub fn read_plain_after(front: &[u8], text: &[u8]) -> Option<u32>
    ensures { result ≡ plain_after front.now text.now }
{
    read_plain(after(front, text)?)
}

#[tactic(auto, unfolding(crate::specs::Numbers::decimal_of))]
fn decimal(text: &[u8]) -> Option<u64>
    ensures { result ≡ decimal_of text.now }
{
    if text.is_empty() || text.len() > 20 {
        return None;
    }
    digits_value(text)
}

#[tactic(auto, unfolding(crate::specs::Numbers::hex_of))]
fn hex(text: &[u8]) -> Option<u64>
    ensures { result ≡ hex_of text.now }
{
    if text.is_empty() || text.len() > 16 {
        return None;
    }
    hex_value(text)
}

/// A constant below 2^64 in size: `-` and 1 to 20 digits, 1 to 20 digits, or `0x` and 1 to 16 hexadecimal digits.
#[tactic(auto, unfolding(crate::specs::Numbers::number_of))]
pub fn read_number(text: &[u8]) -> Option<Number>
    ensures { result ≡ number_of text.now }
{
    match text {
        [b'-', digits @ ..] => Some(Number {
            negative: true,
            size: decimal(digits)?,
        }),
        [b'0', b'x', digits @ ..] => Some(Number {
            negative: false,
            size: hex(digits)?,
        }),
        _ => Some(Number {
            negative: false,
            size: decimal(text)?,
        }),
    }
}

fn all_digits(text: &[u8]) -> bool
    ensures { result ≡ list_all is_ascii_digit text.now }
{
    text.iter().all(|b| b.is_ascii_digit())
}

#[tactic(auto, unfolding(crate::specs::Numbers::are_digits))]
fn are_digits(text: &[u8]) -> bool
    ensures { result ≡ are_digits text.now }
{
    !text.is_empty() && text.len() <= 20 && all_digits(text)
}

fn is_hex_digit(byte: u8) -> bool
    ensures { result ≡ is_hex_digit byte }
{
    hex_digit(byte).is_some()
}

fn all_hex(text: &[u8]) -> bool
    ensures { result ≡ list_all is_hex_digit text.now }
{
    text.iter().all(|b| is_hex_digit(*b))
}

/// Whether a text has the form of a constant, whatever its size.
#[tactic(auto, unfolding(crate::specs::Numbers::has_number_form))]
pub fn has_number_form(text: &[u8]) -> bool
    ensures { result ≡ has_number_form text.now }
{
    match text {
        [b'-', digits @ ..] => are_digits(digits),
        [b'0', b'x', digits @ ..] => !digits.is_empty() && digits.len() <= 16 && all_hex(digits),
        _ => are_digits(text),
    }
}

impl Number {
    /// A number from -half to 2 * half - 1, modulo 2 * half.
    fn word_below(self, half: u64) -> Option<u64>
        requires some { 1 ≤ half }
        requires within { half ≤ 2 ^ 63 }
        ensures { result ≡ word_below half (2 * half) self }
    {
        let most = half - 1 + half;
        if self.negative {
            if self.size > half {
                None
            } else if self.size == 0 {
                Some(0)
            } else {
                Some(most - (self.size - 1))
            }
        } else if self.size <= most {
            Some(self.size)
        } else {
            None
        }
    }

    /// A word of a width: a number from -2^31 to 2^32 - 1, or from -2^63 to 2^64 - 1, modulo 2^32 or 2^64.
    #[tactic(auto, unfolding(crate::specs::Numbers::word_of))]
    pub fn word(self, width: Width) -> Option<u64>
        ensures { result ≡ word_of width self }
    {
        match width {
            Width::W32 => self.word_below(1 << 31),
            Width::W64 => self.word_below(1 << 63),
        }
    }

    #[tactic(auto, unfolding(crate::specs::Numbers::offset_in))]
    fn offset(self) -> Option<i32>
        ensures { result ≡ offset_in self }
    {
        if self.negative {
            if self.size <= 1 << 31 {
                Some((-(self.size as i64)) as i32)
            } else {
                None
            }
        } else if self.size < 1 << 31 {
            Some(self.size as i32)
        } else {
            None
        }
    }
}

/// An offset in bytes: from -2^31 to 2^31 - 1.
#[tactic(auto, unfolding(crate::specs::Numbers::offset_of))]
pub fn read_offset(text: &[u8]) -> Option<i32>
    ensures { result ≡ offset_of text.now }
{
    read_number(text)?.offset()
}

/// A case, as a word of 64 bits: from -2^63 to 2^64 - 1.
#[tactic(auto, unfolding(crate::specs::Numbers::case_of))]
pub fn read_case(text: &[u8]) -> Option<u64>
    ensures { result ≡ case_of text.now }
{
    read_number(text)?.word(Width::W64)
}
