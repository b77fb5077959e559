//! Lines that say bytes: lines and pieces of text, hexadecimal digits, bytes that have a name, and repetitions with a
//! running number.

ghost use Rattle.std.specs.Prelude.{◌<◌, IfOk};

use crate::fault::Fault;
use crate::named::Named;
use b3_base::Bytes;
use std::alloc::Global;
use std::str;

/// The bytes that the lines of a paragraph say; its other lines say none.
pub fn bytes_of(alloc: Global, lines: &str, named: &Named) -> Result<Bytes, Fault> {
    let mut bytes = Bytes::new(alloc);
    for line in lines.lines() {
        match line.strip_prefix("each ") {
            Some(rest) => add_each(alloc, &mut bytes, rest, named)?,
            None => add_line(&mut bytes, line, named)?,
        }
    }
    Ok(bytes)
}

/// Adds what one line says: a line of text behind `|`, a piece of one behind `>`, digits behind `hex`, or a name
/// behind `of`.
fn add_line(bytes: &mut Bytes, line: &str, named: &Named) -> Result<(), Fault> {
    if let Some(text) = line.strip_prefix('|') {
        bytes.extend(text.strip_prefix(' ').unwrap_or(text).as_bytes())?;
        bytes.push(b'\n')?;
    } else if let Some(text) = line.strip_prefix('>') {
        bytes.extend(text.strip_prefix(' ').unwrap_or(text).as_bytes())?;
    } else if let Some(digits) = line.strip_prefix("hex ") {
        add_hex(bytes, digits)?;
    } else if let Some(name) = line.strip_prefix("of ") {
        bytes.extend(named.get(name)?)?;
    }
    Ok(())
}

/// Adds a line once for each number, as in `1 to 5 | line {}`; of bytes that have a name each `{}` is the number too.
fn add_each(alloc: Global, bytes: &mut Bytes, rest: &str, named: &Named) -> Result<(), Fault> {
    let (first, last, line) = range_of(rest)?;
    for number in first..=last {
        match line.strip_prefix("of ") {
            Some(name) => {
                let text = str::from_utf8(named.get(name)?).map_err(|_| Fault::NotUnderstood)?;
                bytes.extend(filled(alloc, text, number)?.as_bytes())?;
            }
            None => add_line(bytes, filled(alloc, line, number)?.as_str(), named)?,
        }
    }
    Ok(())
}

/// The first and the last number that a range says, as in `1 to 5`, and what stands behind it.
pub fn range_of(text: &str) -> Result<(u64, u64, &str), Fault> {
    let (first, rest) = text.split_once(" to ").ok_or(Fault::NotUnderstood)?;
    let (last, rest) = rest.split_once(' ').unwrap_or((rest, ""));
    Ok((number_of(first)?, number_of(last)?, rest))
}

/// The number that decimal digits say.
pub fn number_of(digits: &str) -> Result<u64, Fault> {
    digits.parse::<u64>().map_err(|_| Fault::NotUnderstood)
}

/// A text with a number in the place of each `{}`.
pub fn filled(alloc: Global, text: &str, number: u64) -> Result<String, Fault> {
    let mut whole = String::new(alloc);
    let mut is_first = true;
    for piece in text.split("{}") {
        if !is_first {
            whole.push_str(format!(in alloc; "{number}")?.as_str())?;
        }
        is_first = false;
        whole.push_str(piece)?;
    }
    Ok(whole)
}

/// Adds the bytes that pairs of hexadecimal digits say.
pub fn add_hex(bytes: &mut Bytes, digits: &str) -> Result<(), Fault> {
    for pair in digits.as_bytes().chunks(2) {
        match pair {
            [high, low] => bytes.push(digit_of(*high)? * 16 + digit_of(*low)?)?,
            _ => return Err(Fault::NotUnderstood),
        }
    }
    Ok(())
}

/// The number below 16 that a digit says.
fn digit_of(digit: u8) -> Result<u8, Fault>
    ensures { IfOk result (λ n. n < 16) }
{
    match digit {
        b'0'..=b'9' => Ok(digit - b'0'),
        b'a'..=b'f' => Ok(digit - b'a' + 10),
        _ => Err(Fault::NotUnderstood),
    }
}
