//! Damaged bytes: cut, appended to, or with other bytes at a place.

use crate::content::{add_hex, number_of};
use crate::fault::Fault;
use b3_base::Bytes;
use std::alloc::Global;

/// The first of these bytes, so many of them.
pub fn cut(alloc: Global, bytes: &[u8], count: &str) -> Result<Bytes, Fault> {
    let count = place_of(count)?;
    let mut damaged = Bytes::new(alloc);
    damaged.extend(bytes.get(..count).ok_or(Fault::NotUnderstood)?)?;
    Ok(damaged)
}

/// These bytes without so many of the last ones.
pub fn shorten(alloc: Global, bytes: &[u8], count: &str) -> Result<Bytes, Fault> {
    let end = bytes
        .len()
        .checked_sub(place_of(count)?)
        .ok_or(Fault::NotUnderstood)?;
    let mut damaged = Bytes::new(alloc);
    damaged.extend(bytes.get(..end).ok_or(Fault::NotUnderstood)?)?;
    Ok(damaged)
}

/// These bytes and more behind them.
pub fn append(alloc: Global, bytes: &[u8], digits: &str) -> Result<Bytes, Fault> {
    let mut damaged = Bytes::new(alloc);
    damaged.extend(bytes)?;
    add_hex(&mut damaged, digits)?;
    Ok(damaged)
}

/// These bytes with others at a place, as in `.b3.exits+8 01`.
pub fn put(alloc: Global, bytes: &[u8], what: &str) -> Result<Bytes, Fault> {
    let (place, digits) = what.split_once(' ').ok_or(Fault::NotUnderstood)?;
    let at = match place.split_once('+') {
        Some((name, offset)) => section_start(bytes, name)
            .and_then(|start| start.checked_add(place_of(offset).ok()?))
            .ok_or(Fault::NotUnderstood)?,
        None => place_of(place)?,
    };
    let mut damaged = Bytes::new(alloc);
    damaged.extend(bytes.get(..at).ok_or(Fault::NotUnderstood)?)?;
    add_hex(&mut damaged, digits)?;
    damaged.extend(bytes.get(damaged.len()..).ok_or(Fault::NotUnderstood)?)?;
    Ok(damaged)
}

/// The place that decimal digits say.
fn place_of(digits: &str) -> Result<usize, Fault> {
    usize::try_from(number_of(digits)?).map_err(|_| Fault::NotUnderstood)
}

/// Where a section of an object begins.
fn section_start(file: &[u8], name: &str) -> Option<usize> {
    let index = match name {
        ".text" => 1,
        ".b3.frames" => 2,
        ".b3.exits" => 3,
        ".symtab" => 4,
        ".strtab" => 5,
        ".shstrtab" => 6,
        _ => return None,
    };
    // e_shoff stands at byte 40, and sh_offset at byte 24 of a header of 64 bytes.
    let headers = number_at(file, 40)?;
    number_at(file, headers.checked_add(64 * index + 24)?)
}

/// The number of 64 bits that stands at a place.
fn number_at(file: &[u8], at: usize) -> Option<usize> {
    let field = file.get(at..at.checked_add(8)?)?;
    let field: [u8; 8] = field.try_into().ok()?;
    usize::try_from(u64::from_le_bytes(field)).ok()
}
