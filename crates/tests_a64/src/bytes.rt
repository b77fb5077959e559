//! Bytes as files and rows spell them.

use std::alloc::Global;
use std::str;
use std::test::Fail;
use tests_rows::read_file;

/// The bytes of a file in base 16, whose lines that begin with `//` are comments.
pub(crate) fn read_hex(rt: &HostRuntime, name: &str) -> Result<Vec<u8>, Fail> {
    let bytes = read_file(rt, name)?;
    let mut all = Vec::new(rt.alloc());
    for line in str::from_utf8(bytes.as_slice())?.lines() {
        if !line.starts_with("//") {
            let piece = hex::decode(rt.alloc(), line)?;
            all.extend_from_slice(piece.as_slice())?;
        }
    }
    Ok(all)
}

/// Bytes with what a row says of them: `byte 96 is 2, byte 104 is 48`, or `first 63`.
pub(crate) fn damaged(alloc: Global, bytes: &[u8], damage: &str) -> Result<Vec<u8>, Fail> {
    if let Some(count) = damage.strip_prefix("first ") {
        let first = bytes
            .get(..count.parse::<usize>()?)
            .ok_or("too many bytes")?;
        return Ok(first.to_vec(alloc)?);
    }
    let mut copy = bytes.to_vec(alloc)?;
    for part in damage.split(", ") {
        if let Some(one) = part.strip_prefix("byte ") {
            let (at, by) = one.split_once(" is ").ok_or("no byte")?;
            let byte = copy.get_mut(at.parse::<usize>()?).ok_or("no such byte")?;
            *byte = by.parse::<u8>()?;
        }
    }
    Ok(copy)
}
