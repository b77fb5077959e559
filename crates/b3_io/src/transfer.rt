//! Whole streams: all bytes of a source, all bytes to a sink.

ghost use Rattle.std.specs.Prelude.{◌≡◌, ◌≢◌, ℕ, ◌<◌, ◌≤◌, List, [], length, take, Some, Err, IfSome, IfOk, IfErr, OnOk, OnErr};
ghost use Rattle.std.specs.Io.KnownBytes.{Appends};
ghost use Rattle.b3_io.specs.declared.transfer.ReadAll.TheVariants.{NoMemory};
ghost use Rattle.b3_io.specs.Faults.{Rose};
ghost use Rattle.b3_io.specs.Taken.{Takes};

use super::{Failed, Sink, Source};
use b3_base::{Bytes, NoMemory};
use std::alloc::Global;

/// Why a source was not read to its end.
#[derive(Clone, Copy, Debug, PartialEq, Eq)]
pub enum ReadAll {
    /// A read failed.
    Fault,
    /// More bytes came than the limit.
    TooLong,
    /// An allocation was refused.
    NoMemory,
}

impl From<NoMemory> for ReadAll {
    ghost from_gives = { λ _ e. e ≡ NoMemory };

    fn from(_refusal: NoMemory) -> ReadAll {
        ReadAll::NoMemory
    }
}

/// A write failed before all bytes were taken.
#[derive(Clone, Copy, Debug, PartialEq, Eq)]
pub struct WriteFault;

/// How many bytes one read of `read_all` asks for at most.
const CHUNK: usize = 4096;

/// All bytes that `source` has left, at most `limit` of them. It is refused where a read fails,
/// where more than `limit` bytes came, and for want of memory. It takes memory for what came.
pub fn read_all<S: Source>(alloc: Global, source: &mut S, limit: usize) -> Result<Bytes, ReadAll>
    // All bytes that were left, up to the end.
    ensures all { IfOk result (λ bytes. IfSome (S.left source.old) (λ left. bytes ≡ left)) }
    ensures end { OnOk result (IfSome (S.left source.old) (λ _. S.left source.new ≡ Some [])) }
    ensures bound { IfOk result (λ bytes. length bytes ≤ limit) }

    // More than `limit` bytes came at `TooLong`, and at no other refusal.
    ensures too_long { result ≡ Err ReadAll.TooLong
        → Takes (λ n. limit < n) (S.left source.old) (S.left source.new) }
    ensures within { IfErr result (λ e. e ≢ ReadAll.TooLong
        → Takes (λ n. n ≤ limit) (S.left source.old) (S.left source.new)) }

    // The count of failures rose at `Fault`, and stayed otherwise.
    ensures fault { result ≡ Err ReadAll.Fault → Rose (S.faults source.old) (S.faults source.new) }
    ensures steady { result ≢ Err ReadAll.Fault → S.faults source.new ≡ S.faults source.old }
    ensures never_falls { S.faults source.old ≤ S.faults source.new }
{
    let mut bytes = Bytes::new(alloc);
    let mut chunk = [0; CHUNK];
    loop {
        match source.read(&mut chunk) {
            Ok(0) => return Ok(bytes),
            Ok(count) => {
                if count > limit - bytes.len() {
                    return Err(ReadAll::TooLong);
                }
                bytes.extend(&chunk[..count])?;
            }
            Err(Failed) => return Err(ReadAll::Fault),
        }
    }
}

/// Writes all of `bytes` to `sink`. It is refused where a write fails, and then the sink took the
/// first bytes alone. It takes no memory.
pub fn write_all<K: Sink>(sink: &mut K, bytes: &[u8]) -> Result<(), WriteFault>
    ensures all { OnOk result (Appends (K.held sink.old) (K.held sink.new) bytes.now) }
    ensures steady { OnOk result (K.faults sink.new ≡ K.faults sink.old) }
    ensures prefix { OnErr result ((count : ℕ) × (count < length bytes.now)
        × Appends (K.held sink.old) (K.held sink.new) (take count bytes.now)) }
    ensures fault { OnErr result (Rose (K.faults sink.old) (K.faults sink.new)) }
    ensures never_falls { K.faults sink.old ≤ K.faults sink.new }
{
    let mut rest = bytes;
    while !rest.is_empty() {
        match sink.write(rest) {
            Ok(count) => rest = &rest[count..],
            Err(Failed) => return Err(WriteFault),
        }
    }
    Ok(())
}
