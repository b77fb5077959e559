//! Readers and writers of the standard library as sources and sinks.

ghost use Rattle.std.specs.Prelude.{◌≡◌, ◌<◌, ◌^◌};

use super::{Failed, FaultCount, Sink, Source};
use std::io::{Read, Write};

/// A source over a reader of the standard library. It tells the bytes that the reader tells: a
/// file, a pipe or a terminal tells none. Each read that fails is counted, also one that a signal
/// broke off.
#[derive(Drop)]
pub struct StdSource<R: Read> {
    inner: R,
    faults: FaultCount,
}

impl<R: Read> StdSource<R> {
    /// A source over `inner`, with no failure so far. It takes no memory.
    pub fn new(inner: R) -> StdSource<R>
        ensures left { ⟦<StdSource<R> as Source>⟧.left result ≡ R.remaining inner }
        ensures no_fault { ⟦<StdSource<R> as Source>⟧.faults result ≡ 0 }
    {
        StdSource {
            inner,
            faults: FaultCount::new(),
        }
    }
}

impl<R: Read> Source for StdSource<R> {
    ghost left = { λ s. R.remaining s.inner };

    ghost faults = { λ s. s.faults.count };

    ghost counted = { λ s. s.faults.counted };

    fn read(&mut self, into: &mut [u8]) -> Result<usize, Failed> {
        match self.inner.read(into) {
            Ok(count) => Ok(count),
            Err(_) => {
                self.faults.rise();
                Err(Failed)
            }
        }
    }
}

/// A sink over a writer of the standard library. It tells the bytes that the writer tells: a file,
/// a pipe or a terminal tells none. Each write that fails is counted, also one that takes nothing
/// of a piece that isn't empty. It does not flush: the writer must keep no bytes back.
#[derive(Drop)]
pub struct StdSink<W: Write> {
    inner: W,
    faults: FaultCount,
}

impl<W: Write> StdSink<W> {
    /// A sink over `inner`, with no failure so far. It takes no memory.
    pub fn new(inner: W) -> StdSink<W>
        ensures held { ⟦<StdSink<W> as Sink>⟧.held result ≡ W.contents inner }
        ensures no_fault { ⟦<StdSink<W> as Sink>⟧.faults result ≡ 0 }
    {
        StdSink {
            inner,
            faults: FaultCount::new(),
        }
    }
}

impl<W: Write> Sink for StdSink<W> {
    ghost held = { λ s. W.contents s.inner };

    ghost faults = { λ s. s.faults.count };

    ghost counted = { λ s. s.faults.counted };

    fn write(&mut self, piece: &[u8]) -> Result<usize, Failed> {
        match self.inner.write(piece) {
            Ok(count) if count > 0 || piece.is_empty() => Ok(count),
            _ => {
                self.faults.rise();
                Err(Failed)
            }
        }
    }
}
