//! Why the cases can't be run.

use b3_base::NoMemory;
use std::alloc::{AllocError, AllocFailed};
use std::{fmt, io};

/// Why the cases can't be run. What the tool answers is none of these: it is what is shown.
#[derive(Clone, Copy, Debug, PartialEq, Eq)]
pub enum Fault {
    /// A file or a standard stream can't be read or written.
    Stream,
    /// A line says nothing that a case may say, or names bytes that don't stand above it.
    NotUnderstood,
    /// The paragraph that begins on this line is not understood.
    Paragraph(usize),
    /// Want of memory.
    NoMemory,
}

impl fmt::Display for Fault {
    fn fmt<W: fmt::Write>(&self, f: &mut fmt::Formatter<W>) -> fmt::Result {
        match self {
            Fault::Stream => write!(f, "a stream failed"),
            Fault::NotUnderstood => write!(f, "a line is not understood"),
            Fault::Paragraph(line) => write!(f, "the paragraph at line {line} is not understood"),
            Fault::NoMemory => write!(f, "out of memory"),
        }
    }
}

impl From<io::Error> for Fault {
    fn from(_error: io::Error) -> Fault {
        Fault::Stream
    }
}

impl From<NoMemory> for Fault {
    fn from(_refusal: NoMemory) -> Fault {
        Fault::NoMemory
    }
}

impl From<AllocError> for Fault {
    fn from(_refusal: AllocError) -> Fault {
        Fault::NoMemory
    }
}

impl<T: Drop> From<AllocFailed<T>> for Fault {
    fn from(_refusal: AllocFailed<T>) -> Fault {
        Fault::NoMemory
    }
}
