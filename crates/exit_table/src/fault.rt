//! What is wrong with the bytes of tables.

ghost use Rattle.std.specs.Prelude.{◌≡◌};
ghost use Rattle.exit_table.specs.Read.{cause_number, code_of, byte_of};
ghost use Rattle.exit_table.specs.declared.fault.ReadError.TheVariants.{NoMemory};

use b3_base::NoMemory as Refused;
use thiserror::Error;

/// What a field breaks.
#[derive(Clone, Copy, Debug, PartialEq, Eq)]
pub(crate) enum Cause {
    /// The section's mark or version is another.
    Mark,
    /// The section has another number of rows, or bytes behind the last.
    Extent,
    /// A number means nothing here.
    Unlisted,
    /// A rule of good tables.
    Rule,
    /// The order of rows.
    Order,
}

/// The first fault of a section.
#[derive(Clone, Copy, Debug, PartialEq, Eq)]
pub(crate) enum Fault {
    /// The section ends inside a row.
    Short,
    /// A field breaks this, and so many whole fields of 4 bytes are left from it on.
    At(Cause, usize),
}

/// Why nothing was read.
#[derive(Clone, Copy, Debug, PartialEq, Eq)]
pub(crate) enum ReadError {
    /// An allocation was refused.
    NoMemory,
    /// The bytes have a fault.
    Fault(Fault),
}

impl From<Refused> for ReadError {
    ghost from_gives = { λ _ e. e ≡ NoMemory };

    fn from(_refusal: Refused) -> ReadError {
        ReadError::NoMemory
    }
}

/// Why two sections give no tables. A fault has its number, 1 to 5, and the first byte of its field
/// in its section: 1 where the mark or the version is another; 2 where the section ends inside a
/// row (at its end), has bytes behind the last one or another number of frames; 3 where a number
/// means nothing; 4 where another rule of good tables is broken; 5 where rows are out of order. A
/// fault at byte 2^32 of a section or behind is told as want of memory.
#[derive(Clone, Copy, Debug, PartialEq, Eq, Error)]
pub enum TableFault {
    /// The first fault of the frame section.
    #[error("the frame section has fault {code} at byte {byte}")]
    Frames { code: u8, byte: u32 },
    /// The frame section is good, and this is the first fault of the exit section.
    #[error("the exit section has fault {code} at byte {byte}")]
    Exits { code: u8, byte: u32 },
    /// An allocation was refused.
    #[error("out of memory")]
    NoMemory,
}

impl Cause {
    fn number(self) -> u8
        ensures { result ≡ cause_number self }
    {
        match self {
            Cause::Mark => 1,
            Cause::Extent => 2,
            Cause::Unlisted => 3,
            Cause::Rule => 4,
            Cause::Order => 5,
        }
    }
}

impl Fault {
    /// The number of the fault.
    pub(crate) fn code(self) -> u8
        ensures { result ≡ code_of self }
    {
        match self {
            Fault::Short => 2,
            Fault::At(cause, _) => cause.number(),
        }
    }

    /// The byte of a section of so many bytes at which the fault stands.
    pub(crate) fn byte(self, size: usize) -> usize
        ensures { result ≡ byte_of size self }
    {
        match self {
            Fault::Short => size,
            Fault::At(_, left) => 4 * (size / 4).saturating_sub(left),
        }
    }
}
