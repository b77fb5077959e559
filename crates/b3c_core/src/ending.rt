//! How a call of the tool ends: its status, and its line on the error stream.

ghost use Rattle.std.specs.Prelude.{◌≡◌, ◌++◌, ◌+◌, ◌≤◌, length, take};
ghost use Rattle.b3c_core.specs.Tool.{TakesLine, at_line, at_place, limit_name, line_of, status_of};

use b3_base::NoMemory;
use b3_io::{Sink, WriteFault, write_all};
use b3_module::LimitName;
use itoa::Buffer;

/// How a call of the tool ends.
#[derive(Clone, Copy, Debug, PartialEq, Eq)]
pub enum Ending {
    /// The command's output was written whole.
    Written,
    /// The words match no command.
    Usage,
    /// A read of the input failed.
    ReadFault,
    /// A read of the trial failed.
    TrialReadFault,
    /// A write of the output failed.
    WriteFault,
    /// The input has more bytes than it may have.
    TooLong,
    /// The trial has more bytes than it may have.
    TrialTooLong,
    /// The input is no text; this is its bad line.
    Syntax { line: u32 },
    /// The text passes a limit, first on this line.
    Limit { which: LimitName, line: u32 },
    /// The text breaks the rule of this number, first on this line.
    Invalid { rule: u8, line: u32 },
    /// The input is no good object: its first fault has this number, and stands at this byte.
    BadObject { code: u8, byte: u64 },
    /// The bytes are no trial; this is their bad line.
    BadTrial { line: u32 },
    /// The trial may not begin the procedure that it names, or names none.
    Misplaced,
    /// Want of memory.
    NoMemory,
}

impl From<NoMemory> for Ending {
    ghost use Rattle.std.specs.Prelude.{◌≡◌};
    ghost use Rattle.b3c_core.specs.declared.ending.Ending.TheVariants.{NoMemory as no_memory};

    ghost from_gives = { λ _ ending. ending ≡ no_memory };

    fn from(_refusal: NoMemory) -> Ending {
        Ending::NoMemory
    }
}

impl Ending {
    /// The exit status.
    pub fn status(self) -> u8
        ensures { result ≡ status_of self }
    {
        match self {
            Ending::Written => 0,
            Ending::Usage => 2,
            Ending::ReadFault | Ending::TrialReadFault => 3,
            Ending::WriteFault => 4,
            Ending::Syntax { .. } => 5,
            Ending::Invalid { .. } => 6,
            Ending::TooLong | Ending::TrialTooLong | Ending::Limit { .. } => 7,
            Ending::BadObject { .. } | Ending::BadTrial { .. } | Ending::Misplaced => 8,
            Ending::NoMemory => 9,
        }
    }

    /// Writes the line of this ending. It takes no memory, and stops at a write that fails.
    pub fn report<E: Sink>(self, err: &mut E)
        ensures { TakesLine (line_of self) (E.held err.old) (E.held err.new) (E.faults err.old) (E.faults err.new) }
    {
        match self {
            Ending::Written => write_line(err, b""),
            Ending::Usage => write_line(err, b"b3c: usage\n"),
            Ending::ReadFault => write_line(err, b"b3c: input: read fault\n"),
            Ending::TrialReadFault => write_line(err, b"b3c: trial: read fault\n"),
            Ending::WriteFault => write_line(err, b"b3c: write fault\n"),
            Ending::TooLong => write_line(err, b"b3c: input: limit bytes\n"),
            Ending::TrialTooLong => write_line(err, b"b3c: trial: limit bytes\n"),
            Ending::Misplaced => write_line(err, b"b3c: trial: placement\n"),
            Ending::NoMemory => write_line(err, b"b3c: out of memory\n"),
            Ending::Syntax { line } => report_line(err, line, b"syntax", b""),
            Ending::Invalid { rule, line } => {
                let mut buffer = Buffer::new();
                report_line(err, line, b"invalid rule ", buffer.format(rule).as_bytes())
            }
            Ending::Limit { which, line } => report_line(err, line, b"limit ", limit_name(which)),
            Ending::BadObject { code, byte } => {
                let mut buffer = Buffer::new();
                report_place(
                    err,
                    b"b3c: byte ",
                    byte,
                    b"bad object ",
                    buffer.format(code).as_bytes(),
                )
            }
            Ending::BadTrial { line } => {
                report_place(err, b"b3c: trial line ", u64::from(line), b"syntax", b"")
            }
        }
    }
}

/// Writes one line, or a prefix of it where a write fails.
fn write_line<E: Sink>(err: &mut E, line: &[u8])
    ensures { TakesLine line.now (E.held err.old) (E.held err.new) (E.faults err.old) (E.faults err.new) }
{
    match write_all(err, line) {
        Ok(()) => {}
        Err(WriteFault) => {}
    }
}

/// What is limited, in words.
fn limit_name(which: LimitName) -> &'static [u8]
    ensures name { result.now ≡ limit_name which }
    ensures short { length result.now ≤ 18 }
{
    match which {
        LimitName::Procedures => b"procedures",
        LimitName::Values => b"values",
        LimitName::Children => b"children",
        LimitName::ProcedureValues => b"procedure values",
        LimitName::ProcedureBlocks => b"procedure blocks",
        LimitName::ProcedureChildren => b"procedure children",
        LimitName::Slots => b"slots",
        LimitName::SlotBytes => b"slot bytes",
    }
}

/// Writes the line that names a line of the text, and says two pieces of it.
fn report_line<E: Sink>(err: &mut E, line: u32, what: &[u8], more: &[u8])
    requires what { length what.now ≤ 18 }
    requires more { length more.now ≤ 18 }
    ensures { TakesLine (at_line line (what.now ++ more.now)) (E.held err.old) (E.held err.new) (E.faults err.old) (E.faults err.new) }
{
    report_place(err, b"b3c: line ", u64::from(line), what, more)
}

/// Writes the line that names a place by its number, and says two pieces of it.
fn report_place<E: Sink>(err: &mut E, front: &[u8], number: u64, what: &[u8], more: &[u8])
    requires front { length front.now ≤ 16 }
    requires what { length what.now ≤ 18 }
    requires more { length more.now ≤ 18 }
    ensures { TakesLine (at_place front.now number (what.now ++ more.now)) (E.held err.old) (E.held err.new) (E.faults err.old) (E.faults err.new) }
{
    let mut buffer = Buffer::new();
    let digits = buffer.format(number).as_bytes();
    let mut text = [0; 120];
    let end = put(&mut text, 0, front);
    let end = put(&mut text, end, digits);
    let end = put(&mut text, end, b": ");
    let end = put(&mut text, end, what);
    let end = put(&mut text, end, more);
    let end = put(&mut text, end, b"\n");
    write_line(err, &text[..end]);
}

/// Puts `piece` at `at` and gives the place after it.
fn put(text: &mut [u8], at: usize, piece: &[u8]) -> usize
    requires { at + length piece.now ≤ length text.old }
    ensures end { result ≡ at + length piece.now }
    ensures text { take result text.new ≡ take at text.old ++ piece.now }
{
    let end = at + piece.len();
    text[at..end].copy_from_slice(piece);
    end
}
