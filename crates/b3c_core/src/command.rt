//! The commands, and the words that name them.

ghost use Rattle.std.specs.Prelude.{◌≡◌, ◌^◌, bytes_eq};
ghost use Rattle.b3_items.specs.Numbers.{below, digits_of};
ghost use Rattle.b3c_core.specs.Tool as tool;

use b3_base::Name;

/// A command.
#[derive(Clone, Copy, Debug, PartialEq, Eq)]
pub enum Command {
    /// Reads a text and writes its object.
    Compile,
    /// Reads a text and writes its canonical text.
    Print,
    /// Reads a text and a trial, and writes what is seen of the run of B3.
    Eval,
    /// Reads an object and a trial, and writes what is seen of the run of the machine.
    Run,
    /// Makes the text of a large module from this number, compiles it, and writes how large both are. It reads
    /// nothing.
    Gen(u32),
}

impl Command {
    /// Whether the command reads its input.
    pub fn reads_input(self) -> bool
        ensures { result ≡ tool.reads_input self }
    {
        match self {
            Command::Gen(_) => false,
            Command::Compile | Command::Print | Command::Eval | Command::Run => true,
        }
    }

    /// Whether the command reads a trial.
    pub fn takes_trial(self) -> bool
        ensures { result ≡ tool.takes_trial self }
    {
        match self {
            Command::Compile | Command::Print | Command::Gen(_) => false,
            Command::Eval | Command::Run => true,
        }
    }

    /// The most bytes that the command's input may have.
    pub(crate) fn limit(self) -> usize
        ensures { result ≡ tool.limit_of self }
    {
        match self {
            Command::Run => 134_217_728,
            Command::Gen(_) => 0,
            Command::Compile | Command::Print | Command::Eval => 16_777_216,
        }
    }
}

/// The command that the words name, where they name one.
pub fn command_of(words: &[Name]) -> Option<Command>
    ensures { result ≡ tool.command_of words.now }
{
    match words {
        [word] => command_named(word.as_slice()),
        [word, more] => command_with(word.as_slice(), more.as_slice()),
        _ => None,
    }
}

/// The command that one word names.
fn command_named(word: &[u8]) -> Option<Command>
    ensures { result ≡ tool.command_named word.now }
{
    if word == b"compile".as_slice() {
        Some(Command::Compile)
    } else if word == b"print".as_slice() {
        Some(Command::Print)
    } else {
        None
    }
}

/// The command that a word names before that of a trial's file.
fn trial_command_named(word: &[u8]) -> Option<Command>
    ensures { result ≡ tool.trial_command_named word.now }
{
    if word == b"eval".as_slice() {
        Some(Command::Eval)
    } else if word == b"run".as_slice() {
        Some(Command::Run)
    } else {
        None
    }
}

/// The command that two words name: `gen` and a number, or one with a trial's file.
fn command_with(word: &[u8], more: &[u8]) -> Option<Command>
    ensures { result ≡ tool.command_with word.now more.now }
{
    if word == b"gen".as_slice() {
        Some(Command::Gen(seed_of(more)?))
    } else {
        trial_command_named(word)
    }
}

/// The number below 2^32 that 1 to 10 decimal digits say.
#[tactic(auto, unfolding(crate::specs::Tool::seed_of))]
fn seed_of(text: &[u8]) -> Option<u32>
    ensures { result ≡ tool.seed_of text.now }
{
    if text.is_empty() || text.len() > 10 {
        return None;
    }
    let value = digits_value(text)?;
    if value < 1 << 32 {
        Some(value as u32)
    } else {
        None
    }
}

/// The value of digits that is below 2^64.
#[tactic(auto, using(crate::proofs::Commands::value_on_grows))]
fn digits_value(digits: &[u8]) -> Option<u64>
    ensures { result ≡ below (2 ^ 64) (digits_of digits.now) }
{
    let mut value: u64 = 0;
    let mut text = digits;
    while let Some((digit, rest)) = text.split_first() {
        if !digit.is_ascii_digit() {
            return None;
        }
        value = value
            .checked_mul(10)?
            .checked_add(u64::from(*digit - b'0'))?;
        text = rest;
    }
    Some(value)
}
