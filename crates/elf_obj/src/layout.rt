//! How large the sections of a file are, and where they stand.

ghost use Rattle.std.specs.Prelude.{◌≡◌, ◌+◌, ◌^◌, ◌<◌, ◌≤◌, length};
ghost use Rattle.elf_obj.specs.Fields.{slice};
ghost use Rattle.elf_obj.specs.Reading as rule;

/// The bytes of the sections of a file.
#[derive(Clone, Copy, Debug, PartialEq, Eq)]
pub(crate) struct Sizes {
    pub(crate) text: u64,
    pub(crate) frames: u64,
    pub(crate) exits: u64,
    pub(crate) symbols: u64,
    pub(crate) names: u64,
    pub(crate) section_names: u64,
}

/// The next multiple of 8.
pub(crate) fn next_8(at: u128) -> u128
    requires { at < 2 ^ 72 }
    ensures { result ≡ rule.next_8 at }
{
    at + (8 - at % 8) % 8
}

// Where the sections begin and end. The sums pass 2^64.
impl Sizes {
    pub(crate) fn text_end(self) -> u128
        ensures is { result ≡ rule.text_end self }
        ensures small { result < 2 ^ 65 }
    {
        64 + u128::from(self.text)
    }

    pub(crate) fn frames_start(self) -> u128
        ensures is { result ≡ rule.frames_start self }
        ensures small { result < 2 ^ 66 }
    {
        next_8(self.text_end())
    }

    pub(crate) fn frames_end(self) -> u128
        ensures is { result ≡ rule.frames_end self }
        ensures small { result < 2 ^ 67 }
    {
        self.frames_start() + u128::from(self.frames)
    }

    pub(crate) fn exits_start(self) -> u128
        ensures is { result ≡ rule.exits_start self }
        ensures small { result < 2 ^ 68 }
    {
        next_8(self.frames_end())
    }

    pub(crate) fn exits_end(self) -> u128
        ensures is { result ≡ rule.exits_end self }
        ensures small { result < 2 ^ 69 }
    {
        self.exits_start() + u128::from(self.exits)
    }

    pub(crate) fn symbols_start(self) -> u128
        ensures is { result ≡ rule.symbols_start self }
        ensures small { result < 2 ^ 70 }
    {
        next_8(self.exits_end())
    }

    pub(crate) fn names_start(self) -> u128
        ensures is { result ≡ rule.names_start self }
        ensures small { result < 2 ^ 71 }
    {
        self.symbols_start() + u128::from(self.symbols)
    }

    pub(crate) fn section_names_start(self) -> u128
        ensures is { result ≡ rule.section_names_start self }
        ensures small { result < 2 ^ 71 + 2 ^ 64 }
    {
        self.names_start() + u128::from(self.names)
    }

    pub(crate) fn parts_end(self) -> u128
        ensures is { result ≡ rule.parts_end self }
        ensures small { result < 2 ^ 72 }
    {
        self.section_names_start() + u128::from(self.section_names)
    }
}

/// So many bytes from a byte on.
pub(crate) fn part(bytes: &[u8], start: u128, size: u64) -> &[u8]
    requires { start + size ≤ length bytes.now }
    ensures { result.now ≡ slice start size bytes.now }
{
    let first = start as usize;
    &bytes[first..first + size as usize]
}

/// The number in the 8 bytes from a byte on.
pub(crate) fn long_at(bytes: &[u8], at: usize) -> u64
    requires { at + 8 ≤ length bytes.now }
    ensures { result ≡ rule.long_at at bytes.now }
{
    let b = &bytes[at..at + 8];
    u64::from_le_bytes([b[0], b[1], b[2], b[3], b[4], b[5], b[6], b[7]])
}
