//! Fields of a file that are to have certain numbers, and bytes that are to be others.

ghost use Rattle.std.specs.Prelude.{◌≡◌, ◌+◌, ◌^◌, ◌<◌, ◌≤◌, bytes_eq, length, take, IsTrue};
ghost use Rattle.elf_obj.specs.Fields as rule;

/// A number in 1, 2, 4 or 8 bytes, least byte first.
#[derive(Clone, Copy, Debug, PartialEq, Eq)]
pub(crate) enum Number {
    Byte(u8),
    Half(u16),
    Word(u32),
    Long(u64),
}

/// A field that is to have a number. Where it isn't good, it is at fault whatever its number is.
#[derive(Clone, Copy, Debug, PartialEq, Eq)]
pub(crate) struct Field {
    pub(crate) number: Number,
    pub(crate) good: bool,
}

impl Number {
    /// How many bytes it has.
    fn width(self) -> usize
        ensures { result ≡ rule.width_of self }
    {
        match self {
            Number::Byte(_) => 1,
            Number::Half(_) => 2,
            Number::Word(_) => 4,
            Number::Long(_) => 8,
        }
    }

    /// Whether these are its bytes.
    #[tactic(auto, unfolding(b3_base::specs::Fields::halves, b3_base::specs::Fields::words, b3_base::specs::Fields::xwords))]
    fn is(self, bytes: &[u8]) -> bool
        ensures { result ≡ bytes_eq bytes.now (rule.spelling self) }
    {
        match self {
            Number::Byte(number) => bytes == &[number][..],
            Number::Half(number) => bytes == &number.to_le_bytes()[..],
            Number::Word(number) => bytes == &number.to_le_bytes()[..],
            Number::Long(number) => bytes == &number.to_le_bytes()[..],
        }
    }
}

/// Whether some bytes begin with a field, and it is good.
#[tactic(auto, using(crate::proofs::FieldRules::too_short))]
fn is_met(field: Field, bytes: &[u8]) -> bool
    ensures met { result ≡ rule.is_met field bytes.now }
    ensures long { IsTrue result → rule.width_of field.number ≤ length bytes.now }
{
    let width = field.number.width();
    if bytes.len() < width {
        return false;
    }
    field.good && field.number.is(&bytes[..width])
}

/// A field that is good where it has this number.
pub(crate) fn wanted(number: Number) -> Field
    ensures { result ≡ rule.wanted number }
{
    Field { number, good: true }
}

/// A field of 8 bytes that is good where it has this number.
pub(crate) fn offset(number: u128) -> Field
    ensures { result ≡ rule.offset number }
{
    match u64::try_from(number) {
        Ok(number) => wanted(Number::Long(number)),
        Err(_) => Field {
            number: Number::Long(0),
            good: false,
        },
    }
}

/// A field of 4 bytes that is to have this number.
pub(crate) fn position(number: usize, good: bool) -> Field
    ensures { result ≡ rule.position number good }
{
    match u32::try_from(number) {
        Ok(number) => Field {
            number: Number::Word(number),
            good,
        },
        Err(_) => Field {
            number: Number::Word(0),
            good: false,
        },
    }
}

/// The first byte of the first of these fields that has another number or isn't good. The first of
/// them is byte `at` of the file.
pub(crate) fn fields_fault(at: u64, fields: &[Field], bytes: &[u8]) -> Option<u64>
    requires { at + length bytes.now < 2 ^ 64 }
    ensures { result ≡ rule.fields_fault at fields.now bytes.now }
{
    let mut at = at;
    let mut left = bytes;
    for field in fields {
        if !is_met(*field, left) {
            return Some(at);
        }
        let width = field.number.width();
        at += width as u64;
        left = &left[width..];
    }
    None
}

/// The first byte that is another than is wanted; where one of both ends, the byte behind its last.
/// The first of them is byte `at` of the file.
pub(crate) fn differs(at: u64, wanted: &[u8], bytes: &[u8]) -> Option<u64>
    requires { at + length bytes.now < 2 ^ 64 }
    ensures { result ≡ rule.differs at wanted.now bytes.now }
{
    let mut at = at;
    let mut left = bytes;
    for byte in wanted {
        if left.is_empty() {
            return Some(at);
        }
        if left[0] != *byte {
            return Some(at);
        }
        at += 1;
        left = &left[1..];
    }
    if left.is_empty() { None } else { Some(at) }
}
