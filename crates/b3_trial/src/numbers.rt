//! Numbers, written.

ghost use Rattle.std.specs.Prelude.{◌≡◌, ◌++◌, ◌<◌, false, OnOk};
ghost use Rattle.std.specs.Fmt.{decimal, digit_glyph};
ghost use Rattle.b3_trial.specs.Shown as spec;

use b3_base::{Bytes, NoMemory};
use itoa::Buffer;
use std::alloc::Global;

pub(crate) fn put_decimal(out: &mut Bytes, number: u64) -> Result<(), NoMemory>
    ensures { OnOk result (out.new ≡ out.old ++ decimal number) }
{
    let mut buffer = Buffer::new();
    out.extend(buffer.format(number).as_bytes())
}

pub(crate) fn put_address(alloc: Global, out: &mut Bytes, address: u64) -> Result<(), NoMemory>
    ensures { OnOk result (out.new ≡ out.old ++ spec.address_text address) }
{
    let text = format!(in alloc; "0x{address:x}")?;
    out.extend(text.as_bytes())
}

pub(crate) fn put_id(out: &mut Bytes, id: u32) -> Result<(), NoMemory>
    ensures { OnOk result (out.new ≡ out.old ++ spec.id_text id) }
{
    out.extend(b"b@")?;
    put_decimal(out, u64::from(id))
}

/// Words in decimals, a blank before each.
pub(crate) fn put_words(out: &mut Bytes, words: &[u64]) -> Result<(), NoMemory>
    ensures { OnOk result (out.new ≡ out.old ++ spec.words_text words.now) }
{
    let mut left = words;
    while let Some((word, more)) = left.split_first() {
        out.extend(b" ")?;
        put_decimal(out, *word)?;
        left = more;
    }
    Ok(())
}

/// A hexadecimal digit.
fn hex_glyph(digit: u8) -> u8
    requires { digit < 16 }
    ensures { result ≡ digit_glyph false digit }
{
    if digit < 10 { 48 + digit } else { 87 + digit }
}

/// A byte as two hexadecimal digits.
pub(crate) fn put_byte(out: &mut Bytes, byte: u64) -> Result<(), NoMemory>
    requires { byte < 256 }
    ensures { OnOk result (out.new ≡ out.old ++ spec.byte_text byte) }
{
    out.extend(&[hex_glyph((byte / 16) as u8), hex_glyph((byte % 16) as u8)])
}
