//! Which sums fit in the address of an access.

ghost use Rattle.std.specs.Prelude.{◌≡◌, ◌<◌, ◌≤◌, ◌&&◌, if◌then◌else◌, nat_eq};
ghost use Rattle.air_ir.specs.Forms as forms;
ghost use Rattle.air_fold.specs.Foldable as fold;

use crate::index::Index;
use crate::known::Known;
use crate::rows::{is_constant, width_of};
use b3_ir::Opcode;

/// How many bytes an access touches: a load by its type, a store by that of its first child.
pub(crate) fn access_bytes(index: &Index, opcode: Opcode, known: Known) -> u32
    ensures is { result ≡ fold.access_bytes index.now opcode known }
    ensures some { 0 < result }
    ensures most { result ≤ 8 }
{
    match opcode {
        Opcode::Load8Z | Opcode::Load8S | Opcode::Store8 => 1,
        Opcode::Load16Z | Opcode::Load16S | Opcode::Store16 => 2,
        Opcode::Store => index.width_at(known.first).bits() / 8,
        _ => width_of(known.ty).bits() / 8,
    }
}

/// Whether a load or a store of so many bytes adds an offset to its base.
pub fn is_offset(bytes: u32, offset: i64) -> bool
    requires some { 0 < bytes }
    requires most { bytes ≤ 8 }
    ensures { result ≡ forms.is_offset bytes offset }
{
    if offset < 0 {
        return offset >= -256;
    }
    let above = offset as u64;
    above <= 255 || above % u64::from(bytes) == 0 && above <= 4095 * u64::from(bytes)
}

/// A constant and the offset of an access, together, as a signed number of 64 bits.
pub fn whole_offset(word: u64, offset: i64) -> i64
    ensures { result ≡ fold.whole word offset }
{
    word.wrapping_add(offset.cast_unsigned()).cast_signed()
}

/// Whether the second child of a sum, of which this is known, lets the sum be the pointer of an access.
pub(crate) fn reaches(bytes: u32, is_word: bool, offset: i64, second: Known) -> bool
    requires some { 0 < bytes }
    requires most { bytes ≤ 8 }
    ensures { result ≡ fold.reaches bytes is_word offset second }
{
    if is_constant(second.opcode) {
        is_offset(bytes, whole_offset(second.word, offset))
    } else {
        is_word && bytes == 8 && offset == 0
    }
}
