//! Reading the frame section.

ghost use Rattle.std.specs.Prelude.{◌≡◌, ◌+◌, ◌^◌, ◌<◌, ◌≤◌, [], length, map, All, OnOk, IfOk};
ghost use Rattle.b3_base.specs.Fields.{fields};
ghost use Rattle.exit_table.specs.Good.{slot_span, saved_span, spans_of};
ghost use Rattle.exit_table.specs.Reading.{Gives, rows, whole};
ghost use Rattle.exit_table.specs.FrameReading as rule;
ghost use Rattle.exit_table.specs.FrameReading.{is_clear, slot_at, after_slot, saved_at, after_saved, header_at, frame_at, each_frame, after_frame, frames_at};
ghost use Rattle.exit_table.specs.Rooms.{rooms_of};
ghost use Rattle.exit_table.specs.Homes.{room_of, IsStacked};
ghost use Rattle.exit_table.specs.Taken.{left_by, leaves, AreStacked};

use crate::fault::{Cause, ReadError};
use crate::reading::{check, ended, field, mark, placed, zero};
use crate::tables::{FrameRow, FrameRows};
use crate::taken::{Taken, is_clear, take};
use b3_base::{Range, Seq};
use b3_ir::Reg;
use stackmap::{Returns, Saved, SavedRow, SlotRow, SlotRows};
use std::alloc::Global;

/// The first fields of a frame: its bytes, how many slots and saved registers it has, and what its
/// procedure returns.
#[derive(Clone, Copy, Debug, PartialEq, Eq)]
pub(crate) struct Header {
    pub bytes: u32,
    pub slots: u32,
    pub saved: u32,
    pub returns: Returns,
}

/// The bytes of a frame: a multiple of 16 from 16 to below 2^21.
fn frame_bytes(number: u32) -> Result<u32, Cause>
    ensures { result ≡ rule.frame_bytes number }
{
    let holds = number % 16 == 0 && 16 <= number && number < 1 << 21;
    check(holds, Cause::Rule, number)
}

/// The offset of a slot in a frame of so many bytes.
fn slot_offset(bytes: u32, number: u32) -> Result<u32, Cause>
    ensures { result ≡ rule.slot_offset bytes number }
{
    let holds = number % 16 == 0 && u64::from(number) + 16 <= u64::from(bytes);
    check(holds, Cause::Rule, number)
}

/// The slot at an offset, by its size: it has a byte, ends within its frame, and no byte of it is
/// taken.
fn slot_of(taken: &Taken, offset: u32, number: u32) -> Result<SlotRow, Cause>
    requires { AreStacked 0 taken.now.entries }
    ensures { result ≡ rule.slot_of (left_by taken.now.entries) offset number }
{
    let holds = 1 <= number && number <= offset && is_clear(taken, offset, number);
    let slot = SlotRow {
        offset,
        size: number,
    };
    check(holds, Cause::Rule, slot)
}

/// The number of a saved register, of which the least is `least`.
fn saved_number(least: u32, number: u32) -> Result<u32, Cause>
    ensures { result ≡ rule.saved_number least number }
{
    if 19 <= number && number <= 28 {
        check(least <= number, Cause::Order, number)
    } else {
        Err(Cause::Rule)
    }
}

/// Whether a word of so many bytes may stand at an offset of a frame.
pub(crate) fn is_word_at(bytes: u32, taken: &Taken, offset: u32, size: u32) -> bool
    requires stacked { AreStacked 0 taken.now.entries }
    requires least { 1 ≤ size }
    requires most { size ≤ 8 }
    ensures { result ≡ rule.is_word_at bytes (left_by taken.now.entries) (record { offset = offset; size = size }) }
{
    offset % 8 == 0
        && 8 <= offset
        && u64::from(offset) + 16 <= u64::from(bytes)
        && is_clear(taken, offset, size)
}

/// A saved register, by the offset of its word.
fn saved_of(bytes: u32, taken: &Taken, number: u32, offset: u32) -> Result<SavedRow, Cause>
    requires stacked { AreStacked 0 taken.now.entries }
    requires register { number ≤ 28 }
    ensures { result ≡ rule.saved_of bytes (left_by taken.now.entries) number offset }
{
    let saved = SavedRow {
        reg: Reg(number as u8),
        offset,
    };
    check(is_word_at(bytes, taken, offset, 8), Cause::Rule, saved)
}

/// What is returned, by its bits.
fn returns_of(bits: u32) -> Result<Returns, Cause>
    ensures { result ≡ rule.returns_of bits }
{
    match bits {
        0 => Ok(Returns::Nothing),
        32 => Ok(Returns::W32),
        64 => Ok(Returns::W64),
        _ => Err(Cause::Unlisted),
    }
}

/// A slot of a frame of so many bytes.
#[tactic(auto, unfolding(crate::specs::FrameReading::slot_at))]
fn slot<'a>(bytes: u32, taken: &Taken, section: &'a [u8]) -> Result<(SlotRow, &'a [u8]), ReadError>
    requires { AreStacked 0 taken.now.entries }
    ensures { Gives (λ x. (x.0, fields x.1.now)) result (slot_at bytes (left_by taken.now.entries) (fields section.now)) }
{
    let (number, behind) = field(section)?;
    let offset = placed(slot_offset(bytes, number), section)?;
    let (number, rest) = field(behind)?;
    let slot = placed(slot_of(taken, offset, number), behind)?;
    Ok((slot, rest))
}

/// So many slots of a frame of so many bytes, of which none was taken before.
fn slots<'a>(
    alloc: Global,
    header: Header,
    taken: &mut Taken,
    section: &'a [u8],
) -> Result<(SlotRows, &'a [u8]), ReadError>
    requires { taken.old.entries ≡ [] }
    ensures read { Gives (λ x. (x.0, fields x.1.now)) result (rows (slot_at header.bytes) after_slot (is_clear []) header.slots (fields section.now)) }
    ensures stacked { OnOk result (AreStacked 0 taken.new.entries) }
    ensures clear { IfOk result (λ x. left_by taken.new.entries ≡ is_clear (map slot_span x.0)) }
{
    let mut slots = Seq::new(alloc);
    let mut left = section;
    for _ in 0..header.slots {
        let (row, rest) = slot(header.bytes, taken, left)?;
        take(taken, row.offset, row.size)?;
        slots.push(row)?;
        left = rest;
    }
    Ok((slots, left))
}

/// A saved register of a frame of so many bytes: its number is `least` or above.
#[tactic(auto, unfolding(crate::specs::FrameReading::saved_at))]
fn saved_row<'a>(
    bytes: u32,
    taken: &Taken,
    least: u32,
    section: &'a [u8],
) -> Result<(SavedRow, &'a [u8]), ReadError>
    requires { AreStacked 0 taken.now.entries }
    ensures { Gives (λ x. (x.0, fields x.1.now)) result (saved_at bytes (record { clear = left_by taken.now.entries; least = least }) (fields section.now)) }
{
    let (number, behind) = field(section)?;
    let number = placed(saved_number(least, number), section)?;
    let (offset, rest) = field(behind)?;
    let saved = placed(saved_of(bytes, taken, number, offset), behind)?;
    Ok((saved, rest))
}

/// So many saved registers of a frame of so many bytes.
#[tactic(auto, using(crate::proofs::TakenLaws::leaves_all))]
fn saved<'a>(
    alloc: Global,
    header: Header,
    taken: &mut Taken,
    section: &'a [u8],
) -> Result<(Saved, &'a [u8]), ReadError>
    requires { AreStacked 0 taken.old.entries }
    ensures read { Gives (λ x. (x.0, fields x.1.now)) result (rows (saved_at header.bytes) after_saved (record { clear = left_by taken.old.entries; least = 0 }) header.saved (fields section.now)) }
    ensures stacked { OnOk result (AreStacked 0 taken.new.entries) }
    ensures clear { IfOk result (λ x. left_by taken.new.entries ≡ leaves (left_by taken.old.entries) (map saved_span x.0)) }
{
    let mut saved = Seq::new(alloc);
    let mut least = 0;
    let mut left = section;
    for _ in 0..header.saved {
        let (row, rest) = saved_row(header.bytes, taken, least, left)?;
        take(taken, row.offset, 8)?;
        saved.push(row)?;
        least = u32::from(row.reg.0) + 1;
        left = rest;
    }
    Ok((saved, left))
}

/// The first fields of a frame.
#[tactic(auto, unfolding(crate::specs::FrameReading::header_at))]
fn first_fields(section: &[u8]) -> Result<(Header, &[u8]), ReadError>
    ensures { Gives (λ x. (x.0, fields x.1.now)) result (header_at (fields section.now)) }
{
    let (number, rest) = field(section)?;
    let bytes = placed(frame_bytes(number), section)?;
    let (slots, rest) = field(rest)?;
    let (saved, rest) = field(rest)?;
    let (bits, behind) = field(rest)?;
    let returns = placed(returns_of(bits), rest)?;
    Ok((
        Header {
            bytes,
            slots,
            saved,
            returns,
        },
        behind,
    ))
}

/// A frame and the bytes that it takes.
#[tactic(auto, unfolding(crate::specs::FrameReading::frame_at))]
fn frame(alloc: Global, section: &[u8]) -> Result<(FrameRow, Taken, &[u8]), ReadError>
    ensures read { Gives (λ x. (x.0, fields x.2.now)) result (frame_at (fields section.now)) }
    ensures stacked { IfOk result (λ x. AreStacked 0 x.1.entries) }
    ensures taken { IfOk result (λ x. left_by x.1.entries ≡ is_clear (spans_of x.0)) }
{
    let mut taken = Taken::new(alloc);
    let (header, rest) = first_fields(section)?;
    let (slots, rest) = slots(alloc, header, &mut taken, rest)?;
    let (saved, rest) = saved(alloc, header, &mut taken, rest)?;
    let frame = FrameRow {
        bytes: header.bytes,
        returns: header.returns,
        slots,
        saved,
    };
    Ok((frame, taken, rest))
}

/// What a site meets of its procedure: the byte of the text at which it ends, the bytes of its
/// frame, and which of these are taken.
#[derive(Drop)]
pub(crate) struct Home {
    pub end: u64,
    pub bytes: u32,
    pub taken: Taken,
}

/// The procedures of a text, in order.
pub(crate) type Homes = Seq<Home>;

/// The frames of procedures, one for each, and what their sites meet.
fn frame_rows<'a>(
    alloc: Global,
    extents: &[Range],
    section: &'a [u8],
) -> Result<(FrameRows, Homes, &'a [u8]), ReadError>
    requires { All (λ extent. extent.first + extent.len < 2 ^ 26) extents.now }
    ensures read { Gives (λ x. (x.0, fields x.2.now)) result (rows each_frame after_frame tt (length extents.now) (fields section.now)) }
    ensures rooms { IfOk result (λ x. map room_of x.1 ≡ rooms_of extents.now x.0) }
    ensures stacked { IfOk result (λ x. All IsStacked x.1) }
{
    let mut frames = FrameRows::new(alloc);
    let mut homes = Homes::new(alloc);
    let mut left = section;
    for extent in extents {
        let (row, taken, rest) = frame(alloc, left)?;
        homes.push(Home {
            end: extent.first + extent.len,
            bytes: row.bytes,
            taken,
        })?;
        frames.push(row)?;
        left = rest;
    }
    Ok((frames, homes, left))
}

/// `B3FR`, read as a number.
const MARK: u32 = 0x5246_3342;

/// The section of the frames of procedures, and what their sites meet.
#[tactic(auto, unfolding(crate::specs::FrameReading::frames_at))]
fn frames<'a>(
    alloc: Global,
    extents: &[Range],
    section: &'a [u8],
) -> Result<(FrameRows, Homes, &'a [u8]), ReadError>
    requires { All (λ extent. extent.first + extent.len < 2 ^ 26) extents.now }
    ensures read { Gives (λ x. (x.0, fields x.2.now)) result (frames_at (length extents.now) (fields section.now)) }
    ensures rooms { IfOk result (λ x. map room_of x.1 ≡ rooms_of extents.now x.0) }
    ensures stacked { IfOk result (λ x. All IsStacked x.1) }
{
    let rest = mark(MARK, section)?;
    let (number, behind) = field(rest)?;
    placed(is_count(extents.len(), number), rest)?;
    let rest = zero(behind)?;
    frame_rows(alloc, extents, rest)
}

/// The number of frames is that of the procedures.
fn is_count(procedures: usize, number: u32) -> Result<u32, Cause>
    ensures { result ≡ rule.is_count procedures number }
{
    check(number as usize == procedures, Cause::Extent, number)
}

/// The frames of procedures that a section spells, one for each, and what their sites meet.
#[tactic(auto, unfolding(crate::specs::Reading::whole))]
pub(crate) fn frame_section(
    alloc: Global,
    extents: &[Range],
    section: &[u8],
) -> Result<(FrameRows, Homes), ReadError>
    requires { All (λ extent. extent.first + extent.len < 2 ^ 26) extents.now }
    ensures read { Gives (λ x. x.0) result (whole (frames_at (length extents.now)) section.now) }
    ensures rooms { IfOk result (λ x. map room_of x.1 ≡ rooms_of extents.now x.0) }
    ensures stacked { IfOk result (λ x. All IsStacked x.1) }
{
    let (frames, homes, rest) = frames(alloc, extents, section)?;
    ended(section, rest)?;
    Ok((frames, homes))
}
