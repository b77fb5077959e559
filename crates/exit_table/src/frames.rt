//! The frame section.

ghost use Rattle.std.specs.Prelude.{◌≡◌, ◌++◌, All, OnOk, IfOk};
ghost use Rattle.std.specs.List.{flat_map};
ghost use Rattle.exit_table.specs.Spelling.{returns_number, slot_spelling, saved_spelling, frame_spelling, frame_section};
ghost use Rattle.exit_table.specs.Good.{HasFewRows, IsWritable};

use crate::tables::{FrameRow, FrameRows, Tables};
use b3_base::{Bytes, NoMemory, put_u32s};
use stackmap::{Returns, Saved, SlotRows};
use std::alloc::Global;

fn returns_bits(returns: Returns) -> u32
    ensures { result ≡ returns_number returns }
{
    match returns {
        Returns::Nothing => 0,
        Returns::W32 => 32,
        Returns::W64 => 64,
    }
}

fn put_slots(out: &mut Bytes, slots: &SlotRows) -> Result<(), NoMemory>
    ensures { OnOk result (out.new ≡ out.old ++ flat_map slot_spelling slots.now) }
{
    for slot in slots.as_slice() {
        put_u32s(out, &[slot.offset, slot.size])?;
    }
    Ok(())
}

fn put_saved(out: &mut Bytes, saved: &Saved) -> Result<(), NoMemory>
    ensures { OnOk result (out.new ≡ out.old ++ flat_map saved_spelling saved.now) }
{
    for row in saved.as_slice() {
        put_u32s(out, &[u32::from(row.reg.0), row.offset])?;
    }
    Ok(())
}

#[tactic(auto, unfolding(crate::specs::Spelling::frame_spelling))]
fn put_frame(out: &mut Bytes, row: &FrameRow) -> Result<(), NoMemory>
    requires { HasFewRows row.now }
    ensures { OnOk result (out.new ≡ out.old ++ frame_spelling row.now) }
{
    let slots = row.slots.len() as u32;
    let saved = row.saved.len() as u32;
    put_u32s(out, &[row.bytes, slots, saved, returns_bits(row.returns)])?;
    put_slots(out, &row.slots)?;
    put_saved(out, &row.saved)
}

fn put_frames(out: &mut Bytes, frames: &FrameRows) -> Result<(), NoMemory>
    requires { All HasFewRows frames.now }
    ensures { OnOk result (out.new ≡ out.old ++ flat_map frame_spelling frames.now) }
{
    for row in frames.as_slice() {
        put_frame(out, row)?;
    }
    Ok(())
}

/// The frame section of tables that some text has. It is refused for want of memory alone.
#[tactic(auto, unfolding(crate::specs::Spelling::frame_section))]
pub fn write_frames(alloc: Global, tables: &Tables) -> Result<Bytes, NoMemory>
    requires { IsWritable tables.now }
    ensures { IfOk result (λ bytes. bytes ≡ frame_section tables.now) }
{
    let mut out = Bytes::new(alloc);
    out.extend(b"B3FR")?;
    put_u32s(&mut out, &[1, tables.frames.len() as u32, 0])?;
    put_frames(&mut out, &tables.frames)?;
    Ok(out)
}
