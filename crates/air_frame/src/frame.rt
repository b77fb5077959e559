//! The frame of a procedure.

ghost use Rattle.std.specs.Prelude.{◌≤◌, All, IfOk};
ghost use Rattle.air_frame.specs.Needs.{spill_count};
ghost use Rattle.air_frame.specs.Frames.{HaveRoom, IsFrameOf};

use crate::placing::{place_saved, place_slots, place_spills, rounded, slot_bytes, word_bytes};
use crate::registers::written_by_proc;
use crate::spills::named_by_proc;
use air_ir::{AirProc, Frame};
use b3_base::NoMemory;
use std::alloc::Global;

/// The registers that a procedure keeps for its caller.
const CALLEE_SAVED: [u8; 10] = [19, 20, 21, 22, 23, 24, 25, 26, 27, 28];

/// Lays out the frame of a procedure. Offsets are bytes below x29. `spills` has the offset of each spill place
/// at its number; a number that the procedure doesn't name has no bytes. It is refused for want of memory
/// alone.
pub fn layout(alloc: Global, p: &AirProc) -> Result<Frame, NoMemory>
    requires slots { All (λ size. 1 ≤ size) p.now.slots }
    requires room { HaveRoom p.now.slots (spill_count p.now) }
    ensures { IfOk result (λ f. IsFrameOf p.now f) }
{
    // Words stand nearest to x29, since an offset of more than 256 bytes takes an instruction more.
    let named = named_by_proc(alloc, p)?;
    let saved = place_saved(alloc, written_by_proc(p), &CALLEE_SAVED)?;
    let low = 8 * saved.len() as u32;
    let spills = place_spills(alloc, low, named.as_slice())?;
    let words = rounded(low + word_bytes(named.as_slice()));
    let slots = place_slots(alloc, words, p.slots.as_slice())?;
    Ok(Frame {
        bytes: 16 + words + slot_bytes(p.slots.as_slice()),
        slots,
        spills,
        saved,
    })
}
