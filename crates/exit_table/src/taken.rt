//! The bytes of a frame that are taken.

ghost use Rattle.std.specs.Prelude.{◌≡◌, ◌<◌, ◌≤◌, true, OnOk};
ghost use Rattle.exit_table.specs.Taken.{left_by, has_room, AreStacked, Joins};

use b3_base::NoMemory;
use std::collections::BTreeMap;

/// Disjoint spans of a frame: how many bytes below x29 each begins, and how many bytes it has.
pub(crate) type Taken = BTreeMap<u32, u32>;

/// Whether a span stands apart from all of these, in one look.
fn has_room(taken: &Taken, offset: u32, size: u32) -> bool
    requires least { 1 ≤ size }
    requires most { size ≤ offset }
    ensures { result ≡ has_room taken.now.entries (record { offset = offset; size = size }) }
{
    let above = offset - size;
    match taken.range(above + 1..).next() {
        None => true,
        Some((first, bytes)) => u64::from(offset) + u64::from(*bytes) <= u64::from(*first),
    }
}

/// Whether no byte of a span is taken.
pub(crate) fn is_clear(taken: &Taken, offset: u32, size: u32) -> bool
    requires stacked { AreStacked 0 taken.now.entries }
    requires least { 1 ≤ size }
    requires most { size ≤ offset }
    ensures { result ≡ left_by taken.now.entries (record { offset = offset; size = size }) }
{
    has_room(taken, offset, size)
}

/// Takes a span that is clear. It is refused for want of memory alone.
pub(crate) fn take(taken: &mut Taken, offset: u32, size: u32) -> Result<(), NoMemory>
    requires stacked { AreStacked 0 taken.old.entries }
    requires least { 1 ≤ size }
    requires most { size ≤ offset }
    requires clear { left_by taken.old.entries (record { offset = offset; size = size }) ≡ true }
    ensures { OnOk result (Joins taken.old.entries (record { offset = offset; size = size }) taken.new.entries) }
{
    taken.insert(offset, size)?;
    Ok(())
}
