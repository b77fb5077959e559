//! Laws of spill places.

ghost use Rattle.air_frame.specs.Counts.{CountsBelow, NamesCounted};

/// Tells that where each spill place that a procedure names has a number below another one, its frame has no more
/// spill places than that; and that a procedure names no more spill places than its frame has. It takes no memory.
pub fn spill_counts()
    ensures below { CountsBelow }
    ensures named { NamesCounted }
{}
