//! Laws of liveness and of proper assignments.

ghost use Rattle.air_flow.specs.Living.{AreInRange, KeepOn, KeepUses, LiveByTouches, LiveOn};
ghost use Rattle.air_flow.specs.Proper.{AllSpilledIsProper, WritesApartIfProper};

/// Tells that a home is live before an instruction exactly where that uses it, or where it is live after it and not
/// defined there; and that it is live after one exactly where it is live before the next, or out of the block. It
/// takes no memory.
pub fn live_homes()
    ensures touches { LiveByTouches }
    ensures goes_on { LiveOn }
{}

/// Tells of a well-formed procedure that its flow names its own blocks and names alone, that the homes that an
/// instruction reads are kept before it, and that those that are kept after it and not written are kept before it;
/// and what is kept before an instruction is kept after the one before it. It takes no memory.
pub fn kept_homes()
    ensures in_range { AreInRange }
    ensures uses { KeepUses }
    ensures goes_on { KeepOn }
{}

/// Tells that the assignment that spills each temporary is proper, and that by a proper assignment what an
/// instruction writes stands in no register of another home that is kept after it, but of one that it copies
/// there. It takes no memory.
pub fn proper_assignments()
    ensures spilled { AllSpilledIsProper }
    ensures apart { WritesApartIfProper }
{}
