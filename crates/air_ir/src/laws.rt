//! Laws of runs.

ghost use Rattle.air_ir.specs.Run.{BlocksThrough, SameItself, SameThrough};

/// Tells that each procedure has the same blocks as itself, and that a procedure has the same blocks as
/// another one where it has them through a third; and likewise the blocks of a procedure of B3. It takes no
/// memory.
pub fn same_blocks_laws()
    ensures itself { SameItself }
    ensures through { SameThrough }
    ensures onward { BlocksThrough }
{}
