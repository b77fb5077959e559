//! Laws of what keeps a procedure.

ghost use Rattle.b3_meaning.specs.Keeps.{KeepsItself, KeepsThrough};

/// Tells that each procedure keeps itself, and that what keeps a procedure that keeps another keeps that
/// one, so that rewrites may follow one another. It takes no memory.
pub fn keeping_laws()
    ensures itself { KeepsItself }
    ensures through { KeepsThrough }
{}
