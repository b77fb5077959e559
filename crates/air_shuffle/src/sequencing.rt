//! The law of the list that moves are put in.

ghost use Rattle.air_shuffle.specs.Sequenced.{SequencesAreRight};

/// Tells that the moves of the list `sequenced` do in order what moves do at once, by way of a scratch register. It
/// takes no memory.
pub fn sequences_are_right()
    ensures { SequencesAreRight }
{}
