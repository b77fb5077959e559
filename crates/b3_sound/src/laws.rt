//! The laws of the runs of valid procedures.

ghost use Rattle.b3_sound.specs.Laws.{AlwaysReadyIfValid, NeverMalformedIfValid, StaysInsideIfValid};

/// Tells of a valid procedure, each of whose values fits, that no run of it is lost as malformed, that a run stands
/// at blocks of the procedure alone, and that each value that runs finds words of their types for its children, the
/// constants that are covered, and the results of the pure values before it in the block. It takes no memory.
pub fn valid_runs()
    ensures never_malformed { NeverMalformedIfValid }
    ensures stays_inside { StaysInsideIfValid }
    ensures always_ready { AlwaysReadyIfValid }
{}
