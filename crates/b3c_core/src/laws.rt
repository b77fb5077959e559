//! The laws of compiled texts: between `eval` and `run`, and of the runs of B3 that are compared.

ghost use Rattle.b3c_core.specs.Tried.{CompiledNeverMalformed, EvaluatedRunsAgree};

/// Tells that `run` prints of a file what `eval` printed of the text that it was compiled from: where the run of B3
/// has ended, or waits, and isn't undefined, and the trial has at least 2 steps for each of its blocks and each word of
/// the procedure's code. It takes no memory.
pub fn evaluated_runs_agree()
    ensures { EvaluatedRunsAgree }
{}

/// Tells that no run of a procedure of a compiled text is lost as malformed, from a start that agrees with a machine
/// start that may begin the procedure, for answers in range. It takes no memory.
pub fn compiled_never_malformed()
    ensures { CompiledNeverMalformed }
{}
