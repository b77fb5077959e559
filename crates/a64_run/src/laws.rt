//! The law between both runs.

ghost use Rattle.a64_run.specs.Ended.{EndedRunsAgree};

/// Tells that the machine shows what an ended run of B3 shows, from 2 steps a word of code and block step on:
/// where a symbol's code agrees with a procedure, the machine start may begin it, and the procedure's run has
/// ended, or waits, and isn't undefined. It takes no memory.
pub fn ended_runs_agree()
    ensures { EndedRunsAgree }
{}
