//! Reading a trial, line by line.

ghost use Rattle.std.specs.Prelude.{ℕ, ◌-◌, ◌<◌, ◌^◌, length, IfOk, IfErr, Ok, Err};
ghost use Rattle.b3_trial.specs.Told.{Gives, IfBad};
ghost use Rattle.b3_trial.specs.Trials as spec;
ghost use Rattle.b3_trial.specs.Trials.{BadLine, Spells, trial_of};

use crate::fault::TrialFault;
use crate::so_far::SoFar;
use b3_base::{Answers, MachineStart, Name};
use b3_lines::next_line;
use std::alloc::Global;

/// What a trial says.
#[derive(Drop)]
pub struct Trial {
    /// The procedure that is run.
    pub name: Name,
    /// The start of the machine's run.
    pub start: MachineStart,
    /// What the outside answers, in order: at most 256.
    pub answers: Answers,
    /// How many blocks of B3 are run: at most 2^20.
    pub blocks: u64,
    /// How many steps of the machine are run: at most 2^45.
    pub steps: u64,
}

/// What `read_trial` does, by its first two clauses.
fn read_lines(alloc: Global, bytes: &[u8]) -> Result<Trial, TrialFault>
    requires { length bytes.now < 2 ^ 32 - 1 }
    ensures ok { IfOk result (λ trial. Spells bytes.now (trial_of trial)) }
    ensures bad { IfErr result (λ fault. IfBad fault (λ line. BadLine bytes.now line)) }
{
    let mut so_far = SoFar::new(alloc);
    let mut line: u32 = 1;
    let mut rest = bytes;
    while let Some((text, after)) = next_line(rest) {
        if !so_far.put(alloc, text)? {
            return Err(TrialFault::Bad { line });
        }
        line += 1;
        rest = after;
    }
    match so_far.end() {
        Some(trial) => Ok(trial),
        None => Err(TrialFault::Bad { line }),
    }
}

/// The trial that the bytes spell. It is refused with `Bad` exactly where they spell none, and else for want of
/// memory alone.
pub fn read_trial(alloc: Global, bytes: &[u8]) -> Result<Trial, TrialFault>
    // 32 bits count the lines.
    requires { length bytes.now < 2 ^ 32 - 1 }
    // What is read is spelled, and the line of a refusal is the bad line.
    ensures ok { IfOk result (λ trial. Spells bytes.now (trial_of trial)) }
    ensures bad { IfErr result (λ fault. IfBad fault (λ line. BadLine bytes.now line)) }
    // What is spelled is read, and a bad line is told, unless memory runs out.
    ensures spelled { (t : spec.Trial) → Spells bytes.now t → Gives result (Ok t) }
    ensures refused { (line : ℕ) → BadLine bytes.now line → Gives result (Err (TrialFault.Bad line)) }
{
    read_lines(alloc, bytes)
}
