//! Why a trial is refused.

use b3_base::NoMemory;
use thiserror::Error;

/// Why a trial is refused.
#[derive(Clone, Copy, Debug, PartialEq, Eq, Error)]
pub enum TrialFault {
    /// The bytes are no trial. `line` is the bad line, counted from 1: the least with which the lines no longer
    /// begin a trial, or one more than the number of lines where they end too early.
    #[error("line {line}: syntax")]
    Bad { line: u32 },
    /// An allocation was refused.
    #[error("no memory")]
    NoMemory,
}

impl From<NoMemory> for TrialFault {
    ghost use Rattle.std.specs.Prelude.{◌≡◌};
    ghost use Rattle.b3_trial.specs.declared.fault.TrialFault.TheVariants.{NoMemory as no_memory};

    ghost from_gives = { λ _ fault. fault ≡ no_memory };

    fn from(_refusal: NoMemory) -> TrialFault {
        TrialFault::NoMemory
    }
}
