//! Why a module is refused.

use b3_base::NoMemory;
use thiserror::Error;

/// Why a module is refused.
#[derive(Clone, Copy, Debug, PartialEq, Eq, Error)]
pub enum ValidateFault {
    /// The module breaks a rule. `line` is the first line on which one is broken, `rule` the number, from 1 to
    /// 20, of the first that is broken there, and `procedure` the place, from 0, of the first procedure that
    /// breaks it there. The rule on uses counts only where no other is broken in the whole module.
    #[error("line {line}: rule {rule}")]
    Invalid { rule: u8, procedure: u32, line: u32 },
    /// An allocation was refused.
    #[error("no memory")]
    NoMemory,
}

impl From<NoMemory> for ValidateFault {
    ghost use Rattle.std.specs.Prelude.{◌≡◌};
    ghost use Rattle.b3_validate.specs.declared.fault.ValidateFault.TheVariants.{NoMemory as no_memory};

    ghost from_gives = { λ _ fault. fault ≡ no_memory };

    fn from(_refusal: NoMemory) -> ValidateFault {
        ValidateFault::NoMemory
    }
}
