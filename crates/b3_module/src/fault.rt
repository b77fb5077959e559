//! Why a text is refused.

use b3_base::NoMemory;
use thiserror::Error;

/// What is limited in a text, in the order of the table of limits.
#[derive(Clone, Copy, Debug, PartialEq, Eq)]
pub enum LimitName {
    /// 256 procedures in a text.
    Procedures,
    /// 65,536 values in a text.
    Values,
    /// 262,144 children and cases in a text.
    Children,
    /// 16,384 values in a procedure.
    ProcedureValues,
    /// 4,096 blocks in a procedure.
    ProcedureBlocks,
    /// 131,072 children and cases in a procedure.
    ProcedureChildren,
    /// 4,096 slots in a procedure.
    Slots,
    /// 65,536 bytes in the slots of a procedure.
    SlotBytes,
}

/// Why a text is refused. Lines are counted from 1.
#[derive(Clone, Copy, Debug, PartialEq, Eq, Error)]
pub enum TextFault {
    /// The bytes are no text of a module. `line` is the bad line: the least with which the lines no
    /// longer begin a text, or one more than the number of lines where the text ends too early.
    #[error("line {line}: syntax")]
    Syntax { line: u32 },
    /// The bytes are a text that passes a limit; `line` is the first line that passes one, and `which`
    /// the first limit of the table that it passes.
    #[error("line {line}: limit {which:?}")]
    Limit { which: LimitName, line: u32 },
    /// An allocation was refused.
    #[error("no memory")]
    NoMemory,
}

impl From<NoMemory> for TextFault {
    ghost use Rattle.std.specs.Prelude.{◌≡◌};
    ghost use Rattle.b3_module.specs.declared.fault.TextFault.TheVariants.{NoMemory as no_memory};

    ghost from_gives = { λ _ fault. fault ≡ no_memory };

    fn from(_refusal: NoMemory) -> TextFault {
        TextFault::NoMemory
    }
}
