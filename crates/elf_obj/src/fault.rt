//! What is wrong with the bytes of a file.

ghost use Rattle.std.specs.Prelude.{◌≡◌};
ghost use Rattle.elf_obj.specs.declared.fault.ObjectFault.TheVariants as faults;

use b3_base::NoMemory as Refused;
use thiserror::Error;

/// Why a file gives no object. A fault has its number, 1 to 12, and a byte of the file: the first that is another than
/// it is to be, or the first of the field that is at fault. The numbers are looked at in their order.
///
/// | number | where | byte |
/// |---|---|---|
/// | 1 | the file has fewer than 64 bytes | its length |
/// | 2 | EI_MAG0 to EI_MAG3 | the first that is another |
/// | 3 | the rest of e_ident | the first that is another |
/// | 4, 5 | e_type, e_machine | 16, 18 |
/// | 6 | the fields behind them, but for e_shoff | the first byte that is another |
/// | 7 | e_shoff is no multiple of 8, or the section headers from it on do not end the file | 40 |
/// | 8 | a field of a section header | the field's |
/// | 9 | a field of a symbol | the field's |
/// | 10 | a byte of `.strtab` or of `.shstrtab` | the first that is another or left over, or the section's end |
/// | 11 | a byte between two parts that isn't zero | that byte |
/// | 12 | a fault of the tables, or a site whose word of the text is another | the field's |
///
/// A fault of tables at byte 2^32 of its section or behind is told as want of memory.
#[derive(Clone, Copy, Debug, PartialEq, Eq, Error)]
pub enum ObjectFault {
    /// The first fault.
    #[error("the object has fault {code} at byte {byte}")]
    Bad { code: u8, byte: u64 },
    /// An allocation was refused.
    #[error("out of memory")]
    NoMemory,
}

impl From<Refused> for ObjectFault {
    ghost from_gives = { λ _ e. e ≡ faults.NoMemory };

    fn from(_refusal: Refused) -> ObjectFault {
        ObjectFault::NoMemory
    }
}
