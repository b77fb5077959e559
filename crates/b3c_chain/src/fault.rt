//! Why a text is not taken through the passes.

use b3_base::NoMemory;
use b3_module::TextFault;
use b3_validate::ValidateFault;
use b3c_core::Fault as Refusal;
use elf_obj::ObjectFault;
use std::io;

/// Why a text is not taken through the passes, or not printed.
#[derive(Debug, Drop)]
pub enum Fault {
    /// The text has 2^32 - 1 bytes or more.
    TooLong,
    /// The bytes are no text of a module within the limits.
    Text(TextFault),
    /// The module breaks a rule.
    Invalid(ValidateFault),
    /// The compiler refuses the text.
    Refused(Refusal),
    /// The compiler's answer is no object.
    Object(ObjectFault),
    /// A file can't be read, or a line can't be written.
    Io(io::Error),
    /// Want of memory.
    NoMemory,
}

impl From<NoMemory> for Fault {
    fn from(_refusal: NoMemory) -> Fault {
        Fault::NoMemory
    }
}

impl From<TextFault> for Fault {
    fn from(fault: TextFault) -> Fault {
        Fault::Text(fault)
    }
}

impl From<ValidateFault> for Fault {
    fn from(fault: ValidateFault) -> Fault {
        Fault::Invalid(fault)
    }
}

impl From<Refusal> for Fault {
    fn from(fault: Refusal) -> Fault {
        Fault::Refused(fault)
    }
}

impl From<ObjectFault> for Fault {
    fn from(fault: ObjectFault) -> Fault {
        Fault::Object(fault)
    }
}

impl From<io::Error> for Fault {
    fn from(error: io::Error) -> Fault {
        Fault::Io(error)
    }
}
