//! What is found of a text: the words of the passes beside those of the compiler.

ghost use Rattle.std.specs.Prelude.{◌-◌, ◌^◌, ◌<◌, length};

use crate::fault::Fault;
use crate::passes::{Chained, chain};
use b3c_core::compile;
use std::alloc::Global;
use std::fmt;

/// What is found of a text.
#[derive(Drop)]
pub struct Compared {
    /// How many procedures it has.
    pub procedures: usize,
    /// How many words their code has.
    pub words: usize,
    /// How many temporaries have no register.
    pub spilled: usize,
    /// Whether the words are those of the object that the compiler makes.
    pub same: bool,
}

impl Compared {
    /// Whether the words are the compiler's, as it is printed.
    pub fn agreement(&self) -> &'static str {
        if self.same {
            "the words are the compiler's"
        } else {
            "the words are not the compiler's"
        }
    }

    /// Whether a temporary is spilled, as it is printed.
    fn spills(&self) -> &'static str {
        if self.spilled == 0 {
            "no temporary is spilled"
        } else {
            "some temporary is spilled"
        }
    }
}

impl fmt::Display for Compared {
    fn fmt<W: fmt::Write>(&self, f: &mut fmt::Formatter<W>) -> fmt::Result {
        let procedures = self.procedures;
        let words = self.words;
        let spills = self.spills();
        let agreement = self.agreement();
        write!(
            f,
            "procedures {procedures}, words {words}, {spills}, {agreement}"
        )
    }
}

/// The words that the passes make of a text, beside those of the object that the compiler makes of it.
pub fn compare(alloc: Global, text: &[u8]) -> Result<Compared, Fault> {
    if text.len() >= 0xFFFF_FFFF {
        return Err(Fault::TooLong);
    }
    let made: Chained = chain(alloc, text)?;
    let file = compile(alloc, text)?;
    let object = elf_obj::read(alloc, file.as_slice())?;
    Ok(Compared {
        procedures: made.procedures,
        words: made.words.len(),
        spilled: made.spilled,
        same: made.words.as_slice() == object.text.as_slice(),
    })
}
