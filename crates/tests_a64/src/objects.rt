//! What the file of an object holds.

ghost use Rattle.elf_obj.specs.Good.{IsGood};

use crate::bytes::{damaged, read_hex};
use elf_obj::{Object, read, write};
use std::alloc::Global;
use std::fmt::Write;
use std::str;
use std::test::Fail;
use tests_rows::Teller;

/// Tells what the damaged file of an object holds, or its first fault.
#[derive(Drop)]
pub(crate) struct Objects {
    one: Vec<u8>,
    two: Vec<u8>,
}

impl Objects {
    pub(crate) fn open(rt: &HostRuntime) -> Result<Objects, Fail> {
        Ok(Objects {
            one: read_hex(rt, "one_procedure.hex")?,
            two: read_hex(rt, "two_procedures.hex")?,
        })
    }
}

impl Teller for Objects {
    fn told(&mut self, alloc: Global, asked: &str) -> Result<String, Fail> {
        let (name, damage) = asked.split_once(' ').unwrap_or((asked, ""));
        let file = match name {
            "one_procedure" => damaged(alloc, self.one.as_slice(), damage)?,
            "two_procedures" => damaged(alloc, self.two.as_slice(), damage)?,
            _ => return Err(Fail::from("no such file")),
        };
        object_told(alloc, file.as_slice())
    }
}

fn object_told(alloc: Global, file: &[u8]) -> Result<String, Fail> {
    match read(alloc, file) {
        Ok(object) => {
            let mut text = shown(alloc, &object)?;
            let again = write(alloc, &object)?;
            let said = if again.as_slice() == file {
                "so"
            } else {
                "otherwise"
            };
            text.push_str(", written ")?;
            text.push_str(said)?;
            Ok(text)
        }
        Err(fault) => Ok(format!(in alloc; "{fault}")?),
    }
}

/// The words, procedures and counts of an object.
fn shown(alloc: Global, object: &Object) -> Result<String, Fail> {
    let mut text = String::from_str(alloc, "text")?;
    for word in object.text.as_slice() {
        write!(text, " {word:08X}")?;
    }
    for symbol in object.symbols.as_slice() {
        let name = str::from_utf8(symbol.name.as_slice())?;
        let offset = symbol.offset;
        let size = symbol.size;
        write!(text, ", {name} at {offset} of {size}")?;
    }
    let frames = object.tables.frames.len();
    let sites = object.tables.sites.len();
    write!(text, ", {frames} frames, {sites} sites")?;
    Ok(text)
}
