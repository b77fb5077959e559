//! The large workload: the text that is made from a number, compiled.

ghost use Rattle.std.specs.Prelude.{◌≡◌, ◌++◌, OnOk, IfOk, IfErr};
ghost use Rattle.std.specs.Fmt.{decimal};
ghost use Rattle.b3_trial.specs.Generated.{generated};
ghost use Rattle.b3c_core.specs.Compiled.{IsCause};
ghost use Rattle.b3c_core.specs.Generating.{IsSummary, summary};

use crate::compiler::{Fault, compile};
use b3_base::{Bytes, NoMemory};
use b3_generated::generated_texts_are_good;
use b3_trial::generate;
use itoa::Buffer;
use std::alloc::Global;

/// The summary of the text that is made from `n` and of an object of it, as `compile` gives it: how many procedures and
/// values there are, and the bytes of both. It is refused where `compile` refuses the text, and for want of memory.
pub fn generate_object(alloc: Global, n: u32) -> Result<Bytes, Fault>
    ensures summary { IfOk result (IsSummary n) }
    ensures cause { IfErr result (IsCause (generated n)) }
{
    generated_texts_are_good();
    let text = generate(alloc, n)?;
    let file = match compile(alloc, text.as_slice()) {
        Ok(file) => file,
        Err(fault) => return Err(fault),
    };
    Ok(summary(alloc, text.len(), file.len())?)
}

/// The summary of a text of 16 procedures and 8,272 values, and of an object, of so many bytes.
fn summary(alloc: Global, module_bytes: usize, object_bytes: usize) -> Result<Bytes, NoMemory>
    ensures { IfOk result (λ out. out ≡ summary 16 8272 module_bytes object_bytes) }
{
    let mut out = Bytes::new(alloc);
    out.extend(b"procedures 16\nvalues 8272\nmodule bytes ")?;
    put_decimal(&mut out, module_bytes)?;
    out.extend(b"\nobject bytes ")?;
    put_decimal(&mut out, object_bytes)?;
    out.extend(b"\n")?;
    Ok(out)
}

fn put_decimal(out: &mut Bytes, number: usize) -> Result<(), NoMemory>
    ensures { OnOk result (out.new ≡ out.old ++ decimal number) }
{
    let mut buffer = Buffer::new();
    out.extend(buffer.format(number).as_bytes())
}
