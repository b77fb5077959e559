//! Reading what was printed.

ghost use Rattle.std.specs.Prelude.{◌≡◌, IfOk};
ghost use Rattle.b3_ir.specs.Procedure.{procedures};
ghost use Rattle.b3_module.specs.Canonical.{lined};
ghost use Rattle.b3_module.specs.Limits.{KeepsLimits};
ghost use Rattle.b3_module.specs.TextModules.{IsTextModule};

use crate::laws::{canonical_texts_are_short, texts_are_read_again};
use crate::printing::print;
use b3_base::NoMemory;
use b3_ir::Module;
use b3_module::{TextFault, read};
use std::alloc::Global;

/// What `read` gives of what `print` gives of a module: the same module, each part on its line of the canonical text.
/// It is refused for want of memory alone.
pub fn print_and_read(alloc: Global, text: &Module) -> Result<Module, NoMemory>
    // A text gave the module within the limits, as `read` tells of what it gives.
    requires text { IsTextModule (procedures text.now) }
    requires within { KeepsLimits (procedures text.now) }
    ensures { IfOk result (λ made. procedures made ≡ lined 1 (procedures text.now)) }
{
    texts_are_read_again();
    canonical_texts_are_short();
    let bytes = print(alloc, text)?;
    match read(alloc, bytes.as_slice()) {
        Ok(made) => Ok(made),
        Err(TextFault::NoMemory) => Err(NoMemory),
        Err(TextFault::Syntax { .. }) => unreachable!(),
        Err(TextFault::Limit { .. }) => unreachable!(),
    }
}
