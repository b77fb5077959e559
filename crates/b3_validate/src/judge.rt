//! Whether a module is valid.

ghost use Rattle.std.specs.Prelude.{◌≡◌, ◌<◌, ◌^◌, IfErr, IfOk};
ghost use Rattle.b3_ir.specs.Procedure.{procedures};
ghost use Rattle.b3_rules.specs.Numbers.{number_of};
ghost use Rattle.b3_rules.specs.Valid.{IsValid};
ghost use Rattle.b3_validate.specs.Faults.{IsFault};

use crate::fault::ValidateFault;
use crate::found::{Found, other_breach, use_breach};
use crate::valid::Valid;
use b3_ir::Module;
use std::alloc::Global;

/// The fault of what was found in a module of fewer than 2^32 procedures.
fn fault_of(found: Found) -> ValidateFault
    requires { found.procedure < 2 ^ 32 }
    ensures { result ≡ ValidateFault.Invalid (number_of found.spot.rule) found.procedure found.spot.line }
{
    ValidateFault::Invalid {
        rule: found.spot.rule.number(),
        procedure: found.procedure as u32,
        line: found.spot.line,
    }
}

/// The module, where it is valid. Else its first breach: on the least line, there of the least rule, and of that
/// in the first procedure; the rule on uses counts only where no other is broken in the whole module. It is
/// refused also for want of memory, to which a module of 2^32 procedures counts.
pub fn validate(alloc: Global, module_: Module) -> Result<Valid, ValidateFault>
    ensures same { IfOk result (λ valid. valid ≡ module_) }
    ensures valid { IfOk result (λ valid. IsValid (procedures valid)) }
    ensures invalid { IfErr result (IsFault (procedures module_)) }
{
    if module_.procs() > 0xFFFF_FFFF {
        return Err(ValidateFault::NoMemory);
    }
    if let Some(found) = other_breach(alloc, &module_)? {
        return Err(fault_of(found));
    }
    if let Some(found) = use_breach(alloc, &module_)? {
        return Err(fault_of(found));
    }
    Ok(Valid::new(module_))
}
