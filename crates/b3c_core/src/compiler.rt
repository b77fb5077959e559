//! From the bytes of a text to the bytes of an object, and to its canonical text.

ghost use Rattle.std.specs.Prelude.{◌≡◌, ◌-◌, ◌^◌, ◌<◌, length, IfOk, IfErr};
ghost use Rattle.b3_ir.specs.Procedure.{procedures};
ghost use Rattle.b3_module.specs.Limits.{KeepsLimits};
ghost use Rattle.b3_rules.specs.Valid.{IsValid};
ghost use Rattle.a64_object.specs.Taken.{HaveNames};
ghost use Rattle.b3c_core.specs.Compiled.{IsCause, IsCompiled, IsFileWith, IsPrinted, IsTextCause, IsTextOf};

use a64_object::module_object;
use b3_base::{Bytes, NoMemory};
use b3_ir::Module;
use b3_module::{LimitName, TextFault, texts_are_named};
use b3_validate::{Valid, ValidateFault, validate};
use elf_obj::Object;
use std::alloc::Global;

/// Why a text is refused. Lines are counted from 1.
#[derive(Clone, Copy, Debug, PartialEq, Eq)]
pub enum Fault {
    /// The bytes are no text of a module; `line` is their bad line.
    Syntax { line: u32 },
    /// The bytes are a text that passes a limit; `line` is the first line that passes one.
    Limit { which: LimitName, line: u32 },
    /// The bytes are a text that breaks a rule; `line` is the first line that breaks one, and `rule` the least
    /// number of a rule that is broken there.
    Invalid { rule: u8, line: u32 },
    /// Want of memory.
    NoMemory,
}

impl From<NoMemory> for Fault {
    ghost use Rattle.std.specs.Prelude.{◌≡◌};
    ghost use Rattle.b3c_core.specs.declared.compiler.Fault.TheVariants.{NoMemory as no_memory};

    ghost from_gives = { λ _ fault. fault ≡ no_memory };

    fn from(_refusal: NoMemory) -> Fault {
        Fault::NoMemory
    }
}

/// The bytes of the object of the text. It is refused where the bytes are no text within the limits, where the text
/// breaks a rule, and for want of memory.
pub fn compile(alloc: Global, bytes: &[u8]) -> Result<Bytes, Fault>
    requires { length bytes.now < 2 ^ 32 - 1 }
    ensures object { IfOk result (IsCompiled bytes.now) }
    ensures cause { IfErr result (IsCause bytes.now) }
{
    let valid = match valid_module(alloc, bytes) {
        Ok(valid) => valid,
        Err(fault) => return Err(fault),
    };
    let made = module_file(alloc, &valid)?;
    Ok(made.file)
}

/// The valid module that the bytes spell.
pub(crate) fn valid_module(alloc: Global, bytes: &[u8]) -> Result<Valid, Fault>
    requires { length bytes.now < 2 ^ 32 - 1 }
    ensures text { IfOk result (λ made. IsTextOf bytes.now (procedures made)) }
    ensures valid { IfOk result (λ made. IsValid (procedures made)) }
    ensures named { IfOk result (λ made. HaveNames (procedures made)) }
    ensures cause { IfErr result (IsCause bytes.now) }
{
    texts_are_named();
    let module = match read(alloc, bytes) {
        Ok(module) => module,
        Err(fault) => return Err(fault),
    };
    match validate(alloc, module) {
        Ok(valid) => Ok(valid),
        Err(ValidateFault::Invalid { rule, line, .. }) => Err(Fault::Invalid { rule, line }),
        Err(ValidateFault::NoMemory) => Err(Fault::NoMemory),
    }
}

/// The canonical text of the text. It is refused where the bytes are no text within the limits, and for want
/// of memory.
pub fn print(alloc: Global, bytes: &[u8]) -> Result<Bytes, Fault>
    requires { length bytes.now < 2 ^ 32 - 1 }
    ensures text { IfOk result (IsPrinted bytes.now) }
    ensures cause { IfErr result (IsTextCause bytes.now) }
{
    let module = match read(alloc, bytes) {
        Ok(module) => module,
        Err(fault) => return Err(fault),
    };
    Ok(b3_print::print(alloc, &module)?)
}

/// The module that the bytes spell.
fn read(alloc: Global, bytes: &[u8]) -> Result<Module, Fault>
    requires { length bytes.now < 2 ^ 32 - 1 }
    ensures text { IfOk result (λ made. IsTextOf bytes.now (procedures made)) }
    ensures cause { IfErr result (IsTextCause bytes.now) }
{
    match b3_module::read(alloc, bytes) {
        Ok(module) => Ok(module),
        Err(TextFault::Syntax { line }) => Err(Fault::Syntax { line }),
        Err(TextFault::Limit { which, line }) => Err(Fault::Limit { which, line }),
        Err(TextFault::NoMemory) => Err(Fault::NoMemory),
    }
}

/// An object, and its file.
#[derive(Drop)]
pub(crate) struct Made {
    pub(crate) object: Object,
    pub(crate) file: Bytes,
}

/// The object of a module within the limits, and its file. It is refused for want of memory alone.
pub(crate) fn module_file(alloc: Global, valid: &Valid) -> Result<Made, NoMemory>
    requires named { HaveNames (procedures valid.now) }
    requires within { KeepsLimits (procedures valid.now) }
    ensures { IfOk result (λ made. IsFileWith (procedures valid.now) made.object made.file) }
{
    let object = module_object(alloc, valid)?;
    let file = elf_obj::write(alloc, &object)?;
    Ok(Made { object, file })
}
