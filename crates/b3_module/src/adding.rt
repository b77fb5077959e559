//! Adding what rows say to the last procedure of a module.

ghost use Rattle.std.specs.Prelude.{◌≡◌, ℕ, ◌+◌, ◌-◌, ◌<◌, ◌≤◌, ◌^◌, [], ◌∷◌, ◌++◌, length, OnOk};
ghost use Rattle.b3_ir.specs.Fits.{Fits};
ghost use Rattle.b3_ir.specs.Names.{IsName};
ghost use Rattle.b3_ir.specs.Procedure.{empty_procedure, procedures};
ghost use Rattle.b3_module.specs.Texts.{with_heading, with_last, with_slot, with_value};
ghost use Rattle.b3_module.specs.Reading.{IsCounted, last_of};

use b3_base::NoMemory;
use b3_ir::{Module, Value};

/// Adds a procedure. It is refused for want of memory alone.
#[tactic(auto, using(b3_ir::proofs::NameLemmas::name_is_text, crate::proofs::LastLemmas::one_more))]
pub(crate) fn add_procedure(made: &mut Module, name: &[u8], line: u32) -> Result<(), NoMemory>
    requires name { IsName name.now }
    requires few { length made.old < 2 ^ 32 - 2 }
    ensures { OnOk result (procedures made.new ≡ procedures made.old ++ empty_procedure name.now line ∷ []) }
{
    let Ok(text) = std::str::from_utf8(name) else {
        return Err(NoMemory);
    };
    made.add_proc(text, line)
}

/// Adds a slot. It is refused for want of memory alone.
pub(crate) fn add_slot(
    made: &mut Module,
    number: u32,
    bytes: u32,
    line: u32,
) -> Result<(), NoMemory>
    requires some { 1 ≤ length made.old }
    requires counted { IsCounted (procedures made.old) line }
    requires few { line < 2 ^ 32 - 1 }
    ensures { OnOk result (procedures made.new ≡ with_last (with_slot number bytes line) (procedures made.old)) }
{
    let last = made.procs() - 1;
    made.proc_mut(last).add_slot_at(number, bytes, line)
}

/// Adds an empty block. It is refused for want of memory alone.
pub(crate) fn add_heading(made: &mut Module, number: u32, line: u32) -> Result<(), NoMemory>
    requires some { 1 ≤ length made.old }
    requires counted { IsCounted (procedures made.old) line }
    requires few { line < 2 ^ 32 - 1 }
    ensures { OnOk result (procedures made.new ≡ with_last (with_heading number line) (procedures made.old)) }
{
    let last = made.procs() - 1;
    made.proc_mut(last).add_block_at(number, line)?;
    Ok(())
}

/// Adds a value to the last block. It is refused for want of memory alone.
pub(crate) fn add_value(made: &mut Module, value: Value, line: u32) -> Result<(), NoMemory>
    requires some { 1 ≤ length made.old }
    requires blocks { 1 ≤ length (last_of (procedures made.old)).blocks }
    requires counted { IsCounted (procedures made.old) line }
    requires few { line < 2 ^ 32 - 1 }
    requires fits { Fits value }
    ensures { OnOk result (procedures made.new ≡ with_last (with_value value) (procedures made.old)) }
{
    let at = made.procs() - 1;
    let last = made.proc_mut(at);
    let block = last.blocks() - 1;
    last.push(block as u32, value)
}
