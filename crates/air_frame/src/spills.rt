//! The spill places that a procedure names.

ghost use Rattle.std.specs.Prelude.{◌≡◌, ℕ, suc, [], IfOk, OnOk, nat_eq};
ghost use Rattle.air_frame.specs.Marks.{Marks};
ghost use Rattle.air_frame.specs.Needs.{arg_names, arg_spills, block_names, block_spills, home_spills, inst_names, inst_spills, is_spill, names, spill_count};

use air_ir::{AirBlock, AirInst, AirProc, Arg, Home};
use b3_base::{NoMemory, Seq};
use std::alloc::Global;

/// For each number of a spill place, whether it is named.
pub(crate) type Named = Seq<bool>;

/// Those that a procedure names, up to the greatest number.
pub(crate) fn named_by_proc(alloc: Global, p: &AirProc) -> Result<Named, NoMemory>
    ensures { IfOk result (λ named. Marks [] named (spill_count p.now) (names p.now)) }
{
    let mut named = Named::new(alloc);
    for block in p.blocks.as_slice() {
        mark_block(&mut named, block)?;
    }
    Ok(named)
}

fn mark_block(named: &mut Named, b: &AirBlock) -> Result<(), NoMemory>
    ensures { OnOk result (Marks named.old named.new (block_spills b.now) (λ n. block_names n b.now)) }
{
    for inst in b.insts.as_slice() {
        mark_inst(named, inst)?;
    }
    Ok(())
}

fn mark_inst(named: &mut Named, i: &AirInst) -> Result<(), NoMemory>
    ensures { OnOk result (Marks named.old named.new (inst_spills i.now) (λ n. inst_names n i.now)) }
{
    for operand in i.operands.as_slice() {
        mark_arg(named, operand.arg)?;
    }
    Ok(())
}

fn mark_arg(named: &mut Named, arg: Arg) -> Result<(), NoMemory>
    ensures { OnOk result (Marks named.old named.new (arg_spills arg) (λ n. arg_names n arg)) }
{
    match arg {
        Arg::At(home) => mark_home(named, home),
        Arg::Addr { base, .. } => mark_home(named, base),
        Arg::Index { base, index, .. } => {
            mark_home(named, base)?;
            mark_home(named, index)
        }
        _ => Ok(()),
    }
}

fn mark_home(named: &mut Named, home: Home) -> Result<(), NoMemory>
    ensures { OnOk result (Marks named.old named.new (home_spills home) (λ n. is_spill n home)) }
{
    match home {
        Home::Spill(number) => mark(named, number as usize),
        _ => Ok(()),
    }
}

fn mark(named: &mut Named, number: usize) -> Result<(), NoMemory>
    ensures { OnOk result (Marks named.old named.new (suc number) (λ n. nat_eq number n)) }
{
    if number < named.len() {
        named.set(number, true);
        return Ok(());
    }
    for _ in named.len()..number {
        named.push(false)?;
    }
    named.push(true)
}
