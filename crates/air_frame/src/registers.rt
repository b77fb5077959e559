//! The registers that a procedure writes or clobbers.

ghost use Rattle.std.specs.Prelude.{◌≡◌, ◌<◌, ℕ};
ghost use Rattle.stackmap.specs.Registers.{has};
ghost use Rattle.air_frame.specs.Needs.{block_writes, inst_writes, is_register, writes};
ghost use Rattle.air_frame.specs.Targets.{operand_writes};

use air_ir::{AirBlock, AirInst, AirProc, Arg, Home, Operand, is_read};
use stackmap::set;

/// Those of a procedure, as a set.
pub(crate) fn written_by_proc(p: &AirProc) -> u32
    ensures { (r : ℕ) → r < 32 → has result r ≡ writes p.now r }
{
    let mut written = 0;
    for block in p.blocks.as_slice() {
        written = set::union(written, written_by_block(block));
    }
    written
}

fn written_by_block(b: &AirBlock) -> u32
    ensures { (r : ℕ) → r < 32 → has result r ≡ block_writes r b.now }
{
    let mut written = 0;
    for inst in b.insts.as_slice() {
        written = set::union(written, written_by_inst(inst));
    }
    written
}

fn written_by_inst(i: &AirInst) -> u32
    ensures { (r : ℕ) → r < 32 → has result r ≡ inst_writes r i.now }
{
    let mut written = 0;
    for operand in i.operands.as_slice() {
        written = set::union(written, written_by_operand(*operand));
    }
    written
}

fn written_by_operand(o: Operand) -> u32
    ensures { (r : ℕ) → r < 32 → has result r ≡ operand_writes r o }
{
    match o.arg {
        Arg::At(home) if !is_read(o.role) => register_set(home),
        _ => 0,
    }
}

// The set of a register; where its number is past all registers, and for another home, none.
fn register_set(home: Home) -> u32
    ensures { (r : ℕ) → r < 32 → has result r ≡ is_register r home }
{
    match home {
        Home::Reg(reg) if reg.0 < 32 => set::with(0, reg.0),
        _ => 0,
    }
}
