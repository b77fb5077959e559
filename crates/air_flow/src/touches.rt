//! The touches of instructions.

ghost use Rattle.std.specs.Prelude.{◌≡◌, ◌++◌, map, OnOk, IfOk};
ghost use Rattle.std.specs.Option.{option_to_list};
ghost use Rattle.air_flow.specs.Flow.{block_touches, inst_touches, name_of, operand_touches, touch_as};

use air_ir::{AirBlock, AirInst, Arg, Home, Operand, Role};
use b3_base::{NoMemory, Seq};
use flow_live::Touch;
use std::alloc::Global;

/// The touches of an instruction.
pub(crate) type Touches = Seq<Touch>;

/// The name of a home, where there are so many temporaries; a spill place has none.
fn name_of(tmps: u32, home: Home) -> Option<usize>
    ensures { result ≡ name_of tmps home }
{
    match home {
        Home::Tmp(number) => Some(number as usize),
        Home::Reg(reg) => Some(tmps as usize + reg.0 as usize),
        Home::Spill(_) => None,
    }
}

/// How an operand touches a name of its homes.
fn touch_as(role: Role, arg: Arg, name: usize) -> Touch
    ensures { result ≡ touch_as role arg name }
{
    match role {
        Role::Use => Touch::Use(name),
        Role::LateUse => Touch::LateUse(name),
        Role::EarlyDef | Role::Def | Role::Clobber => match arg {
            Arg::At(_) => Touch::Def(name),
            _ => Touch::Use(name),
        },
    }
}

/// Adds the touch of a home of an operand, where the home has a name.
fn add_home(touches: &mut Touches, tmps: u32, operand: &Operand, home: Home) -> Result<(), NoMemory>
    ensures { OnOk result (touches.new ≡ touches.old
        ++ map (touch_as operand.now.role operand.now.arg) (option_to_list (name_of tmps home))) }
{
    match name_of(tmps, home) {
        Some(name) => touches.push(touch_as(operand.role, operand.arg, name)),
        None => Ok(()),
    }
}

/// Adds the touches of an operand.
fn add_operand(touches: &mut Touches, tmps: u32, operand: &Operand) -> Result<(), NoMemory>
    ensures { OnOk result (touches.new ≡ touches.old ++ operand_touches tmps operand.now) }
{
    match operand.arg {
        Arg::At(home) => add_home(touches, tmps, operand, home),
        Arg::Imm(_) => Ok(()),
        Arg::Addr { base, offset: _ } => add_home(touches, tmps, operand, base),
        Arg::Index {
            base,
            index,
            shift: _,
        } => {
            add_home(touches, tmps, operand, base)?;
            add_home(touches, tmps, operand, index)
        }
        Arg::FrameSlot(_) => Ok(()),
    }
}

/// The touches of an instruction. It is refused for want of memory alone.
fn inst_touches(alloc: Global, tmps: u32, inst: &AirInst) -> Result<Touches, NoMemory>
    ensures { IfOk result (λ touches. touches ≡ inst_touches tmps inst.now) }
{
    let mut touches = Touches::new(alloc);
    for operand in inst.operands.as_slice() {
        add_operand(&mut touches, tmps, operand)?;
    }
    Ok(touches)
}

/// The touches of each instruction of a block. It is refused for want of memory alone.
pub(crate) fn block_touches(
    alloc: Global,
    tmps: u32,
    block: &AirBlock,
) -> Result<Seq<Touches>, NoMemory>
    ensures { IfOk result (λ touches. touches ≡ block_touches tmps block.now) }
{
    let mut touches = Seq::new(alloc);
    for inst in block.insts.as_slice() {
        touches.push(inst_touches(alloc, tmps, inst)?)?;
    }
    Ok(touches)
}
