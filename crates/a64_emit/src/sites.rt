//! Marks, and the sites that stand at them.

ghost use Rattle.std.specs.Prelude.{◌≡◌, ◌^◌, ◌<◌, ◌≤◌, ◌++◌, [], drop, if◌then◌else◌, length, take, IfOk, OnOk};
ghost use Rattle.air_ir.specs.Operands.{is_read};
ghost use Rattle.a64_emit.specs.Code.{marked_if, own_exits, own_marks};
ghost use Rattle.a64_emit.specs.Made.{and_place, exit_site, HasSmallValues, HasSmallValuesIn, block_exit_sites, block_sites, inner_sites, inst_exit, inst_sites, outward_site, places_read, procedure_sites, rep_of, result_in, trap_site, with_home, with_register, with_written};

use crate::insts::{operand_at, test_count};
use a64_code::spill_offset;
use a64_inst::{Item, Labelled};
use air_ir::{AirBlock, AirInst, AirOp, AirProc, Arg, Frame, Home, Operand, Operands, Role};
use b3_base::{NoMemory, Width};
use b3_ir::{Reg, RegSet};
use stackmap::{Place, Places, Rep, Site, SiteKind, Sites};
use std::alloc::Global;

/// A mark, where there is to be one.
pub(crate) fn push_mark(code: &mut Labelled, marks: bool, mark: u32) -> Result<(), NoMemory>
    ensures { OnOk result (code.new ≡ code.old ++ marked_if marks mark) }
{
    if marks {
        code.push(Item::Mark(mark))?;
    }
    Ok(())
}

/// How many marks stand within the items of an instruction.
pub(crate) fn own_marks(op: &AirOp, traps: bool) -> u32
    ensures { result ≡ own_marks op.now traps }
{
    match op {
        AirOp::Load8Z
        | AirOp::Load8S
        | AirOp::Load16Z
        | AirOp::Load16S
        | AirOp::Load
        | AirOp::Store8
        | AirOp::Store16
        | AirOp::Store => traps as u32,
        AirOp::Call { .. } | AirOp::Patch { .. } => 1,
        _ => 0,
    }
}

/// How many exits an instruction has.
pub(crate) fn own_exits(op: &AirOp) -> u32
    ensures { result ≡ own_exits op.now }
{
    match op {
        AirOp::CheckIf(_) | AirOp::CheckAdd | AirOp::CheckSub | AirOp::CheckMul => 1,
        _ => 0,
    }
}

/// The site of an access that traps.
fn trap_site(alloc: Global, value: u32) -> Site
    ensures { result ≡ trap_site value }
{
    Site {
        kind: SiteKind::Trap,
        value,
        size: 1,
        reps: Places::new(alloc),
        result: None,
        clobbers: RegSet::new(),
    }
}

/// Where the word of an argument stands.
fn rep_of(frame: &Frame, arg: Arg) -> Rep
    ensures { result ≡ rep_of frame.now arg }
{
    match arg {
        Arg::At(Home::Reg(reg)) => Rep::Register(reg),
        Arg::At(Home::Spill(number)) => Rep::Slot(spill_offset(frame, number)),
        Arg::Imm(word) => Rep::Constant(word),
        _ => Rep::Constant(0),
    }
}

/// Whether an operand of a role is read.
fn is_read(role: Role) -> bool
    ensures { result ≡ is_read role }
{
    match role {
        Role::Use | Role::LateUse => true,
        Role::EarlyDef | Role::Def | Role::Clobber => false,
    }
}

/// The place of an operand, where that is read.
fn push_place(places: &mut Places, frame: &Frame, operand: Operand) -> Result<(), NoMemory>
    ensures { OnOk result (places.new ≡ places.old ++ and_place (is_read operand.role) frame.now operand []) }
{
    if !is_read(operand.role) {
        return Ok(());
    }
    places.push(Place {
        width: operand.width,
        rep: rep_of(frame, operand.arg),
    })
}

/// The places of the operands from one on that are read.
fn places_read(
    alloc: Global,
    frame: &Frame,
    from: usize,
    operands: &Operands,
) -> Result<Places, NoMemory>
    ensures { IfOk result (λ places. places ≡ places_read frame.now (drop from operands.now)) }
{
    let mut places = Places::new(alloc);
    for k in from..operands.len() {
        push_place(&mut places, frame, *operands.get(k))?;
    }
    Ok(places)
}

/// A set with one more of the registers x0 to x30.
fn with_register(set: u32, reg: u8) -> u32
    requires { set < 2 ^ 31 }
    ensures value { result ≡ with_register set reg }
    ensures bound { result < 2 ^ 31 }
{
    if reg <= 30 {
        return set | 1 << reg;
    }
    set
}

/// A set with the register of an operand that is written.
fn with_operand(set: u32, operand: Operand) -> u32
    requires { set < 2 ^ 31 }
    ensures value { result ≡ (if is_read operand.role then set else with_home set operand.arg) }
    ensures bound { result < 2 ^ 31 }
{
    if is_read(operand.role) {
        return set;
    }
    match operand.arg {
        Arg::At(Home::Reg(reg)) => with_register(set, reg.0),
        _ => set,
    }
}

/// The registers of the operands below the n-th that are written.
fn registers_written(n: usize, operands: &Operands) -> RegSet
    requires { n ≤ length operands.now }
    ensures { result ≡ with_written 0 (take n operands.now) }
{
    let mut set = 0;
    for k in 0..n {
        set = with_operand(set, *operands.get(k));
    }
    RegSet::from_bits(set)
}

/// The register and the width of the last operand, where that is a result.
fn result_in(typed: bool, operands: &Operands) -> Option<(Width, Reg)>
    ensures { result ≡ result_in typed operands.now }
{
    if !typed {
        return None;
    }
    let last = operand_at(operands, operands.len().saturating_sub(1));
    match last.arg {
        Arg::At(Home::Reg(reg)) => Some((last.width, reg)),
        _ => None,
    }
}

/// A site at which the outside acts, with the words that the operands from one on read.
fn outward_site(
    alloc: Global,
    frame: &Frame,
    kind: SiteKind,
    size: u32,
    typed: bool,
    from: usize,
    inst: &AirInst,
) -> Result<Site, NoMemory>
    ensures { IfOk result (λ site. site ≡ outward_site frame.now kind size typed from inst.now) }
{
    let reps = places_read(alloc, frame, from, &inst.operands)?;
    let count = inst.operands.len().saturating_sub(typed as usize);
    Ok(Site {
        kind,
        value: inst.value,
        size,
        reps,
        result: result_in(typed, &inst.operands),
        clobbers: registers_written(count, &inst.operands),
    })
}

/// The site of a check, whose inputs are the operands below one.
fn exit_site(alloc: Global, frame: &Frame, from: usize, inst: &AirInst) -> Result<Site, NoMemory>
    ensures { IfOk result (λ site. site ≡ exit_site frame.now from inst.now) }
{
    let reps = places_read(alloc, frame, from, &inst.operands)?;
    Ok(Site {
        kind: SiteKind::Exit,
        value: inst.value,
        size: 1,
        reps,
        result: None,
        clobbers: RegSet::new(),
    })
}

/// The sites whose marks stand within the items of an instruction.
pub(crate) fn push_inst_sites(
    alloc: Global,
    sites: &mut Sites,
    frame: &Frame,
    inst: &AirInst,
) -> Result<(), NoMemory>
    ensures sites { OnOk result (sites.new ≡ sites.old ++ inst_sites frame.now inst.now) }
    ensures small { IfOk result (λ _. inst.now.value < 2 ^ 32) }
{
    let value = inst.value;
    match &inst.op {
        AirOp::Load8Z
        | AirOp::Load8S
        | AirOp::Load16Z
        | AirOp::Load16S
        | AirOp::Load
        | AirOp::Store8
        | AirOp::Store16
        | AirOp::Store => {
            if inst.traps {
                sites.push(trap_site(alloc, value))?;
            }
            Ok(())
        }
        AirOp::Call { typed } => {
            let site = outward_site(alloc, frame, SiteKind::Call, 1, *typed, 1, inst)?;
            sites.push(site)
        }
        AirOp::Patch { size, typed } => {
            let site = outward_site(alloc, frame, SiteKind::Patchpoint, *size, *typed, 0, inst)?;
            sites.push(site)
        }
        _ => Ok(()),
    }
}

/// The site of the exit of an instruction, where it has one.
pub(crate) fn push_inst_exit(
    alloc: Global,
    sites: &mut Sites,
    frame: &Frame,
    inst: &AirInst,
) -> Result<(), NoMemory>
    ensures { OnOk result (sites.new ≡ sites.old ++ inst_exit frame.now inst.now) }
{
    match &inst.op {
        AirOp::CheckIf(test) => {
            let site = exit_site(alloc, frame, test_count(*test), inst)?;
            sites.push(site)
        }
        AirOp::CheckAdd | AirOp::CheckSub | AirOp::CheckMul => {
            let site = exit_site(alloc, frame, 2, inst)?;
            sites.push(site)
        }
        _ => Ok(()),
    }
}

/// The sites of a block whose marks stand within it.
fn push_block_sites(
    alloc: Global,
    sites: &mut Sites,
    frame: &Frame,
    block: &AirBlock,
) -> Result<(), NoMemory>
    ensures sites { OnOk result (sites.new ≡ sites.old ++ block_sites frame.now block.now) }
    ensures small { IfOk result (λ _. HasSmallValuesIn block.now) }
{
    for inst in block.insts.as_slice() {
        push_inst_sites(alloc, sites, frame, inst)?;
    }
    Ok(())
}

/// The sites of the exits of a block.
fn push_block_exits(
    alloc: Global,
    sites: &mut Sites,
    frame: &Frame,
    block: &AirBlock,
) -> Result<(), NoMemory>
    ensures { OnOk result (sites.new ≡ sites.old ++ block_exit_sites frame.now block.now) }
{
    for inst in block.insts.as_slice() {
        push_inst_exit(alloc, sites, frame, inst)?;
    }
    Ok(())
}

/// The sites whose marks stand within the blocks of a procedure.
fn inner_sites(alloc: Global, p: &AirProc, frame: &Frame) -> Result<Sites, NoMemory>
    ensures sites { IfOk result (λ sites. sites ≡ inner_sites p.now frame.now) }
    ensures small { IfOk result (λ _. HasSmallValues p.now) }
{
    let mut sites = Sites::new(alloc);
    for block in p.blocks.as_slice() {
        push_block_sites(alloc, &mut sites, frame, block)?;
    }
    Ok(sites)
}

/// The sites of a procedure, in the order of their marks. It is refused for want of memory alone.
pub(crate) fn procedure_sites(alloc: Global, p: &AirProc, frame: &Frame) -> Result<Sites, NoMemory>
    ensures sites { IfOk result (λ sites. sites ≡ procedure_sites p.now frame.now) }
    ensures small { IfOk result (λ _. HasSmallValues p.now) }
{
    let mut sites = inner_sites(alloc, p, frame)?;
    for block in p.blocks.as_slice() {
        push_block_exits(alloc, &mut sites, frame, block)?;
    }
    Ok(sites)
}
