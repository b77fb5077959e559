//! Data accesses that touch a byte of the frame that holds nothing.

ghost use Rattle.std.specs.Prelude.{◌≡◌, ◌<◌, ◌≤◌, ◌^◌, ◌≤ℤ◌, pos, negsuc, if◌then◌else◌};
ghost use Rattle.std.specs.FinMap as map;
ghost use Rattle.a64_inst.specs.Registers as words;
ghost use Rattle.a64_inst.specs.Registers.{registers_of};
ghost use Rattle.a64_inst.specs.StepMemory as access;
ghost use Rattle.a64_inst.specs.WellFormed.{IsWellFormed};
ghost use Rattle.b3_base.specs.Observed.{machine_start_of};
ghost use Rattle.a64_run.specs.Kept.{entry_of, state_of};
ghost use Rattle.a64_run.specs.Machine as spec;
ghost use Rattle.a64_run.specs.Placement as place;

use crate::bytes::has_byte;
use crate::entry::{Entry, State};
use crate::placement::is_within;
use a64_inst::{AccessKind, Inst, State as Registers};
use b3_base::{MachineStart, Memory};
use exit_table::FrameRow;

/// Whether an address is one of a byte of the frame.
pub(crate) fn is_in_frame(frame: &FrameRow, start: &MachineStart, address: u64) -> bool
    requires { frame.now.bytes ≤ start.now.sp }
    ensures { result ≡ place.in_frame frame.now (machine_start_of start.now) address }
{
    let bytes = u64::from(frame.bytes);
    is_within(start.sp - bytes, bytes, address)
}

/// Whether an address is that of a byte of the frame that holds nothing.
fn is_empty_byte(e: &Entry<'_>, memory: &Memory, address: u64) -> bool
    requires { e.now.frame.now.bytes ≤ e.now.start.now.sp }
    ensures { result ≡ spec.is_empty_byte (entry_of e.now) (map.get memory.now) address }
{
    is_in_frame(e.frame, e.start, address) && !has_byte(memory, address)
}

/// Whether one of some bytes from an address on is such a byte.
fn touches_empty(e: &Entry<'_>, memory: &Memory, address: u64, bytes: u32) -> bool
    requires { e.now.frame.now.bytes ≤ e.now.start.now.sp }
    ensures { result ≡ spec.touches_empty (entry_of e.now) (map.get memory.now) address bytes }
{
    let mut touched = false;
    for i in 0..bytes {
        touched = touched || is_empty_byte(e, memory, address.wrapping_add(u64::from(i)));
    }
    touched
}

/// Whether an instruction touches one.
pub(crate) fn touches_empty_at(e: &Entry<'_>, st: &State<'_>, inst: &Inst) -> bool
    requires room { e.now.frame.now.bytes ≤ e.now.start.now.sp }
    requires formed { IsWellFormed inst.now }
    ensures { result ≡ spec.touches_empty_at (entry_of e.now) (map.get st.now.memory)
        (spec.touched inst.now (registers_of st.now.registers)) }
{
    match touched(inst, &st.registers) {
        Some((address, bytes)) => touches_empty(e, &st.memory, address, bytes),
        None => false,
    }
}

/// The bytes that an instruction's data access touches: the first address, and how many.
fn touched(inst: &Inst, registers: &Registers) -> Option<(u64, u32)>
    requires { IsWellFormed inst.now }
    ensures { result ≡ spec.touched inst.now (registers_of registers.now) }
{
    match *inst {
        Inst::Access {
            kind,
            rt: _,
            rn,
            units,
        } => Some((
            access_address(registers, kind, rn, units),
            access_bytes(kind),
        )),
        Inst::AccessNear {
            kind,
            rt: _,
            rn,
            offset,
        } => Some((near_address(registers, rn, offset), access_bytes(kind))),
        Inst::AccessIndex {
            load: _,
            rt: _,
            rn,
            rm,
            scaled,
        } => Some((index_address(registers, rn, rm, scaled), 8)),
        Inst::Pair {
            load: _,
            rt: _,
            rt2: _,
            rn,
            units,
        } => Some((moved(read_or_sp(registers, rn), units), 16)),
        Inst::PairSp {
            load,
            rt: _,
            rt2: _,
            units,
        } => Some((stacked(registers.sp, load, units), 16)),
        _ => None,
    }
}

/// Register `reg`, where 31 is SP.
fn read_or_sp(registers: &Registers, reg: u8) -> u64
    requires { reg ≤ 31 }
    ensures { result ≡ words.read_or_sp (registers_of registers.now) reg }
{
    if reg == 31 {
        registers.sp
    } else {
        registers.x[reg as usize]
    }
}

/// Register `reg`, where 31 is ZR.
fn read(registers: &Registers, reg: u8) -> u64
    requires { reg ≤ 31 }
    ensures { result ≡ words.read (registers_of registers.now) reg }
{
    if reg == 31 {
        0
    } else {
        registers.x[reg as usize]
    }
}

/// The bytes of a load or a store.
fn access_bytes(kind: AccessKind) -> u32
    ensures value { result ≡ access.access_bytes kind }
    ensures small { result ≤ 8 }
{
    match kind {
        AccessKind::Strb | AccessKind::Ldrb | AccessKind::Ldrsb => 1,
        AccessKind::Strh | AccessKind::Ldrh | AccessKind::Ldrsh => 2,
        AccessKind::StrW | AccessKind::LdrW => 4,
        AccessKind::StrX | AccessKind::LdrX => 8,
    }
}

/// The address at a number of an access's sizes.
fn access_address(registers: &Registers, kind: AccessKind, rn: u8, units: u32) -> u64
    requires rn { rn ≤ 31 }
    requires units { units < 2 ^ 12 }
    ensures { result ≡ access.access_address kind rn units (registers_of registers.now) }
{
    read_or_sp(registers, rn).wrapping_add(u64::from(units * access_bytes(kind)))
}

/// The address at a number of bytes.
fn near_address(registers: &Registers, rn: u8, offset: i32) -> u64
    requires { rn ≤ 31 }
    ensures { result ≡ access.near_address rn offset (registers_of registers.now) }
{
    read_or_sp(registers, rn).wrapping_add_signed(i64::from(offset))
}

/// The address at a register, times the size of a word where it is scaled.
fn index_address(registers: &Registers, rn: u8, rm: u8, scaled: bool) -> u64
    requires rn { rn ≤ 31 }
    requires rm { rm ≤ 31 }
    ensures { result ≡ access.index_address rn rm scaled (registers_of registers.now) }
{
    let index = read(registers, rm);
    let scale = if scaled { 8 } else { 1 };
    read_or_sp(registers, rn).wrapping_add(index.wrapping_mul(scale))
}

/// An address, changed by 8 bytes a unit.
fn moved(address: u64, units: i32) -> u64
    requires least { negsuc 63 ≤ℤ units }
    requires most { units ≤ℤ pos 63 }
    ensures { result ≡ access.moved_sp address units }
{
    address.wrapping_add_signed(i64::from(8 * units))
}

/// Where a pair is loaded from SP on, or stored below it.
fn stacked(sp: u64, load: bool, units: i32) -> u64
    requires least { negsuc 63 ≤ℤ units }
    requires most { units ≤ℤ pos 63 }
    ensures { result ≡ (if load then sp else access.moved_sp sp units) }
{
    if load { sp } else { moved(sp, units) }
}
