//! Loads and stores, the addresses of slots and the frame pointer.

ghost use Rattle.std.specs.Prelude.{◌≡◌, ◌++◌, ◌∷◌, [], ◌<◌, ◌≤◌, OnOk};
ghost use Rattle.air_ir.specs.Kinds as kinds;
ghost use Rattle.air_select.specs.Selected as code;

use crate::code::{one, push, push_access, push_move, three, two};
use crate::tables::{Tables, def_at, first_extra, home, result_of, second_extra, use_at};
use air_fold::{Known, child, is_constant, is_offset, offset_in, whole_offset, width_of};
use air_ir::{AirInsts, AirOp, Arg, Home};
use b3_base::{NoMemory, Width};
use b3_ir::{Body, Value};
use b3_meaning::Extent;
use std::alloc::Global;

/// The number of a slot.
fn slot_in(body: &Body) -> u32
    ensures { result ≡ code.slot_in body.now }
{
    match body {
        Body::Slot(number) => *number,
        _ => 0,
    }
}

/// How many bytes an access touches.
fn bytes_of(extent: Extent, width: Width) -> u32
    ensures bytes { result ≡ kinds.extent_bytes extent width }
    ensures some { 0 < result }
    ensures most { result ≤ 8 }
{
    match extent {
        Extent::Byte => 1,
        Extent::Half => 2,
        Extent::Whole => width.bits() / 8,
    }
}

/// Adds the copy of an offset that doesn't fit in an address.
fn push_far_offset(
    alloc: Global,
    insts: &mut AirInsts,
    t: &Tables,
    v: &Value,
) -> Result<(), NoMemory>
    ensures { OnOk result (insts.new ≡ insts.old ++ code.far_offset t.now v.now ∷ []) }
{
    let word = offset_in(&v.body).cast_unsigned();
    push_move(
        alloc,
        insts,
        v.id,
        Width::W64,
        Arg::Imm(word),
        first_extra(&t.index, v.id),
    )
}

/// Adds the sum of a pointer and such an offset.
fn push_far_pointer(
    alloc: Global,
    insts: &mut AirInsts,
    t: &Tables,
    v: &Value,
    pointer: u32,
) -> Result<(), NoMemory>
    ensures { OnOk result (insts.new ≡ insts.old ++ code.far_pointer t.now v.now pointer ∷ []) }
{
    let operands = three(
        alloc,
        t.use_of(pointer),
        use_at(Width::W64, Arg::At(first_extra(&t.index, v.id))),
        def_at(Width::W64, second_extra(&t.index, v.id)),
    )?;
    push(insts, v.id, AirOp::Add, operands)
}

/// Adds both.
fn push_far_sum(
    alloc: Global,
    insts: &mut AirInsts,
    t: &Tables,
    v: &Value,
    pointer: u32,
) -> Result<(), NoMemory>
    ensures { OnOk result (insts.new ≡ insts.old ++ code.far_sum t.now v.now pointer) }
{
    push_far_offset(alloc, insts, t, v)?;
    push_far_pointer(alloc, insts, t, v, pointer)
}

/// Adds what stands before an access of so many bytes.
fn push_before(
    alloc: Global,
    insts: &mut AirInsts,
    t: &Tables,
    v: &Value,
    pointer: u32,
    bytes: u32,
) -> Result<(), NoMemory>
    requires some { 0 < bytes }
    requires most { bytes ≤ 8 }
    ensures { OnOk result (insts.new ≡ insts.old ++ code.before_access t.now v.now pointer bytes) }
{
    if t.folds(pointer) || is_offset(bytes, offset_in(&v.body)) {
        return Ok(());
    }
    push_far_sum(alloc, insts, t, v, pointer)
}

/// The address at a pointer in its home.
fn home_address(t: &Tables, v: &Value, pointer: u32, bytes: u32) -> Arg
    requires some { 0 < bytes }
    requires most { bytes ≤ 8 }
    ensures { result ≡ code.home_address t.now v.now pointer bytes }
{
    let offset = offset_in(&v.body);
    if is_offset(bytes, offset) {
        Arg::Addr {
            base: home(&t.index, pointer),
            offset,
        }
    } else {
        Arg::Addr {
            base: second_extra(&t.index, v.id),
            offset: 0,
        }
    }
}

/// The address at a base and another child of a sum: a folded one is a shift.
fn indexed(t: &Tables, base: Home, id: u32, known: Known) -> Arg
    ensures { result ≡ code.indexed_by t.now base id known }
{
    if t.folds(id) {
        Arg::Index {
            base,
            index: home(&t.index, known.first),
            shift: 3,
        }
    } else {
        Arg::Index {
            base,
            index: home(&t.index, id),
            shift: 0,
        }
    }
}

/// The address at a folded sum.
fn sum_address(t: &Tables, v: &Value, sum: Known) -> Arg
    ensures { result ≡ code.sum_address t.now v.now sum }
{
    let base = home(&t.index, sum.first);
    let second = t.index.known(sum.second);
    if is_constant(second.opcode) {
        Arg::Addr {
            base,
            offset: whole_offset(second.word, offset_in(&v.body)),
        }
    } else {
        indexed(t, base, sum.second, second)
    }
}

/// The address of an access of so many bytes.
fn address_of(t: &Tables, v: &Value, pointer: u32, bytes: u32) -> Arg
    requires some { 0 < bytes }
    requires most { bytes ≤ 8 }
    ensures { result ≡ code.address_of t.now v.now pointer bytes }
{
    if t.folds(pointer) {
        sum_address(t, v, t.index.known(pointer))
    } else {
        home_address(t, v, pointer, bytes)
    }
}

/// Adds a load.
pub(crate) fn push_load(
    alloc: Global,
    insts: &mut AirInsts,
    t: &Tables,
    v: &Value,
    op: AirOp,
    extent: Extent,
) -> Result<(), NoMemory>
    ensures { OnOk result (insts.new ≡ insts.old ++ code.load_of t.now v.now op extent) }
{
    let width = width_of(v.ty);
    let bytes = bytes_of(extent, width);
    let pointer = child(&v.children, 0);
    push_before(alloc, insts, t, v, pointer, bytes)?;
    let address = address_of(t, v, pointer, bytes);
    let operands = two(alloc, use_at(width, address), result_of(t, v))?;
    push_access(insts, v, op, operands)
}

/// Adds a store.
pub(crate) fn push_store(
    alloc: Global,
    insts: &mut AirInsts,
    t: &Tables,
    v: &Value,
    op: AirOp,
    extent: Extent,
) -> Result<(), NoMemory>
    ensures { OnOk result (insts.new ≡ insts.old ++ code.store_of t.now v.now op extent) }
{
    let stored = child(&v.children, 0);
    let width = t.index.width_at(stored);
    let bytes = bytes_of(extent, width);
    let pointer = child(&v.children, 1);
    push_before(alloc, insts, t, v, pointer, bytes)?;
    let address = address_of(t, v, pointer, bytes);
    let operands = two(alloc, t.use_of(stored), use_at(width, address))?;
    push_access(insts, v, op, operands)
}

/// Adds the address of a slot.
pub(crate) fn push_slot(
    alloc: Global,
    insts: &mut AirInsts,
    t: &Tables,
    v: &Value,
) -> Result<(), NoMemory>
    ensures { OnOk result (insts.new ≡ insts.old ++ code.slot_of t.now v.now ∷ []) }
{
    let slot = use_at(Width::W64, Arg::FrameSlot(slot_in(&v.body)));
    let operands = two(alloc, slot, result_of(t, v))?;
    push(insts, v.id, AirOp::SlotAddress, operands)
}

/// Adds the frame pointer.
pub(crate) fn push_frame_pointer(
    alloc: Global,
    insts: &mut AirInsts,
    t: &Tables,
    v: &Value,
) -> Result<(), NoMemory>
    ensures { OnOk result (insts.new ≡ insts.old ++ code.frame_of t.now v.now ∷ []) }
{
    let operands = one(alloc, result_of(t, v))?;
    push(insts, v.id, AirOp::FramePointer, operands)
}
