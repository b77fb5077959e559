//! Loads and stores, and addresses in the frame.

ghost use Rattle.std.specs.Prelude.{◌≡◌, ◌++◌, OnOk};
ghost use Rattle.a64_code.specs.Accesses.{access_kind, offset_access};
ghost use Rattle.a64_emit.specs.Code.{access_inst, fetch_address, frame_address, load_items, slot_offset, store_items};
ghost use Rattle.a64_emit.specs.Fitting.{IsLoaded, IsReached, IsStored};
ghost use Rattle.a64_code.specs.Places.{plains};

use crate::insts::{operand_at, push_fetch, push_result, result_reg, source_of};
use crate::sites::push_mark;
use crate::terminals::target_at;
use a64_code::{access_kind, offset_access, push, push_below, reg_of};
use a64_inst::{AccessKind, Inst, Labelled};
use air_ir::{AirOp, Arg, Frame, Operands};
use b3_base::NoMemory;

/// An access of a register at an address whose homes were fetched.
fn access_inst(kind: AccessKind, rt: u8, address: Arg) -> Inst
    requires { IsReached kind address }
    ensures { result ≡ access_inst kind rt address }
{
    match address {
        Arg::Addr { base, offset } => {
            let rn = reg_of(source_of(15, Arg::At(base)));
            offset_access(kind, rt, rn, offset)
        }
        Arg::Index { base, index, shift } => Inst::AccessIndex {
            load: !matches!(
                kind,
                AccessKind::Strb | AccessKind::Strh | AccessKind::StrW | AccessKind::StrX
            ),
            rt,
            rn: reg_of(source_of(15, Arg::At(base))),
            rm: reg_of(source_of(16, Arg::At(index))),
            scaled: shift == 3,
        },
        _ => Inst::Nop,
    }
}

/// The homes of an address are fetched.
#[tactic(auto, unfolding(crate::specs::Code::fetch_address))]
fn push_fetch_address(code: &mut Labelled, frame: &Frame, address: Arg) -> Result<(), NoMemory>
    ensures { OnOk result (code.new ≡ code.old ++ plains (fetch_address frame.now address)) }
{
    match address {
        Arg::Addr { base, .. } => push_fetch(code, frame, 15, Arg::At(base)),
        Arg::Index { base, index, .. } => {
            push_fetch(code, frame, 15, Arg::At(base))?;
            push_fetch(code, frame, 16, Arg::At(index))
        }
        _ => Ok(()),
    }
}

/// A load, and its result is put in its place. Where it traps a mark stands right before it.
pub(crate) fn push_loaded(
    code: &mut Labelled,
    frame: &Frame,
    mark: u32,
    traps: bool,
    op: &AirOp,
    operands: &Operands,
) -> Result<(), NoMemory>
    requires { IsLoaded op.now operands.now }
    ensures { OnOk result (code.new ≡ code.old ++ load_items frame.now mark traps op.now operands.now) }
{
    let address = operand_at(operands, 0);
    let to = operand_at(operands, 1).arg;
    push_fetch_address(code, frame, address.arg)?;
    push_mark(code, traps, mark)?;
    let kind = access_kind(op, address.width);
    push(code, access_inst(kind, result_reg(to), address.arg))?;
    push_result(code, frame, result_reg(to), to)
}

/// A store. Where it traps a mark stands right before it.
pub(crate) fn push_stored(
    code: &mut Labelled,
    frame: &Frame,
    mark: u32,
    traps: bool,
    op: &AirOp,
    operands: &Operands,
) -> Result<(), NoMemory>
    requires { IsStored op.now operands.now }
    ensures { OnOk result (code.new ≡ code.old ++ store_items frame.now mark traps op.now operands.now) }
{
    let word = operand_at(operands, 0);
    let address = operand_at(operands, 1).arg;
    push_fetch_address(code, frame, address)?;
    push_fetch(code, frame, 17, word.arg)?;
    push_mark(code, traps, mark)?;
    let kind = access_kind(op, word.width);
    push(
        code,
        access_inst(kind, reg_of(source_of(17, word.arg)), address),
    )
}

/// How far below x29 a slot stands.
pub(crate) fn slot_offset(frame: &Frame, slot: Arg) -> u32
    ensures { result ≡ slot_offset frame.now slot }
{
    match slot {
        Arg::FrameSlot(number) => target_at(&frame.slots, number as usize),
        _ => 0,
    }
}

/// The address so many bytes below x29 is put in a place.
pub(crate) fn push_frame_address(
    code: &mut Labelled,
    frame: &Frame,
    bytes: u32,
    to: Arg,
) -> Result<(), NoMemory>
    ensures { OnOk result (code.new ≡ code.old ++ plains (frame_address frame.now bytes to)) }
{
    push_below(code, result_reg(to), bytes)?;
    push_result(code, frame, result_reg(to), to)
}
