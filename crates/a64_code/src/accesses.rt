//! Which instruction a load or a store is, and addresses below x29.

ghost use Rattle.std.specs.Prelude.{◌≡◌, ◌++◌, ◌≤◌, true, OnOk};
ghost use Rattle.air_ir.specs.Forms.{is_offset};
ghost use Rattle.a64_inst.specs.StepMemory as step;
ghost use Rattle.a64_code.specs.Accesses.{access_kind, below_x29, offset_access};
ghost use Rattle.a64_code.specs.Places.{plains};

use crate::places::{move_address, push};
use a64_inst::{AccessKind, Inst, Labelled};
use air_ir::AirOp;
use b3_base::{NoMemory, Width};

/// Which access a load or a store of a width is.
pub fn access_kind(op: &AirOp, width: Width) -> AccessKind
    ensures { result ≡ access_kind op.now width }
{
    match (op, width) {
        (AirOp::Load8Z, _) => AccessKind::Ldrb,
        (AirOp::Load8S, _) => AccessKind::Ldrsb,
        (AirOp::Load16Z, _) => AccessKind::Ldrh,
        (AirOp::Load16S, _) => AccessKind::Ldrsh,
        (AirOp::Load, Width::W32) => AccessKind::LdrW,
        (AirOp::Load, Width::W64) => AccessKind::LdrX,
        (AirOp::Store8, _) => AccessKind::Strb,
        (AirOp::Store16, _) => AccessKind::Strh,
        (AirOp::Store, Width::W32) => AccessKind::StrW,
        _ => AccessKind::StrX,
    }
}

/// The bytes of an access.
fn access_bytes(kind: AccessKind) -> u64
    ensures value { result ≡ step.access_bytes kind }
    ensures some { 1 ≤ result }
    ensures most { result ≤ 8 }
{
    match kind {
        AccessKind::Strb | AccessKind::Ldrb | AccessKind::Ldrsb => 1,
        AccessKind::Strh | AccessKind::Ldrh | AccessKind::Ldrsh => 2,
        AccessKind::StrW | AccessKind::LdrW => 4,
        AccessKind::StrX | AccessKind::LdrX => 8,
    }
}

/// An access at a number of bytes above a register: a multiple of its size in 12 bits is scaled, and another offset is
/// one of -256 to 255.
pub fn offset_access(kind: AccessKind, rt: u8, rn: u8, offset: i64) -> Inst
    requires { is_offset (step.access_bytes kind) offset ≡ true }
    ensures { result ≡ offset_access kind rt rn offset }
{
    let bytes = access_bytes(kind);
    let above = offset.cast_unsigned();
    if above % bytes == 0 && above <= 4095 * bytes {
        return Inst::Access {
            kind,
            rt,
            rn,
            units: (above / bytes) as u32,
        };
    }
    Inst::AccessNear {
        kind,
        rt,
        rn,
        offset: offset as i32,
    }
}

/// The address so many bytes, a number of 24 bits, below x29, in a register. It is refused for want of memory alone.
#[tactic(auto, unfolding(crate::specs::Accesses::below_x29))]
pub fn push_below(code: &mut Labelled, reg: u8, bytes: u32) -> Result<(), NoMemory>
    ensures { OnOk result (code.new ≡ code.old ++ plains (below_x29 reg bytes)) }
{
    if bytes <= 4095 {
        return push(code, move_address(reg, 29, true, bytes, false));
    }
    push(code, move_address(reg, 29, true, bytes / 4096 % 4096, true))?;
    if bytes % 4096 != 0 {
        push(code, move_address(reg, reg, true, bytes % 4096, false))?;
    }
    Ok(())
}
