//! Words of the frame, and how a procedure is entered and left.

ghost use Rattle.std.specs.Prelude.{◌≡◌, ◌++◌, [], ◌∷◌, false, OnOk};
ghost use Rattle.b3_base.specs.declared.word.Width.TheVariants.{W64};
ghost use Rattle.a64_inst.specs.declared.inst.Inst.TheVariants.{AddSubImm};
ghost use Rattle.a64_inst.specs.declared.item.Item.TheVariants.{Plain};
ghost use Rattle.a64_code.specs.Places.{above_sp, epilogue, leave, load_at, lower_sp, plains, prologue, restores, saves, spill_offset, store_at};

use a64_inst::{AccessKind, BranchKind, Inst, Item, Labelled};
use air_ir::Frame;
use b3_base::{NoMemory, Width};

/// Adds an instruction to code. It is refused for want of memory alone.
pub fn push(code: &mut Labelled, inst: Inst) -> Result<(), NoMemory>
    ensures { OnOk result (code.new ≡ code.old ++ Plain inst ∷ []) }
{
    code.push(Item::Plain(inst))
}

/// How many bytes above SP a word stands that is `offset` bytes below x29.
pub fn above_sp(frame: &Frame, offset: u32) -> u32
    ensures { result ≡ above_sp frame.now offset }
{
    frame.bytes.saturating_sub(16).saturating_sub(offset)
}

/// How many bytes below x29 a spill place stands; 0 where it has no place.
pub fn spill_offset(frame: &Frame, number: u32) -> u32
    ensures { result ≡ spill_offset frame.now number }
{
    if (number as usize) < frame.spills.len() {
        return *frame.spills.get(number as usize);
    }
    0
}

/// ADD or SUB of 64 bits, where `sub`, with up to 12 bits, times 4096 where `high`.
pub fn move_address(rd: u8, rn: u8, sub: bool, imm12: u32, high: bool) -> Inst
    ensures { result ≡ AddSubImm W64 sub false rd rn imm12 high }
{
    Inst::AddSubImm {
        width: Width::W64,
        sub,
        flags: false,
        rd,
        rn,
        imm12,
        high,
    }
}

/// The word `bytes` bytes above SP, a multiple of 8, is loaded into a register, by one instruction or, where it is
/// far, two. It is refused for want of memory alone.
#[tactic(auto, unfolding(crate::specs::Places::load_at))]
pub fn push_load(code: &mut Labelled, reg: u8, bytes: u32) -> Result<(), NoMemory>
    ensures { OnOk result (code.new ≡ code.old ++ plains (load_at reg bytes)) }
{
    if bytes <= 32760 {
        return push(
            code,
            Inst::Access {
                kind: AccessKind::LdrX,
                rt: reg,
                rn: 31,
                units: bytes / 8,
            },
        );
    }
    push(code, move_address(reg, 31, false, bytes / 4096, true))?;
    push(
        code,
        Inst::Access {
            kind: AccessKind::LdrX,
            rt: reg,
            rn: reg,
            units: bytes % 4096 / 8,
        },
    )
}

/// A register is stored `bytes` bytes above SP, a multiple of 8. Where the word is far, x15 takes its address. It is
/// refused for want of memory alone.
#[tactic(auto, unfolding(crate::specs::Places::store_at))]
pub fn push_store(code: &mut Labelled, reg: u8, bytes: u32) -> Result<(), NoMemory>
    ensures { OnOk result (code.new ≡ code.old ++ plains (store_at reg bytes)) }
{
    if bytes <= 32760 {
        return push(
            code,
            Inst::Access {
                kind: AccessKind::StrX,
                rt: reg,
                rn: 31,
                units: bytes / 8,
            },
        );
    }
    push(code, move_address(15, 31, false, bytes / 4096, true))?;
    push(
        code,
        Inst::Access {
            kind: AccessKind::StrX,
            rt: reg,
            rn: 15,
            units: bytes % 4096 / 8,
        },
    )
}

/// SP falls by so many bytes.
#[tactic(auto, unfolding(crate::specs::Places::lower_sp))]
fn push_lower_sp(code: &mut Labelled, bytes: u32) -> Result<(), NoMemory>
    ensures { OnOk result (code.new ≡ code.old ++ plains (lower_sp bytes)) }
{
    if bytes / 4096 != 0 {
        push(code, move_address(31, 31, true, bytes / 4096, true))?;
    }
    if bytes % 4096 != 0 {
        push(code, move_address(31, 31, true, bytes % 4096, false))?;
    }
    Ok(())
}

/// The frame's registers are saved.
fn push_saves(code: &mut Labelled, frame: &Frame) -> Result<(), NoMemory>
    ensures { OnOk result (code.new ≡ code.old ++ plains (saves frame.now frame.now.saved)) }
{
    for row in frame.saved.as_slice() {
        push_store(code, row.reg.0, above_sp(frame, row.offset))?;
    }
    Ok(())
}

/// The frame's registers are restored.
fn push_restores(code: &mut Labelled, frame: &Frame) -> Result<(), NoMemory>
    ensures { OnOk result (code.new ≡ code.old ++ plains (restores frame.now frame.now.saved)) }
{
    for row in frame.saved.as_slice() {
        push_load(code, row.reg.0, above_sp(frame, row.offset))?;
    }
    Ok(())
}

/// What a procedure does first: x29, x30 and the frame's registers are saved, and SP falls to the bottom of the
/// frame. It is refused for want of memory alone.
#[tactic(auto, unfolding(crate::specs::Places::prologue))]
pub fn push_prologue(code: &mut Labelled, frame: &Frame) -> Result<(), NoMemory>
    ensures { OnOk result (code.new ≡ code.old ++ plains (prologue frame.now)) }
{
    push(
        code,
        Inst::PairSp {
            load: false,
            rt: 29,
            rt2: 30,
            units: -2,
        },
    )?;
    push(code, move_address(29, 31, false, 0, false))?;
    push_lower_sp(code, frame.bytes.saturating_sub(16))?;
    push_saves(code, frame)
}

/// What a procedure does last: registers are restored, the frame is left, and the procedure returns. It is refused
/// for want of memory alone.
#[tactic(auto, unfolding(crate::specs::Places::epilogue))]
pub fn push_epilogue(code: &mut Labelled, frame: &Frame) -> Result<(), NoMemory>
    ensures { OnOk result (code.new ≡ code.old ++ plains (epilogue frame.now)) }
{
    push_restores(code, frame)?;
    push(code, move_address(31, 29, false, 0, false))?;
    push(
        code,
        Inst::PairSp {
            load: true,
            rt: 29,
            rt2: 30,
            units: 2,
        },
    )?;
    push(
        code,
        Inst::BranchReg {
            kind: BranchKind::Ret,
            rn: 30,
        },
    )
}
