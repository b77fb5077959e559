//! The instruction of an op on registers and constants, and that of a test.

ghost use Rattle.std.specs.Prelude.{◌≡◌, ◌-◌, ◌^◌, ◌<◌, ◌≤◌, true};
ghost use Rattle.b3_base.specs.Word.{bits};
ghost use Rattle.air_ir.specs.Forms.{is_short, IsImmediate, OfSum, OfLogic};
ghost use Rattle.b3_base.specs.MaskFields.{fields_of_mask};
ghost use Rattle.a64_inst.specs.StepData.{shift_of};
ghost use Rattle.a64_inst.specs.declared.inst.Inst.TheVariants.{AddSubReg, BitField, Divide, MulAdd};
ghost use Rattle.a64_layout.specs.Branch.{opposite_cond};
ghost use Rattle.a64_code.specs.Computing.{computing, condition, logic_by, logic_with, move_reg, move_shifted, reg_of, shift_by, short_sum, sum_by, sum_with, takes_two, testing, is_sum_word};
ghost use Rattle.a64_code.specs.Fitting.{IsComputed, IsSummed, IsMasked, IsTested};

use crate::source::Source;
use a64_inst::{Cond, Inst, LogicOp, ShiftKind};
use air_ir::{AirOp, Test};
use b3_base::{Width, bit_mask_from};

/// The register of a source; ZR for a constant.
pub fn reg_of(source: Source) -> u8
    ensures { result ≡ reg_of source }
{
    match source {
        Source::InReg(reg) => reg,
        Source::Constant(_) => 31,
    }
}

fn is_short(word: u64) -> bool
    ensures { result ≡ is_short word }
{
    word <= 4095 || word % 4096 == 0 && word <= 4095 * 4096
}

/// ADD or SUB with a short word.
fn short_sum(width: Width, sub: bool, flags: bool, rd: u8, rn: u8, short: u64) -> Inst
    requires { is_short short ≡ true }
    ensures { result ≡ short_sum width sub flags rd rn short }
{
    let (imm12, high) = if short <= 4095 {
        (short as u32, false)
    } else {
        ((short / 4096) as u32, true)
    };
    Inst::AddSubImm {
        width,
        sub,
        flags,
        rd,
        rn,
        imm12,
        high,
    }
}

/// How many numbers a width has, less a word of it that isn't 0.
fn less_word(width: Width, word: u64) -> u64
    requires some { 0 < word }
    requires small { word < 2 ^ bits width }
    ensures { result ≡ 2 ^ bits width - word }
{
    match width {
        Width::W32 => 0x1_0000_0000 - word,
        Width::W64 => u64::MAX - word + 1,
    }
}

/// ADD or SUB with a word, by the other one of them where the word isn't short.
pub fn sum_with(width: Width, sub: bool, flags: bool, rd: u8, rn: u8, word: u64) -> Inst
    requires small { word < 2 ^ bits width }
    requires fits { IsImmediate OfSum width word }
    ensures { result ≡ sum_with width sub flags rd rn word }
{
    if is_short(word) {
        short_sum(width, sub, flags, rd, rn, word)
    } else {
        short_sum(width, !sub, flags, rd, rn, less_word(width, word))
    }
}

/// Whether a word of a width is an immediate of a difference, or of a sum.
pub fn is_sum_word(width: Width, word: u64) -> bool
    requires { word < 2 ^ bits width }
    ensures { result ≡ is_sum_word width word }
{
    is_short(word) || is_short(less_word(width, word))
}

fn sum_by(width: Width, sub: bool, flags: bool, rd: u8, rn: u8, by: Source) -> Inst
    requires { IsSummed width by }
    ensures { result ≡ sum_by width sub flags rd rn by }
{
    match by {
        Source::InReg(rm) => difference(width, sub, flags, rd, rn, rm, 0),
        Source::Constant(word) => sum_with(width, sub, flags, rd, rn, word),
    }
}

/// ADD or SUB of registers, the second shifted left by a number of bits.
fn difference(width: Width, sub: bool, flags: bool, rd: u8, rn: u8, rm: u8, amount: u32) -> Inst
    ensures { result ≡ AddSubReg width sub flags rd rn rm 0 amount }
{
    Inst::AddSubReg {
        width,
        sub,
        flags,
        rd,
        rn,
        rm,
        shift: 0,
        amount,
    }
}

fn logic_by(width: Width, op: LogicOp, rd: u8, rn: u8, by: Source) -> Inst
    requires { IsMasked width by }
    ensures { result ≡ logic_by width op rd rn by }
{
    match by {
        Source::InReg(rm) => Inst::LogicReg {
            width,
            op,
            invert: false,
            rd,
            rn,
            rm,
            shift: 0,
            amount: 0,
        },
        Source::Constant(word) => mask_inst(width, op, rd, rn, word),
    }
}

/// AND, ORR or EOR with a mask.
fn mask_inst(width: Width, op: LogicOp, rd: u8, rn: u8, word: u64) -> Inst
    requires { IsImmediate OfLogic width word }
    ensures { result ≡ logic_with width op rd rn (fields_of_mask width word) }
{
    match bit_mask_from(width, word) {
        Some((n, immr, imms)) => Inst::LogicImm {
            width,
            op,
            rd,
            rn,
            n,
            immr,
            imms,
        },
        None => Inst::Nop,
    }
}

/// A register is moved, shifted by a number of bits.
fn move_shifted(width: Width, rd: u8, rm: u8, shift: u32, amount: u32) -> Inst
    ensures { result ≡ move_shifted width rd rm shift amount }
{
    Inst::LogicReg {
        width,
        op: LogicOp::Orr,
        invert: false,
        rd,
        rn: 31,
        rm,
        shift,
        amount,
    }
}

/// A register is moved: its low 32 bits, with zeros above, or all 64.
pub fn move_reg(width: Width, rd: u8, rm: u8) -> Inst
    ensures { result ≡ move_reg width rd rm }
{
    move_shifted(width, rd, rm, 0, 0)
}

fn bits(width: Width) -> u32
    ensures { result ≡ bits width }
{
    match width {
        Width::W32 => 32,
        Width::W64 => 64,
    }
}

fn shift_of(kind: ShiftKind) -> u32
    ensures { result ≡ shift_of kind }
{
    match kind {
        ShiftKind::Lslv => 0,
        ShiftKind::Lsrv => 1,
        ShiftKind::Asrv => 2,
        ShiftKind::Rorv => 3,
    }
}

fn shift_by(width: Width, kind: ShiftKind, rd: u8, rn: u8, by: Source) -> Inst
    ensures { result ≡ shift_by width kind rd rn by }
{
    match by {
        Source::InReg(rm) => Inst::ShiftReg {
            width,
            kind,
            rd,
            rn,
            rm,
        },
        Source::Constant(word) => {
            let amount = (word % bits(width) as u64) as u32;
            move_shifted(width, rd, rn, shift_of(kind), amount)
        }
    }
}

fn multiply(width: Width, sub: bool, rd: u8, rn: u8, rm: u8, ra: u8) -> Inst
    ensures { result ≡ MulAdd width sub rd rn rm ra }
{
    Inst::MulAdd {
        width,
        sub,
        rd,
        rn,
        rm,
        ra,
    }
}

fn divide(width: Width, signed: bool, rd: u8, rn: u8, rm: u8) -> Inst
    ensures { result ≡ Divide width signed rd rn rm }
{
    Inst::Divide {
        width,
        signed,
        rd,
        rn,
        rm,
    }
}

/// The low bits of a register, up to bit `last`, with their sign above.
fn extend(width: Width, rd: u8, rn: u8, last: u32) -> Inst
    ensures { result ≡ BitField width true rd rn 0 last }
{
    Inst::BitField {
        width,
        signed: true,
        rd,
        rn,
        immr: 0,
        imms: last,
    }
}

/// The instruction of an op that computes, of up to three sources, at a width, into `rd`. A constant may stand second
/// alone.
#[tactic(auto, unfolding(crate::specs::Computing::computing))]
pub fn computing(op: &AirOp, width: Width, rd: u8, a: Source, b: Source, c: Source) -> Inst
    requires { IsComputed op.now width b }
    ensures { result ≡ computing op.now width rd a b c }
{
    let (ra, rb) = (reg_of(a), reg_of(b));
    match op {
        AirOp::Add => sum_by(width, false, false, rd, ra, b),
        AirOp::Sub => difference(width, true, false, rd, ra, rb, 0),
        AirOp::Neg => difference(width, true, false, rd, 31, ra, 0),
        AirOp::Mul => multiply(width, false, rd, ra, rb, 31),
        AirOp::MulSub => multiply(width, true, rd, ra, rb, reg_of(c)),
        AirOp::Div => divide(width, true, rd, ra, rb),
        AirOp::UDiv => divide(width, false, rd, ra, rb),
        AirOp::And => logic_by(width, LogicOp::And, rd, ra, b),
        AirOp::Or => logic_by(width, LogicOp::Orr, rd, ra, b),
        AirOp::Xor => logic_by(width, LogicOp::Eor, rd, ra, b),
        AirOp::Lsl => shift_by(width, ShiftKind::Lslv, rd, ra, b),
        AirOp::Lsr => shift_by(width, ShiftKind::Lsrv, rd, ra, b),
        AirOp::Asr => shift_by(width, ShiftKind::Asrv, rd, ra, b),
        AirOp::Ror => shift_by(width, ShiftKind::Rorv, rd, ra, b),
        AirOp::Clz => Inst::CountZeros { width, rd, rn: ra },
        AirOp::SExt8 => extend(Width::W32, rd, ra, 7),
        AirOp::SExt16 => extend(Width::W32, rd, ra, 15),
        AirOp::SExt32 => extend(Width::W64, rd, ra, 31),
        AirOp::ZExt32 => move_reg(Width::W32, rd, ra),
        AirOp::MulHigh => Inst::MulHigh {
            signed: true,
            rd,
            rn: ra,
            rm: rb,
        },
        AirOp::UMulHigh => Inst::MulHigh {
            signed: false,
            rd,
            rn: ra,
            rm: rb,
        },
        _ => Inst::Nop,
    }
}

/// Whether a test takes two words.
pub fn takes_two(test: Test) -> bool
    ensures { result ≡ takes_two test }
{
    matches!(test, Test::Compare(_))
}

/// The instruction that sets the flags of a test of one source or two.
#[tactic(auto, unfolding(crate::specs::Computing::testing))]
pub fn testing(test: Test, width: Width, a: Source, b: Source) -> Inst
    requires { IsTested test width b }
    ensures { result ≡ testing test width a b }
{
    match test {
        Test::Compare(_) => sum_by(width, true, true, 31, reg_of(a), b),
        Test::NonZero => short_sum(width, true, true, 31, reg_of(a), 0),
        Test::Bit(bit) => difference(width, false, true, 31, 31, reg_of(a), bits(width) - 1 - bit),
    }
}

/// The condition of these flags that holds where the test passes.
pub fn condition(test: Test) -> Cond
    ensures { result ≡ condition test }
{
    match test {
        Test::Compare(cond) => cond,
        Test::NonZero => Cond::Ne,
        Test::Bit(_) => Cond::Mi,
    }
}

/// The condition that holds exactly where this one doesn't.
pub fn opposite(cond: Cond) -> Cond
    ensures { result ≡ opposite_cond cond }
{
    match cond {
        Cond::Eq => Cond::Ne,
        Cond::Ne => Cond::Eq,
        Cond::Hs => Cond::Lo,
        Cond::Lo => Cond::Hs,
        Cond::Mi => Cond::Pl,
        Cond::Pl => Cond::Mi,
        Cond::Vs => Cond::Vc,
        Cond::Vc => Cond::Vs,
        Cond::Hi => Cond::Ls,
        Cond::Ls => Cond::Hi,
        Cond::Ge => Cond::Lt,
        Cond::Lt => Cond::Ge,
        Cond::Gt => Cond::Le,
        Cond::Le => Cond::Gt,
    }
}
