//! The instructions of checked arithmetic.

ghost use Rattle.std.specs.Prelude.{◌≡◌, true, false, [], ◌∷◌, ◌++◌, map, OnOk};
ghost use Rattle.b3_base.specs.declared.word.Width.TheVariants.{W32, W64};
ghost use Rattle.b3_meaning.specs.declared.role.Checked.TheVariants.{Product};
ghost use Rattle.a64_inst.specs.declared.inst.Inst.TheVariants.{AddSubReg};
ghost use Rattle.a64_inst.specs.declared.item.Item.TheVariants.{Plain};
ghost use Rattle.a64_checked.specs.Checks.{comparing, making, passing};
ghost use Rattle.a64_checked.specs.Exact.{ChecksAreExact};

use a64_inst::{Cond, Inst, Item, Labelled, LogicOp};
use b3_base::{NoMemory, Width};
use b3_meaning::Checked;

fn push(code: &mut Labelled, inst: Inst) -> Result<(), NoMemory>
    ensures { OnOk result (code.new ≡ code.old ++ map Plain (inst ∷ [])) }
{
    code.push(Item::Plain(inst))
}

/// ADD or SUB of registers, with flags or without them.
fn sum(width: Width, sub: bool, flags: bool, rd: u8, a: u8, b: u8) -> Inst
    ensures { result ≡ AddSubReg width sub flags rd a b 0 0 }
{
    Inst::AddSubReg {
        width,
        sub,
        flags,
        rd,
        rn: a,
        rm: b,
        shift: 0,
        amount: 0,
    }
}

/// A product of 32 bits is made in 64 in x17, and compared with its low half, which is put in x16 with its sign above.
#[tactic(auto, unfolding(crate::specs::Checks::comparing))]
fn push_narrow_product(code: &mut Labelled, a: u8, b: u8) -> Result<(), NoMemory>
    ensures { OnOk result (code.new ≡ code.old ++ map Plain (comparing Product W32 a b)) }
{
    push(
        code,
        Inst::MulLong {
            rd: 17,
            rn: a,
            rm: b,
            ra: 31,
        },
    )?;
    push(
        code,
        Inst::BitField {
            width: Width::W64,
            signed: true,
            rd: 16,
            rn: 17,
            immr: 0,
            imms: 31,
        },
    )?;
    push(code, sum(Width::W64, true, true, 31, 17, 16))
}

/// The high word of a product is made in x17, and compared with the sign of the low word, which is made in x16.
#[tactic(auto, unfolding(crate::specs::Checks::comparing))]
fn push_wide_product(code: &mut Labelled, a: u8, b: u8) -> Result<(), NoMemory>
    ensures { OnOk result (code.new ≡ code.old ++ map Plain (comparing Product W64 a b)) }
{
    push(
        code,
        Inst::MulHigh {
            signed: true,
            rd: 17,
            rn: a,
            rm: b,
        },
    )?;
    push(
        code,
        Inst::MulAdd {
            width: Width::W64,
            sub: false,
            rd: 16,
            rn: a,
            rm: b,
            ra: 31,
        },
    )?;
    push(
        code,
        Inst::AddSubReg {
            width: Width::W64,
            sub: true,
            flags: true,
            rd: 31,
            rn: 17,
            rm: 16,
            shift: 2,
            amount: 63,
        },
    )
}

/// The instructions that set the flags of a checked result of registers `a` and `b` (x0 to x30, but not x17).
/// Those of a product write x16 and x17.
#[tactic(auto, unfolding(crate::specs::Checks::comparing))]
pub fn push_comparing(
    code: &mut Labelled,
    kind: Checked,
    width: Width,
    a: u8,
    b: u8,
) -> Result<(), NoMemory>
    ensures { OnOk result (code.new ≡ code.old ++ map Plain (comparing kind width a b)) }
{
    match (kind, width) {
        (Checked::Sum, _) => push(code, sum(width, false, true, 31, a, b)),
        (Checked::Difference, _) => push(code, sum(width, true, true, 31, a, b)),
        (Checked::Product, Width::W32) => push_narrow_product(code, a, b),
        (Checked::Product, Width::W64) => push_wide_product(code, a, b),
    }
}

/// The condition of these flags that holds where the result passes its width.
pub fn passing(kind: Checked) -> Cond
    ensures { result ≡ passing kind }
{
    match kind {
        Checked::Sum | Checked::Difference => Cond::Vs,
        Checked::Product => Cond::Ne,
    }
}

/// The instruction that puts the result in register `rd` (x0 to x30), once it is compared and is in the width.
#[tactic(auto, unfolding(crate::specs::Checks::making))]
pub fn push_making(
    code: &mut Labelled,
    kind: Checked,
    width: Width,
    rd: u8,
    a: u8,
    b: u8,
) -> Result<(), NoMemory>
    ensures { OnOk result (code.new ≡ code.old ++ map Plain (making kind width rd a b)) }
{
    let inst = match kind {
        Checked::Sum => sum(width, false, false, rd, a, b),
        Checked::Difference => sum(width, true, false, rd, a, b),
        Checked::Product => Inst::LogicReg {
            width,
            op: LogicOp::Orr,
            invert: false,
            rd,
            rn: 31,
            rm: 16,
            shift: 0,
            amount: 0,
        },
    };
    push(code, inst)
}

/// Tells that the flags say exactly where a signed result passes its width, and that it is made where it doesn't. It
/// takes no memory.
pub fn checks_are_exact()
    ensures { ChecksAreExact }
{}
