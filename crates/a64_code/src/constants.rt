//! Words put in registers, half-word by half-word.

ghost use Rattle.std.specs.Prelude.{◌≡◌, ℕ, suc, ◌+◌, ◌++◌, ◌<◌, ◌≤◌, false, [], ◌∷◌, nat_eq, if◌then◌else◌, IfOk, OnOk};
ghost use Rattle.a64_code.specs.Constants.{constant, filling, half_count, half_move, half_moves, half_word, halves_like, is_inverted};
ghost use Rattle.a64_code.specs.Places.{plains};

use crate::places::push;
use a64_inst::{Inst, Labelled, MoveOp};
use b3_base::{NoMemory, Width};

/// Half-word `hw` of a word, of which there are four.
fn half_word(word: u64, hw: u32) -> u32
    requires { hw < 4 }
    ensures { result ≡ half_word word hw }
{
    (word >> (16 * hw) & 0xffff) as u32
}

fn half_count(width: Width) -> u32
    ensures value { result ≡ half_count width }
    ensures most { result ≤ 4 }
{
    match width {
        Width::W32 => 2,
        Width::W64 => 4,
    }
}

fn filling(inverted: bool) -> u32
    ensures value { result ≡ filling inverted }
    ensures most { result ≤ 65535 }
{
    if inverted { 0xffff } else { 0 }
}

fn half_move(width: Width, inverted: bool, started: bool, reg: u8, half: u32, hw: u32) -> Inst
    requires { half ≤ 65535 }
    ensures { result ≡ half_move width inverted started reg half hw }
{
    let (op, imm16) = match (started, inverted) {
        (true, _) => (MoveOp::Movk, half),
        (false, true) => (MoveOp::Movn, 0xffff - half),
        (false, false) => (MoveOp::Movz, half),
    };
    Inst::MoveWide {
        width,
        op,
        rd: reg,
        imm16,
        hw,
    }
}

/// 1 where half-word `hw` is this one, else 0.
fn is_like(word: u64, half: u32, hw: u32) -> u32
    requires { hw < 4 }
    ensures value { result ≡ (if nat_eq (half_word word hw) half then 1 else 0) }
    ensures most { result ≤ 1 }
{
    if half_word(word, hw) == half { 1 } else { 0 }
}

/// How many of the first `count` half-words are this one.
fn halves_like(word: u64, half: u32, count: u32) -> u32
    requires { count ≤ 4 }
    ensures value { result ≡ halves_like word half count }
    ensures most { result ≤ count }
{
    let mut alike = 0;
    for hw in 0..count {
        alike += is_like(word, half, hw);
    }
    alike
}

/// Whether a constant is put with ones in the half-words that aren't put.
fn is_inverted(width: Width, word: u64) -> bool
    ensures { result ≡ is_inverted width word }
{
    let count = half_count(width);
    halves_like(word, 0, count) < halves_like(word, 0xffff, count)
}

/// A word of a width is put in a register, by as few half-words as can be. It is refused for want of memory alone.
#[tactic(auto, unfolding(crate::specs::Constants::constant))]
pub fn push_constant(code: &mut Labelled, width: Width, reg: u8, word: u64) -> Result<(), NoMemory>
    ensures { OnOk result (code.new ≡ code.old ++ plains (constant width reg word)) }
{
    push_halves(code, width, is_inverted(width, word), reg, word)
}

/// Half-word `hw` of a word is put where it isn't the filling. Whether some half-word was put, up to this one.
fn push_half(
    code: &mut Labelled,
    width: Width,
    inverted: bool,
    started: bool,
    reg: u8,
    word: u64,
    hw: u32,
) -> Result<bool, NoMemory>
    requires { hw < 4 }
    ensures { IfOk result (λ now. (n : ℕ) → code.old ++ plains (half_moves width inverted reg word started (suc n) hw)
        ≡ code.new ++ plains (half_moves width inverted reg word now n (hw + 1))) }
{
    let half = half_word(word, hw);
    if half == filling(inverted) {
        return Ok(started);
    }
    push(code, half_move(width, inverted, started, reg, half, hw))?;
    Ok(true)
}

/// The filling is put where no half-word was.
fn push_filling(
    code: &mut Labelled,
    width: Width,
    inverted: bool,
    started: bool,
    reg: u8,
) -> Result<(), NoMemory>
    ensures { OnOk result (code.new ≡ code.old
        ++ plains (if started then [] else half_move width inverted false reg (filling inverted) 0 ∷ [])) }
{
    if started {
        return Ok(());
    }
    push(
        code,
        half_move(width, inverted, false, reg, filling(inverted), 0),
    )
}

/// The half-words of a word that aren't the filling.
fn push_halves(
    code: &mut Labelled,
    width: Width,
    inverted: bool,
    reg: u8,
    word: u64,
) -> Result<(), NoMemory>
    ensures { OnOk result (code.new ≡ code.old
        ++ plains (half_moves width inverted reg word false (half_count width) 0)) }
{
    let mut started = false;
    for hw in 0..half_count(width) {
        started = push_half(code, width, inverted, started, reg, word, hw)?;
    }
    push_filling(code, width, inverted, started, reg)?;
    Ok(())
}
