//! Operands by the homes that an assignment gives.

ghost use Rattle.std.specs.Prelude.{◌≡◌, ◌+◌, ◌^◌, ◌≤◌, length, map, IfOk};
ghost use Rattle.air_ir.specs.Operands.{same_home};
ghost use Rattle.air_ir.specs.Renaming.{rename, rename_arg};
ghost use Rattle.air_spill.specs.Rewritten.{home_by, is_one, kept_operands};

use air_ir::{Arg, Assignment, Home, Operand, Operands};
use b3_base::NoMemory;
use std::alloc::Global;

/// The spill places of temporaries begin here.
const FIRST_SPILL: u32 = 56;

/// The home that takes the place of a home.
fn renamed_home(home: Home, assignment: &Assignment) -> Home
    requires { length assignment.now.homes + 56 ≤ 2 ^ 32 }
    ensures { result ≡ home_by assignment.now home }
{
    match home {
        Home::Tmp(number) => {
            if number as usize >= assignment.homes.len() {
                return home;
            }
            match assignment.home(number) {
                Some(reg) => Home::Reg(reg),
                None => Home::Spill(FIRST_SPILL + number),
            }
        }
        Home::Reg(_) | Home::Spill(_) => home,
    }
}

fn renamed_arg(arg: Arg, assignment: &Assignment) -> Arg
    requires { length assignment.now.homes + 56 ≤ 2 ^ 32 }
    ensures { result ≡ rename_arg (home_by assignment.now) arg }
{
    match arg {
        Arg::At(home) => Arg::At(renamed_home(home, assignment)),
        Arg::Imm(word) => Arg::Imm(word),
        Arg::Addr { base, offset } => Arg::Addr {
            base: renamed_home(base, assignment),
            offset,
        },
        Arg::Index { base, index, shift } => Arg::Index {
            base: renamed_home(base, assignment),
            index: renamed_home(index, assignment),
            shift,
        },
        Arg::FrameSlot(number) => Arg::FrameSlot(number),
    }
}

fn renamed(operand: Operand, assignment: &Assignment) -> Operand
    requires { length assignment.now.homes + 56 ≤ 2 ^ 32 }
    ensures { result ≡ rename (home_by assignment.now) operand }
{
    Operand {
        role: operand.role,
        width: operand.width,
        arg: renamed_arg(operand.arg, assignment),
    }
}

/// Operands by other homes. It is refused for want of memory alone.
pub(crate) fn renamed_operands(
    alloc: Global,
    operands: &[Operand],
    assignment: &Assignment,
) -> Result<Operands, NoMemory>
    requires { length assignment.now.homes + 56 ≤ 2 ^ 32 }
    ensures { IfOk result (λ list. list ≡ map (rename (home_by assignment.now)) operands.now) }
{
    let mut list = Operands::new(alloc);
    for operand in operands {
        list.push(renamed(*operand, assignment))?;
    }
    Ok(list)
}

// ---- copies

fn is_same(a: Home, b: Home) -> bool
    ensures { result ≡ same_home a b }
{
    match (a, b) {
        (Home::Tmp(m), Home::Tmp(n)) => m == n,
        (Home::Reg(m), Home::Reg(n)) => m.0 == n.0,
        (Home::Spill(m), Home::Spill(n)) => m == n,
        _ => false,
    }
}

/// Whether two arguments are the same home.
fn is_one(from: Arg, to: Arg) -> bool
    ensures { result ≡ is_one from to }
{
    match (from, to) {
        (Arg::At(a), Arg::At(b)) => is_same(a, b),
        _ => false,
    }
}

/// The operands of a copy by other homes, without the pairs whose two homes have become one. It is refused for
/// want of memory alone.
pub(crate) fn kept_operands(
    alloc: Global,
    operands: &[Operand],
    assignment: &Assignment,
) -> Result<Operands, NoMemory>
    requires { length assignment.now.homes + 56 ≤ 2 ^ 32 }
    ensures { IfOk result (λ list. list ≡ kept_operands (home_by assignment.now) operands.now) }
{
    let mut list = Operands::new(alloc);
    for k in 0..operands.len() / 2 {
        let from = renamed(operands[2 * k], assignment);
        let to = renamed(operands[2 * k + 1], assignment);
        if !is_one(from.arg, to.arg) {
            list.push(from)?;
            list.push(to)?;
        }
    }
    Ok(list)
}
