//! Registers that a procedure keeps (AAPCS64, 6.1.1), and whether it has come back.

ghost use Rattle.std.specs.Prelude.{◌≡◌, ◌<◌};
ghost use Rattle.a64_inst.specs.Registers.{registers_of};
ghost use Rattle.a64_run.specs.Kept.{entry_of, state_of};
ghost use Rattle.a64_run.specs.Machine as spec;

use crate::entry::{Entry, State};
use a64_inst::State as Registers;
use b3_base::{Width, low};
use stackmap::{Returns, SavedRow};

/// Whether x19 to x29 have the words that they had at entry.
fn keeps_registers(e: &Entry<'_>, registers: &Registers) -> bool
    ensures { result ≡ spec.keeps_registers (entry_of e.now) (registers_of registers.now) 11 }
{
    let mut kept = true;
    for i in 0..11usize {
        kept = kept && registers.x[19 + i] == e.start.registers[19 + i];
    }
    kept
}

/// Where a frame saves a register, in bytes below x29.
fn saved_at(saved: &[SavedRow], r: u8) -> Option<u32>
    ensures { result ≡ spec.saved_at saved.now r }
{
    for row in saved {
        if row.reg.0 == r {
            return Some(row.offset);
        }
    }
    None
}

/// Whether the entry word of a register stands in its saved place or, where it has none, still in the
/// register.
fn keeps(e: &Entry<'_>, st: &State<'_>, r: u8) -> bool
    requires { r < 31 }
    ensures { result ≡ spec.keeps_at (entry_of e.now) (state_of st.now) r (spec.saved_at e.now.frame.now.saved r) }
{
    let wanted = e.start.registers[r as usize];
    match saved_at(e.frame.saved.as_slice(), r) {
        Some(offset) => {
            let address = e
                .start
                .sp
                .saturating_sub(16)
                .saturating_sub(u64::from(offset));
            match st.memory.read(address, 8) {
                Some(word) => word == wanted,
                None => false,
            }
        }
        None => st.registers.x[r as usize] == wanted,
    }
}

/// Whether this is so for x19 to x28.
pub(crate) fn keeps_saved(e: &Entry<'_>, st: &State<'_>) -> bool
    ensures { result ≡ spec.keeps_saved (entry_of e.now) (state_of st.now) }
{
    let mut kept = true;
    for i in 0..10u8 {
        kept = kept && keeps(e, st, 19 + i);
    }
    kept
}

/// Whether the run has come back to its caller: pc is the entry x30, and SP, x29 and x19 to x28 are as
/// at entry.
pub(crate) fn has_returned(e: &Entry<'_>, registers: &Registers) -> bool
    ensures { result ≡ spec.has_returned (entry_of e.now) (registers_of registers.now) }
{
    registers.pc == e.start.registers[30]
        && registers.sp == e.start.sp
        && keeps_registers(e, registers)
}

/// The word that is returned.
pub(crate) fn returned_word(returns: Returns, registers: &Registers) -> Option<u64>
    ensures { result ≡ spec.returned_word returns (registers_of registers.now) }
{
    match returns {
        Returns::Nothing => None,
        Returns::W32 => Some(low(Width::W32, registers.x[0])),
        Returns::W64 => Some(registers.x[0]),
    }
}
