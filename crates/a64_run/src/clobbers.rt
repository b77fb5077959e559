//! What a step of the outside leaves in the registers (AAPCS64, 6.1.1).

ghost use Rattle.std.specs.Prelude.{◌≡◌, ◌<◌, ◌≤◌, slice_index};
ghost use Rattle.a64_inst.specs.Registers.{registers_of};
ghost use Rattle.b3_base.specs.Observed.{machine_start_of};
ghost use Rattle.stackmap.specs.Registers.{has};
ghost use Rattle.stackmap.specs.World as world;
ghost use Rattle.a64_run.specs.Kept.{HasRegisters};
ghost use Rattle.a64_run.specs.Leaving.{word_after};
ghost use Rattle.a64_run.specs.Machine as spec;

use a64_inst::{Flags, State as Registers};
use b3_base::{MachineStart, Width, low};
use stackmap::Site;

/// A junk word of the i-th event, 0 where there is none.
fn junk_word(start: &MachineStart, i: u64, r: u8) -> u64
    ensures { result ≡ world.junk_at (machine_start_of start.now).junk i r }
{
    let at = 32 * u128::from(i) + u128::from(r);
    let junk = start.junk.as_slice();
    if at < junk.len() as u128 {
        junk[at as usize]
    } else {
        0
    }
}

/// N, Z, C and V from bits 3 to 0.
fn flags_from(word: u64) -> Flags
    ensures { result ≡ spec.flags_from word }
{
    Flags {
        n: word >> 3 & 1 == 1,
        z: word >> 2 & 1 == 1,
        c: word >> 1 & 1 == 1,
        v: word & 1 == 1,
    }
}

/// The word of a result register: above a value of 32 bits stands junk.
fn result_word(width: Width, value: u64, above: u64) -> u64
    ensures { result ≡ world.result_word width value above }
{
    match width {
        Width::W32 => (above >> 32 << 32) + low(Width::W32, value),
        Width::W64 => value,
    }
}

/// Whether a site may change a register.
fn may_change(site: &Site, r: u8) -> bool
    requires { r < 32 }
    ensures { result ≡ has site.now.clobbers r }
{
    site.clobbers.bits() >> r & 1 == 1
}

/// The word of a register after the i-th event.
fn word_of(start: &MachineStart, site: &Site, i: u64, value: u64, r: u8, word: u64) -> u64
    requires { r < 31 }
    ensures { result ≡ word_after site.now (machine_start_of start.now).junk i value r word }
{
    let junk = junk_word(start, i, r);
    match site.result {
        Some((width, reg)) if reg.0 == r => result_word(width, value, junk),
        _ => { if may_change(site, r) { junk } else { word } }
    }
}

/// Each clobbered register takes its junk word, the result register the value.
fn leave_words(start: &MachineStart, site: &Site, i: u64, value: u64, x: &mut [u64; 31])
    requires { HasRegisters site.now }
    ensures { slice_index x.new
        ≡ world.registers_after site.now (machine_start_of start.now).junk i value (slice_index x.old) }
{
    for r in 0..31u8 {
        x[r as usize] = word_of(start, site, i, value, r, x[r as usize]);
    }
}

/// The registers and flags after the i-th event, where the run goes on at an address.
pub(crate) fn leave_registers(
    start: &MachineStart,
    site: &Site,
    i: u64,
    value: u64,
    pc: u64,
    registers: &mut Registers,
)
    requires { HasRegisters site.now }
    ensures { registers_of registers.new ≡ record {
      x = world.registers_after site.now (machine_start_of start.now).junk i value (registers_of registers.old).x;
      sp = registers.old.sp;
      pc = pc;
      flags = spec.flags_from (world.junk_at (machine_start_of start.now).junk i 31);
    } }
{
    leave_words(start, site, i, value, &mut registers.x);
    registers.pc = pc;
    registers.flags = flags_from(junk_word(start, i, 31));
}
