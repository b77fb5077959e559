//! Reading the two sections of tables.

ghost use Rattle.std.specs.Prelude.{◌≡◌, IfOk};
ghost use Rattle.exit_table.specs.declared.tables.Tables.{Tables};
ghost use Rattle.exit_table.specs.declared.fault.TableFault.TheVariants as faults;
ghost use Rattle.exit_table.specs.Read.{read_tables, AreTables, Tells};
ghost use Rattle.exit_table.specs.Rooms.{AreExtents};
ghost use Rattle.exit_table.specs.Told.{IsToldAs};

use crate::exit_reader::exit_section;
use crate::fault::{ReadError, TableFault};
use crate::frame_reader::frame_section;
use crate::tables::Tables;
use b3_base::Range;
use std::alloc::Global;

/// The fault of a frame section of so many bytes.
fn frames_fault(error: ReadError, size: usize) -> TableFault
    ensures { IsToldAs (λ code byte. faults.Frames code byte) size error result }
{
    let fault = match error {
        ReadError::NoMemory => return TableFault::NoMemory,
        ReadError::Fault(fault) => fault,
    };
    match u32::try_from(fault.byte(size)) {
        Ok(byte) => TableFault::Frames {
            code: fault.code(),
            byte,
        },
        Err(_) => TableFault::NoMemory,
    }
}

/// The fault of an exit section of so many bytes.
fn exits_fault(error: ReadError, size: usize) -> TableFault
    ensures { IsToldAs (λ code byte. faults.Exits code byte) size error result }
{
    let fault = match error {
        ReadError::NoMemory => return TableFault::NoMemory,
        ReadError::Fault(fault) => fault,
    };
    match u32::try_from(fault.byte(size)) {
        Ok(byte) => TableFault::Exits {
            code: fault.code(),
            byte,
        },
        Err(_) => TableFault::NoMemory,
    }
}

/// What reading gives, with the number and the byte of its first fault.
#[tactic(auto, unfolding(crate::specs::Read::read_tables))]
fn located(
    alloc: Global,
    extents: &[Range],
    frames: &[u8],
    exits: &[u8],
) -> Result<Tables, TableFault>
    requires { AreExtents extents.now }
    ensures { Tells result (read_tables extents.now frames.now exits.now) }
{
    let (rows, homes) = match frame_section(alloc, extents, frames) {
        Ok(read) => read,
        Err(error) => return Err(frames_fault(error, frames.len())),
    };
    match exit_section(alloc, &homes, exits) {
        Ok(sites) => Ok(Tables {
            frames: rows,
            sites,
        }),
        Err(error) => Err(exits_fault(error, exits.len())),
    }
}

/// The tables that a frame section and an exit section spell, of a text with these procedures, or
/// their first fault. `extents` are the bytes of the text that the procedures have, in order.
pub fn read(
    alloc: Global,
    extents: &[Range],
    frames: &[u8],
    exits: &[u8],
) -> Result<Tables, TableFault>
    requires { AreExtents extents.now }

    // What is read is good, and spelled so.
    ensures found { IfOk result (AreTables extents.now frames.now exits.now) }

    // Good tables that are spelled so are read.
    ensures only { (tables : Tables) → AreTables extents.now frames.now exits.now tables → Tells result (Ok tables) }

    // A fault is the first one.
    ensures exact { Tells result (read_tables extents.now frames.now exits.now) }
{
    located(alloc, extents, frames, exits)
}
