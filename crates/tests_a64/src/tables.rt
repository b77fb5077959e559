//! What sections of frames and of exits hold.

use crate::bytes::{damaged, read_hex};
use b3_base::Range;
use exit_table::{TableFault, Tables, read};
use std::alloc::Global;
use std::test::Fail;
use tests_rows::Teller;

/// Tells how many frames and sites damaged sections have, or their first fault.
#[derive(Drop)]
pub(crate) struct Sections {
    frames: Vec<u8>,
    exits: Vec<u8>,
    two_frames: Vec<u8>,
    two_exits: Vec<u8>,
}

impl Sections {
    pub(crate) fn open(rt: &HostRuntime) -> Result<Sections, Fail> {
        Ok(Sections {
            frames: read_hex(rt, "frames.hex")?,
            exits: read_hex(rt, "exits.hex")?,
            two_frames: read_hex(rt, "two_frames.hex")?,
            two_exits: read_hex(rt, "two_exits.hex")?,
        })
    }
}

impl Teller for Sections {
    fn told(&mut self, alloc: Global, asked: &str) -> Result<String, Fail> {
        let (name, damage) = asked.split_once(' ').unwrap_or((asked, ""));
        let in_frames = damage.strip_prefix("frames ").unwrap_or("");
        let in_exits = damage.strip_prefix("exits ").unwrap_or("");
        match name {
            "one" => {
                let frames = damaged(alloc, self.frames.as_slice(), in_frames)?;
                let exits = damaged(alloc, self.exits.as_slice(), in_exits)?;
                tables_told(alloc, of_one(alloc, frames.as_slice(), exits.as_slice()))
            }
            "two" => {
                let frames = damaged(alloc, self.two_frames.as_slice(), in_frames)?;
                let exits = damaged(alloc, self.two_exits.as_slice(), in_exits)?;
                tables_told(alloc, of_two(alloc, frames.as_slice(), exits.as_slice()))
            }
            _ => Err(Fail::from("no such tables")),
        }
    }
}

/// The tables of one procedure of 32 bytes.
fn of_one(alloc: Global, frames: &[u8], exits: &[u8]) -> Result<Tables, TableFault> {
    read(alloc, &[Range { first: 0, len: 32 }], frames, exits)
}

/// The tables of two procedures of 16 bytes.
fn of_two(alloc: Global, frames: &[u8], exits: &[u8]) -> Result<Tables, TableFault> {
    let extents = [Range { first: 0, len: 16 }, Range { first: 16, len: 16 }];
    read(alloc, &extents, frames, exits)
}

fn tables_told(alloc: Global, tables: Result<Tables, TableFault>) -> Result<String, Fail> {
    match tables {
        Ok(tables) => {
            let frames = tables.frames.len();
            let sites = tables.sites.len();
            Ok(format!(in alloc; "{frames} frames, {sites} sites")?)
        }
        Err(fault) => Ok(format!(in alloc; "{fault}")?),
    }
}
