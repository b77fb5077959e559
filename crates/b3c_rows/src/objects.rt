//! What an object holds, as lines of text.

use crate::fault::Fault;
use b3_base::Width;
use b3_ir::{Reg, RegSet};
use elf_obj::Object;
use exit_table::{FrameRow, SiteRow};
use stackmap::{Place, Rep, Returns, SiteKind};
use std::alloc::Global;
use std::str;

/// The words of the text, one a line.
pub fn words_of(alloc: Global, object: &Object) -> Result<String, Fault> {
    let mut lines = String::new(alloc);
    for word in object.text.as_slice() {
        lines.push_str(format!(in alloc; "{word:08x}\n")?.as_str())?;
    }
    Ok(lines)
}

/// The procedures and their frames, one a line.
pub fn frames_of(alloc: Global, object: &Object) -> Result<String, Fault> {
    let mut lines = String::new(alloc);
    for (symbol, frame) in object
        .symbols
        .as_slice()
        .iter()
        .zip(object.tables.frames.as_slice())
    {
        let name = str::from_utf8(symbol.name.as_slice()).unwrap_or("");
        let (offset, size) = (symbol.offset, symbol.size);
        lines.push_str(format!(in alloc; "{name} at {offset}, {size} bytes: ")?.as_str())?;
        add_frame(alloc, &mut lines, frame)?;
        lines.push_str("\n")?;
    }
    Ok(lines)
}

/// Adds a frame: its bytes, what is returned, its slots, and the registers that it saves.
fn add_frame(alloc: Global, line: &mut String, frame: &FrameRow) -> Result<(), Fault> {
    let bytes = frame.bytes;
    let returns = match frame.returns {
        Returns::Nothing => "nothing",
        Returns::W32 => "32 bits",
        Returns::W64 => "64 bits",
    };
    line.push_str(format!(in alloc; "frame of {bytes} bytes, returns {returns}")?.as_str())?;
    for slot in frame.slots.as_slice() {
        let (offset, size) = (slot.offset, slot.size);
        line.push_str(format!(in alloc; ", slot of {size} bytes at {offset}")?.as_str())?;
    }
    for saved in frame.saved.as_slice() {
        let (register, offset) = (saved.reg.0, saved.offset);
        line.push_str(format!(in alloc; ", x{register} at {offset}")?.as_str())?;
    }
    Ok(())
}

/// The sites, one a line.
pub fn sites_of(alloc: Global, object: &Object) -> Result<String, Fault> {
    let mut lines = String::new(alloc);
    for row in object.tables.sites.as_slice() {
        add_site(alloc, &mut lines, row)?;
        lines.push_str("\n")?;
    }
    Ok(lines)
}

/// How many places of each site are registers, stand in the frame, and are constants, a site a line.
pub fn places_of(alloc: Global, object: &Object) -> Result<String, Fault> {
    let mut lines = String::new(alloc);
    for row in object.tables.sites.as_slice() {
        let (mut registers, mut slots, mut constants) = (0u32, 0u32, 0u32);
        for place in row.site.reps.as_slice() {
            match place.rep {
                Rep::Register(_) => registers = registers.saturating_add(1),
                Rep::Slot(_) => slots = slots.saturating_add(1),
                Rep::Constant(_) => constants = constants.saturating_add(1),
            }
        }
        let value = row.site.value;
        let text = format!(in alloc;
            "b@{value}: {registers} registers, {slots} in the frame, {constants} constants\n"
        )?;
        lines.push_str(text.as_str())?;
    }
    Ok(lines)
}

/// Adds a site: where it stands, what it is, its places, its result, and what it may change.
fn add_site(alloc: Global, line: &mut String, row: &SiteRow) -> Result<(), Fault> {
    let site = &row.site;
    let kind = match site.kind {
        SiteKind::Call => "call",
        SiteKind::Patchpoint => "patchpoint",
        SiteKind::Exit => "exit",
        SiteKind::Trap => "trap",
    };
    let (pc, value, size, places) = (row.pc, site.value, site.size, site.reps.len());
    let text = format!(in alloc; "{pc}: {kind} b@{value}, {size} words, {places} places")?;
    line.push_str(text.as_str())?;
    for place in site.reps.as_slice() {
        add_place(alloc, line, *place)?;
    }
    if let Some((width, Reg(register))) = site.result {
        let bits = bits_of(width);
        line.push_str(format!(in alloc; ", gives {bits} bits in x{register}")?.as_str())?;
    }
    add_clobbers(alloc, line, &site.clobbers)
}

/// Adds the place of a word that is reported.
fn add_place(alloc: Global, line: &mut String, place: Place) -> Result<(), Fault> {
    let bits = bits_of(place.width);
    let text = match place.rep {
        Rep::Register(Reg(register)) => format!(in alloc; ", {bits} bits in x{register}")?,
        Rep::Slot(offset) => format!(in alloc; ", {bits} bits at {offset}")?,
        Rep::Constant(word) => format!(in alloc; ", {bits} bits of {word}")?,
    };
    line.push_str(text.as_str())?;
    Ok(())
}

/// Adds the registers that a site may change.
fn add_clobbers(alloc: Global, line: &mut String, clobbers: &RegSet) -> Result<(), Fault> {
    let mut is_first = true;
    for register in 0..31u8 {
        if clobbers.contains(Reg(register)) {
            line.push_str(if is_first { ", changes" } else { "" })?;
            line.push_str(format!(in alloc; " x{register}")?.as_str())?;
            is_first = false;
        }
    }
    Ok(())
}

/// The bits of a width.
fn bits_of(width: Width) -> u8 {
    match width {
        Width::W32 => 32,
        Width::W64 => 64,
    }
}
