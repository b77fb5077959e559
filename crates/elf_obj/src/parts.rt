//! The sections of an object and their bytes.

ghost use Rattle.std.specs.Prelude.{◌≡◌, ◌+◌, ◌^◌, ◌<◌, ◌++◌, length, sum_by, OnOk, IfOk};
ghost use Rattle.b3_base.specs.Fields.{words};
ghost use Rattle.exit_table.specs.Good.{IsWritable};
ghost use Rattle.elf_obj.specs.Good.{names_of};
ghost use Rattle.elf_obj.specs.Elf.{string_table, symbol_entry, symbol_entries, symbol_table, section_names, sections_of};

use crate::object::{Object, Symbol, Symbols};
use crate::section::{Section, Sections};
use b3_base::{Bytes, NoMemory, put_u16s, put_u32s, put_u64s};
use exit_table::{write_exits, write_frames};
use std::alloc::Global;

/// The words of code, each least byte first.
fn text_bytes(alloc: Global, text: &[u32]) -> Result<Bytes, NoMemory>
    ensures { IfOk result (λ bytes. bytes ≡ words text.now) }
{
    let mut out = Bytes::new(alloc);
    put_u32s(&mut out, text)?;
    Ok(out)
}

/// Adds the entry of a procedure, whose name begins at byte `name` of `.strtab`.
#[tactic(auto, unfolding(crate::specs::Elf::symbol_entry))]
fn put_symbol(out: &mut Bytes, symbol: &Symbol, name: u32) -> Result<(), NoMemory>
    ensures { OnOk result (out.new ≡ out.old ++ symbol_entry name symbol.now) }
{
    put_u32s(out, &[name])?;
    out.extend(&[0x12, 0])?;
    put_u16s(out, &[1])?;
    put_u64s(out, &[u64::from(symbol.offset), u64::from(symbol.size)])
}

/// Adds the entries of procedures, the first of whose names begins at byte 1 of `.strtab`.
fn put_symbols(out: &mut Bytes, symbols: &Symbols) -> Result<(), NoMemory>
    requires { 1 + sum_by (λ symbol. length symbol.name + 1) symbols.now < 2 ^ 32 }
    ensures { OnOk result (out.new ≡ out.old ++ symbol_entries 1 symbols.now) }
{
    let mut name = 1;
    for symbol in symbols.as_slice() {
        put_symbol(out, symbol, name)?;
        name += symbol.name.len() as u32 + 1;
    }
    Ok(())
}

/// The symbol table: the undefined symbol, and the procedures in order.
#[tactic(auto, unfolding(crate::specs::Elf::symbol_table))]
fn symbols_bytes(alloc: Global, symbols: &Symbols) -> Result<Bytes, NoMemory>
    requires { 1 + sum_by (λ symbol. length symbol.name + 1) symbols.now < 2 ^ 32 }
    ensures { IfOk result (λ bytes. bytes ≡ symbol_table symbols.now) }
{
    let mut out = Bytes::new(alloc);
    out.extend(&[0; 24])?;
    put_symbols(&mut out, symbols)?;
    Ok(out)
}

/// The names of the procedures, in order, behind a zero byte.
#[tactic(auto, unfolding(crate::specs::Elf::string_table))]
pub(crate) fn names_bytes(alloc: Global, symbols: &Symbols) -> Result<Bytes, NoMemory>
    ensures { IfOk result (λ bytes. bytes ≡ string_table (names_of symbols.now)) }
{
    let mut out = Bytes::new(alloc);
    out.push(0)?;
    for symbol in symbols.as_slice() {
        out.extend(symbol.name.as_slice())?;
        out.push(0)?;
    }
    Ok(out)
}

/// The names of the sections, in order, behind a zero byte.
#[tactic(auto, unfolding(crate::specs::Elf::string_table, crate::specs::Elf::section_names))]
pub(crate) fn section_names_bytes(alloc: Global) -> Result<Bytes, NoMemory>
    ensures { IfOk result (λ bytes. bytes ≡ string_table section_names) }
{
    let mut out = Bytes::new(alloc);
    out.extend(b"\0.text\0.b3.frames\0.b3.exits\0.symtab\0.strtab\0.shstrtab\0")?;
    Ok(out)
}

const PROGBITS: u32 = 1;

const SYMTAB: u32 = 2;

const STRTAB: u32 = 3;

/// The sections of an object, in order.
#[tactic(auto, unfolding(crate::specs::Elf::sections_of, crate::specs::Elf::name_of, crate::specs::Elf::section_names, crate::specs::Elf::string_table))]
pub(crate) fn sections(alloc: Global, object: &Object) -> Result<Sections, NoMemory>
    requires tables { IsWritable object.now.tables }
    requires names { 1 + sum_by (λ symbol. length symbol.name + 1) object.now.symbols < 2 ^ 32 }
    ensures { IfOk result (λ all. all ≡ sections_of object.now) }
{
    let mut all = Sections::new(alloc);
    all.push(Section {
        name: 1,
        kind: PROGBITS,
        flags: 6,
        link: 0,
        info: 0,
        align: 4,
        entsize: 0,
        bytes: text_bytes(alloc, object.text.as_slice())?,
    })?;
    all.push(Section {
        name: 7,
        kind: PROGBITS,
        flags: 0,
        link: 0,
        info: 0,
        align: 8,
        entsize: 0,
        bytes: write_frames(alloc, &object.tables)?,
    })?;
    all.push(Section {
        name: 18,
        kind: PROGBITS,
        flags: 0,
        link: 0,
        info: 0,
        align: 8,
        entsize: 0,
        bytes: write_exits(alloc, &object.tables)?,
    })?;
    all.push(Section {
        name: 28,
        kind: SYMTAB,
        flags: 0,
        link: 5,
        info: 1,
        align: 8,
        entsize: 24,
        bytes: symbols_bytes(alloc, &object.symbols)?,
    })?;
    all.push(Section {
        name: 36,
        kind: STRTAB,
        flags: 0,
        link: 0,
        info: 0,
        align: 1,
        entsize: 0,
        bytes: names_bytes(alloc, &object.symbols)?,
    })?;
    all.push(Section {
        name: 44,
        kind: STRTAB,
        flags: 0,
        link: 0,
        info: 0,
        align: 1,
        entsize: 0,
        bytes: section_names_bytes(alloc)?,
    })?;
    Ok(all)
}
