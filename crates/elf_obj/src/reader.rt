//! Reading the file of an object.

ghost use Rattle.std.specs.Prelude.{◌≡◌, ◌+◌, ◌*◌, ◌^◌, ◌<◌, ◌≤◌, true, length, map, sum_by, slice_get, IfOk, Ok};
ghost use Rattle.exit_table.specs.Rooms.{AreExtents};
ghost use Rattle.elf_obj.specs.declared.object.Object.{Object};
ghost use Rattle.elf_obj.specs.Good.{Fills, names_of};
ghost use Rattle.elf_obj.specs.Sections.{zeros};
ghost use Rattle.elf_obj.specs.Elf.{string_table, section_names};
ghost use Rattle.elf_obj.specs.Read.{IsFileOf};
ghost use Rattle.elf_obj.specs.Fields.{Gives, slice, fields_fault};
ghost use Rattle.elf_obj.specs.Reading as rule;

use crate::fault::ObjectFault;
use crate::field::{Field, Number, differs, fields_fault, wanted};
use crate::header::{read_sizes, read_start};
use crate::layout::{Sizes, part};
use crate::object::{Object, Symbol, Symbols};
use crate::parts::{names_bytes, section_names_bytes};
use crate::symbols::{behind, entries_fault, symbols_at};
use b3_base::{CodeWords, NoMemory, Range, Ranges, read_u32s};
use exit_table::{SiteRow, TableFault, Tables};
use stackmap::SiteKind;
use std::alloc::Global;

/// The fields of the undefined symbol.
fn undefined_fields() -> [Field; 6]
    ensures { result ≡ rule.undefined_fields }
{
    [
        wanted(Number::Word(0)),
        wanted(Number::Byte(0)),
        wanted(Number::Byte(0)),
        wanted(Number::Half(0)),
        wanted(Number::Long(0)),
        wanted(Number::Long(0)),
    ]
}

/// The first byte of the first field of a symbol that is at fault.
fn symbols_fault(alloc: Global, bytes: &[u8], sizes: Sizes) -> Result<Option<u64>, NoMemory>
    requires within { rule.parts_end sizes ≤ length bytes.now }
    requires whole { rule.is_symbols_size sizes ≡ true }
    ensures { IfOk result (λ byte. byte ≡ fields_fault (rule.symbols_start sizes) (rule.all_entries_fields bytes.now sizes) (rule.symbols_of sizes bytes.now)) }
{
    let entries = part(bytes, sizes.symbols_start(), sizes.symbols);
    let names = part(bytes, sizes.names_start(), sizes.names);
    let at = sizes.symbols_start() as u64;
    match fields_fault(at, &undefined_fields(), entries) {
        Some(byte) => return Ok(Some(byte)),
        None => {}
    }
    let count = sizes.symbols / 24 - 1;
    entries_fault(
        alloc,
        names,
        sizes.text,
        count,
        at + 24,
        behind(entries, 24),
    )
}

/// The symbols.
#[tactic(auto, unfolding(crate::specs::Reading::read_symbols))]
fn read_symbols(alloc: Global, bytes: &[u8], sizes: Sizes) -> Result<Symbols, ObjectFault>
    requires within { rule.parts_end sizes ≤ length bytes.now }
    requires text { rule.is_text_size sizes ≡ true }
    requires whole { rule.is_symbols_size sizes ≡ true }
    ensures { Gives (λ x. x) result (rule.read_symbols bytes.now sizes) }
{
    match symbols_fault(alloc, bytes, sizes)? {
        Some(byte) => return Err(ObjectFault::Bad { code: 9, byte }),
        None => {}
    }
    let entries = part(bytes, sizes.symbols_start(), sizes.symbols);
    let names = part(bytes, sizes.names_start(), sizes.names);
    let symbols = symbols_at(alloc, names, sizes.symbols / 24 - 1, behind(entries, 24))?;
    Ok(symbols)
}

/// Whether `.strtab` and `.shstrtab` have these names alone.
#[tactic(auto, unfolding(crate::specs::Reading::read_names))]
fn read_names(
    alloc: Global,
    bytes: &[u8],
    sizes: Sizes,
    symbols: &Symbols,
) -> Result<(), ObjectFault>
    requires within { rule.parts_end sizes ≤ length bytes.now }
    ensures { Gives (λ x. x) result (rule.read_names bytes.now sizes symbols.now) }
{
    let names = names_bytes(alloc, symbols)?;
    let start = sizes.names_start();
    match differs(
        start as u64,
        names.as_slice(),
        part(bytes, start, sizes.names),
    ) {
        Some(byte) => return Err(ObjectFault::Bad { code: 10, byte }),
        None => {}
    }
    let names = section_names_bytes(alloc)?;
    let start = sizes.section_names_start();
    match differs(
        start as u64,
        names.as_slice(),
        part(bytes, start, sizes.section_names),
    ) {
        Some(byte) => Err(ObjectFault::Bad { code: 10, byte }),
        None => Ok(()),
    }
}

/// So many zero bytes, at most 8.
fn zeros(count: usize) -> &'static [u8]
    requires { count ≤ 8 }
    ensures { result.now ≡ zeros count }
{
    let zeros: &'static [u8] = &[0, 0, 0, 0, 0, 0, 0, 0];
    &zeros[..count]
}

/// Whether the bytes up to the next multiple of 8 are zero.
fn read_gap(bytes: &[u8], at: u128) -> Result<(), ObjectFault>
    requires { rule.next_8 at ≤ length bytes.now }
    ensures { Gives (λ x. x) result (rule.read_gap bytes.now at) }
{
    let size = (8 - at % 8) % 8;
    match differs(
        at as u64,
        zeros(size as usize),
        part(bytes, at, size as u64),
    ) {
        Some(byte) => Err(ObjectFault::Bad { code: 11, byte }),
        None => Ok(()),
    }
}

/// Whether the bytes between the parts are zero.
#[tactic(auto, unfolding(crate::specs::Reading::read_gaps))]
fn read_gaps(bytes: &[u8], sizes: Sizes) -> Result<(), ObjectFault>
    requires within { rule.next_8 (rule.parts_end sizes) ≤ length bytes.now }
    ensures { Gives (λ x. x) result (rule.read_gaps bytes.now sizes) }
{
    read_gap(bytes, sizes.text_end())?;
    read_gap(bytes, sizes.frames_end())?;
    read_gap(bytes, sizes.exits_end())?;
    read_gap(bytes, sizes.parts_end())
}

/// The bytes of the text that the procedures have.
fn extents_of(alloc: Global, symbols: &[Symbol]) -> Result<Ranges, NoMemory>
    ensures { IfOk result (λ extents. extents ≡ rule.extents_of symbols.now) }
{
    let mut extents = Ranges::new(alloc);
    for symbol in symbols {
        extents.push(Range {
            first: u64::from(symbol.offset),
            len: u64::from(symbol.size),
        })?;
    }
    Ok(extents)
}

/// The tables, or their first fault.
#[tactic(auto, unfolding(crate::specs::Reading::tables_at))]
fn tables_at(
    alloc: Global,
    bytes: &[u8],
    sizes: Sizes,
    symbols: &Symbols,
) -> Result<Tables, ObjectFault>
    requires within { rule.parts_end sizes ≤ length bytes.now }
    requires extents { AreExtents (rule.extents_of symbols.now) }
    ensures { Gives (λ x. x) result (rule.tables_at bytes.now sizes symbols.now) }
{
    let extents = extents_of(alloc, symbols.as_slice())?;
    let frames = part(bytes, sizes.frames_start(), sizes.frames);
    let exits = part(bytes, sizes.exits_start(), sizes.exits);
    match exit_table::read(alloc, extents.as_slice(), frames, exits) {
        Ok(tables) => Ok(tables),
        Err(TableFault::Frames { code: _, byte }) => Err(ObjectFault::Bad {
            code: 12,
            byte: sizes.frames_start() as u64 + u64::from(byte),
        }),
        Err(TableFault::Exits { code: _, byte }) => Err(ObjectFault::Bad {
            code: 12,
            byte: sizes.exits_start() as u64 + u64::from(byte),
        }),
        Err(TableFault::NoMemory) => Err(ObjectFault::NoMemory),
    }
}

/// BLR of some register.
fn is_blr(word: u32) -> bool
    ensures { result ≡ rule.is_blr word }
{
    0xD63F_0000 <= word && word <= 0xD63F_03E0 && word % 32 == 0
}

/// What a site asks of its word.
fn is_word_of(kind: SiteKind, word: u32) -> bool
    ensures { result ≡ rule.is_word_of kind word }
{
    match kind {
        SiteKind::Call => is_blr(word),
        SiteKind::Exit => word == 0xD420_0020,
        _ => true,
    }
}

/// Whether there is the word that a site asks for.
fn has_word(kind: SiteKind, text: &[u32], at: usize) -> bool
    ensures { result ≡ rule.some_word kind (slice_get text.now at) }
{
    match text.get(at) {
        None => false,
        Some(word) => is_word_of(kind, *word),
    }
}

/// The first site whose word of the text is another. The first of them stands at byte `first` of
/// the file.
fn words_fault(first: u64, text: &[u32], sites: &[SiteRow]) -> Option<u64>
    requires { first + sum_by (λ row. 32 + 16 * length row.site.reps) sites.now < 2 ^ 64 }
    ensures { result ≡ rule.words_fault first text.now sites.now }
{
    let mut at = first;
    for row in sites {
        if !has_word(row.site.kind, text, row.pc as usize / 4) {
            return Some(at);
        }
        at += 32 + 16 * row.site.reps.len() as u64;
    }
    None
}

/// The tables, where the words of the text are those that the sites ask for.
#[tactic(auto, unfolding(crate::specs::Reading::read_all_tables))]
fn read_all_tables(
    alloc: Global,
    bytes: &[u8],
    sizes: Sizes,
    symbols: &Symbols,
    text: &CodeWords,
) -> Result<Tables, ObjectFault>
    requires within { rule.parts_end sizes ≤ length bytes.now }
    requires fills { Fills 0 sizes.text symbols.now }
    requires few { sizes.text < 2 ^ 26 }
    requires words { text.now ≡ rule.text_of bytes.now sizes }
    ensures { Gives (λ x. x) result (rule.read_all_tables bytes.now sizes symbols.now) }
{
    let tables = tables_at(alloc, bytes, sizes, symbols)?;
    let at = sizes.exits_start() as u64 + 16;
    match words_fault(at, text.as_slice(), tables.sites.as_slice()) {
        Some(byte) => Err(ObjectFault::Bad { code: 12, byte }),
        None => Ok(tables),
    }
}

/// The object of a file with such sections.
fn read_parts(alloc: Global, bytes: &[u8], sizes: Sizes) -> Result<Object, ObjectFault>
    requires within { rule.next_8 (rule.parts_end sizes) ≤ length bytes.now }
    requires text { rule.is_text_size sizes ≡ true }
    requires whole { rule.is_symbols_size sizes ≡ true }
    ensures { Gives (λ x. x) result (rule.read_parts bytes.now sizes) }
{
    let symbols = read_symbols(alloc, bytes, sizes)?;
    read_names(alloc, bytes, sizes, &symbols)?;
    read_gaps(bytes, sizes)?;
    let text = read_u32s(alloc, part(bytes, 64, sizes.text))?;
    let tables = read_all_tables(alloc, bytes, sizes, &symbols, &text)?;
    Ok(Object {
        text,
        symbols,
        tables,
    })
}

/// What reading gives.
#[tactic(auto, unfolding(crate::specs::Reading::read_object))]
fn read_file(alloc: Global, bytes: &[u8]) -> Result<Object, ObjectFault>
    ensures { Gives (λ x. x) result (rule.read_object bytes.now) }
{
    let start = read_start(alloc, bytes)?;
    let sizes = read_sizes(alloc, bytes, start)?;
    read_parts(alloc, bytes, sizes)
}

/// The object whose file some bytes are, or their first fault. Beside the object it takes memory for
/// about as much again, and none for a size or a count before its bytes are there.
pub fn read(alloc: Global, bytes: &[u8]) -> Result<Object, ObjectFault>
    // What is read is good, and this is its file.
    ensures found { IfOk result (IsFileOf bytes.now) }

    // A good object is read from its file.
    ensures only { (object : Object) → IsFileOf bytes.now object → Gives (λ x. x) result (Ok object) }

    // A fault is the first one.
    ensures exact { Gives (λ x. x) result (rule.read_object bytes.now) }
{
    read_file(alloc, bytes)
}
