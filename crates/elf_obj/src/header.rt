//! Reading the file header and the section headers.

ghost use Rattle.std.specs.Prelude.{◌≡◌, ◌+◌, ◌^◌, ◌<◌, ◌≤◌, ◌++◌, length, OnOk, IfOk};
ghost use Rattle.elf_obj.specs.Fields.{Gives};
ghost use Rattle.elf_obj.specs.Reading as rule;

use crate::fault::ObjectFault;
use crate::field::{Field, Number, differs, fields_fault, offset, wanted};
use crate::layout::{Sizes, long_at, next_8};
use crate::section::put_file_header;
use b3_base::{Bytes, NoMemory, Seq};
use std::alloc::Global;

/// The fault of a file header of which this is the first byte that is another.
fn header_fault(byte: u64) -> ObjectFault
    ensures { result ≡ rule.header_fault byte }
{
    match byte {
        0..4 => ObjectFault::Bad { code: 2, byte },
        4..16 => ObjectFault::Bad { code: 3, byte },
        16..18 => ObjectFault::Bad { code: 4, byte: 16 },
        18..20 => ObjectFault::Bad { code: 5, byte: 18 },
        _ => ObjectFault::Bad { code: 6, byte },
    }
}

/// Whether section headers from a byte on end the file.
fn is_start(bytes: &[u8], start: u64) -> bool
    ensures { result ≡ rule.is_start bytes.now start }
{
    start % 8 == 0 && u128::from(start) + 448 == bytes.len() as u128
}

/// Where the section headers begin.
#[tactic(auto, unfolding(crate::specs::Reading::read_start))]
pub(crate) fn read_start(alloc: Global, bytes: &[u8]) -> Result<u64, ObjectFault>
    ensures { Gives (λ x. x) result (rule.read_start bytes.now) }
{
    if bytes.len() < 64 {
        return Err(ObjectFault::Bad {
            code: 1,
            byte: bytes.len() as u64,
        });
    }
    let start = long_at(bytes, 40);
    let mut header = Bytes::new(alloc);
    put_file_header(&mut header, start)?;
    if let Some(byte) = differs(0, header.as_slice(), &bytes[..64]) {
        return Err(header_fault(byte));
    }
    if is_start(bytes, start) {
        Ok(start)
    } else {
        Err(ObjectFault::Bad { code: 7, byte: 40 })
    }
}

/// What the section headers from a byte on say of the sizes of the sections.
fn sizes_at(bytes: &[u8], start: usize) -> Sizes
    requires { start + 448 ≤ length bytes.now }
    ensures { result ≡ rule.sizes_at start bytes.now }
{
    Sizes {
        text: long_at(bytes, start + 96),
        frames: long_at(bytes, start + 160),
        exits: long_at(bytes, start + 224),
        symbols: long_at(bytes, start + 288),
        names: long_at(bytes, start + 352),
        section_names: long_at(bytes, start + 416),
    }
}

/// What a section header says, but for where the section stands.
#[derive(Clone, Copy)]
struct Head {
    name: u32,
    kind: u32,
    flags: u64,
    link: u32,
    info: u32,
    align: u64,
    entsize: u64,
}

/// The fields of a section header.
fn header_row(head: &Head, start: u128, size: u64, good: bool) -> [Field; 10]
    ensures { result ≡ rule.header_fields head.now.name head.now.kind head.now.flags head.now.link head.now.info head.now.align head.now.entsize start size good }
{
    [
        wanted(Number::Word(head.name)),
        wanted(Number::Word(head.kind)),
        wanted(Number::Long(head.flags)),
        wanted(Number::Long(0)),
        offset(start),
        Field {
            number: Number::Long(size),
            good,
        },
        wanted(Number::Word(head.link)),
        wanted(Number::Word(head.info)),
        wanted(Number::Long(head.align)),
        wanted(Number::Long(head.entsize)),
    ]
}

/// Adds the fields of a section header.
fn put_header(
    out: &mut Seq<Field>,
    head: &Head,
    start: u128,
    size: u64,
    good: bool,
) -> Result<(), NoMemory>
    ensures { OnOk result (out.new ≡ out.old ++ rule.header_fields head.now.name head.now.kind head.now.flags head.now.link head.now.info head.now.align head.now.entsize start size good) }
{
    out.extend(&header_row(head, start, size, good))
}

/// Whole words, below 2^26 bytes, and none where there is no procedure.
fn is_text_size(sizes: Sizes) -> bool
    ensures { result ≡ rule.is_text_size sizes }
{
    sizes.text % 4 == 0 && sizes.text < 1 << 26 && (sizes.symbols != 24 || sizes.text == 0)
}

/// The undefined symbol, and whole entries.
fn is_symbols_size(sizes: Sizes) -> bool
    ensures { result ≡ rule.is_symbols_size sizes }
{
    sizes.symbols % 24 == 0 && 24 <= sizes.symbols
}

/// The fields of the section headers from a byte on.
#[tactic(auto, unfolding(crate::specs::Reading::all_header_fields, crate::specs::Elf::name_of, crate::specs::Elf::section_names, crate::specs::Elf::string_table))]
fn header_fields(alloc: Global, start: u64, sizes: Sizes) -> Result<Seq<Field>, NoMemory>
    ensures { IfOk result (λ fields. fields ≡ rule.all_header_fields start sizes) }
{
    let mut out = Seq::new(alloc);
    let null = Head {
        name: 0,
        kind: 0,
        flags: 0,
        link: 0,
        info: 0,
        align: 0,
        entsize: 0,
    };
    put_header(&mut out, &null, 0, 0, true)?;
    let text = Head {
        name: 1,
        kind: 1,
        flags: 6,
        align: 4,
        ..null
    };
    put_header(&mut out, &text, 64, sizes.text, is_text_size(sizes))?;
    let frames = Head {
        name: 7,
        kind: 1,
        align: 8,
        ..null
    };
    put_header(&mut out, &frames, sizes.frames_start(), sizes.frames, true)?;
    let exits = Head {
        name: 18,
        kind: 1,
        align: 8,
        ..null
    };
    put_header(&mut out, &exits, sizes.exits_start(), sizes.exits, true)?;
    let symbols = Head {
        name: 28,
        kind: 2,
        flags: 0,
        link: 5,
        info: 1,
        align: 8,
        entsize: 24,
    };
    put_header(
        &mut out,
        &symbols,
        sizes.symbols_start(),
        sizes.symbols,
        is_symbols_size(sizes),
    )?;
    let names = Head {
        name: 36,
        kind: 3,
        align: 1,
        ..null
    };
    put_header(&mut out, &names, sizes.names_start(), sizes.names, true)?;
    let section_names = Head {
        name: 44,
        kind: 3,
        align: 1,
        ..null
    };
    let ends = next_8(sizes.parts_end()) == u128::from(start);
    put_header(
        &mut out,
        &section_names,
        sizes.section_names_start(),
        sizes.section_names,
        ends,
    )?;
    Ok(out)
}

/// How large the sections are, by the section headers from a byte on.
#[tactic(auto, unfolding(crate::specs::Reading::read_sizes))]
pub(crate) fn read_sizes(alloc: Global, bytes: &[u8], start: u64) -> Result<Sizes, ObjectFault>
    requires { start + 448 ≡ length bytes.now }
    ensures { Gives (λ x. x) result (rule.read_sizes bytes.now start) }
{
    let sizes = sizes_at(bytes, start as usize);
    let fields = header_fields(alloc, start, sizes)?;
    match fields_fault(start, fields.as_slice(), &bytes[start as usize..]) {
        None => Ok(sizes),
        Some(byte) => Err(ObjectFault::Bad { code: 8, byte }),
    }
}
