//! Sections, their headers and the file header.

ghost use Rattle.std.specs.Prelude.{◌≡◌, ◌++◌, OnOk};
ghost use Rattle.elf_obj.specs.Sections.{section_header};
ghost use Rattle.elf_obj.specs.Elf.{file_header};

use b3_base::{Bytes, NoMemory, Seq, put_u16s, put_u32s, put_u64s};

/// A section: what its section header says of it, and its bytes. `name` is the byte of
/// `.shstrtab` at which its name begins.
#[derive(Drop)]
pub struct Section {
    pub name: u32,
    pub kind: u32,
    pub flags: u64,
    pub link: u32,
    pub info: u32,
    pub align: u64,
    pub entsize: u64,
    pub bytes: Bytes,
}

/// The sections of a file after the null section, in order.
pub type Sections = Seq<Section>;

/// Adds the header of a section that begins at byte `start` of the file.
#[tactic(auto, unfolding(crate::specs::Sections::section_header))]
pub(crate) fn put_section_header(
    out: &mut Bytes,
    section: &Section,
    start: u64,
) -> Result<(), NoMemory>
    ensures { OnOk result (out.new ≡ out.old ++ section_header start section.now) }
{
    let size = section.bytes.len() as u64;
    put_u32s(out, &[section.name, section.kind])?;
    put_u64s(out, &[section.flags, 0, start, size])?;
    put_u32s(out, &[section.link, section.info])?;
    put_u64s(out, &[section.align, section.entsize])
}

/// Adds the file header of a file whose section headers begin at byte `headers`.
#[tactic(auto, unfolding(crate::specs::Elf::file_header))]
pub(crate) fn put_file_header(out: &mut Bytes, headers: u64) -> Result<(), NoMemory>
    ensures { OnOk result (out.new ≡ out.old ++ file_header headers) }
{
    out.extend(b"\x7fELF\x02\x01\x01\0\0\0\0\0\0\0\0\0")?;
    put_u16s(out, &[1, 183])?;
    put_u32s(out, &[1])?;
    put_u64s(out, &[0, 0, headers])?;
    put_u32s(out, &[0])?;
    put_u16s(out, &[64, 0, 0, 64, 7, 6])
}
