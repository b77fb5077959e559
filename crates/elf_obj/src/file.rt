//! The file of an object.

ghost use Rattle.std.specs.Prelude.{◌≡◌, ◌+◌, ◌<◌, ◌≤◌, ◌++◌, length, All, OnOk, IfOk};
ghost use Rattle.elf_obj.specs.Good.{IsGood};
ghost use Rattle.elf_obj.specs.Sections.{gap, zeros, start_of, contents, section_header, section_headers};
ghost use Rattle.elf_obj.specs.Elf.{Holds};
ghost use Rattle.elf_obj.specs.Size.{size_bound};

use crate::object::Object;
use crate::parts::sections;
use crate::section::{Section, Sections, put_file_header, put_section_header};
use b3_base::{Bytes, NoMemory};
use std::alloc::Global;

/// The byte at which a part begins that comes after what ends at `at`: the next multiple of `align`.
/// A file of 2^64 bytes has no memory.
fn aligned(at: u64, align: u64) -> Result<u64, NoMemory>
    requires { 0 < align }
    ensures { IfOk result (λ start. start ≡ at + gap align at) }
{
    at.checked_add((align - at % align) % align).ok_or(NoMemory)
}

/// The byte of the file at which the sections end that begin behind the file header.
fn end_of(sections: &Sections) -> Result<u64, NoMemory>
    requires { All (λ section. 0 < section.align) sections.now }
    ensures { IfOk result (λ at. at ≡ 64 + length (contents 64 sections.now)) }
{
    let mut at = 64;
    for section in sections.as_slice() {
        let start = aligned(at, section.align)?;
        at = start
            .checked_add(section.bytes.len() as u64)
            .ok_or(NoMemory)?;
    }
    Ok(at)
}

/// Adds zero bytes up to the next multiple of `align` in the file.
fn pad(out: &mut Bytes, align: u64) -> Result<(), NoMemory>
    requires { 0 < align }
    ensures { OnOk result (out.new ≡ out.old ++ zeros (gap align (length out.old))) }
{
    let at = out.len() as u64;
    for _ in 0..(align - at % align) % align {
        out.push(0)?;
    }
    Ok(())
}

/// Adds the bytes of a section to the file, and its header to the section headers.
fn put_section(out: &mut Bytes, headers: &mut Bytes, section: &Section) -> Result<(), NoMemory>
    requires { 0 < section.now.align }
    ensures contents { OnOk result (out.new ≡ out.old ++ zeros (gap section.now.align (length out.old)) ++ section.now.bytes) }
    ensures headers { OnOk result (headers.new ≡ headers.old ++ section_header (start_of (length out.old) section.now) section.now) }
{
    pad(out, section.align)?;
    put_section_header(headers, section, out.len() as u64)?;
    out.extend(section.bytes.as_slice())
}

/// Adds the bytes of sections to the file, and their headers to the section headers.
fn put_sections(out: &mut Bytes, headers: &mut Bytes, sections: &Sections) -> Result<(), NoMemory>
    requires { All (λ section. 0 < section.align) sections.now }
    ensures contents { OnOk result (out.new ≡ out.old ++ contents (length out.old) sections.now) }
    ensures headers { OnOk result (headers.new ≡ headers.old ++ section_headers (length out.old) sections.now) }
{
    for section in sections.as_slice() {
        put_section(out, headers, section)?;
    }
    Ok(())
}

/// The file header, the contents of the sections and the section headers, in one. Beside the
/// object there are two copies of its bytes at most, that of the sections and that of the file.
#[tactic(auto, unfolding(crate::specs::Elf::encode), using(crate::proofs::Sizes::length_file_header))]
fn file_of(alloc: Global, object: &Object) -> Result<Bytes, NoMemory>
    requires { IsGood object.now }
    ensures { IfOk result (λ bytes. Holds bytes object.now) }
{
    let sections = sections(alloc, object)?;
    let mut headers = Bytes::new(alloc);
    headers.extend(&[0; 64])?;
    let mut file = Bytes::new(alloc);
    put_file_header(&mut file, aligned(end_of(&sections)?, 8)?)?;
    put_sections(&mut file, &mut headers, &sections)?;
    pad(&mut file, 8)?;
    file.extend(headers.as_slice())?;
    Ok(file)
}

/// The file of a good object. It is refused for want of memory alone.
pub fn write(alloc: Global, object: &Object) -> Result<Bytes, NoMemory>
    requires { IsGood object.now }
    ensures holds { IfOk result (λ bytes. Holds bytes object.now) }
    ensures size { IfOk result (λ bytes. length bytes ≤ size_bound object.now) }
{
    file_of(alloc, object)
}
