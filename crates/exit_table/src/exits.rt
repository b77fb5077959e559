//! The exit section.

ghost use Rattle.std.specs.Prelude.{◌≡◌, ◌++◌, All, OnOk, IfOk};
ghost use Rattle.std.specs.List.{flat_map};
ghost use Rattle.b3_base.specs.Word.{bits};
ghost use Rattle.exit_table.specs.Spelling.{kind_number, result_number, rep_number, rep_value, place_spelling, site_spelling, exit_section};
ghost use Rattle.exit_table.specs.Good.{HasFewPlaces, IsWritable};

use crate::tables::{SiteRow, SiteRows, Tables};
use b3_base::{Bytes, NoMemory, Width, put_u32s, put_u64s};
use b3_ir::Reg;
use stackmap::{Place, Places, Rep, SiteKind};
use std::alloc::Global;

fn width_bits(width: Width) -> u32
    ensures { result ≡ bits width }
{
    match width {
        Width::W32 => 32,
        Width::W64 => 64,
    }
}

fn kind_code(kind: SiteKind) -> u32
    ensures { result ≡ kind_number kind }
{
    match kind {
        SiteKind::Call => 1,
        SiteKind::Patchpoint => 2,
        SiteKind::Exit => 3,
        SiteKind::Trap => 4,
    }
}

fn result_code(outcome: Option<(Width, Reg)>) -> u32
    ensures { result ≡ result_number outcome }
{
    match outcome {
        None => 0,
        Some((Width::W32, reg)) => 256 + u32::from(reg.0),
        Some((Width::W64, reg)) => 512 + u32::from(reg.0),
    }
}

fn rep_code(rep: Rep) -> u32
    ensures { result ≡ rep_number rep }
{
    match rep {
        Rep::Register(_) => 1,
        Rep::Slot(_) => 2,
        Rep::Constant(_) => 3,
    }
}

fn rep_word(rep: Rep) -> u64
    ensures { result ≡ rep_value rep }
{
    match rep {
        Rep::Register(reg) => u64::from(reg.0),
        Rep::Slot(offset) => u64::from(offset),
        Rep::Constant(value) => value,
    }
}

fn put_place(out: &mut Bytes, place: &Place) -> Result<(), NoMemory>
    ensures { OnOk result (out.new ≡ out.old ++ place_spelling place.now) }
{
    put_u32s(out, &[rep_code(place.rep), width_bits(place.width)])?;
    put_u64s(out, &[rep_word(place.rep)])
}

fn put_places(out: &mut Bytes, places: &Places) -> Result<(), NoMemory>
    ensures { OnOk result (out.new ≡ out.old ++ flat_map place_spelling places.now) }
{
    for place in places.as_slice() {
        put_place(out, place)?;
    }
    Ok(())
}

#[tactic(auto, unfolding(crate::specs::Spelling::site_spelling))]
fn put_site(out: &mut Bytes, row: &SiteRow) -> Result<(), NoMemory>
    requires { HasFewPlaces row.now }
    ensures { OnOk result (out.new ≡ out.old ++ site_spelling row.now) }
{
    let site = &row.site;
    put_u32s(
        out,
        &[
            row.pc,
            kind_code(site.kind),
            site.value,
            site.size,
            site.reps.len() as u32,
            result_code(site.result),
            site.clobbers.bits(),
            0,
        ],
    )?;
    put_places(out, &row.site.reps)
}

fn put_sites(out: &mut Bytes, sites: &SiteRows) -> Result<(), NoMemory>
    requires { All HasFewPlaces sites.now }
    ensures { OnOk result (out.new ≡ out.old ++ flat_map site_spelling sites.now) }
{
    for row in sites.as_slice() {
        put_site(out, row)?;
    }
    Ok(())
}

/// The exit section of tables that some text has. It is refused for want of memory alone.
#[tactic(auto, unfolding(crate::specs::Spelling::exit_section))]
pub fn write_exits(alloc: Global, tables: &Tables) -> Result<Bytes, NoMemory>
    requires { IsWritable tables.now }
    ensures { IfOk result (λ bytes. bytes ≡ exit_section tables.now) }
{
    let mut out = Bytes::new(alloc);
    out.extend(b"B3EX")?;
    put_u32s(&mut out, &[1, tables.sites.len() as u32, 0])?;
    put_sites(&mut out, &tables.sites)?;
    Ok(out)
}
