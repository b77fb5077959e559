//! Reading the exit section.

ghost use Rattle.std.specs.Prelude.{◌≡◌, ℕ, ◌+◌, ◌/◌, ◌^◌, ◌<◌, ◌≤◌, ◌&&◌, ◌||◌, nat_le, nat_lt, length, map, All, OnOk, IfOk};
ghost use Rattle.b3_base.specs.Word.{bits};
ghost use Rattle.b3_base.specs.Fields.{fields};
ghost use Rattle.exit_table.specs.Reading.{Gives, check, one, rows, whole};
ghost use Rattle.exit_table.specs.declared.fault.Cause.TheVariants.{Rule};
ghost use Rattle.exit_table.specs.declared.exit_reader.Form.TheVariants.{InRegister, InFrame, Word};
ghost use Rattle.exit_table.specs.ExitReading as rule;
ghost use Rattle.exit_table.specs.ExitReading.{place_at, after_place, site_from, site_at, after_site, sites_at};
ghost use Rattle.exit_table.specs.Rooms.{nowhere, room_at};
ghost use Rattle.exit_table.specs.Homes.{room_of, first_room, IsStacked};

use crate::fault::{Cause, ReadError};
use crate::frame_reader::{Home, Homes, is_word_at};
use crate::reading::{check, ended, field, mark, placed, zero};
use crate::tables::{SiteRow, SiteRows};
use crate::taken::Taken;
use b3_base::{Seq, Width};
use b3_ir::{Reg, RegSet};
use stackmap::{Place, Places, Rep, Site, SiteKind};
use std::alloc::Global;

/// What the first field of a place says of it.
#[derive(Clone, Copy, Debug, PartialEq, Eq)]
pub(crate) enum Form {
    /// It is a register.
    InRegister,
    /// It stands in the frame.
    InFrame,
    /// It is a word.
    Word,
}

/// Where a site stands: at a whole word, at or after the end of the site before.
fn site_pc(end: u64, number: u32) -> Result<u32, Cause>
    ensures { result ≡ rule.site_pc end number }
{
    if number % 4 == 0 {
        check(end <= u64::from(number), Cause::Order, number)
    } else {
        Err(Cause::Rule)
    }
}

fn kind_of(number: u32) -> Result<SiteKind, Cause>
    ensures { result ≡ rule.kind_of number }
{
    match number {
        1 => Ok(SiteKind::Call),
        2 => Ok(SiteKind::Patchpoint),
        3 => Ok(SiteKind::Exit),
        4 => Ok(SiteKind::Trap),
        _ => Err(Cause::Unlisted),
    }
}

/// How many words a site of a kind may have.
fn may_have(kind: SiteKind, number: u32) -> bool
    ensures { result ≡ rule.may_have kind number }
{
    match kind {
        SiteKind::Patchpoint => 1 <= number && number <= 64,
        _ => number == 1,
    }
}

/// The words of a site, which ends within its procedure.
fn site_size(kind: SiteKind, pc: u32, end: u64, number: u32) -> Result<u32, Cause>
    ensures { result ≡ rule.site_size kind pc end number }
{
    let holds = may_have(kind, number) && u64::from(pc) + 4 * u64::from(number) <= end;
    check(holds, Cause::Rule, number)
}

/// How many words a site of a kind may report.
fn place_count(kind: SiteKind, number: u32) -> Result<u32, Cause>
    ensures { result ≡ rule.place_count kind number }
{
    let holds = match kind {
        SiteKind::Call => number <= 8,
        SiteKind::Trap => number == 0,
        _ => true,
    };
    check(holds, Cause::Rule, number)
}

/// A result by its width and its register.
fn result_of(number: u32) -> Result<Option<(Width, Reg)>, Cause>
    ensures { result ≡ rule.result_of number }
{
    if number == 0 {
        Ok(None)
    } else if 256 <= number && number < 512 {
        Ok(Some((Width::W32, Reg((number - 256) as u8))))
    } else if 512 <= number && number < 768 {
        Ok(Some((Width::W64, Reg((number - 512) as u8))))
    } else {
        Err(Cause::Unlisted)
    }
}

/// In which register a site of a kind may answer.
fn may_answer(kind: SiteKind, answer: Option<(Width, Reg)>) -> bool
    ensures { result ≡ rule.may_answer kind answer }
{
    match (kind, answer) {
        (SiteKind::Call, Some((_, reg))) => reg.0 == 0,
        (SiteKind::Patchpoint, Some((_, reg))) => reg.0 <= 30,
        (_, answer) => answer.is_none(),
    }
}

fn site_result(kind: SiteKind, number: u32) -> Result<Option<(Width, Reg)>, Cause>
    ensures { result ≡ rule.site_result kind number }
{
    let answer = result_of(number)?;
    check(may_answer(kind, answer), Cause::Rule, answer)
}

/// Which registers a site of a kind may change.
fn may_change(kind: SiteKind, number: u32) -> bool
    ensures { result ≡ rule.may_change kind number }
{
    match kind {
        SiteKind::Call => number == 0x4007_FFFF,
        SiteKind::Patchpoint => number < 1 << 31 && number & 0x2004_0000 == 0,
        _ => number == 0,
    }
}

fn site_clobbers(kind: SiteKind, number: u32) -> Result<RegSet, Cause>
    ensures { result ≡ rule.site_clobbers kind number }
{
    if may_change(kind, number) {
        Ok(RegSet::from_bits(number))
    } else {
        Err(Cause::Rule)
    }
}

fn form_of(number: u32) -> Result<Form, Cause>
    ensures { result ≡ rule.form_of number }
{
    match number {
        1 => Ok(Form::InRegister),
        2 => Ok(Form::InFrame),
        3 => Ok(Form::Word),
        _ => Err(Cause::Unlisted),
    }
}

fn width_of(number: u32) -> Result<Width, Cause>
    ensures { result ≡ rule.width_of number }
{
    match number {
        32 => Ok(Width::W32),
        64 => Ok(Width::W64),
        _ => Err(Cause::Unlisted),
    }
}

/// The bytes of a word.
fn bytes_of(width: Width) -> u32
    ensures { result ≡ bits width / 8 }
{
    match width {
        Width::W32 => 4,
        Width::W64 => 8,
    }
}

/// The i-th place of a call.
fn argument(i: u32, form: Form, number: u64) -> Result<Rep, Cause>
    ensures { result ≡ check (rule.is_argument i (rule.rep form number)) Rule (rule.rep form number) }
{
    if form == Form::InRegister && number <= 7 && number == u64::from(i) {
        Ok(Rep::Register(Reg(number as u8)))
    } else {
        Err(Cause::Rule)
    }
}

fn register(number: u64) -> Result<Rep, Cause>
    ensures { result ≡ check (nat_le number 14 || (nat_le 19 number && nat_le number 28)) Rule (rule.rep InRegister number) }
{
    if number <= 14 || 19 <= number && number <= 28 {
        Ok(Rep::Register(Reg(number as u8)))
    } else {
        Err(Cause::Rule)
    }
}

fn slot(home: &Home, width: Width, number: u64) -> Result<Rep, Cause>
    requires { IsStacked home.now }
    ensures { result ≡ check (rule.is_good_rep (room_of home.now) width (rule.rep InFrame number)) Rule (rule.rep InFrame number) }
{
    let bytes = home.bytes;
    if number < u64::from(bytes) && is_word_at(bytes, &home.taken, number as u32, bytes_of(width)) {
        Ok(Rep::Slot(number as u32))
    } else {
        Err(Cause::Rule)
    }
}

fn constant(width: Width, number: u64) -> Result<Rep, Cause>
    ensures { result ≡ check (nat_lt number (2 ^ bits width)) Rule (rule.rep Word number) }
{
    let holds = match width {
        Width::W32 => number < 1 << 32,
        Width::W64 => true,
    };
    check(holds, Cause::Rule, Rep::Constant(number))
}

/// Where the i-th word stands that a site of a kind reports.
fn rep_of(
    kind: SiteKind,
    home: &Home,
    i: u32,
    width: Width,
    form: Form,
    number: u64,
) -> Result<Rep, Cause>
    requires { IsStacked home.now }
    ensures { result ≡ rule.rep_of kind (room_of home.now) i width form number }
{
    if kind == SiteKind::Call {
        return argument(i, form, number);
    }
    match form {
        Form::InRegister => register(number),
        Form::InFrame => slot(home, width, number),
        Form::Word => constant(width, number),
    }
}

/// The i-th place of a site.
#[tactic(auto, unfolding(crate::specs::ExitReading::place_at))]
fn place<'a>(
    kind: SiteKind,
    home: &Home,
    i: u32,
    section: &'a [u8],
) -> Result<(Place, &'a [u8]), ReadError>
    requires { IsStacked home.now }
    ensures { Gives (λ x. (x.0, fields x.1.now)) result (place_at kind (room_of home.now) i (fields section.now)) }
{
    let (number, rest) = field(section)?;
    let form = placed(form_of(number), section)?;
    let (number, behind) = field(rest)?;
    let width = placed(width_of(number), rest)?;
    let (low, high_on) = field(behind)?;
    let (high, rest) = field(high_on)?;
    let number = u64::from(low) + (u64::from(high) << 32);
    let rep = placed(rep_of(kind, home, i, width, form, number), behind)?;
    Ok((Place { width, rep }, rest))
}

/// So many places of a site.
fn places<'a>(
    alloc: Global,
    kind: SiteKind,
    home: &Home,
    count: u32,
    section: &'a [u8],
) -> Result<(Places, &'a [u8]), ReadError>
    requires { IsStacked home.now }
    ensures { Gives (λ x. (x.0, fields x.1.now)) result (rows (place_at kind (room_of home.now)) after_place 0 count (fields section.now)) }
{
    let mut places = Places::new(alloc);
    let mut left = section;
    for i in 0..count {
        let (row, rest) = place(kind, home, i, left)?;
        places.push(row)?;
        left = rest;
    }
    Ok((places, left))
}

/// The fields of a site at a byte of the text, behind its place.
#[tactic(auto, unfolding(crate::specs::ExitReading::site_from))]
fn site_from<'a>(
    alloc: Global,
    pc: u32,
    home: &Home,
    section: &'a [u8],
) -> Result<(SiteRow, &'a [u8]), ReadError>
    requires { IsStacked home.now }
    ensures read { Gives (λ x. (x.0, fields x.1.now)) result (site_from pc (room_of home.now) (fields section.now)) }
    ensures pc { IfOk result (λ x. x.0.pc ≡ pc) }
{
    let (number, value_on) = field(section)?;
    let kind = placed(kind_of(number), section)?;
    let (value, size_on) = field(value_on)?;
    let (number, count_on) = field(size_on)?;
    let size = placed(site_size(kind, pc, home.end, number), size_on)?;
    let (number, result_on) = field(count_on)?;
    let count = placed(place_count(kind, number), count_on)?;
    let (number, clobbers_on) = field(result_on)?;
    let result = placed(site_result(kind, number), result_on)?;
    let (number, zero_on) = field(clobbers_on)?;
    let clobbers = placed(site_clobbers(kind, number), clobbers_on)?;
    let places_on = zero(zero_on)?;
    let (reps, rest) = places(alloc, kind, home, count, places_on)?;
    let site = Site {
        kind,
        value,
        size,
        reps,
        result,
        clobbers,
    };
    Ok((SiteRow { pc, site }, rest))
}

/// The procedures from the first on that ends behind a byte of the text.
fn skip(homes: &[Home], pc: u32) -> &[Home]
    ensures later { (later : ℕ) → pc ≤ later → room_at (map room_of homes.now) later ≡ room_at (map room_of result.now) later }
    ensures here { room_at (map room_of result.now) pc ≡ first_room result.now }
    ensures stacked { All IsStacked homes.now → All IsStacked result.now }
{
    for (i, home) in homes.iter().enumerate() {
        if u64::from(pc) < home.end {
            return &homes[i..];
        }
    }
    &homes[homes.len()..]
}

/// The first of the procedures that are left, or the room behind the text.
fn first_of<'a>(homes: &'a [Home], outside: &'a Home) -> &'a Home
    requires outside { room_of outside.now ≡ nowhere }
    requires stacked { All IsStacked homes.now }
    requires none { IsStacked outside.now }
    ensures room { room_of result.now ≡ first_room homes.now }
    ensures stacked { IsStacked result.now }
{
    match homes {
        [home, ..] => home,
        _ => outside,
    }
}

/// A site at or after a byte of the text, and the procedures that are left from its own on.
#[tactic(auto, unfolding(crate::specs::ExitReading::site_at))]
fn site<'a, 'h>(
    alloc: Global,
    homes: &'h [Home],
    outside: &Home,
    end: u64,
    section: &'a [u8],
) -> Result<(SiteRow, &'h [Home], &'a [u8]), ReadError>
    requires outside { room_of outside.now ≡ nowhere }
    requires stacked { All IsStacked homes.now }
    requires none { IsStacked outside.now }
    ensures read { Gives (λ x. (x.0, fields x.2.now)) result (site_at (map room_of homes.now) end (fields section.now)) }
    ensures behind { IfOk result (λ x. end ≤ x.0.pc) }
    ensures later { IfOk result (λ x. (later : ℕ) → x.0.pc ≤ later → room_at (map room_of homes.now) later ≡ room_at (map room_of x.1.now) later) }
    ensures stacked { IfOk result (λ x. All IsStacked x.1.now) }
{
    let (number, behind) = field(section)?;
    let pc = placed(site_pc(end, number), section)?;
    let left = skip(homes, pc);
    let (row, rest) = site_from(alloc, pc, first_of(left, outside), behind)?;
    Ok((row, left, rest))
}

/// So many sites of procedures.
fn sites<'a>(
    alloc: Global,
    homes: &[Home],
    count: u32,
    section: &'a [u8],
) -> Result<(SiteRows, &'a [u8]), ReadError>
    requires { All IsStacked homes.now }
    ensures { Gives (λ x. (x.0, fields x.1.now)) result (rows (site_at (map room_of homes.now)) after_site 0 count (fields section.now)) }
{
    let outside = Home {
        end: 0,
        bytes: 0,
        taken: Taken::new(alloc),
    };
    let mut sites = SiteRows::new(alloc);
    let mut end = 0;
    let mut later = homes;
    let mut left = section;
    for _ in 0..count {
        let (row, homes, rest) = site(alloc, later, &outside, end, left)?;
        end = u64::from(row.pc) + 4 * u64::from(row.site.size);
        sites.push(row)?;
        later = homes;
        left = rest;
    }
    Ok((sites, left))
}

/// `B3EX`, read as a number.
const MARK: u32 = 0x5845_3342;

/// The sites of procedures that a section spells.
#[tactic(auto, unfolding(crate::specs::ExitReading::sites_at, crate::specs::Reading::whole))]
pub(crate) fn exit_section(
    alloc: Global,
    homes: &Homes,
    section: &[u8],
) -> Result<SiteRows, ReadError>
    requires { All IsStacked homes.now }
    ensures { Gives (λ x. x) result (whole (sites_at (map room_of homes.now)) section.now) }
{
    let rest = mark(MARK, section)?;
    let (count, behind) = field(rest)?;
    let rest = zero(behind)?;
    let (sites, rest) = sites(alloc, homes.as_slice(), count, rest)?;
    ended(section, rest)?;
    Ok(sites)
}
