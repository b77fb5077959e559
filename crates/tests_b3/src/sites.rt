//! What a value asks of its site, and whether a site obeys it.

ghost use Rattle.std.specs.Prelude.{◌≡◌, true};
ghost use Rattle.stackmap.specs.Rules.{IsPlaceable};

use b3_base::Width;
use b3_ir::{Body, Reg, RegSet, Value};
use b3_items::read_type;
use b3_rows::{Row, read_row};
use b3_rules::{cases_keep, site_breach};
use stackmap::{Place, Places, Rep, Site, SiteKind, obeys, registers_for, result_register};
use std::alloc::Global;
use std::fmt::Write;
use std::test::Fail;
use tests_rows::Teller;

/// Tells the first rule that a value breaks of those on its stackmap and its sizes, or else the registers of its
/// reported children and of its result.
#[derive(Drop)]
pub(crate) struct Placing;

impl Teller for Placing {
    fn told(&mut self, alloc: Global, asked: &str) -> Result<String, Fail> {
        let value = value_of(alloc, asked)?;
        if let Some(rule) = site_breach(&value) {
            let number = rule.number();
            return Ok(format!(in alloc; "rule {number}")?);
        }
        if is_placeable(&value) {
            placed(alloc, &value)
        } else {
            Ok(String::from_str(alloc, "kept")?)
        }
    }
}

/// Tells whether a site obeys a value.
#[derive(Drop)]
pub(crate) struct Obeying;

impl Teller for Obeying {
    fn told(&mut self, alloc: Global, asked: &str) -> Result<String, Fail> {
        let (value, site) = asked.split_once(" | ").ok_or("no site")?;
        let value = value_of(alloc, value)?;
        let site = site_of(alloc, site)?;
        let said = if obeys(&value, &site) {
            "obeys"
        } else {
            "disobeys"
        };
        Ok(String::from_str(alloc, said)?)
    }
}

/// Tells whether the cases of a Switch differ and are words of the type that stands before it.
#[derive(Drop)]
pub(crate) struct Cases;

impl Teller for Cases {
    fn told(&mut self, alloc: Global, asked: &str) -> Result<String, Fail> {
        let (ty, value) = asked.split_once(' ').ok_or("no type")?;
        let ty = read_type(ty.as_bytes()).ok_or("no such type")?;
        let value = value_of(alloc, value)?;
        let said = if cases_keep(alloc, ty, &value.body)? {
            "kept"
        } else {
            "broken"
        };
        Ok(String::from_str(alloc, said)?)
    }
}

/// The value of a line.
fn value_of(alloc: Global, line: &str) -> Result<Value, Fail> {
    match read_row(alloc, line.as_bytes())? {
        Row::ValueRow(value) => Ok(value),
        _ => Err(Fail::from("no value")),
    }
}

/// Whether a value has a stackmap that keeps the rules.
fn is_placeable(value: &Value) -> bool
    ensures { result ≡ true → IsPlaceable value.now }
{
    match &value.body {
        Body::Map(_) => site_breach(value).is_none(),
        _ => false,
    }
}

fn placed(alloc: Global, value: &Value) -> Result<String, Fail>
    requires { IsPlaceable value.now }
{
    let mut text = String::from_str(alloc, "placed")?;
    for register in registers_for(alloc, value)?.as_slice() {
        push_register(&mut text, *register)?;
    }
    if let Some(Reg(number)) = result_register(value) {
        write!(text, ", result x{number}")?;
    }
    Ok(text)
}

fn push_register(text: &mut String, register: Option<Reg>) -> Result<(), Fail> {
    match register {
        Some(Reg(number)) => write!(text, " x{number}")?,
        None => text.push_str(" anywhere")?,
    }
    Ok(())
}

/// The site of a row, as `x3 slot16, result x20, clobbers x1 x2`.
fn site_of(alloc: Global, text: &str) -> Result<Site, Fail> {
    let (places, rest) = text.split_once(", result ").ok_or("no result")?;
    let (result, clobbers) = rest.split_once(", clobbers").ok_or("no clobbers")?;
    Ok(Site {
        kind: SiteKind::Patchpoint,
        value: 3,
        size: 1,
        reps: places_of(alloc, places)?,
        result: result_of(result)?,
        clobbers: registers_of(clobbers)?,
    })
}

fn places_of(alloc: Global, text: &str) -> Result<Places, Fail> {
    let mut places = Places::new(alloc);
    for word in text.split_whitespace() {
        let rep = match word.strip_prefix("slot") {
            Some(digits) => Rep::Slot(digits.parse::<u32>()?),
            None => Rep::Register(register_of(word)?),
        };
        places.push(Place {
            width: Width::W64,
            rep,
        })?;
    }
    Ok(places)
}

fn result_of(text: &str) -> Result<Option<(Width, Reg)>, Fail> {
    if text == "none" {
        return Ok(None);
    }
    Ok(Some((Width::W64, register_of(text)?)))
}

fn registers_of(text: &str) -> Result<RegSet, Fail> {
    let mut set = RegSet::new();
    for word in text.split_whitespace() {
        let reg = register_of(word)?;
        if reg.0 > 30 {
            return Err(Fail::from("no such register"));
        }
        set.insert(reg);
    }
    Ok(set)
}

fn register_of(word: &str) -> Result<Reg, Fail> {
    Ok(Reg(word.strip_prefix('x').ok_or("no register")?.parse::<u8>()?))
}
