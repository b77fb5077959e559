//! The words of labelled code.

use crate::labelled::text_of;
use a64_inst::{Cond, Inst, Item, Labelled};
use a64_layout::Text;
use b3_base::{NoMemory, Width};
use std::alloc::Global;
use std::fmt::Write;
use std::test::Fail;
use tests_rows::Teller;

/// The word of NOP.
const NOP: u32 = 0xD503_201F;

/// The most NOPs in a row.
const MOST_NOPS: u32 = 1_000_000;

/// Tells the words of labelled code, and the places of its labels and marks.
#[derive(Drop)]
pub(crate) struct Branches;

impl Teller for Branches {
    fn told(&mut self, alloc: Global, asked: &str) -> Result<String, Fail> {
        let mut code = Labelled::new(alloc);
        for part in asked.split(", ") {
            push_part(&mut code, part)?;
        }
        shown(alloc, &text_of(alloc, code)?)
    }
}

/// Adds what a part of a row says: an instruction, so many NOPs, a label or a mark.
fn push_part(code: &mut Labelled, part: &str) -> Result<(), Fail> {
    if let Some(count) = part.strip_prefix("nop * ") {
        return push_nops(code, count.parse::<u32>()?);
    }
    if let Some(label) = part.strip_prefix("label ") {
        code.push(Item::Label(label.parse::<u32>()?))?;
        return Ok(());
    }
    if let Some(mark) = part.strip_prefix("mark ") {
        code.push(Item::Mark(mark.parse::<u32>()?))?;
        return Ok(());
    }
    code.push(branch_of(part)?)?;
    Ok(())
}

fn push_nops(code: &mut Labelled, count: u32) -> Result<(), Fail> {
    if count > MOST_NOPS {
        return Err(Fail::from("too many NOPs"));
    }
    for _ in 0..count {
        code.push(Item::Plain(Inst::Nop))?;
    }
    Ok(())
}

/// The branch of a text as `b 1`, `b.eq 0`, `cbz x0 1` or `tbnz 31 63 0`, whose last number is that of the label.
fn branch_of(text: &str) -> Result<Item, Fail> {
    let mut words = text.split_whitespace();
    let name = words.next().unwrap_or("");
    let first = words.next().unwrap_or("");
    let second = words.next().unwrap_or("");
    match name {
        "b" => Ok(Item::Jump(first.parse::<u32>()?)),
        "b.eq" => Ok(Item::If(Cond::Eq, first.parse::<u32>()?)),
        "b.le" => Ok(Item::If(Cond::Le, first.parse::<u32>()?)),
        "cbz" | "cbnz" => if_zero(name == "cbnz", first, second.parse::<u32>()?),
        "tbz" | "tbnz" => {
            let label = words.next().unwrap_or("").parse::<u32>()?;
            Ok(Item::IfBit {
                nonzero: name == "tbnz",
                reg: first.parse::<u8>()?,
                bit: second.parse::<u32>()?,
                label,
            })
        }
        _ => Err(Fail::from("no branch")),
    }
}

/// A test of a register as `x0` or `w3`.
fn if_zero(nonzero: bool, register: &str, label: u32) -> Result<Item, Fail> {
    let (width, digits) = match register.strip_prefix('w') {
        Some(digits) => (Width::W32, digits),
        None => (Width::W64, register.strip_prefix('x').ok_or("no register")?),
    };
    Ok(Item::IfZero {
        width,
        nonzero,
        reg: digits.parse::<u8>()?,
        label,
    })
}

/// The words, NOPs counted, and the places.
fn shown(alloc: Global, text: &Text) -> Result<String, Fail> {
    let mut told = String::new(alloc);
    let mut nops = 0u32;
    for word in text.words.as_slice() {
        if *word == NOP {
            nops = nops.wrapping_add(1);
        } else {
            push_count(&mut told, nops)?;
            nops = 0;
            write!(told, "{word:08X}, ")?;
        }
    }
    push_count(&mut told, nops)?;
    told.push_str("labels")?;
    push_places(&mut told, text.labels.as_slice())?;
    if !text.marks.is_empty() {
        told.push_str(", marks")?;
        push_places(&mut told, text.marks.as_slice())?;
    }
    Ok(told)
}

fn push_count(told: &mut String, nops: u32) -> Result<(), Fail> {
    if nops > 0 {
        write!(told, "nop * {nops}, ")?;
    }
    Ok(())
}

fn push_places(told: &mut String, places: &[u32]) -> Result<(), NoMemory> {
    for place in places {
        write!(told, " {place}")?;
    }
    Ok(())
}
