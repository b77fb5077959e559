//! Numbers, registers and constraints, written.

ghost use Rattle.std.specs.Prelude.{◌≡◌, ◌++◌, ◌^◌, ◌<◌, [], ◌∷◌, OnOk, map, codes};
ghost use Rattle.std.specs.Fmt.{decimal, signed_decimal};
ghost use Rattle.b3_base.specs.Word.{bits};
ghost use Rattle.b3_rows.specs.Written as spec;
ghost use Rattle.b3_written.specs.Listed.{listed, separator};

use b3_base::{Bytes, NoMemory, Width};
use b3_ir::{Constraint, Reg, RegSet};
use b3_items::constraint_name;
use itoa::Buffer;

pub(crate) fn put_decimal(out: &mut Bytes, number: u32) -> Result<(), NoMemory>
    ensures { OnOk result (out.new ≡ out.old ++ decimal number) }
{
    let mut buffer = Buffer::new();
    out.extend(buffer.format(number).as_bytes())
}

fn put_signed(out: &mut Bytes, number: i64) -> Result<(), NoMemory>
    ensures { OnOk result (out.new ≡ out.old ++ signed_decimal number) }
{
    let mut buffer = Buffer::new();
    out.extend(buffer.format(number).as_bytes())
}

pub(crate) fn put_offset(out: &mut Bytes, number: i32) -> Result<(), NoMemory>
    ensures { OnOk result (out.new ≡ out.old ++ signed_decimal number) }
{
    let mut buffer = Buffer::new();
    out.extend(buffer.format(number).as_bytes())
}

/// The signed value of a word.
pub(crate) fn put_word(out: &mut Bytes, width: Width, word: u64) -> Result<(), NoMemory>
    requires { word < 2 ^ bits width }
    ensures { OnOk result (out.new ≡ out.old ++ spec.word_text width word) }
{
    match width {
        Width::W32 => put_offset(out, (word as u32).cast_signed()),
        Width::W64 => put_signed(out, word.cast_signed()),
    }
}

/// A comma and a blank, where some items stand before.
pub(crate) fn put_separator(out: &mut Bytes, some: bool) -> Result<(), NoMemory>
    ensures { OnOk result (out.new ≡ out.old ++ separator some) }
{
    if some { out.extend(b", ") } else { Ok(()) }
}

fn put_reg(out: &mut Bytes, reg: u8) -> Result<(), NoMemory>
    ensures { OnOk result (out.new ≡ out.old ++ spec.reg_text reg) }
{
    out.extend(b"%x")?;
    put_decimal(out, u32::from(reg))
}

pub(crate) fn put_register(out: &mut Bytes, reg: Reg) -> Result<(), NoMemory>
    ensures { OnOk result (out.new ≡ out.old ++ spec.reg_text reg.0) }
{
    put_reg(out, reg.0)
}

pub(crate) fn put_constraint(out: &mut Bytes, constraint: Constraint) -> Result<(), NoMemory>
    ensures { OnOk result (out.new ≡ out.old ++ spec.constraint_text constraint) }
{
    match constraint {
        Constraint::Fixed(reg) => put_register(out, reg),
        Constraint::LateFixed(reg) => {
            out.extend(b"late:")?;
            put_register(out, reg)
        }
        _ => out.extend(constraint_name(constraint)),
    }
}
