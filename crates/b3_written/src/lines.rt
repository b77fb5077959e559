//! Lines, written.

ghost use Rattle.std.specs.Prelude.{◌≡◌, ◌++◌, ◌∷◌, [], OnOk, IfOk, false, length, codes};
ghost use Rattle.b3_ir.specs.Table.{row_of};
ghost use Rattle.b3_rows.specs.Written as spec;
ghost use Rattle.b3_rows.specs.declared.row.Row.TheVariants as rows;
ghost use Rattle.b3_written.specs.Listed as list;

use crate::items::{constraints_of, put_children, put_last, put_lead};
use crate::numbers::{put_decimal, put_separator};
use b3_base::{Bytes, NoMemory};
use b3_ir::{Kind, Value};
use b3_items::{carries_of, name_of, taken_by, type_text};

fn put_flag(out: &mut Bytes, kind: Kind) -> Result<(), NoMemory>
    ensures { OnOk result (out.new ≡ out.old ++ spec.chosen_flag kind) }
{
    if kind.chill {
        out.extend(b"<Chill>")
    } else if kind.traps {
        out.extend(b"<Traps>")
    } else {
        Ok(())
    }
}

fn put_kind(out: &mut Bytes, kind: Kind) -> Result<(), NoMemory>
    ensures { OnOk result (out.new ≡ out.old ++ spec.kind_text kind) }
{
    out.extend(name_of(kind.opcode))?;
    put_flag(out, kind)
}

/// The items between the parentheses.
fn put_items(out: &mut Bytes, value: &Value) -> Result<(), NoMemory>
    requires { list.FitsWord (row_of value.now.kind.opcode).carries value.now.body }
    ensures { OnOk result (out.new ≡ out.old ++ spec.joined (spec.item_texts value.now)) }
{
    let opcode = value.kind.opcode;
    let led = put_lead(out, carries_of(opcode), &value.body)?;
    let some = put_children(
        out,
        led,
        taken_by(opcode),
        value.children.as_slice(),
        constraints_of(&value.body),
    )?;
    put_last(out, some, &value.body)?;
    Ok(())
}

fn put_head(out: &mut Bytes, value: &Value) -> Result<(), NoMemory>
    ensures { OnOk result (out.new ≡ out.old ++ list.head_text value.now) }
{
    out.extend(type_text(value.ty))?;
    out.extend(b" b@")?;
    put_decimal(out, value.id)?;
    out.extend(b" = ")?;
    put_kind(out, value.kind)
}

/// Adds the line of a value, without its successors and without LF. It is refused for want of memory alone.
#[tactic(auto, using(crate::proofs::ListedLemmas::value_line))]
pub fn write_value(out: &mut Bytes, value: &Value) -> Result<(), NoMemory>
    requires { list.FitsWord (row_of value.now.kind.opcode).carries value.now.body }
    ensures { OnOk result (out.new ≡ out.old ++ spec.line_of_row (rows.ValueRow value.now)) }
{
    out.extend(b"    ")?;
    put_head(out, value)?;
    out.extend(b"(")?;
    put_items(out, value)?;
    out.extend(b")")
}

/// Adds the line of a procedure's name, without LF. It is refused for want of memory alone.
pub fn write_header(out: &mut Bytes, name: &[u8]) -> Result<(), NoMemory>
    ensures { OnOk result (out.new ≡ out.old ++ spec.line_of_row (rows.Header name.now)) }
{
    out.extend(b"procedure ")?;
    out.extend(name)
}

/// Adds the line of a slot of `bytes` bytes, without LF. It is refused for want of memory alone.
pub fn write_slot(out: &mut Bytes, number: u32, bytes: u32) -> Result<(), NoMemory>
    ensures { OnOk result (out.new ≡ out.old ++ spec.line_of_row (rows.Slot number bytes)) }
{
    out.extend(b"    stack")?;
    put_decimal(out, number)?;
    out.extend(b": byteSize = ")?;
    put_decimal(out, bytes)
}

/// Adds the heading of a block, without LF. It is refused for want of memory alone.
pub fn write_heading(out: &mut Bytes, number: u32) -> Result<(), NoMemory>
    ensures { OnOk result (out.new ≡ out.old ++ spec.line_of_row (rows.Heading number)) }
{
    out.extend(b"BB#")?;
    put_decimal(out, number)?;
    out.extend(b":")
}

fn put_target(out: &mut Bytes, number: u32) -> Result<(), NoMemory>
    ensures { OnOk result (out.new ≡ out.old ++ spec.target_text number) }
{
    out.extend(b"#")?;
    put_decimal(out, number)
}

/// Adds the line of one successor, without LF. It is refused for want of memory alone.
pub fn write_one(out: &mut Bytes, target: u32) -> Result<(), NoMemory>
    ensures { OnOk result (out.new ≡ out.old ++ spec.line_of_row (rows.One target)) }
{
    out.extend(b"  Successors: ")?;
    put_target(out, target)?;
    Ok(())
}

/// Adds the line of two successors, without LF. It is refused for want of memory alone.
pub fn write_two(out: &mut Bytes, then_block: u32, else_block: u32) -> Result<(), NoMemory>
    ensures { OnOk result (out.new ≡ out.old ++ spec.line_of_row (rows.Two then_block else_block)) }
{
    out.extend(b"  Successors: Then:")?;
    put_target(out, then_block)?;
    out.extend(b", Else:")?;
    put_target(out, else_block)?;
    Ok(())
}

/// A target among others, or the last, the fall-through.
fn put_chosen(out: &mut Bytes, number: u32, more: &[u32]) -> Result<(), NoMemory>
    ensures { OnOk result (out.new ≡ out.old ++ list.chosen_target number more.now) }
{
    if more.is_empty() {
        out.extend(b"fallThrough:")?;
    }
    put_target(out, number)?;
    Ok(())
}

#[tactic(auto, using(crate::proofs::ListedLemmas::listed_none))]
fn put_targets(out: &mut Bytes, targets: &[u32]) -> Result<(), NoMemory>
    ensures { OnOk result (out.new ≡ out.old ++ spec.joined (spec.target_texts targets.now)) }
{
    let mut some = false;
    let mut left = targets;
    while let Some((number, more)) = left.split_first() {
        put_separator(out, some)?;
        put_chosen(out, *number, more)?;
        some = true;
        left = more;
    }
    Ok(())
}

/// Adds the line of the successors of cases, of which the last is the fall-through, without LF. It is refused for
/// want of memory alone.
pub fn write_many(out: &mut Bytes, targets: &[u32]) -> Result<(), NoMemory>
    ensures { OnOk result (out.new ≡ out.old ++ spec.line_of_row (rows.Many targets.now)) }
{
    out.extend(b"  Successors: ")?;
    put_targets(out, targets)?;
    Ok(())
}
