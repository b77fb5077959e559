//! Reading a text, row by row.

ghost use Rattle.std.specs.Prelude.{◌≡◌, ℕ, ◌+◌, ◌-◌, ◌<◌, ◌≤◌, ◌^◌, ◌∷◌, [], length, IfOk, IfErr, Some, None, Ok, Err, List};
ghost use Rattle.b3_ir.specs.Procedure.{Procedure, procedures};
ghost use Rattle.b3_module.specs.declared.place.Following.TheVariants as followings;
ghost use Rattle.b3_module.specs.Texts.{added, added_value, after_value, at, following, opened, placed, returned, slotted, valued, jumped, branched, switched, Spells, BadLine};
ghost use Rattle.b3_module.specs.Reading.{FitsWith, HasBlock, IsNoLimit, may_end, IsCounted, IsPlaceIn, IsReachable, MayStand, state_of};
ghost use Rattle.b3_module.specs.TextModules.{IsTextModule};
ghost use Rattle.b3_module.specs.Told.{Gives, IfLimit, IfSyntax};
ghost use Rattle.b3_module.specs.Limits.{IsFirstLimit, KeepsLimits};
ghost use Rattle.b3_module.specs.declared.fault.LimitName.{LimitName};

use crate::adding::{add_heading, add_procedure, add_slot, add_value};
use crate::counting::first_passed;
use crate::fault::TextFault;
use crate::place::{Following, Place, cases_in, follows, with_targets};
use b3_base::{Ids, NoMemory};
use b3_ir::{Module, Value};
use b3_lines::next_line;
use b3_rows::{Row, read_row as row_of};
use std::alloc::Global;

/// The procedures, where a header comes.
fn read_header(made: &mut Module, line: u32, row: Row) -> Result<Option<Place>, NoMemory>
    requires row { MayStand row }
    requires counted { IsCounted (procedures made.old) line }
    requires few { line < 2 ^ 32 - 1 }
    ensures { IfOk result (λ next. opened (procedures made.old) line row ≡ state_of next (procedures made.new)) }
{
    match row {
        Row::Header(name) => {
            add_procedure(made, name.as_slice(), line)?;
            Ok(Some(Place::Slots))
        }
        _ => Ok(None),
    }
}

/// Where a slot or the heading of the first block comes.
fn read_slot(made: &mut Module, line: u32, row: Row) -> Result<Option<Place>, NoMemory>
    requires some { 1 ≤ length (procedures made.old) }
    requires counted { IsCounted (procedures made.old) line }
    requires few { line < 2 ^ 32 - 1 }
    ensures { IfOk result (λ next. slotted (procedures made.old) line row ≡ state_of next (procedures made.new)) }
{
    match row {
        Row::Slot { number, bytes } => {
            add_slot(made, number, bytes, line)?;
            Ok(Some(Place::Slots))
        }
        Row::Heading(number) => {
            add_heading(made, number, line)?;
            Ok(Some(Place::Values))
        }
        _ => Ok(None),
    }
}

/// A value, which is added at once where no line of successors has to follow.
fn read_value(made: &mut Module, line: u32, value: Value) -> Result<Option<Place>, NoMemory>
    requires block { HasBlock (procedures made.old) }
    requires value { FitsWith (following value.kind.opcode) value }
    requires counted { IsCounted (procedures made.old) line }
    requires few { line < 2 ^ 32 - 1 }
    ensures { IfOk result (λ next. Some (after_value (following value.kind.opcode) (procedures made.old) value) ≡ state_of next (procedures made.new)) }
{
    match follows(value.kind.opcode) {
        Following::Nothing => {
            add_value(made, value, line)?;
            Ok(Some(Place::Values))
        }
        Following::Bare => {
            add_value(made, value, line)?;
            Ok(Some(Place::Returned))
        }
        Following::One => Ok(Some(Place::Jump(value))),
        Following::Two => Ok(Some(Place::Branch(value))),
        Following::Many => Ok(Some(Place::Switch(value))),
    }
}

/// Where a value, a heading or a header comes.
fn read_in_block(made: &mut Module, line: u32, row: Row) -> Result<Option<Place>, NoMemory>
    requires block { HasBlock (procedures made.old) }
    requires row { MayStand row }
    requires counted { IsCounted (procedures made.old) line }
    requires few { line < 2 ^ 32 - 1 }
    ensures { IfOk result (λ next. valued (procedures made.old) line row ≡ state_of next (procedures made.new)) }
{
    match row {
        Row::ValueRow(mut value) => {
            value.line = line;
            read_value(made, line, value)
        }
        Row::Heading(number) => {
            add_heading(made, number, line)?;
            Ok(Some(Place::Values))
        }
        Row::Header(name) => {
            add_procedure(made, name.as_slice(), line)?;
            Ok(Some(Place::Slots))
        }
        _ => Ok(None),
    }
}

/// Where a bare line of successors may come too.
fn read_returned(made: &mut Module, line: u32, row: Row) -> Result<Option<Place>, NoMemory>
    requires block { HasBlock (procedures made.old) }
    requires row { MayStand row }
    requires counted { IsCounted (procedures made.old) line }
    requires few { line < 2 ^ 32 - 1 }
    ensures { IfOk result (λ next. returned (procedures made.old) line row ≡ state_of next (procedures made.new)) }
{
    if matches!(row, Row::NoSuccessors) {
        return Ok(Some(Place::Values));
    }
    read_in_block(made, line, row)
}

/// Where the successor of a Jump comes.
fn read_one(
    alloc: Global,
    made: &mut Module,
    mut value: Value,
    line: u32,
    row: Row,
) -> Result<Option<Place>, NoMemory>
    requires block { HasBlock (procedures made.old) }
    requires value { FitsWith followings.One value }
    requires counted { IsCounted (procedures made.old) line }
    requires few { line < 2 ^ 32 - 1 }
    ensures { IfOk result (λ next. jumped value (procedures made.old) row ≡ state_of next (procedures made.new)) }
{
    match row {
        Row::One(target) => {
            let mut targets = Ids::new(alloc);
            targets.push(target)?;
            value.body = with_targets(value.body, targets);
            add_value(made, value, line)?;
            Ok(Some(Place::Values))
        }
        _ => Ok(None),
    }
}

/// Where the successors of a Branch come.
fn read_two(
    alloc: Global,
    made: &mut Module,
    mut value: Value,
    line: u32,
    row: Row,
) -> Result<Option<Place>, NoMemory>
    requires block { HasBlock (procedures made.old) }
    requires value { FitsWith followings.Two value }
    requires counted { IsCounted (procedures made.old) line }
    requires few { line < 2 ^ 32 - 1 }
    ensures { IfOk result (λ next. branched value (procedures made.old) row ≡ state_of next (procedures made.new)) }
{
    match row {
        Row::Two {
            then_block,
            else_block,
        } => {
            let mut targets = Ids::new(alloc);
            targets.push(then_block)?;
            targets.push(else_block)?;
            value.body = with_targets(value.body, targets);
            add_value(made, value, line)?;
            Ok(Some(Place::Values))
        }
        _ => Ok(None),
    }
}

/// Where the successors of a Switch come.
fn read_many(
    made: &mut Module,
    mut value: Value,
    line: u32,
    row: Row,
) -> Result<Option<Place>, NoMemory>
    requires block { HasBlock (procedures made.old) }
    requires value { FitsWith followings.Many value }
    requires counted { IsCounted (procedures made.old) line }
    requires few { line < 2 ^ 32 - 1 }
    ensures { IfOk result (λ next. switched value (procedures made.old) row ≡ state_of next (procedures made.new)) }
{
    match row {
        Row::Many(targets) => {
            if targets.len() <= cases_in(&value.body)
                || targets.len() - 1 != cases_in(&value.body)
            {
                return Ok(None);
            }
            value.body = with_targets(value.body, targets);
            add_value(made, value, line)?;
            Ok(Some(Place::Values))
        }
        _ => Ok(None),
    }
}

/// Adds what the row on a line says, and gives what comes next.
fn read_row(
    alloc: Global,
    made: &mut Module,
    place: Place,
    line: u32,
    row: Row,
) -> Result<Option<Place>, NoMemory>
    requires reachable { IsReachable (at place (procedures made.old)) line }
    requires row { MayStand row }
    requires few { line < 2 ^ 32 - 1 }
    ensures { IfOk result (λ next. added (at place (procedures made.old)) line row ≡ state_of next (procedures made.new)) }
{
    if matches!(row, Row::Blank) {
        return Ok(Some(place));
    }
    match place {
        Place::Outside => read_header(made, line, row),
        Place::Slots => read_slot(made, line, row),
        Place::Values => read_in_block(made, line, row),
        Place::Returned => read_returned(made, line, row),
        Place::Jump(value) => read_one(alloc, made, value, line, row),
        Place::Branch(value) => read_two(alloc, made, value, line, row),
        Place::Switch(value) => read_many(made, value, line, row),
    }
}

/// Whether a text may end there.
fn may_end(place: Place) -> bool
    ensures { result ≡ may_end place }
{
    matches!(place, Place::Values | Place::Returned)
}

/// The module that the bytes spell, limits aside.
fn read_text(alloc: Global, bytes: &[u8]) -> Result<Module, TextFault>
    requires { length bytes.now < 2 ^ 32 - 1 }
    ensures ok { IfOk result (λ made. Spells bytes.now (procedures made)) }
    ensures bad_line { IfErr result (λ fault. IfSyntax fault (λ line. BadLine bytes.now line)) }
    ensures no_limit { IfErr result IsNoLimit }
{
    let mut made = Module::new(alloc);
    let mut place = Place::Outside;
    let mut line: u32 = 1;
    let mut rest = bytes;
    while let Some((text, after)) = next_line(rest) {
        let row = row_of(alloc, text)?;
        let Some(next) = read_row(alloc, &mut made, place, line, row)? else {
            return Err(TextFault::Syntax { line });
        };
        place = next;
        line += 1;
        rest = after;
    }
    if may_end(place) {
        Ok(made)
    } else {
        Err(TextFault::Syntax { line })
    }
}

/// The module that the bytes spell within the limits.
fn read_within(alloc: Global, bytes: &[u8]) -> Result<Module, TextFault>
    requires { length bytes.now < 2 ^ 32 - 1 }
    ensures ok { IfOk result (λ made. Spells bytes.now (procedures made)) }
    ensures within { IfOk result (λ made. KeepsLimits (procedures made)) }
    ensures syntax { IfErr result (λ fault. IfSyntax fault (λ line. BadLine bytes.now line)) }
    ensures limit { IfErr result (λ fault. IfLimit fault (λ which line. (m : List Procedure) × Spells bytes.now m × IsFirstLimit m which line)) }
{
    let made = read_text(alloc, bytes)?;
    match first_passed(&made) {
        None => Ok(made),
        Some(passed) => Err(TextFault::Limit {
            which: passed.which,
            line: passed.line,
        }),
    }
}

/// The module that the bytes spell. It is refused with `Syntax` exactly where they spell none, with
/// `Limit` exactly where they spell one that passes a limit, and else for want of memory alone.
pub fn read(alloc: Global, bytes: &[u8]) -> Result<Module, TextFault>
    // 32 bits count the lines.
    requires { length bytes.now < 2 ^ 32 - 1 }
    // What is read is spelled, and passes no limit.
    ensures ok { IfOk result (λ made. Spells bytes.now (procedures made)) }
    ensures within { IfOk result (λ made. KeepsLimits (procedures made)) }
    // Its names, numbers and values are ones that lines can say.
    ensures text { IfOk result (λ made. IsTextModule (procedures made)) }
    // The line of a refusal is the bad line.
    ensures syntax { IfErr result (λ fault. IfSyntax fault (λ line. BadLine bytes.now line)) }
    // A limit that is told is the first that is passed, at its line.
    ensures limit { IfErr result (λ fault. IfLimit fault (λ which line. (m : List Procedure) × Spells bytes.now m × IsFirstLimit m which line)) }
    // What is spelled within the limits is read, and a bad line and a limit are told, unless memory runs
    // out.
    ensures spelled { (m : List Procedure) → Spells bytes.now m → KeepsLimits m → Gives result (Ok m) }
    ensures refused { (line : ℕ) → BadLine bytes.now line → Gives result (Err (TextFault.Syntax line)) }
    ensures limited { (m : List Procedure) (which : LimitName) (line : ℕ) → Spells bytes.now m → IsFirstLimit m which line → Gives result (Err (TextFault.Limit which line)) }
{
    read_within(alloc, bytes)
}
