//! What one line says.

ghost use Rattle.std.specs.Prelude.{◌≡◌, ◌∷◌, [], ◌++◌, length, IfOk, OnOk, Some, None, IsTrue, ◌↔◌, option_map, option_and_then};
ghost use Rattle.b3_lines.specs.Tokens.{tokens};
ghost use Rattle.b3_items.specs.Numbers.{viewed};
ghost use Rattle.b3_items.specs.Items.{onto_front};
ghost use Rattle.b3_rows.specs.Rows as spec;

use crate::row::Row;
use crate::values::read_value;
use b3_base::{Ids, Name, NoMemory};
use b3_ir::is_name;
use b3_items::{after, is_mark_of, read_plain, read_plain_after};
use b3_lines::{are_ascii, before_comment, ends_in_cr, next_token, trim_end};
use std::alloc::Global;

// ---- headers, slots, headings

fn is_name_text(name: &[u8]) -> bool
    ensures { result ≡ spec.is_name_text name.now }
{
    is_name(name)
}

/// The name in `procedure NAME`.
#[tactic(auto, unfolding(crate::specs::Rows::header_of))]
fn header_name(text: &[u8]) -> Option<&[u8]>
    ensures { viewed result ≡ spec.header_of (tokens text.now) }
{
    let (word, rest) = next_token(text)?;
    let (name, rest) = next_token(rest)?;
    if next_token(rest).is_some() {
        return None;
    }
    if word == b"procedure".as_slice() && is_name_text(name) {
        Some(name)
    } else {
        None
    }
}

fn header_row(alloc: Global, text: &[u8]) -> Result<Option<Row>, NoMemory>
    ensures { IfOk result (λ row. row ≡ option_map Row.Header (spec.header_of (tokens text.now))) }
{
    let Some(bytes) = header_name(text) else {
        return Ok(None);
    };
    let mut name = Name::new(alloc);
    name.extend(bytes)?;
    Ok(Some(Row::Header(name)))
}

/// What stands before a colon at the end.
#[tactic(auto, using(crate::proofs::RowLemmas::colon_yes, crate::proofs::RowLemmas::colon_no, crate::proofs::RowLemmas::colon_none))]
fn before_colon(text: &[u8]) -> Option<&[u8]>
    ensures { viewed result ≡ spec.before_colon text.now }
{
    let (last, front) = text.split_last()?;
    if *last == b':' { Some(front) } else { None }
}

/// A plain number between a front and a colon.
#[tactic(auto, unfolding(crate::specs::Rows::plain_between))]
fn plain_between(front: &[u8], text: &[u8]) -> Option<u32>
    ensures { result ≡ spec.plain_between front.now text.now }
{
    read_plain_after(front, before_colon(text)?)
}

fn slot_with(number: Option<u32>, bytes: Option<u32>) -> Option<Row>
    ensures { result ≡ spec.slot_row number bytes }
{
    Some(Row::Slot {
        number: number?,
        bytes: bytes?,
    })
}

/// `stackN: byteSize = N`.
#[tactic(auto, unfolding(crate::specs::Rows::slot_of_line))]
fn slot_row(text: &[u8]) -> Option<Row>
    ensures { result ≡ spec.slot_of_line (tokens text.now) }
{
    let (slot, rest) = next_token(text)?;
    let (word, rest) = next_token(rest)?;
    let (mark, rest) = next_token(rest)?;
    let (bytes, rest) = next_token(rest)?;
    if next_token(rest).is_some() {
        return None;
    }
    if word == b"byteSize".as_slice() && is_mark_of(mark, b'=') {
        slot_with(plain_between(b"stack", slot), read_plain(bytes))
    } else {
        None
    }
}

/// `BB#N:`.
#[tactic(auto, unfolding(crate::specs::Rows::heading_of))]
fn heading_row(text: &[u8]) -> Option<Row>
    ensures { result ≡ spec.heading_of (tokens text.now) }
{
    let (token, rest) = next_token(text)?;
    if next_token(rest).is_some() {
        return None;
    }
    Some(Row::Heading(plain_between(b"BB#", token)?))
}

/// Whether a text is `Stack slots:`.
#[tactic(auto, unfolding(crate::specs::Rows::is_slots_line))]
fn is_slots_line(text: &[u8]) -> bool
    ensures { result ≡ spec.is_slots_line (tokens text.now) }
{
    let Some((first, rest)) = next_token(text) else {
        return false;
    };
    let Some((second, rest)) = next_token(rest) else {
        return false;
    };
    if next_token(rest).is_some() {
        return false;
    }
    first == b"Stack".as_slice() && second == b"slots:".as_slice()
}

// ---- successors

/// `#N`.
#[tactic(auto, unfolding(crate::specs::Rows::one_of))]
fn one_row(text: &[u8]) -> Option<Row>
    ensures { result ≡ spec.one_of (tokens text.now) }
{
    let (token, rest) = next_token(text)?;
    if next_token(rest).is_some() {
        return None;
    }
    Some(Row::One(read_plain_after(b"#", token)?))
}

fn two_with(then_block: Option<u32>, else_block: Option<u32>) -> Option<Row>
    ensures { result ≡ spec.two_row then_block else_block }
{
    Some(Row::Two {
        then_block: then_block?,
        else_block: else_block?,
    })
}

/// `Then:#N, Else:#N`.
#[tactic(auto, unfolding(crate::specs::Rows::two_of))]
fn two_row(text: &[u8]) -> Option<Row>
    ensures { result ≡ spec.two_of (tokens text.now) }
{
    let (first, rest) = next_token(text)?;
    let (mark, rest) = next_token(rest)?;
    let (second, rest) = next_token(rest)?;
    if next_token(rest).is_some() || !is_mark_of(mark, b',') {
        return None;
    }
    two_with(
        read_plain_after(b"Then:#", first),
        read_plain_after(b"Else:#", second),
    )
}

/// The successors of cases, the fall-through last, behind `Successors:`.
#[tactic(auto, using(crate::proofs::RowLemmas::many_last, crate::proofs::RowLemmas::many_bad, crate::proofs::RowLemmas::many_more, crate::proofs::RowLemmas::many_none, crate::proofs::RowLemmas::targets_again, crate::proofs::RowLemmas::front_one))]
fn many_targets(alloc: Global, text: &[u8]) -> Result<Option<Ids>, NoMemory>
    ensures { IfOk result (λ found. found ≡ spec.many_of (tokens text.now)) }
{
    let mut targets = Ids::new(alloc);
    let mut left = text;
    while let Some((token, rest)) = next_token(left) {
        let Some((mark, more)) = next_token(rest) else {
            let Some(number) = read_plain_after(b"fallThrough:#", token) else {
                return Ok(None);
            };
            targets.push(number)?;
            return Ok(Some(targets));
        };
        if !is_mark_of(mark, b',') {
            return Ok(None);
        }
        let Some(number) = read_plain_after(b"#", token) else {
            return Ok(None);
        };
        targets.push(number)?;
        left = more;
    }
    Ok(None)
}

fn many_row(alloc: Global, text: &[u8]) -> Result<Option<Row>, NoMemory>
    ensures { IfOk result (λ row. row ≡ option_map Row.Many (spec.many_of (tokens text.now))) }
{
    match many_targets(alloc, text)? {
        Some(targets) => Ok(Some(Row::Many(targets))),
        None => Ok(None),
    }
}

fn or_bad(row: Option<Row>) -> Row
    ensures { result ≡ spec.or_bad row }
{
    match row {
        Some(row) => row,
        None => Row::Bad,
    }
}

/// What stands behind `Successors:`.
#[tactic(auto, using(crate::proofs::RowLemmas::successors_none, crate::proofs::RowLemmas::successors_some))]
fn successors_row(alloc: Global, text: &[u8]) -> Result<Row, NoMemory>
    ensures { IfOk result (λ row. row ≡ spec.successors_of (tokens text.now)) }
{
    if next_token(text).is_none() {
        return Ok(Row::NoSuccessors);
    }
    if let Some(row) = one_row(text) {
        return Ok(row);
    }
    if let Some(row) = two_row(text) {
        return Ok(row);
    }
    Ok(or_bad(many_row(alloc, text)?))
}

// ---- a line

/// A heading, a slot or a header.
#[tactic(auto, unfolding(crate::specs::Rows::words_row))]
fn words_row(alloc: Global, text: &[u8]) -> Result<Option<Row>, NoMemory>
    ensures { IfOk result (λ row. row ≡ spec.words_row (tokens text.now)) }
{
    if let Some(row) = heading_row(text) {
        return Ok(Some(row));
    }
    if let Some(row) = slot_row(text) {
        return Ok(Some(row));
    }
    header_row(alloc, text)
}

#[tactic(auto, unfolding(crate::specs::Rows::carries_nothing))]
fn carries_nothing(text: &[u8]) -> bool
    ensures { result ≡ spec.carries_nothing (tokens text.now) }
{
    match next_token(text) {
        None => true,
        Some((first, _)) => after(b"Predecessors:", first).is_some() || is_slots_line(text),
    }
}

fn value_row(alloc: Global, text: &[u8]) -> Result<Option<Row>, NoMemory>
    ensures { IfOk result (λ row. row ≡ spec.value_row text.now) }
{
    match read_value(alloc, text)? {
        Some(value) => Ok(Some(Row::ValueRow(value))),
        None => Ok(None),
    }
}

/// A line of words, or one of a value.
#[tactic(auto, unfolding(crate::specs::Rows::other_row))]
fn other_row(alloc: Global, text: &[u8]) -> Result<Row, NoMemory>
    ensures { IfOk result (λ row. row ≡ spec.other_row text.now (tokens text.now)) }
{
    if let Some(row) = words_row(alloc, text)? {
        return Ok(row);
    }
    Ok(or_bad(value_row(alloc, text)?))
}

/// A line without its comment and the blanks at its end.
#[tactic(auto, unfolding(crate::specs::Rows::row_in))]
fn row_in(alloc: Global, text: &[u8]) -> Result<Row, NoMemory>
    ensures { IfOk result (λ row. row ≡ spec.row_in text.now (tokens text.now)) }
{
    if carries_nothing(text) {
        return Ok(Row::Blank);
    }
    match next_token(text) {
        None => Ok(Row::Blank),
        Some((first, rest)) => {
            if first == b"Successors:".as_slice() {
                successors_row(alloc, rest)
            } else {
                other_row(alloc, text)
            }
        }
    }
}

/// Whether no byte above 127 stands outside a comment, and no CR at the end.
#[tactic(auto, unfolding(crate::specs::Rows::is_clean))]
fn is_clean(line: &[u8], text: &[u8]) -> bool
    ensures { result ≡ spec.is_clean line.now text.now }
{
    are_ascii(text) && !(ends_in_cr(line) && text.len() == line.len())
}

/// What a line says. It is refused for want of memory alone.
#[tactic(auto, unfolding(crate::specs::Rows::row_of_line, crate::specs::Rows::row_of_text))]
pub fn read_row(alloc: Global, line: &[u8]) -> Result<Row, NoMemory>
    ensures { IfOk result (λ row. row ≡ spec.row_of_line line.now) }
{
    let text = before_comment(line);
    if is_clean(line, text) {
        row_in(alloc, trim_end(text))
    } else {
        Ok(Row::Bad)
    }
}
