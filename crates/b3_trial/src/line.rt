//! What one line of a trial says.

ghost use Rattle.std.specs.Prelude.{◌≡◌, ◌≤◌, length, IfOk, option_map};
ghost use Rattle.b3_lines.specs.Tokens.{tokens};
ghost use Rattle.b3_trial.specs.Lines as spec;
ghost use Rattle.b3_trial.specs.declared.line.Line.TheVariants as lines;

use crate::words::{read_bytes, read_word};
use b3_base::{Bytes, Name, NoMemory, Seq};
use b3_items::read_plain_after;
use b3_lines::{before_comment, next_token};
use b3_rows::{Row, read_row};
use std::alloc::Global;

/// Bytes from an address on.
#[derive(Drop)]
pub struct Piece {
    /// The address of the first byte.
    pub address: u64,
    /// The bytes, in order.
    pub bytes: Bytes,
}

/// A list of pieces.
pub type Pieces = Seq<Piece>;

/// What one line of a trial says.
#[derive(Drop)]
pub enum Line {
    /// Nothing: the line is empty, or is one of those that carry nothing.
    Nothing,
    /// The name of the procedure that is run.
    Procedure(Name),
    /// The word of the register of this number.
    Register { number: u32, word: u64 },
    /// The word of SP.
    StackPointer(u64),
    /// The address of the text.
    Code(u64),
    /// How many blocks are run.
    Blocks(u64),
    /// How many steps are run.
    Steps(u64),
    /// Bytes of the memory.
    Mapped(Piece),
    /// Bytes of the frame at entry.
    Stack(Piece),
    /// One word more that is left in what is clobbered.
    Junk(u64),
    /// The answer that never comes back.
    Leave,
    /// The answer of a word, and of bytes that it writes.
    Give { value: u64, writes: Pieces },
}

// ---- pieces

fn piece_with(alloc: Global, word: &[u8], hex: &[u8]) -> Result<Option<Piece>, NoMemory>
    ensures { IfOk result (λ piece. piece ≡ spec.piece_with (spec.word_of word.now) (spec.bytes_of hex.now)) }
{
    let Some(address) = read_word(word) else {
        return Ok(None);
    };
    let Some(bytes) = read_bytes(alloc, hex)? else {
        return Ok(None);
    };
    Ok(Some(Piece { address, bytes }))
}

fn colon_at(text: &[u8]) -> usize
    ensures is { result ≡ spec.colon_at text.now }
    ensures within { result ≤ length text.now }
{
    for (i, byte) in text.iter().enumerate() {
        if *byte == b':' {
            return i;
        }
    }
    text.len()
}

/// `W:HEX`.
#[tactic(auto, unfolding(crate::specs::Lines::piece_of))]
fn read_piece(alloc: Global, text: &[u8]) -> Result<Option<Piece>, NoMemory>
    ensures { IfOk result (λ piece. piece ≡ spec.piece_of text.now) }
{
    let (word, rest) = text.split_at(colon_at(text));
    let Some((_, hex)) = rest.split_first() else {
        return Ok(None);
    };
    piece_with(alloc, word, hex)
}

/// Any number of `W:HEX`.
#[tactic(auto, using(crate::proofs::WordLemmas::pieces_more, crate::proofs::WordLemmas::pieces_not, crate::proofs::WordLemmas::pieces_end, crate::proofs::WordLemmas::onto_nil))]
fn read_pieces(alloc: Global, text: &[u8]) -> Result<Option<Pieces>, NoMemory>
    ensures { IfOk result (λ pieces. pieces ≡ spec.pieces_of (tokens text.now)) }
{
    let mut pieces = Pieces::new(alloc);
    let mut left = text;
    while let Some((token, rest)) = next_token(left) {
        let Some(piece) = read_piece(alloc, token)? else {
            return Ok(None);
        };
        pieces.push(piece)?;
        left = rest;
    }
    Ok(Some(pieces))
}

// ---- what stands behind the first word of a line

fn lone_word(text: &[u8]) -> Option<u64>
    ensures { result ≡ spec.lone_word (tokens text.now) }
{
    let (word, rest) = next_token(text)?;
    if next_token(rest).is_some() {
        return None;
    }
    read_word(word)
}

/// `W HEX`.
fn lone_piece(alloc: Global, text: &[u8]) -> Result<Option<Piece>, NoMemory>
    ensures { IfOk result (λ piece. piece ≡ spec.lone_piece (tokens text.now)) }
{
    let Some((word, rest)) = next_token(text) else {
        return Ok(None);
    };
    let Some((hex, rest)) = next_token(rest) else {
        return Ok(None);
    };
    if next_token(rest).is_some() {
        return Ok(None);
    }
    piece_with(alloc, word, hex)
}

fn leave_line(text: &[u8]) -> Option<Line>
    ensures { result ≡ spec.leave_line (tokens text.now) }
{
    if next_token(text).is_some() {
        None
    } else {
        Some(Line::Leave)
    }
}

/// `W`, then any number of `W:HEX`.
fn give_line(alloc: Global, text: &[u8]) -> Result<Option<Line>, NoMemory>
    ensures { IfOk result (λ line. line ≡ spec.give_line (tokens text.now)) }
{
    let Some((word, rest)) = next_token(text) else {
        return Ok(None);
    };
    let Some(value) = read_word(word) else {
        return Ok(None);
    };
    let Some(writes) = read_pieces(alloc, rest)? else {
        return Ok(None);
    };
    Ok(Some(Line::Give { value, writes }))
}

fn mapped_line(alloc: Global, text: &[u8]) -> Result<Option<Line>, NoMemory>
    ensures { IfOk result (λ line. line ≡ option_map lines.Mapped (spec.lone_piece (tokens text.now))) }
{
    match lone_piece(alloc, text)? {
        Some(piece) => Ok(Some(Line::Mapped(piece))),
        None => Ok(None),
    }
}

fn stack_line(alloc: Global, text: &[u8]) -> Result<Option<Line>, NoMemory>
    ensures { IfOk result (λ line. line ≡ option_map lines.Stack (spec.lone_piece (tokens text.now))) }
{
    match lone_piece(alloc, text)? {
        Some(piece) => Ok(Some(Line::Stack(piece))),
        None => Ok(None),
    }
}

/// A line of a keyword and a word.
#[tactic(auto, unfolding(crate::specs::Lines::word_line))]
fn word_line(keyword: &[u8], word: u64) -> Option<Line>
    ensures { result ≡ spec.word_line keyword.now word }
{
    if keyword == b"sp".as_slice() {
        return Some(Line::StackPointer(word));
    }
    if keyword == b"code".as_slice() {
        return Some(Line::Code(word));
    }
    if keyword == b"blocks".as_slice() {
        return Some(Line::Blocks(word));
    }
    if keyword == b"steps".as_slice() {
        return Some(Line::Steps(word));
    }
    if keyword == b"junk".as_slice() {
        return Some(Line::Junk(word));
    }
    let number = read_plain_after(b"x", keyword)?;
    Some(Line::Register { number, word })
}

// ---- a line

/// A line that isn't the header of a procedure, without its comment.
#[tactic(auto, unfolding(crate::specs::Lines::words_line))]
fn words_line(alloc: Global, text: &[u8]) -> Result<Option<Line>, NoMemory>
    ensures { IfOk result (λ line. line ≡ spec.words_line (tokens text.now)) }
{
    let Some((word, rest)) = next_token(text) else {
        return Ok(None);
    };
    if word == b"leave".as_slice() {
        return Ok(leave_line(rest));
    }
    if word == b"give".as_slice() {
        return give_line(alloc, rest);
    }
    if word == b"bytes".as_slice() {
        return mapped_line(alloc, rest);
    }
    if word == b"stack".as_slice() {
        return stack_line(alloc, rest);
    }
    match lone_word(rest) {
        Some(number) => Ok(word_line(word, number)),
        None => Ok(None),
    }
}

/// What a line says, or None where it is bad. It is refused for want of memory alone.
#[tactic(auto, unfolding(crate::specs::Lines::line_of))]
pub(crate) fn read_line(alloc: Global, line: &[u8]) -> Result<Option<Line>, NoMemory>
    ensures { IfOk result (λ said. said ≡ spec.line_of line.now) }
{
    match read_row(alloc, line)? {
        Row::Blank => Ok(Some(Line::Nothing)),
        Row::Header(name) => Ok(Some(Line::Procedure(name))),
        _ => words_line(alloc, before_comment(line)),
    }
}
