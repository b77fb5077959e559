//! What the lines of a trial say so far.

ghost use Rattle.std.specs.Prelude.{◌≡◌, ◌<◌, IfOk, Some, None, if◌then◌else◌, option_map};
ghost use Rattle.std.specs.FinMap as map;
ghost use Rattle.b3_base.specs.Observed.{answer_of};
ghost use Rattle.b3_trial.specs.Lines.{line_of};
ghost use Rattle.b3_trial.specs.Trials as spec;
ghost use Rattle.b3_trial.specs.Trials.{so_far_of, trial_of};

use crate::line::{Line, Piece, read_line};
use crate::reading::Trial;
use b3_base::{Answer, Answers, MachineStart, MapFault, Memory, Name, NoMemory, Words};
use std::alloc::Global;

/// The most bytes that `bytes` lines map.
const MOST_MAPPED: u64 = 65_536;
/// The most answers.
const MOST_ANSWERS: usize = 256;
/// The most words of junk.
const MOST_JUNK: usize = 8_224;
/// The most blocks that are run.
const MOST_BLOCKS: u64 = 1 << 20;
/// The most steps that are run.
const MOST_STEPS: u64 = 1 << 45;

/// What the lines so far say.
#[derive(Drop)]
pub struct SoFar {
    /// The procedure, once a line has named it.
    pub name: Option<Name>,
    /// The words of x0 to x30.
    pub registers: [u64; 31],
    /// Which of them a line has given.
    pub is_given: [bool; 31],
    /// Numbers that may be given once.
    pub sp: Option<u64>,
    pub code: Option<u64>,
    pub blocks: Option<u64>,
    pub steps: Option<u64>,
    /// The bytes of the `bytes` lines, and how many they are.
    pub memory: Memory,
    pub mapped: u64,
    /// The bytes of the `stack` lines.
    pub stack: Memory,
    pub junk: Words,
    pub answers: Answers,
}

// ---- what one number and one piece add

/// Sets a word that may be given once. False where it was given before, and then nothing changes.
fn set_once(place: &mut Option<u64>, word: u64) -> bool
    ensures { spec.once place.old word ≡ (if result then Some place.new else None) }
{
    if place.is_some() {
        return false;
    }
    *place = Some(word);
    true
}

/// The same of a word that has a limit.
fn set_up_to(most: u64, place: &mut Option<u64>, word: u64) -> bool
    ensures { spec.once_up_to most place.old word ≡ (if result then Some place.new else None) }
{
    word <= most && set_once(place, word)
}

/// Maps a piece. False where an address is mapped already, or past 2^64.
fn put_piece(memory: &mut Memory, piece: &Piece) -> Result<bool, NoMemory>
    ensures { IfOk result (λ good. spec.with_piece (map.get memory.old) piece.now
        ≡ (if good then Some (map.get memory.new) else None)) }
{
    match memory.map(piece.address, piece.bytes.as_slice()) {
        Ok(()) => Ok(true),
        Err(MapFault::NoMemory) => Err(NoMemory),
        Err(MapFault::Overlap) => Ok(false),
        Err(MapFault::Wrap) => Ok(false),
    }
}

/// Maps pieces, one by one, up to the first that can't be mapped.
fn put_pieces(memory: &mut Memory, pieces: &[Piece]) -> Result<bool, NoMemory>
    ensures { IfOk result (λ good. spec.with_pieces (map.get memory.old) pieces.now
        ≡ (if good then Some (map.get memory.new) else None)) }
{
    let mut left = pieces;
    while let Some((piece, more)) = left.split_first() {
        if !put_piece(memory, piece)? {
            return Ok(false);
        }
        left = more;
    }
    Ok(true)
}

impl SoFar {
    /// Before the first line. It takes no memory.
    pub(crate) fn new(alloc: Global) -> SoFar
        ensures { so_far_of result ≡ spec.first }
    {
        let mut registers = [0; 31];
        registers[30] = 0x3000_0000;
        SoFar {
            name: None,
            registers,
            is_given: [false; 31],
            sp: None,
            code: None,
            blocks: None,
            steps: None,
            memory: Memory::new(alloc),
            mapped: 0,
            stack: Memory::new(alloc),
            junk: Words::new(alloc),
            answers: Answers::new(alloc),
        }
    }

    // ---- what a line adds: false where the line is bad

    fn put_register(&mut self, number: u32, word: u64) -> bool
        ensures { spec.with_register (so_far_of self.old) number word
            ≡ (if result then Some (so_far_of self.new) else None) }
    {
        let at = number as usize;
        if at >= 31 || self.is_given[at] {
            return false;
        }
        self.registers[at] = word;
        self.is_given[at] = true;
        true
    }

    fn put_mapped(&mut self, piece: &Piece) -> Result<bool, NoMemory>
        ensures { IfOk result (λ good. spec.with_mapped (so_far_of self.old) piece.now
            ≡ (if good then Some (so_far_of self.new) else None)) }
    {
        let Some(mapped) = self.mapped.checked_add(piece.bytes.len() as u64) else {
            return Ok(false);
        };
        if mapped > MOST_MAPPED || !put_piece(&mut self.memory, piece)? {
            return Ok(false);
        }
        self.mapped = mapped;
        Ok(true)
    }

    fn put_junk(&mut self, word: u64) -> Result<bool, NoMemory>
        ensures { IfOk result (λ good. spec.with_junk (so_far_of self.old) word
            ≡ (if good then Some (so_far_of self.new) else None)) }
    {
        if self.junk.len() >= MOST_JUNK {
            return Ok(false);
        }
        self.junk.push(word)?;
        Ok(true)
    }

    fn put_answer(&mut self, answer: Answer) -> Result<bool, NoMemory>
        ensures { IfOk result (λ good. spec.with_answer (so_far_of self.old) (answer_of answer)
            ≡ (if good then Some (so_far_of self.new) else None)) }
    {
        if self.answers.len() >= MOST_ANSWERS {
            return Ok(false);
        }
        self.answers.push(answer)?;
        Ok(true)
    }

    fn put_give(&mut self, alloc: Global, value: u64, pieces: &[Piece]) -> Result<bool, NoMemory>
        ensures { IfOk result (λ good. spec.with_give (so_far_of self.old) value pieces.now
            ≡ (if good then Some (so_far_of self.new) else None)) }
    {
        let mut writes = Memory::new(alloc);
        if !put_pieces(&mut writes, pieces)? {
            return Ok(false);
        }
        self.put_answer(Answer::Give { value, writes })
    }

    /// A line behind the one that names the procedure.
    fn put_said(&mut self, alloc: Global, line: Line) -> Result<bool, NoMemory>
        ensures { IfOk result (λ good. spec.said (so_far_of self.old) line
            ≡ (if good then Some (so_far_of self.new) else None)) }
    {
        match line {
            Line::Nothing => Ok(true),
            Line::Procedure(_) => Ok(false),
            Line::Register { number, word } => Ok(self.put_register(number, word)),
            Line::StackPointer(word) => Ok(set_once(&mut self.sp, word)),
            Line::Code(word) => Ok(set_once(&mut self.code, word)),
            Line::Blocks(word) => Ok(set_up_to(MOST_BLOCKS, &mut self.blocks, word)),
            Line::Steps(word) => Ok(set_up_to(MOST_STEPS, &mut self.steps, word)),
            Line::Mapped(piece) => self.put_mapped(&piece),
            Line::Stack(piece) => put_piece(&mut self.stack, &piece),
            Line::Junk(word) => self.put_junk(word),
            Line::Leave => self.put_answer(Answer::Leave),
            Line::Give { value, writes } => self.put_give(alloc, value, writes.as_slice()),
        }
    }

    /// The first line that says something.
    fn put_named(&mut self, line: Line) -> bool
        ensures { spec.named (so_far_of self.old) line ≡ (if result then Some (so_far_of self.new) else None) }
    {
        match line {
            Line::Nothing => true,
            Line::Procedure(name) => {
                self.name = Some(name);
                true
            }
            _ => false,
        }
    }

    fn put_line(&mut self, alloc: Global, line: Line) -> Result<bool, NoMemory>
        ensures { IfOk result (λ good. spec.added (so_far_of self.old) line
            ≡ (if good then Some (so_far_of self.new) else None)) }
    {
        if self.name.is_some() {
            self.put_said(alloc, line)
        } else {
            Ok(self.put_named(line))
        }
    }

    /// Adds what a line says. False where it is bad; it is refused for want of memory alone.
    pub(crate) fn put(&mut self, alloc: Global, text: &[u8]) -> Result<bool, NoMemory>
        ensures { IfOk result (λ good. spec.added_to (Some (so_far_of self.old)) (line_of text.now)
            ≡ (if good then Some (so_far_of self.new) else None)) }
    {
        match read_line(alloc, text)? {
            Some(line) => self.put_line(alloc, line),
            None => Ok(false),
        }
    }

    /// The trial, where the procedure is named. It takes no memory.
    pub(crate) fn end(self) -> Option<Trial>
        ensures { option_map trial_of result ≡ spec.ended (Some (so_far_of self)) }
    {
        let SoFar {
            name,
            registers,
            is_given: _,
            sp,
            code,
            blocks,
            steps,
            memory,
            mapped: _,
            stack,
            junk,
            answers,
        } = self;
        let name = name?;
        Some(Trial {
            name,
            start: MachineStart {
                registers,
                sp: sp.unwrap_or(0x8000_0000),
                code: code.unwrap_or(0x4000_0000),
                memory,
                stack,
                junk,
            },
            answers,
            blocks: blocks.unwrap_or(1000),
            steps: steps.unwrap_or(1_000_000),
        })
    }
}
