//! What a step of a processor leaves.

use crate::words::word_of;
use a64_inst::{Flags, Outcome, State, step};
use a64_word::decode;
use b3_base::Memory;
use std::alloc::Global;
use std::fmt::Write;
use std::test::Fail;
use tests_rows::Teller;

/// A processor and its memory.
#[derive(Drop)]
pub(crate) struct Machine {
    state: State,
    memory: Memory,
}

impl Machine {
    /// The processor that a row begins with, and a memory in which nothing is mapped.
    pub(crate) fn new(alloc: Global) -> Machine {
        Machine {
            state: fresh(),
            memory: Memory::new(alloc),
        }
    }

    /// One step by a word.
    fn step(&mut self, alloc: Global, word: u32) -> Result<String, Fail> {
        let inst = decode(word).ok_or("no instruction")?;
        let before = self.state;
        let outcome = step(&mut self.state, &mut self.memory, &inst);
        told_of(alloc, outcome, &before, &self.state)
    }

    /// Maps bytes from an address on, and nothing else.
    fn map(&mut self, alloc: Global, address: &str, bytes: &str) -> Result<String, Fail> {
        self.memory = Memory::new(alloc);
        let bytes = hex::decode(alloc, bytes)?;
        self.memory.map(number(address)?, bytes.as_slice())?;
        Ok(String::new(alloc))
    }

    /// The word of so many bytes at an address.
    fn read(&self, alloc: Global, address: &str, bytes: &str) -> Result<String, Fail> {
        let address = number(address)?;
        let found = match bytes {
            "1" => self.memory.read(address, 1),
            "8" => self.memory.read(address, 8),
            _ => return Err(Fail::from("1 or 8 bytes are read")),
        };
        match found {
            Some(word) => Ok(format!(in alloc; "{word:X}")?),
            None => Ok(String::from_str(alloc, "none")?),
        }
    }
}

impl Teller for Machine {
    fn told(&mut self, alloc: Global, asked: &str) -> Result<String, Fail> {
        let mut words = asked.split_whitespace();
        match words.next().unwrap_or("") {
            "memory" => self.map(
                alloc,
                words.next().unwrap_or(""),
                words.next().unwrap_or(""),
            ),
            "read" => self.read(
                alloc,
                words.next().unwrap_or(""),
                words.next().unwrap_or(""),
            ),
            _ => {
                if let Some((_, given)) = asked.split_once(" | ") {
                    self.state = given_state(given)?;
                }
                self.step(alloc, word_of(asked)?)
            }
        }
    }
}

/// The processor before a row that says nothing of it.
fn fresh() -> State {
    let mut x = [0; 31];
    x[0] = 0x1122_3344_5566_7788;
    x[3] = 3;
    State {
        x,
        sp: 0x8000_0000,
        pc: 0x4000_0000,
        flags: flags_of(0b0011),
    }
}

/// The processor of which a row says this, as `x1=7 nzcv=0000`.
fn given_state(given: &str) -> Result<State, Fail> {
    let mut state = fresh();
    for part in given.split_whitespace() {
        let (name, value) = part.split_once('=').ok_or("no value")?;
        set(&mut state, name, value)?;
    }
    Ok(state)
}

fn set(state: &mut State, name: &str, value: &str) -> Result<(), Fail> {
    match name {
        "nzcv" => state.flags = flags_of(u8::from_str_radix(value, 2)?),
        "sp" => state.sp = number(value)?,
        "pc" => state.pc = number(value)?,
        _ => {
            let digits = name.strip_prefix('x').ok_or("no register")?;
            let reg = digits.parse::<usize>()?;
            *state.x.get_mut(reg).ok_or("no such register")? = number(value)?;
        }
    }
    Ok(())
}

fn number(digits: &str) -> Result<u64, Fail> {
    Ok(u64::from_str_radix(digits, 16)?)
}

/// N, Z, C and V, from the highest of four bits down.
fn flags_of(nzcv: u8) -> Flags {
    Flags {
        n: nzcv & 8 != 0,
        z: nzcv & 4 != 0,
        c: nzcv & 2 != 0,
        v: nzcv & 1 != 0,
    }
}

/// How a step ended, and what it changed.
fn told_of(alloc: Global, outcome: Outcome, before: &State, after: &State) -> Result<String, Fail> {
    let mut text = match outcome {
        Outcome::Next => String::from_str(alloc, "next")?,
        Outcome::Linked { target } => format!(in alloc; "linked {target:X}")?,
        Outcome::Fault { address } => format!(in alloc; "fault {address:X}")?,
        Outcome::Break(number) => format!(in alloc; "break {number:X}")?,
    };
    for reg in 0..31 {
        if before.x[reg] != after.x[reg] {
            let word = after.x[reg];
            write!(text, " x{reg}={word:X}")?;
        }
    }
    if before.sp != after.sp {
        let sp = after.sp;
        write!(text, " sp={sp:X}")?;
    }
    let next = match outcome {
        Outcome::Next => before.pc.wrapping_add(4),
        _ => before.pc,
    };
    if next != after.pc {
        let pc = after.pc;
        write!(text, " pc={pc:X}")?;
    }
    if before.flags != after.flags {
        let Flags { n, z, c, v } = after.flags;
        let (n, z, c, v) = (u8::from(n), u8::from(z), u8::from(c), u8::from(v));
        write!(text, " nzcv={n}{z}{c}{v}")?;
    }
    Ok(text)
}
