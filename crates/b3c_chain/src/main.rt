//! The passes of the compiler, called one after the other on stored texts: the words that come out are those of the
//! object that the compiler makes of the same text.
#![tactic(auto)]

mod fault;
mod passes;
mod report;

use b3_base::Bytes;
use b3_trial::generate;
use fault::Fault;
use report::{Compared, compare};
use std::fs;
use std::rt::Files;

/// The stored texts, by the names of their files.
const TEXTS: [&str; 8] = [
    "increment.b3",
    "below_five.b3",
    "conditions.b3",
    "swapping_loop.b3",
    "loads_25.b3",
    "loads_26.b3",
    "array_sum.b3",
    "sites.b3",
];

/// What is found of the text of a file.
fn stored<R: Files + AllocGlobal>(rt: &R, name: &str) -> Result<Compared, Fault> {
    compare(rt.alloc(), fs::read(rt, name)?.as_slice())
}

/// The first line of some bytes that begins with these words, where they are text. It is empty where there is none.
fn line_with<'a>(bytes: &'a [u8], front: &str) -> &'a str {
    let Ok(text) = std::str::from_utf8(bytes) else {
        return "";
    };
    for line in text.lines() {
        if line.trim_start().starts_with(front) {
            return line.trim();
        }
    }
    ""
}

/// Prints what is found of the texts that are made from a number.
fn report_generated(rt: &(impl Print + AllocGlobal)) -> Result<(), Fault> {
    let text: Bytes = generate(rt.alloc(), 7)?;
    let found = compare(rt.alloc(), text.as_slice())?;
    println!(rt;
        "made from 7: procedures {}, {}",
        found.procedures,
        found.agreement()
    )?;
    let text = generate(rt.alloc(), 0)?;
    let header = line_with(text.as_slice(), "procedure ");
    let line = line_with(text.as_slice(), "Int64 b@9 =");
    println!(rt; "made from 0: {header}, {line}")?;
    Ok(())
}

fn main(rt: HostRuntime) -> Result<(), Fault> {
    for name in TEXTS {
        let found = stored(&rt, name)?;
        println!(rt; "{name}: {found}")?;
    }
    report_generated(&rt)
}
