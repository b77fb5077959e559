//! The program `b3c`: makes the real streams, opens a trial's file, calls the tool and ends with its status.
#![tactic(auto)]

use b3_base::{Name, Seq};
use b3_io::{AbsentSource, Source, StdSink, StdSource};
use b3c_core::{Ending, command_of, run_tool};
use std::fs::{self, File};
use std::io::{self, ErrorKind};
use std::process::ExitCode;
use std::rt::Env;
use std::{env, str};

fn main(rt: HostRuntime) -> ExitCode {
    let words = match command_words(&rt) {
        Ok(words) => words,
        Err(ending) => {
            ending.report(&mut StdSink::new(rt.stderr()));
            return ExitCode::from(ending.status());
        }
    };
    ExitCode::from(match trial_file(&rt, words.as_slice()) {
        Some(file) => run_words(&rt, words.as_slice(), &mut StdSource::new(file)),
        None => run_words(&rt, words.as_slice(), &mut AbsentSource::new()),
    })
}

/// Calls the tool with the standard streams.
fn run_words<T: Source>(rt: &HostRuntime, words: &[Name], trial: &mut T) -> u8 {
    run_tool(
        rt.alloc(),
        words,
        &mut StdSource::new(rt.stdin()),
        trial,
        &mut StdSink::new(rt.stdout()),
        &mut StdSink::new(rt.stderr()),
    )
}

/// The file that the second word names, where the words name a command that reads a trial and it can be opened.
fn trial_file(rt: &HostRuntime, words: &[Name]) -> Option<File> {
    let command = command_of(words)?;
    if !command.takes_trial() {
        return None;
    }
    let path = str::from_utf8(words.get(1)?.as_slice()).ok()?;
    fs::open(rt, path).ok()
}

/// The words after the program's name. A word that is not UTF-8 is a faulty command line.
fn command_words(rt: &(impl Env + AllocGlobal)) -> Result<Seq<Name>, Ending> {
    let mut words = Seq::new(rt.alloc());
    for word in env::args(rt).map_err(ending_of)?.skip(1) {
        words.push(Name::from_text(rt.alloc(), word.as_str())?)?;
    }
    Ok(words)
}

/// How the program ends where its words can't be had.
fn ending_of(error: io::Error) -> Ending {
    if error.kind() == ErrorKind::OutOfMemory {
        Ending::NoMemory
    } else {
        Ending::Usage
    }
}
