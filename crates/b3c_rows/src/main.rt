//! Runs the tool over rows of behaviour that stand as data, and prints what it shows: its standard input names files
//! of cases, one a line, and `data/README` says how a case is written.
#![tactic(auto)]

mod called;
mod case;
mod content;
mod damage;
mod fault;
mod named;
mod objects;
mod paragraphs;
mod script;
mod shown;
mod sweep;

use fault::Fault;
use paragraphs::run_cases;
use std::fs;
use std::process::ExitCode;
use std::rt::Files;

fn main(rt: HostRuntime) -> ExitCode {
    match run_files(&rt) {
        Ok(()) => ExitCode::SUCCESS,
        Err(fault) => {
            let _ = eprintln!(rt; "b3c_rows: {fault}");
            ExitCode::FAILURE
        }
    }
}

/// Runs the cases of each file that the standard input names.
fn run_files(rt: &(impl Input + Print + Files + AllocGlobal)) -> Result<(), Fault> {
    for name in rt.lines(rt.alloc()) {
        let name = name?;
        let cases = fs::read_to_string(rt, name.as_str())?;
        let shown = run_cases(rt, cases.as_str())?;
        print!(rt; "{shown}")?;
    }
    Ok(())
}
