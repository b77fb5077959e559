//! Asks the rows of data/ of the words of instructions, of what they leave, of branches and of objects.
#![tactic(auto)]

mod branches;
mod bytes;
mod labelled;
mod objects;
mod steps;
mod tables;
mod words;

use branches::Branches;
use objects::Objects;
use std::test::Fail;
use steps::Machine;
use tables::Sections;
use tests_rows::ask_file;
use words::Words;

fn main(rt: HostRuntime) -> Result<(), Fail> {
    ask_file(&rt, "words.txt", &mut Words)?;
    ask_file(&rt, "other_words.txt", &mut Words)?;
    ask_file(&rt, "steps.txt", &mut Machine::new(rt.alloc()))?;
    ask_file(
        &rt,
        "memory_and_branches.txt",
        &mut Machine::new(rt.alloc()),
    )?;
    ask_file(&rt, "branches.txt", &mut Branches)?;
    ask_file(&rt, "tables.txt", &mut Sections::open(&rt)?)?;
    ask_file(&rt, "objects.txt", &mut Objects::open(&rt)?)?;
    Ok(())
}
