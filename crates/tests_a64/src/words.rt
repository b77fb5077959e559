//! The instruction of a word, and the word of that.

use a64_inst::Inst;
use a64_word::{decode, encode};
use std::alloc::Global;
use std::test::Fail;
use tests_rows::Teller;

/// Tells the instruction of a word, by its fields.
#[derive(Drop)]
pub(crate) struct Words;

impl Teller for Words {
    fn told(&mut self, alloc: Global, asked: &str) -> Result<String, Fail> {
        let word = word_of(asked)?;
        match decode(word) {
            None => Ok(String::from_str(alloc, "none")?),
            Some(inst) if encode(&inst) == word => shown(alloc, &inst),
            Some(_) => Err(Fail::from("the instruction has another word")),
        }
    }
}

/// The word that a row begins with.
pub(crate) fn word_of(asked: &str) -> Result<u32, Fail> {
    let digits = asked.split_whitespace().next().ok_or("no word")?;
    Ok(u32::from_str_radix(digits, 16)?)
}

fn shown(alloc: Global, inst: &Inst) -> Result<String, Fail> {
    Ok(format!(in alloc; "{inst:?}")?)
}
