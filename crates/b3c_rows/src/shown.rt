//! What a case shows of a call.

use crate::called::Called;
use crate::case::Case;
use crate::content::{add_hex, number_of};
use crate::fault::Fault;
use crate::named::Named;
use crate::objects::{frames_of, places_of, sites_of, words_of};
use b3_base::Bytes;
use elf_obj::Object;
use std::alloc::Global;
use std::str;

/// Runs the case of these lines, and gives what it shows. The output is kept where the case says so.
pub fn run_case(alloc: Global, lines: &str, named: &mut Named) -> Result<String, Fault> {
    let mut case = Case::read(alloc, lines, named)?;
    if case.is_both() {
        return shown_of_both(alloc, lines, &mut case, named);
    }
    let called = case.call(alloc)?;
    let shown = shown_of(alloc, lines, &called, named)?;
    for line in lines.lines() {
        if let Some(name) = line.strip_prefix("keep ") {
            let mut kept = Bytes::new(alloc);
            kept.extend(called.output.as_slice())?;
            named.add(alloc, name, kept)?;
        }
    }
    Ok(shown)
}

/// What the evaluation of a text and the run of its object show: once, where it is the same.
fn shown_of_both(
    alloc: Global,
    lines: &str,
    case: &mut Case,
    named: &Named,
) -> Result<String, Fault> {
    case.evaluate(alloc)?;
    let evaluated = shown_of(alloc, lines, &case.call(alloc)?, named)?;
    let called = match case.run(alloc)? {
        Some(refused) => refused,
        None => case.call(alloc)?,
    };
    let run = shown_of(alloc, lines, &called, named)?;
    if evaluated.as_str() == run.as_str() {
        return Ok(run);
    }
    Ok(format!(in alloc; "eval {evaluated}run {run}")?)
}

/// What is shown of a call: its heading, then what the lines of the case ask for, or its output where it is text.
fn shown_of(alloc: Global, lines: &str, called: &Called, named: &Named) -> Result<String, Fault> {
    let mut shown = called.heading(alloc)?;
    let mut is_asked = false;
    for line in lines.lines() {
        if let Some(what) = line.strip_prefix("show ") {
            is_asked = true;
            add_shown(alloc, &mut shown, what, called.output.as_slice(), named)?;
        }
    }
    if !is_asked {
        shown.push_str(str::from_utf8(called.output.as_slice()).unwrap_or(""))?;
    }
    Ok(shown)
}

/// Adds what a case asks for of an output.
fn add_shown(
    alloc: Global,
    shown: &mut String,
    what: &str,
    output: &[u8],
    named: &Named,
) -> Result<(), Fault> {
    if let Some(name) = what.strip_prefix("beside ") {
        shown.push_str(compared(alloc, output, named.get(name)?, name)?.as_str())?;
    } else if let Some(count) = what.strip_prefix("lines ") {
        add_lines(shown, number_of(count)?, output)?;
    } else if what == "length" {
        let length = output.len();
        shown.push_str(format!(in alloc; "{length} bytes\n")?.as_str())?;
    } else {
        match elf_obj::read(alloc, output) {
            Ok(object) => add_of_object(alloc, shown, what, &object)?,
            Err(_) => shown.push_str("no object\n")?,
        }
    }
    Ok(())
}

/// Adds what a case asks for of an object.
fn add_of_object(
    alloc: Global,
    shown: &mut String,
    what: &str,
    object: &Object,
) -> Result<(), Fault> {
    let part = match what {
        "words" => words_of(alloc, object)?,
        "frames" => frames_of(alloc, object)?,
        "sites" => sites_of(alloc, object)?,
        "places" => places_of(alloc, object)?,
        _ => count_of_words(alloc, what, object)?,
    };
    shown.push_str(part.as_str())?;
    Ok(())
}

/// How many words are as a pattern says where a mask has ones, as in `number of d503201f under ffffffff`.
fn count_of_words(alloc: Global, what: &str, object: &Object) -> Result<String, Fault> {
    let pattern = what.strip_prefix("number of ").ok_or(Fault::NotUnderstood)?;
    let (word, mask) = pattern.split_once(" under ").ok_or(Fault::NotUnderstood)?;
    let (wanted, mask) = (word_of(alloc, word)?, word_of(alloc, mask)?);
    let mut count = 0u32;
    for word in object.text.as_slice() {
        if *word & mask == wanted {
            count = count.saturating_add(1);
        }
    }
    Ok(format!(in alloc; "{count} of {pattern}\n")?)
}

/// The word that 8 hexadecimal digits say, the highest first.
fn word_of(alloc: Global, digits: &str) -> Result<u32, Fault> {
    let mut bytes = Bytes::new(alloc);
    add_hex(&mut bytes, digits)?;
    match bytes.as_slice() {
        [a, b, c, d] => Ok(u32::from_be_bytes([*a, *b, *c, *d])),
        _ => Err(Fault::NotUnderstood),
    }
}

/// How an output compares with bytes of this name.
fn compared(alloc: Global, output: &[u8], bytes: &[u8], name: &str) -> Result<String, Fault> {
    let length = output.len();
    Ok(if output.is_empty() {
        String::from_str(alloc, "nothing\n")?
    } else if output == bytes {
        format!(in alloc; "all of {name}\n")?
    } else if bytes.starts_with(output) {
        format!(in alloc; "the first {length} bytes of {name}\n")?
    } else {
        format!(in alloc; "other bytes than {name}\n")?
    })
}

/// Adds the first lines of an output, so many of them.
fn add_lines(shown: &mut String, count: u64, output: &[u8]) -> Result<(), Fault> {
    let text = str::from_utf8(output).unwrap_or("");
    let mut left = count;
    for line in text.lines() {
        if left == 0 {
            break;
        }
        left -= 1;
        shown.push_str(line)?;
        shown.push_str("\n")?;
    }
    Ok(())
}
