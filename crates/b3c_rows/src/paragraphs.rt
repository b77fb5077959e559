//! The paragraphs of a file of cases.

use crate::content::bytes_of;
use crate::fault::Fault;
use crate::named::Named;
use crate::sweep::add_case;
use b3_base::Bytes;
use std::fs;
use std::rt::Files;

/// Runs the cases of a text, and gives what they show.
pub fn run_cases<R: Files + AllocGlobal>(rt: &R, text: &str) -> Result<String, Fault> {
    let mut named = Named::new(rt.alloc());
    let mut shown = String::new(rt.alloc());
    let mut line = 1usize;
    for paragraph in text.split("\n\n") {
        match run_paragraph(rt, paragraph, &mut named, &mut shown) {
            Ok(()) => {}
            Err(Fault::NotUnderstood) => return Err(Fault::Paragraph(line)),
            Err(fault) => return Err(fault),
        }
        line = line
            .saturating_add(paragraph.lines().count())
            .saturating_add(1);
    }
    Ok(shown)
}

/// Takes in one paragraph: names of files, bytes with a name, or a case.
fn run_paragraph<R: Files + AllocGlobal>(
    rt: &R,
    paragraph: &str,
    named: &mut Named,
    shown: &mut String,
) -> Result<(), Fault> {
    let alloc = rt.alloc();
    for line in paragraph.lines() {
        if line.starts_with('#') || line.is_empty() {
            continue;
        }
        if let Some(name) = line.strip_prefix("file ") {
            let mut bytes = Bytes::new(alloc);
            bytes.extend(fs::read(rt, name)?.as_slice())?;
            named.add(alloc, name, bytes)?;
        } else if let Some(name) = line.strip_prefix("text ") {
            let bytes = bytes_of(alloc, paragraph, named)?;
            return named.add(alloc, name, bytes);
        } else if let Some(title) = line.strip_prefix("case ") {
            return add_case(alloc, shown, title, paragraph, named);
        } else {
            return Err(Fault::NotUnderstood);
        }
    }
    Ok(())
}
