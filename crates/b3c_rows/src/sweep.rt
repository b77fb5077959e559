//! A case that is run once for each number of a range.

use crate::content::{filled, range_of};
use crate::fault::Fault;
use crate::named::Named;
use crate::shown::run_case;
use std::alloc::Global;

/// The numbers for which a case is run, as in `for 1 to 5`: the first and the last.
fn range_of_case(lines: &str) -> Result<Option<(u64, u64)>, Fault> {
    for line in lines.lines() {
        if let Some(range) = line.strip_prefix("for ") {
            let (first, last, _) = range_of(range)?;
            return Ok(Some((first, last)));
        }
    }
    Ok(None)
}

/// Adds what a case of this title shows; numbers side by side for which it shows the same are told once.
pub fn add_case(
    alloc: Global,
    shown: &mut String,
    title: &str,
    lines: &str,
    named: &mut Named,
) -> Result<(), Fault> {
    let (first, last) = match range_of_case(lines)? {
        Some(range) => range,
        None => {
            let seen = run_case(alloc, lines, named)?;
            shown.push_str(format!(in alloc; "[{title}] {seen}")?.as_str())?;
            return Ok(());
        }
    };
    let mut from = first;
    let mut seen = String::new(alloc);
    for number in first..=last {
        let case = filled(alloc, lines, number)?;
        let next = run_case(alloc, case.as_str(), named)?;
        if number > first && next.as_str() != seen.as_str() {
            add_run(alloc, shown, title, (from, number - 1), seen.as_str())?;
            from = number;
        }
        seen = next;
    }
    add_run(alloc, shown, title, (from, last), seen.as_str())
}

/// Adds what a case shows for each number from one to another.
fn add_run(
    alloc: Global,
    shown: &mut String,
    title: &str,
    (from, to): (u64, u64),
    seen: &str,
) -> Result<(), Fault> {
    let line = if from == to {
        format!(in alloc; "[{title}, {from}] {seen}")?
    } else {
        format!(in alloc; "[{title}, {from} to {to}] {seen}")?
    };
    shown.push_str(line.as_str())?;
    Ok(())
}
