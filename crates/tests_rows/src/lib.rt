//! Rows of tests: each line of a file asks something and says what must be told. A line that begins with `//` is a
//! comment. The file of a row that is told otherwise is printed with the row and what was told.
#![tactic(auto)]

use b3_base::Bytes;
use b3_io::{StdSource, read_all};
use std::alloc::Global;
use std::test::Fail;
use std::{fs, str};

/// What stands between what a row asks and what must be told.
const SAYS: &str = " => ";

/// The most bytes of a file of rows.
const LIMIT: usize = 4_000_000;

/// What tells the answers to rows, one after the other.
pub trait Teller {
    /// The answer to what a row asks, as rows spell it; nothing where the row only sets something up.
    fn told(&mut self, alloc: Global, asked: &str) -> Result<String, Fail>;
}

/// Asks each row of a file, prints the rows that are told otherwise than they say, and how many were asked.
pub fn ask_file<T: Teller>(rt: &HostRuntime, name: &str, teller: &mut T) -> Result<(), Fail> {
    let bytes = read_file(rt, name)?;
    let mut count = 0u64;
    for line in str::from_utf8(bytes.as_slice())?.lines() {
        if !line.is_empty() && !line.starts_with("//") {
            let (asked, says) = line.split_once(SAYS).unwrap_or((line, ""));
            let told = teller.told(rt.alloc(), asked)?;
            if told.as_str() != says {
                println!(rt; "{name}: {asked}{SAYS}{told}")?;
            }
            count = count.wrapping_add(1);
        }
    }
    println!(rt; "{name}: {count} rows")?;
    Ok(())
}

/// The bytes of a file.
pub fn read_file(rt: &HostRuntime, name: &str) -> Result<Bytes, Fail> {
    let file = fs::open(rt, name)?;
    Ok(read_all(rt.alloc(), &mut StdSource::new(file), LIMIT)?)
}
