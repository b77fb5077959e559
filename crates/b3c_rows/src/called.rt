//! What a call of the tool gave.

use crate::fault::Fault;
use b3_base::Bytes;
use std::alloc::Global;
use std::str;

/// What a call of the tool gave: its status, its output, and its line on the error stream.
#[derive(Drop)]
pub struct Called {
    pub status: u8,
    pub output: Bytes,
    pub complaint: Bytes,
}

impl Called {
    /// One line: the status, and what was said on the error stream.
    pub fn heading(&self, alloc: Global) -> Result<String, Fault> {
        let status = self.status;
        let mut line = format!(in alloc; "{status}")?;
        let complaint = str::from_utf8(self.complaint.as_slice()).map_err(
            |_| Fault::NotUnderstood,
        )?;
        for piece in complaint.lines() {
            line.push_str(" ")?;
            line.push_str(piece)?;
        }
        line.push_str("\n")?;
        Ok(line)
    }
}
