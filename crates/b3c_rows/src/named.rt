//! Bytes with names: texts, trials and objects.

use crate::fault::Fault;
use b3_base::Bytes;
use std::alloc::Global;

/// Bytes and their name.
#[derive(Drop)]
struct NamedBytes {
    name: String,
    bytes: Bytes,
}

/// Bytes that were named so far, in order.
#[derive(Drop)]
pub struct Named {
    all: Vec<NamedBytes>,
}

impl Named {
    /// No bytes so far.
    pub fn new(alloc: Global) -> Named {
        Named {
            all: Vec::new(alloc),
        }
    }

    /// Gives these bytes a name. If it had some before, these take their place.
    pub fn add(&mut self, alloc: Global, name: &str, bytes: Bytes) -> Result<(), Fault> {
        self.all.retain(|item| item.name.as_str() != name);
        self.all.push(NamedBytes {
            name: String::from_str(alloc, name)?,
            bytes,
        })?;
        Ok(())
    }

    /// The bytes of this name.
    pub fn get(&self, name: &str) -> Result<&[u8], Fault> {
        for item in &self.all {
            if item.name.as_str() == name {
                return Ok(item.bytes.as_slice());
            }
        }
        Err(Fault::NotUnderstood)
    }
}
