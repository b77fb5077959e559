//! The frame of a procedure.

use b3_base::Ids;
use stackmap::Saved;

/// A frame of `bytes` bytes: how far below x29 each stack slot, each spill place and each saved register
/// stands, in bytes.
#[derive(Drop)]
pub struct Frame {
    pub bytes: u32,
    pub slots: Ids,
    pub spills: Ids,
    pub saved: Saved,
}
