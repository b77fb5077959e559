//! Rows.

use b3_base::{Ids, Name};
use b3_ir::Value;

/// What one line of a text says.
#[derive(Drop)]
pub enum Row {
    /// Nothing: the line is empty, or is one of those that carry nothing.
    Blank,
    /// The header of a procedure of this name.
    Header(Name),
    /// A stack slot: its number, and its size in bytes. Each is below 2^31.
    Slot { number: u32, bytes: u32 },
    /// The heading of the block of this number, below 2^31.
    Heading(u32),
    /// A value of line 0, whose successors aren't known yet: its body has none.
    ValueRow(Value),
    /// A value without successors, said so.
    NoSuccessors,
    /// One successor, by its number below 2^31.
    One(u32),
    /// Two successors, by their numbers below 2^31.
    Two { then_block: u32, else_block: u32 },
    /// The successors of cases and the fall-through, the last, by their numbers below 2^31.
    Many(Ids),
    /// A bad line.
    Bad,
}
