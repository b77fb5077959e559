//! What a run shows to the outside as it goes: its calls and its patchpoints.

use crate::memory::Memory;
use crate::seq::{Seq, Words};
use crate::word::Width;

/// Who is called.
#[derive(Clone, Copy, Debug, PartialEq, Eq)]
pub enum EventKind {
    /// A call of the function at the address `callee`.
    Call { callee: u64 },
    /// The body of the patchpoint that is the value with this id.
    Patch { value: u32 },
}

/// A list of widths.
pub type Widths = Seq<Width>;

/// A call or a patchpoint that a run came to.
#[derive(Drop)]
pub struct Event {
    /// Who is called.
    pub kind: EventKind,
    /// The words of the arguments, in order.
    pub arguments: Words,
    /// One width for each argument: in a run of B3 that of its type, in a machine's run that of the
    /// place in which it stands.
    pub widths: Widths,
    /// The memory of that moment.
    pub memory: Memory,
}

/// A list of events, in the order in which a run came to them.
pub type Events = Seq<Event>;
