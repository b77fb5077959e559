//! What a run of the machine is of, its state, and how its steps end.

use a64_inst::State as Registers;
use b3_base::{Answer, Events, MachineStart, Memory, Status};
use elf_obj::{Object, Symbol};
use exit_table::FrameRow;

/// A procedure of an object, by its symbol and its frame, and a start.
#[derive(Clone, Copy)]
pub(crate) struct Entry<'a> {
    pub(crate) object: &'a Object,
    pub(crate) symbol: &'a Symbol,
    pub(crate) frame: &'a FrameRow,
    pub(crate) start: &'a MachineStart,
}

/// The registers, the bytes that data accesses may touch, the events so far and the answers that are
/// left.
#[derive(Drop)]
pub(crate) struct State<'a> {
    pub(crate) registers: Registers,
    pub(crate) memory: Memory,
    pub(crate) events: Events,
    pub(crate) answers: &'a [Answer],
}

/// How a step ends.
#[derive(Drop)]
pub(crate) enum Flow {
    /// The run goes on.
    On,
    /// The run has stopped, or waits.
    Over(Status),
}
