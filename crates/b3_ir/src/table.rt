//! The columns of the table of opcodes.

use crate::opcode::Ty;
use b3_base::Width;

/// What a value carries beside its children: an item that its line names, or its successors.
#[derive(Clone, Copy, Debug, PartialEq, Eq)]
pub enum Carries {
    /// Nothing.
    Nothing,
    /// A constant of this width.
    Number(Width),
    /// The register of an argument.
    Register,
    /// The number of a stack slot.
    SlotNumber,
    /// The offset of an access.
    Offset,
    /// The id of a Phi.
    PhiId,
    /// The stackmap of a Patchpoint.
    Site,
    /// The stackmap of a check.
    Exit,
    /// One successor.
    OneSuccessor,
    /// Two successors, the one that is taken where the child isn't 0 first.
    TwoSuccessors,
    /// Cases, with a successor each, and the fall-through last.
    CaseSuccessors,
}

/// The flag that a value may have.
#[derive(Clone, Copy, Debug, PartialEq, Eq)]
pub enum Flag {
    /// None.
    NoFlag,
    /// Division by 0 and the least number by -1 have a result.
    Chill,
    /// An access of a byte that isn't mapped ends the run.
    Traps,
}

/// The type of a child that a value computes with.
#[derive(Clone, Copy, Debug, PartialEq, Eq)]
pub enum Takes {
    /// The one type of the row, Int32 or Int64.
    Alike,
    /// Int32 or Int64, whatever the others are.
    Any,
    /// This type.
    This(Ty),
}

/// The children that may follow those that a value computes with, each Int32 or Int64.
#[derive(Clone, Copy, Debug, PartialEq, Eq)]
pub enum More {
    /// None.
    NoMore,
    /// One or none.
    One,
    /// Any number of arguments.
    Arguments,
    /// Any number of reported children.
    Reported,
}

/// The type of a value.
#[derive(Clone, Copy, Debug, PartialEq, Eq)]
pub enum Gives {
    /// The one type of the row, Int32 or Int64.
    Alike,
    /// Any type.
    AnyOrVoid,
    /// This type.
    This(Ty),
}
