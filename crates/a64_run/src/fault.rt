//! Why no run begins.

/// Why a machine start begins no procedure.
#[derive(Clone, Copy, Debug, PartialEq, Eq)]
pub enum PlaceFault {
    /// No symbol of the object has the name.
    NoProcedure,
    /// The symbol is there, and the machine start may not begin it.
    Placement,
    /// An allocation was refused.
    NoMemory,
}
