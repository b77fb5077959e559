//! Cases of a Switch.

/// A case of a Switch: its word at the width of the Switch, and the block to which it leads.
#[derive(Clone, Copy, Debug, PartialEq, Eq)]
pub(crate) struct Case {
    pub(crate) word: u64,
    pub(crate) target: u32,
}
