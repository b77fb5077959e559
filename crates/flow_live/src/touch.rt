//! How a place touches a name.

/// A touch of a name, by its number.
#[derive(Clone, Copy, Debug, PartialEq, Eq)]
pub enum Touch {
    /// The place uses the name.
    Use(usize),
    /// The place uses the name late, after its definitions took effect. It counts as a use.
    LateUse(usize),
    /// The place defines the name.
    Def(usize),
}
