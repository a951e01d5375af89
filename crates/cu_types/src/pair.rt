//! Pairs of places in a table.

/// Two places of a table whose types shall be the same.
#[derive(Clone, Copy, PartialEq, Eq)]
pub(crate) struct Pair {
    /// The place of one of the types.
    pub(crate) left: usize,
    /// The place of the other type.
    pub(crate) right: usize,
}
