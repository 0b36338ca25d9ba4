//! What is looked at of a cell.

/// What is looked at of a cell, beside the kind of its key.
#[derive(Clone, Copy)]
pub(crate) struct Head {
    /// The two words of the key that took it.
    pub first: u64,
    pub second: u64,
    /// The fold of the key's values.
    pub value: u64,
}
