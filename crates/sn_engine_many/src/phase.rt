//! Where several switches stand between two calls.

/// Where several switches stand between two calls.
#[derive(Clone, Copy, Debug, PartialEq, Eq)]
pub enum Phase {
    /// No window is begun.
    Between,
    /// The window of this number is begun.
    Begun(u64),
    /// Memory ran out: each later call says so too.
    Spent,
}
