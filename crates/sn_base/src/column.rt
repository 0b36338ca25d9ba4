//! What is known of a column.

use crate::name::Name;

/// A column of a schema.
#[derive(Clone, Copy, Debug, PartialEq, Eq)]
pub struct Column {
    /// The name by which operators read it.
    pub name: Name,
    /// How many bits its numbers have.
    pub width: u32,
    /// Whether its numbers are printed as addresses.
    pub address: bool,
}
