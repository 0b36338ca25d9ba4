//! How long an address was answered, and when it was printed.

/// A longest run of windows of consecutive numbers whose unrefined answers hold an address.
#[derive(Clone, Copy, Debug)]
pub struct Stay {
    pub address: u128,
    pub first: u64,
    pub last: u64,
    /// The first of these windows whose refined answers hold the address.
    pub printed: Option<u64>,
}
