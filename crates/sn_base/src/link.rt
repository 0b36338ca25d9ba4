//! The link types of captures.

/// What stands at the front of a captured packet, by the link type of the capture's header.
#[derive(Clone, Copy, Debug, PartialEq, Eq)]
pub enum Link {
    /// Link type 1: Ethernet (IEEE 802.3), 14 bytes, and after them tags (IEEE 802.1Q).
    Ethernet,
    /// Link type 101: no link header, an IP header stands first.
    RawIp,
    /// Link type 113: Linux cooked, 16 bytes.
    Cooked,
    /// Link type 276: Linux cooked, version 2, 20 bytes.
    Cooked2,
}
