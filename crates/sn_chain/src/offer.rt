//! What became of an offered key.

/// What became of an offered key.
#[derive(Clone, Copy, Debug, PartialEq, Eq)]
pub enum Offer {
    /// The key was new and took a cell, with the value that was offered.
    New,
    /// The key was held, and the value was added to its fold.
    Held,
    /// All cells of the key hold other keys: nothing changed.
    Over,
}
