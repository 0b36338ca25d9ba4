//! What a net is given and holds.

/// What the switch is given: a tuple with the number of its window, or the end of all.
#[derive(Clone, Copy, Drop)]
pub enum Supply<T> {
    /// The number of a window, and a tuple of it.
    Numbered(u64, T),
    /// Nothing more comes.
    End,
}

/// What a lane holds for the engine: an item, or the end of the window.
#[derive(Clone, Copy, Drop)]
pub enum Frame<I> {
    /// An item of the window.
    Row(I),
    /// The lane has no more items of the window.
    Last,
}

/// The window of a net.
#[derive(Clone, Copy)]
pub enum Window {
    /// No tuple was given yet, or all windows are done.
    Idle,
    /// The window of this number takes tuples, or is read out.
    Begun(u64),
    /// The window of this number was answered, and the next hasn't begun.
    Closed(u64),
}
