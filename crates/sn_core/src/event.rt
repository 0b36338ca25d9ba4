//! What may happen in a net, and why it can't.

/// One event of a net.
#[derive(Clone, Copy)]
pub enum Event {
    /// The held tuple goes to every lane.
    Packet,
    /// The lane of this number appends its next row, or its End.
    ReadOut(u32),
    /// The engine takes the first frame of the lane of this number.
    Deliver(u32),
    /// The engine answers the window.
    CloseWindow,
    /// The lanes begin the next window.
    Install,
}

/// The first need of an event that fails.
#[derive(Clone, Copy)]
pub enum Why {
    /// No tuple is held in a begun window.
    NoInput,
    /// The lane of this number holds as many frames as it may.
    Full(u32),
    /// The held tuple is of a later window.
    Reading,
    /// No window is begun, or more may come of it.
    NotReading,
    /// The lane of this number holds no frame.
    Empty(u32),
    /// The lane of this number has appended its End.
    Ended(u32),
    /// The engine hasn't the End of the lane of this number, the first such lane.
    Unfinished(u32),
    /// The answers of the window before wait to be taken.
    Waiting,
    /// No window is closed.
    NoAnswer,
}
