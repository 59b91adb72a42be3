// Where a reader stands.

use crate::BinlogFault;
use crate::format::LogFormat;
use crate::view::EventMark;

/// Where the next event begins, and what the events before it say of it.
#[derive(Clone, Copy)]
pub(crate) struct Position {
    /// Where it begins, in bytes from the file's beginning.
    pub place: u64,
    /// The length of the file in bytes.
    pub size: u64,
    /// What the events before it say of it.
    pub format: LogFormat,
}

/// An event that was read, and where the next one begins.
#[derive(Clone, Copy)]
pub(crate) struct StageStep {
    /// The event.
    pub mark: EventMark,
    /// Where the next one begins.
    pub next: Position,
}

/// Where a reader stands.
#[derive(Clone, Copy)]
pub(crate) enum Stage {
    /// Nothing was read.
    Start,
    /// The events before this position were read.
    Events(Position),
    /// The file was refused, and is refused again.
    Refused(BinlogFault),
}
