//! A line of a hall.

use rbg_wire::Inbox;

/// A line that is heard, and when.
#[derive(Clone, Copy)]
pub(crate) struct Speaker {
    pub line: u64,
    pub at: u64,
}

/// What stands of a line. Of a line that is over nothing is kept.
#[derive(Drop)]
pub(crate) enum LinePhase {
    /// No message of it has come.
    Silent(Inbox),
    /// Its first message asks for the table at this index.
    Asks { index: usize, inbox: Inbox },
    /// It has ended, or its first message asks for no table.
    Over,
}
