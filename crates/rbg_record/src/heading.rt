//! What the first lines of a record contain.

/// The version of a record.
#[derive(Clone, Copy)]
pub enum Version {
    /// `rbg 1`: moves and the outcome.
    One,
    /// `rbg 2`: with the players' names, the start and the moments.
    Two,
}

/// `start <turn> <now>`: how a match began.
#[derive(Clone, Copy)]
pub struct Start {
    /// The time for a turn, in milliseconds.
    pub turn_ms: u64,
    /// The moment at which the match began, in milliseconds.
    pub now: u64,
}
