//! What a line over memory gives and takes.

/// What a line over memory gives at a poll.
#[derive(Drop)]
pub enum Give {
    /// These bytes. What doesn't fit the buffer is given at the next poll.
    Bytes(Vec<u8>),
    /// Nothing has come.
    Nothing,
    /// No more will come.
    Ended,
    /// The line fails.
    Failed,
}

/// What a line over memory takes at a put.
#[derive(Clone, Copy)]
pub enum Take {
    /// That many bytes at most.
    UpTo(usize),
    /// None: the line fails.
    Fail,
}
