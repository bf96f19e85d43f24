//! What a line answers.

/// What a line answers when it is polled.
#[derive(Clone, Copy, PartialEq, Eq)]
pub enum Polled {
    /// That many bytes came. They stand at the start of the buffer.
    Got(usize),
    /// Nothing has come.
    Nothing,
    /// No more will come.
    Ended,
    /// The line failed.
    Failed,
}

/// What a line answers when bytes are put to it.
#[derive(Clone, Copy, PartialEq, Eq)]
pub enum Put {
    /// The line took that many of the first bytes.
    Took(usize),
    /// The line failed.
    Failed,
}
