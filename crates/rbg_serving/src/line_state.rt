//! What stands of a line in a call of `serve`.

/// What a line has taken so far in a call of `serve`, and whether it is live.
#[derive(Clone, Copy)]
pub(crate) struct LineState {
    /// How many of the bytes queued for its seat it has taken.
    pub taken: usize,
    /// Whether it has neither ended nor failed.
    pub live: bool,
}
