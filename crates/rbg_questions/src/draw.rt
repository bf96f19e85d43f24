//! What chance is asked for.

/// What is drawn by chance.
#[derive(Clone, Copy)]
pub struct Draw {
    /// The number with which chance begins.
    pub seed: u64,
    /// How many matches are played, or how many moves of one match are made at most.
    pub count: u64,
}
