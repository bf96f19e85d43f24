//! The targets of leaps, as they are lent.

use rbg_base::Position;

/// A position to which leaps lead, and some vertices: those with a bit in a word, in one column of 64 vertices.
#[derive(Clone, Copy, Drop)]
pub struct Target {
    pub position: Position,
    pub column: u32,
    pub word: u64,
}
