//! The moves of a match.

use rbg_base::Player;
use rbg_moves::Move;

/// A move that was made.
#[derive(Drop)]
pub struct Made {
    /// Who made it: the players are numbered from 1, and the keeper is 0.
    pub player: Player,
    /// The counted moment at which it was made, in milliseconds.
    pub at: u64,
    pub pairs: Move,
}
