//! How play stands at a place.

use arrayvec::ArrayVec;
use rbg_base::Player;
use rbg_rules::limits::MAX_PLAYERS;

/// How play stands at a place.
#[derive(Drop)]
pub enum PlayStanding {
    /// `player <number>`: the player has a legal move.
    ToMove { player: Player },
    /// `finished <scores>`: nobody has a legal move. The players have these scores, in order.
    Finished { scores: ArrayVec<u64, MAX_PLAYERS> },
}
