//! What a player returns after a piece of its stream.

use rbg_wire::Outcome;

/// Whether play continues, as far as the player has received it.
#[derive(Clone, Copy, PartialEq, Eq)]
pub enum Heard {
    /// The player hasn't received the end of play.
    Going,
    /// The player has received the end of play, in this piece or in an earlier one.
    Ended(Outcome),
}
