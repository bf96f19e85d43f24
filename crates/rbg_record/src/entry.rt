//! Entries: the lines of a record that have a move or the end.

use rbg_base::Move;
use rbg_wire::Outcome;

/// An entry of a record: a move that was made, or how the record ends.
#[derive(Drop)]
pub enum Entry {
    /// `<player> <pairs>`: the player made this move. The keeper is player 0.
    Move { player: u64, pairs: Move },
    /// `E..`: the match ended with this outcome. `-`: it is still in play.
    End { outcome: Option<Outcome> },
}

/// An entry with its moment.
#[derive(Drop)]
pub struct Timed {
    /// The moment in milliseconds.
    pub at: u64,
    pub entry: Entry,
}
