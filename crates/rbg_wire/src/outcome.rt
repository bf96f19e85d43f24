//! How a match ended.

use crate::Scores;

/// How a match ended.
#[derive(Clone, Copy, Debug, PartialEq, Eq)]
pub enum Outcome {
    /// `E0 <scores>`: play is finished, with the scores of the players in order.
    Finished { scores: Scores },
    /// `E1 <player>`: the time of that player ran out.
    Time { player: u64 },
    /// `E2 <player>`: that player had too many refusals.
    Refusals { player: u64 },
    /// `E3 <player>`: the stream of that player ended.
    Gone { player: u64 },
    /// `E4`: a question was above the limits, or the keeper moved 1,000 times in a row.
    Heavy,
}
