//! The scores of an outcome, which are stored in the value itself.
ghost use Rattle.std.specs.Prelude.{◌≡◌, ℕ, ◌+◌, ◌<◌, ◌≤◌, ◌==◌, List, [], ◌∷◌, ◌++◌, length};
ghost use Rattle.rbg_wire.specs.Limits.{most_scores};

use std::marker::Model;

/// The maximum number of scores of an outcome.
pub const MAX_SCORES: usize = 8;

/// Up to 8 scores, in order of players. Contracts see the list.
#[derive(Clone, Copy, Debug, PartialEq, Eq)]
pub struct Scores {
    // The entries from `len` on are 0.
    places: [u64; MAX_SCORES],
    len: usize,
}

impl Model for Scores {
    ghost use Rattle.std.specs.Prelude.{ℕ, List, length, take};
    ghost use Rattle.rbg_wire.specs.Scores.{HoldsScores, padded_scores, padded_scores-take, length-scores};

    ghost Value = { List ℕ };

    ghost view = { λ s. take s.len s.places };

    ghost invariant = { λ s. HoldsScores s.places s.len };

    ghost inverse = { λ scores. record { places = padded_scores scores; len = length scores } };

    ghost inverse_ok = { λ s h i.
        record { places = padded_scores-take s.places s.len h i; len = length-scores s.places s.len h i } };
}

impl Scores {
    /// No score yet.
    pub fn new() -> Scores
        ensures { result ≡ [] }
    {
        Scores {
            places: [0; MAX_SCORES],
            len: 0,
        }
    }

    /// Appends the next player's score. There must be room.
    pub fn push(&mut self, score: u64)
        requires { length self.old < most_scores }
        ensures { self.new ≡ self.old ++ score ∷ [] }
    {
        self.places[self.len] = score;
        self.len += 1;
    }

    /// The number of scores.
    pub fn len(&self) -> usize
        ensures count { result ≡ length self.now }
        ensures fits { result ≤ most_scores }
    {
        self.as_slice().len()
    }

    /// Whether there is no score.
    pub fn is_empty(&self) -> bool
        ensures { result ≡ (length self.now == 0) }
    {
        self.as_slice().is_empty()
    }

    /// The scores, in order of players.
    pub fn as_slice(&self) -> &[u64]
        ensures scores { result.now ≡ self.now }
        ensures fits { length result.now ≤ most_scores }
    {
        &self.places[..self.len]
    }
}
