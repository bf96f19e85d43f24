//! What searches took up in all.
ghost use Rattle.std.specs.Prelude.{◌≡◌};

use std::marker::Model;

/// What searches took up in all. Contracts see the two counts.
#[derive(Drop)]
pub struct Tally {
    pub(crate) openings: u64,
    pub(crate) pairs: u64,
}

impl Model for Tally {
    ghost use Rattle.rbg_search.specs.Searching.{Tally as Counted};

    ghost Value = { Counted };

    ghost view = { λ t. record { openings = t.openings; pairs = t.pairs } };
}

impl Tally {
    /// The tally of no search.
    pub fn new() -> Tally
        ensures { result ≡ record { openings = 0; pairs = 0 } }
    {
        Tally {
            openings: 0,
            pairs: 0,
        }
    }

    /// How many openings the searches took up.
    pub fn openings(&self) -> u64
        ensures { result ≡ self.now.openings }
    {
        self.openings
    }

    /// How many pairs of a position and a vertex the searches met, without shifts where the game has leaps.
    pub fn pairs(&self) -> u64
        ensures { result ≡ self.now.pairs }
    {
        self.pairs
    }
}
