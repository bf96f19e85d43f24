//! What the lines of a record so far lead to.
ghost use Rattle.std.specs.Prelude.{◌≡◌, IfOk};
ghost use Rattle.rbg_record.specs.Lines.{next_of};
ghost use Rattle.rbg_record.specs.ByLine.{reached_of};
ghost use Rattle.rbg_record.specs.Reaching.{place_in};

use crate::heading::Version;
use crate::next::Next;
use rbg_base::Memory;
use rbg_moves::Place;

/// The point to which the moves so far lead.
#[derive(Drop)]
pub struct MatchSoFar {
    /// The version of the record.
    pub version: Version,
    /// The time for a turn, in milliseconds: 1 in version 1.
    pub turn_ms: u64,
    /// The moment of the last move, or of the beginning: 0 in version 1.
    pub last: u64,
    pub place: Place,
}

/// What the lines so far lead to.
#[derive(Drop)]
pub enum Reached {
    /// The version comes next.
    Version,
    /// The players come next.
    Players,
    /// The start comes next.
    Start,
    /// A move or the end comes next.
    Entry(MatchSoFar),
    /// Nothing comes next: the end was read.
    Nothing,
}

impl Reached {
    /// What comes next.
    pub fn next(&self) -> Next
        ensures { result ≡ next_of (reached_of self.now) }
    {
        match self {
            Reached::Version => Next::Version,
            Reached::Players => Next::Players,
            Reached::Start => Next::Start,
            Reached::Entry(match_so_far) => Next::Entry(match_so_far.version),
            Reached::Nothing => Next::Nothing,
        }
    }

    /// A copy of the place to which the last line leads, or of `before` if it leads to none.
    pub fn place_or(&self, before: Place) -> Result<Place, Memory>
        ensures { IfOk result (λ place. place ≡ place_in (reached_of self.now) before) }
    {
        match self {
            Reached::Entry(match_so_far) => match_so_far.place.try_clone(),
            Reached::Version => Ok(before),
            Reached::Players => Ok(before),
            Reached::Start => Ok(before),
            Reached::Nothing => Ok(before),
        }
    }
}
