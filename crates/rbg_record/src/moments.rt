//! The moments of a record, and the checks of an entry that need no question.
ghost use Rattle.std.specs.Prelude.{◌≡◌, ◌↔◌, ◌≤◌, ◌+◌, Some, IsTrue};
ghost use Rattle.rbg_match.specs.Config.{IsWithinLimits};
ghost use Rattle.rbg_match.specs.History.{IsInTurn};
ghost use Rattle.rbg_match.specs.Limits.{latest_moment};
ghost use Rattle.rbg_record.specs.declared.entry.Entry.TheVariants.{End as EndEntry};
ghost use Rattle.rbg_record.specs.Lines.{IsMomentFor};
ghost use Rattle.rbg_record.specs.Judged.{FitsUnasked, IsOnTurn};
ghost use Rattle.rbg_record.specs.Right.{turn_config};

use crate::entry::{Entry, Timed};
use crate::heading::Start;
use crate::reached::MatchSoFar;
use rbg_match::{Config, LATEST_MOMENT};
use rbg_moves::PlayedGame;
use rbg_wire::Outcome;

/// Whether the time for a turn is within its limits.
pub(crate) fn has_lawful_turns(start: Start) -> bool
    ensures { IsTrue result ↔ IsWithinLimits (turn_config start.turn_ms) }
{
    let config = Config {
        turn_ms: start.turn_ms,
        refusals: 0,
    };
    config.is_within_limits()
}

/// Whether the time for a turn is within its limits, and the moment of the beginning is one that is counted.
pub(crate) fn is_lawful(start: Start) -> bool
    ensures { IsTrue result ↔ (IsWithinLimits (turn_config start.turn_ms)
        × (start.now ≤ latest_moment)) }
{
    has_lawful_turns(start) && start.now <= LATEST_MOMENT
}

impl MatchSoFar {
    /// The current player; 0 is the keeper.
    fn mover(&self) -> u64
        ensures { result ≡ self.now.place.state.player }
    {
        u64::from(self.place.state.player())
    }

    /// Whether a moment is in the turn that began with the last move.
    fn is_in_turn(&self, at: u64) -> bool
        ensures { IsTrue result ↔ IsInTurn (turn_config self.now.turn_ms) self.now.last at }
    {
        self.last <= at && at - self.last < self.turn_ms
    }

    /// Whether that turn is due at a moment.
    fn is_due(&self, at: u64) -> bool
        ensures { IsTrue result ↔ (self.now.last + self.now.turn_ms ≤ at) }
    {
        self.last <= at && self.turn_ms <= at - self.last
    }

    /// Whether a player is to move, and a moment is in its turn.
    fn is_on_turn(&self, at: u64) -> bool
        ensures { IsTrue result ↔ IsOnTurn self.now at }
    {
        self.mover() != 0 && self.is_in_turn(at)
    }

    /// Whether a move of this player may have that moment.
    fn allows(&self, player: u64, at: u64) -> bool
        ensures { IsTrue result ↔ IsMomentFor self.now player at }
    {
        if player == 0 {
            at == self.last
        } else {
            self.is_in_turn(at)
        }
    }

    /// Whether all of an entry that needs no question is right in a game.
    pub(crate) fn fits(&self, game: &PlayedGame, told: &Timed) -> bool
        ensures { IsTrue result
            ↔ FitsUnasked game.now self.now told.now.at told.now.entry }
    {
        let at = told.at;
        match &told.entry {
            Entry::Move { player, .. } => *player == self.mover() && self.allows(*player, at),
            Entry::End { outcome: None } => self.is_on_turn(at),
            Entry::End {
                outcome: Some(outcome),
            } => self.fits_outcome(game, at, *outcome),
        }
    }

    fn fits_outcome(&self, game: &PlayedGame, at: u64, outcome: Outcome) -> bool
        ensures { IsTrue result
            ↔ FitsUnasked game.now self.now at (EndEntry (Some outcome)) }
    {
        match outcome {
            Outcome::Finished { .. } => at == self.last,
            Outcome::Time { player } => { player == self.mover() && player != 0 && self.is_due(at) }
            Outcome::Refusals { player } => self.is_on_turn(at) && game.has_player(player),
            Outcome::Gone { player } => self.is_on_turn(at) && game.has_player(player),
            Outcome::Heavy => self.is_in_turn(at),
        }
    }
}
