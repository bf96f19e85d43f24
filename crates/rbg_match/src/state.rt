//! A referee: what a match works on, apart from its streams.
ghost use Rattle.std.specs.Prelude.{◌≡◌, ◌≤◌, is_some, max, min, length};
ghost use Rattle.rbg_match.specs.Limits.{latest_moment};
ghost use Rattle.rbg_match.specs.PlayingOn.{seats_of};

use crate::play::Play;
use crate::{Config, LATEST_MOMENT, Outbox};
use rbg_moves::PlayedGame;
use std::marker::Model;
use std::mem::swap;

/// The referee of a match: what it judges by, the state of play, and the messages to send.
pub(crate) struct Referee {
    pub game: PlayedGame,
    pub config: Config,
    /// The maximum counted moment, in milliseconds.
    pub moment: u64,
    pub play: Play,
    /// The outbox of the call at hand. Between two calls it is one in which nothing is queued.
    pub outbox: Outbox,
}

impl Model for Referee {
    ghost use Rattle.rbg_match.specs.internal.Replies.{RefereeState, IsReferee};

    ghost Value = { RefereeState };

    ghost use Rattle.rbg_match.specs.internal.Codes.{coded_referee};

    ghost coded = { coded_referee };

    ghost use Rattle.rbg_match.specs.internal.PlayOf.{play_of};

    ghost view = { λ r. record {
      game = r.game;
      config = r.config;
      moment = r.moment;
      play = play_of r.play;
      outbox = r.outbox;
    } };

    ghost invariant = { λ r. IsReferee r.game r.config r.moment (play_of r.play) r.outbox };
}

/// Written by hand: dropping a referee is then one call in the proofs of its owners, not a step for each part.
impl Drop for Referee {
    fn drop(self) {
        let Referee {
            game: _,
            config: _,
            moment: _,
            play: _,
            outbox: _,
        } = self;
    }
}

impl Referee {
    /// Counts a moment of the clock.
    pub(crate) fn count(&mut self, at: u64)
        ensures counted { self.new
            ≡ record self.old { moment = max self.old.moment (min at latest_moment) } }
        ensures latest { self.new.moment ≤ latest_moment }
    {
        self.moment = self.moment.max(at.min(LATEST_MOMENT));
    }

    /// Whether the match has ended.
    pub(crate) fn has_ended(&self) -> bool
        ensures { result ≡ is_some self.now.play.outcome }
    {
        self.play.outcome.is_some()
    }

    /// Exchanges the outbox, for one with the same seats.
    pub(crate) fn exchange(&mut self, outbox: &mut Outbox)
        requires { length outbox.old ≡ seats_of self.old.game }
        ensures own { self.new ≡ record self.old { outbox = outbox.old } }
        ensures given { outbox.new ≡ self.old.outbox }
        ensures seats { length outbox.new ≡ seats_of self.old.game }
    {
        swap(&mut self.outbox, outbox);
    }
}
