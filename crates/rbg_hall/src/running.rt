//! A match that has begun at a table.
ghost use Rattle.std.specs.Prelude.{◌≡◌, length, false, IfOk, OnOk};
ghost use Rattle.rbg_wire.specs.Bytes.{LacksByte};
ghost use Rattle.rbg_match.specs.Config.{IsWithinLimits};
ghost use Rattle.rbg_match.specs.Arrivals.{arrival_of};
ghost use Rattle.rbg_match.specs.Matches.{HasHistory};
ghost use Rattle.rbg_match.specs.PlayingOn.{seats_of};
ghost use Rattle.rbg_hall.specs.internal.Running.{ComesWhole, OpensFor, StepsFor};

use crate::queues::Queues;
use rbg_base::Memory;
use rbg_match::{Arrival, MAX_SEATS, Match, Outbox};
use rbg_rules::Game;
use rbg_serving::Opening;
use std::marker::Model;

/// A match that has begun. Contracts see the match.
#[derive(Drop)]
pub(crate) struct Running {
    playing: Match,
    /// What the match says to its seats in one step. Between steps nothing is in it.
    outbox: Outbox,
}

impl Model for Running {
    ghost use Rattle.rbg_match.specs.Matches.{MatchState};
    ghost use Rattle.rbg_match.specs.internal.Codes.{coded_match};

    ghost Value = { MatchState };

    ghost coded = { coded_match };

    ghost use Rattle.rbg_hall.specs.internal.Running.{IsRunning};

    ghost view = { λ r. r.playing };

    ghost invariant = { λ r. IsRunning r.playing r.outbox };
}

impl Running {
    /// Opens a match, and passes on what it says to the lines on its seats.
    pub(crate) fn open(
        game: Game,
        opening: Opening<'_>,
        seats: &[Option<u64>],
        out: &mut Queues,
    ) -> Result<Running, Memory>
        requires no_zero { LacksByte 0 opening.text.now }
        requires limits { IsWithinLimits opening.config }
        requires seats { length seats.now ≡ seats_of game }
        ensures opens { IfOk result (λ opened.
            OpensFor game opening.entry.text.now opening.entry.config opening.entry.now opened seats.now
            out.old.queued out.new.queued) }
        ensures committed { out.new.committed ≡ out.old.committed }
    {
        let Opening { text, config, now } = opening;
        let Ok((playing, mut outbox)) = Match::new(out.allocator(), game, text, config, now) else {
            return Err(Memory);
        };
        let told = out.tell_seats(seats, &outbox);
        outbox.cut_back(&[0; MAX_SEATS]);
        told?;
        Ok(Running { playing, outbox })
    }

    /// Handles what arrives, and passes on what the match says to the lines on its seats.
    pub(crate) fn step(
        &mut self,
        arrival: Arrival<'_>,
        seats: &[Option<u64>],
        out: &mut Queues,
    ) -> Result<(), Memory>
        requires seats { length seats.now ≡ seats_of self.old.game }
        requires whole { ComesWhole arrival }
        ensures steps { OnOk result (StepsFor self.old (arrival_of arrival.entry) self.new
            seats.now out.old.queued out.new.queued) }
        ensures game { self.new.game ≡ self.old.game }
        ensures committed { out.new.committed ≡ out.old.committed }
    {
        self.playing.receive(arrival, &mut self.outbox)?;
        let told = out.tell_seats(seats, &self.outbox);
        self.outbox.cut_back(&[0; MAX_SEATS]);
        told
    }

    /// The match.
    pub(crate) fn playing(&self) -> &Match
        ensures is { result.now ≡ self.now }
        ensures history { self.now.failed ≡ false → HasHistory self.now }
    {
        &self.playing
    }
}
