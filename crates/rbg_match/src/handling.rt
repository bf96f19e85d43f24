//! How a referee handles one input.
ghost use Rattle.std.specs.Prelude.{◌≡◌, ◌<◌, ◌≤◌, None, IsOk};
ghost use Rattle.rbg_wire.specs.Inboxes.{item_of};
ghost use Rattle.rbg_wire.specs.Messages.{ArePairs};
ghost use Rattle.rbg_match.specs.Handling.{sent, Refuses, Judges, HandlesInTime, Handles};
ghost use Rattle.rbg_match.specs.Play.{due_of, mover_of};
ghost use Rattle.rbg_match.specs.PlayingOn.{seats_of};
ghost use Rattle.rbg_match.specs.internal.InputOf.{IsOfSeats, IsSeatOf, input_of};
ghost use Rattle.rbg_match.specs.internal.Replies.{Replies};

use crate::asking::try_move;
use crate::input::Input;
use crate::state::Referee;
use rbg_base::Memory;
use rbg_moves::Move;
use rbg_wire::{Message, Outcome, Reason, Took, WireError, read_move};

impl Referee {
    /// Refuses a seat's message and counts it. The match ends if the count passes the allowed number.
    fn refuse(&mut self, seat: usize, reason: Reason) -> Result<(), Memory>
        requires going { self.old.play.outcome ≡ None }
        requires seat { IsSeatOf (seats_of self.old.game) seat }
        ensures { Replies self.old self.new result (λ referee _.
            Refuses (seats_of referee.game) referee.config referee.play seat reason) }
    {
        self.outbox
            .queue_message(seat, &Message::Refused { reason })?;
        if self.play.refuse(seat, self.config.refusals) {
            let outcome = Outcome::Refusals {
                player: seat as u64,
            };
            self.outbox.queue_for_each(&Message::Ended { outcome })?;
        }
        Ok(())
    }

    /// Judges the move that the mover asks for. A legal move is made, and play continues. Another one is refused.
    fn judge(&mut self, pairs: Move) -> Result<(), Memory>
        requires going { self.old.play.outcome ≡ None }
        requires player { 1 ≤ mover_of self.old.play }
        requires spelled { ArePairs pairs }
        ensures { Replies self.old self.new result (λ referee _.
            Judges referee.game referee.config referee.play referee.moment pairs) }
    {
        match try_move(
            &self.game,
            &self.play.place,
            &pairs,
            &mut self.play.workspace,
        ) {
            Ok(None) => {
                let seat = self.play.mover() as usize;
                self.refuse(seat, Reason::NotLegal)
            }
            Ok(Some(to)) => {
                self.make(pairs, to)?;
                self.play_on()
            }
            Err(over) => self.end_heavy(over),
        }
    }

    /// Handles an item of a seat's stream that arrived before the due moment.
    fn handle_in_time(&mut self, seat: usize, took: Took<'_>) -> Result<(), Memory>
        requires going { self.old.play.outcome ≡ None }
        requires seat { IsSeatOf (seats_of self.old.game) seat }
        ensures { Replies self.old self.new result (λ referee _.
            HandlesInTime referee.game referee.config referee.play referee.moment
            (sent seat (item_of took.entry))) }
    {
        if seat as u64 != self.play.mover() {
            return self.refuse(seat, Reason::OutOfTurn);
        }
        let Took::Message(text) = took else {
            return self.refuse(seat, Reason::Unreadable);
        };
        match read_move(text) {
            Ok(pairs) => self.judge(pairs),
            Err(WireError::Malformed) => self.refuse(seat, Reason::Unreadable),
            Err(WireError::TooManyPairs) => self.refuse(seat, Reason::MoveTooLong),
        }
    }

    /// Handles an input.
    pub(crate) fn handle(&mut self, input: Input<'_>) -> Result<(), Memory>
        requires { IsOfSeats (seats_of self.old.game) input }
        ensures replies { Replies self.old self.new result (λ referee _.
            Handles referee.game referee.config referee.play referee.moment
            (input_of input.entry)) }
        ensures quiet { input.entry ≡ Input.Tick
            → self.old.moment < due_of self.old.config self.old.play →
            IsOk result }
    {
        if self.play.outcome.is_some() {
            return Ok(());
        }
        if self.play.turn_began + self.config.turn_ms <= self.moment {
            let outcome = Outcome::Time {
                player: self.play.mover(),
            };
            return self.end(outcome);
        }
        match input {
            Input::Tick => Ok(()),
            Input::Gone { seat } => self.leave(seat),
            Input::Sent { seat, took } => self.handle_in_time(seat, took),
        }
    }
}
