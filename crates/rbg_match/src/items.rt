//! How a referee handles what arrives: an event, or an item in place of a piece.
ghost use Rattle.std.specs.Prelude.{◌≡◌, ◌<◌, ◌≤◌, ◌↔◌, false, max, min, IsOk, length, OnOk};
ghost use Rattle.rbg_wire.specs.Inboxes.{item_of};
ghost use Rattle.rbg_match.specs.Arrivals.{MayCome, arrival_of};
ghost use Rattle.rbg_match.specs.Inputs.{inputs_at, inputs_in, is_seat_in};
ghost use Rattle.rbg_script.specs.Events.{moment_of};
ghost use Rattle.rbg_match.specs.Limits.{latest_moment};
ghost use Rattle.rbg_match.specs.Play.{due_of};
ghost use Rattle.rbg_match.specs.PlayingOn.{seats_of};
ghost use Rattle.rbg_match.specs.internal.Inboxes.{AreReady, HaveTaken, IsQuiet, rests_of};
ghost use Rattle.rbg_match.specs.internal.Items.{item_inputs};
ghost use Rattle.rbg_match.specs.internal.Replies.{HandlesNow, Replies};
ghost use Rattle.rbg_match.specs.internal.Saying.{QueuesMessages};
ghost use Rattle.rbg_match.specs.Transcript.{HandlesAll};

use crate::dispatch::is_seat;
use crate::input::Input;
use crate::state::Referee;
use crate::{Arrival, Outbox};
use rbg_base::Memory;
use rbg_wire::{Inbox, Took};

impl Referee {
    /// Handles an item of a seat's stream at the counted moment: the moment, and then the item if there is the seat.
    fn handle_item(&mut self, seats: usize, seat: u64, took: Took<'_>) -> Result<(), Memory>
        requires { seats ≡ seats_of self.old.game }
        ensures replies { Replies self.old self.new result (λ referee _.
            HandlesNow (item_inputs seats seat (item_of took.entry)) referee) }
        ensures quiet { is_seat_in seats seat ≡ false
            → self.old.moment < due_of self.old.config self.old.play →
            IsOk result }
    {
        self.handle(Input::Tick)?;
        if is_seat(seat, seats) {
            let seat = seat as usize;
            self.handle(Input::Sent { seat, took })?;
        }
        Ok(())
    }

    /// Handles what arrives at the counted moment: the inputs that it means, in turn.
    fn handle_arrival(&mut self, inboxes: &mut [Inbox], arrival: Arrival<'_>) -> Result<(), Memory>
        requires inboxes { length inboxes.old ≡ seats_of self.old.game }
        requires ready { AreReady inboxes.old }
        requires comes { MayCome (rests_of inboxes.old) arrival }
        ensures replies { Replies self.old self.new result (λ referee _.
            HandlesNow (inputs_in (rests_of inboxes.old) (arrival_of arrival.entry)) referee) }
        ensures quiet { IsQuiet inboxes.old (arrival_of arrival.entry) self.old.moment
            (due_of self.old.config self.old.play) result }
        ensures ready { OnOk result (AreReady inboxes.new) }
        ensures rests { OnOk result (HaveTaken inboxes.old (arrival_of arrival.entry) inboxes.new) }
    {
        match arrival {
            Arrival::Plain(event) => self.handle_event(inboxes, event),
            Arrival::Item { seat, took, .. } => self.handle_item(inboxes.len(), seat, took),
        }
    }

    /// Counts the moment of what arrives, and handles it. Its messages go to the given outbox.
    pub(crate) fn step(
        &mut self,
        inboxes: &mut [Inbox],
        arrival: Arrival<'_>,
        outbox: &mut Outbox,
    ) -> Result<(), Memory>
        requires outbox { length outbox.old ≡ seats_of self.old.game }
        requires inboxes { length inboxes.old ≡ seats_of self.old.game }
        requires ready { AreReady inboxes.old }
        requires comes { MayCome (rests_of inboxes.old) arrival }
        ensures game { self.new.game ≡ self.old.game }
        ensures config { self.new.config ≡ self.old.config }
        ensures moment { self.new.moment
            ≡ max self.old.moment (min (moment_of (arrival_of arrival.entry)) latest_moment) }
        ensures latest { self.new.moment ≤ latest_moment }
        ensures says { QueuesMessages outbox.old outbox.new result (λ _ outgoing.
            HandlesAll self.old.game self.old.config self.old.play
            (inputs_at self.new.moment (inputs_in (rests_of inboxes.old) (arrival_of arrival.entry)))
            self.new.play outgoing) }
        ensures quiet { IsQuiet inboxes.old (arrival_of arrival.entry) self.new.moment
            (due_of self.old.config self.old.play) result }
        ensures ready { OnOk result (AreReady inboxes.new) }
        ensures rests { OnOk result (HaveTaken inboxes.old (arrival_of arrival.entry) inboxes.new) }
    {
        self.count(arrival.at());
        self.exchange(outbox);
        let handled = self.handle_arrival(inboxes, arrival);
        self.exchange(outbox);
        handled
    }
}
