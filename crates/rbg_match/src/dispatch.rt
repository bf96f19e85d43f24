//! How a referee handles an event: the inputs that the event means, in turn.
ghost use Rattle.std.specs.Prelude.{◌≡◌, ◌≤◌, ◌↔◌, IsTrue, length, map, OnOk};
ghost use Rattle.rbg_wire.specs.Streams.{cut};
ghost use Rattle.rbg_match.specs.Handling.{sent};
ghost use Rattle.rbg_match.specs.Inputs.{inputs_in, is_seat_in};
ghost use Rattle.rbg_script.specs.Events.{event_of};
ghost use Rattle.rbg_match.specs.Limits.{message_limit};
ghost use Rattle.rbg_match.specs.Play.{due_of};
ghost use Rattle.rbg_match.specs.PlayingOn.{seats_of};
ghost use Rattle.rbg_match.specs.internal.Inboxes.{AreReady, HaveTaken, IsQuiet, IsReady, rests_of};
ghost use Rattle.rbg_match.specs.internal.InputOf.{IsSeatOf};
ghost use Rattle.rbg_match.specs.internal.Replies.{HandlesNow, Replies};

use crate::input::Input;
use crate::state::Referee;
use rbg_base::Memory;
use rbg_script::Event;
use rbg_wire::Inbox;

/// Whether there is a seat of that number.
pub(crate) fn is_seat(seat: u64, seats: usize) -> bool
    ensures value { result ≡ is_seat_in seats seat }
    ensures range { IsTrue result ↔ ((1 ≤ seat) × (seat ≤ seats)) }
{
    1 <= seat && seat <= seats as u64
}

impl Referee {
    /// Handles a piece of a seat's stream: the items that it completes, in turn.
    fn handle_piece(&mut self, inbox: &mut Inbox, seat: usize, bytes: &[u8]) -> Result<(), Memory>
        requires seat { IsSeatOf (seats_of self.old.game) seat }
        requires ready { IsReady inbox.old }
        ensures replies { Replies self.old self.new result (λ referee _.
            HandlesNow (map (sent seat) (cut message_limit inbox.old.rest bytes.now).items) referee) }
        ensures ready { OnOk result (IsReady inbox.new) }
        ensures rest { OnOk result (inbox.new.rest
            ≡ (cut message_limit inbox.old.rest bytes.now).rest) }
    {
        inbox.feed(bytes)?;
        while let Some(took) = inbox.take() {
            self.handle(Input::Sent { seat, took })?;
        }
        Ok(())
    }

    /// Handles an event at the counted moment: the inputs that it means, in turn.
    pub(crate) fn handle_event(
        &mut self,
        inboxes: &mut [Inbox],
        event: Event<&[u8]>,
    ) -> Result<(), Memory>
        requires inboxes { length inboxes.old ≡ seats_of self.old.game }
        requires ready { AreReady inboxes.old }
        ensures replies { Replies self.old self.new result (λ referee _.
            HandlesNow (inputs_in (rests_of inboxes.old) (event_of event.entry)) referee) }
        ensures quiet { IsQuiet inboxes.old (event_of event.entry) self.old.moment
            (due_of self.old.config self.old.play) result }
        ensures ready { OnOk result (AreReady inboxes.new) }
        ensures rests { OnOk result (HaveTaken inboxes.old (event_of event.entry) inboxes.new) }
    {
        match event {
            Event::Piece {
                source: seat,
                bytes,
                ..
            } => {
                self.handle(Input::Tick)?;
                if is_seat(seat, inboxes.len()) {
                    let seat = seat as usize;
                    let inbox = &mut inboxes[seat - 1];
                    self.handle_piece(inbox, seat, bytes)?;
                }
                Ok(())
            }
            Event::Ended { source: seat, .. } => {
                if is_seat(seat, inboxes.len()) {
                    let seat = seat as usize;
                    self.handle(Input::Gone { seat })
                } else {
                    self.handle(Input::Tick)
                }
            }
            Event::Tick { .. } => self.handle(Input::Tick),
        }
    }
}
