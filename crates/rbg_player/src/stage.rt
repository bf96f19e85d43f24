//! The stages of a player, and what it does with each message.
ghost use Rattle.std.specs.Prelude.{◌≡◌, ◌++◌, ℕ, List, [], IfErr, OnErr, OnOk};
ghost use Rattle.rbg_wire.specs.Messages.{ArePairs, spelling, message_of, who_message, game_message, limits_message, move_message, refusal_message, end_message};
ghost use Rattle.rbg_player.specs.Players.{unnamed, playing, error_at, heard_at};
ghost use Rattle.rbg_player.specs.Hearing.{HasFault, Accepts};
ghost use Rattle.rbg_player.specs.internal.Stages.{stage_of, AcceptsOrFails};

use crate::seat::Seat;
use crate::{Chooser, Heard, PlayerError};
use rbg_base::Memory;
use rbg_moves::Move;
use rbg_wire::{Message, Outcome, Reason, write_message};
use std::alloc::Global;
use std::mem;

/// How far a player has come. Contracts see it as `stage_of` does.
#[derive(Drop)]
pub(crate) enum Stage {
    /// The player waits for `W`.
    Unnamed,
    /// The player waits for `G`.
    Named { player: u64 },
    /// The player waits for `L`.
    Seated { seat: Seat },
    /// The player follows play.
    Playing { seat: Seat },
    /// The player has received the end of play.
    Ended { outcome: Outcome },
    /// The player has returned an error.
    Failed { error: PlayerError },
}

impl Stage {
    /// What the player returns after a piece: the outcome, once it has received the end.
    pub(crate) fn heard(&self) -> Heard
        ensures { result ≡ heard_at (stage_of self.now) }
    {
        match self {
            Stage::Ended { outcome } => Heard::Ended(*outcome),
            _ => Heard::Going,
        }
    }

    /// The error that the player has returned.
    pub(crate) fn error(&self) -> Option<PlayerError>
        ensures { result ≡ error_at (stage_of self.now) }
    {
        match self {
            Stage::Failed { error } => Some(*error),
            _ => None,
        }
    }

    /// Receives a message, and appends what it sends to `out`. After an error the stage is unspecified.
    pub(crate) fn hear<C: Chooser>(
        &mut self,
        alloc: Global,
        message: Message<'_>,
        chooser: &mut C,
        out: &mut Vec<u8>,
    ) -> Result<(), PlayerError>
        ensures { AcceptsOrFails (stage_of self.old) (message_of message.entry) (stage_of self.new)
            out.old.items out.new.items result }
    {
        match message {
            Message::Who { player, .. } => self.hear_name(player),
            Message::Game { text } => self.hear_game(alloc, text),
            Message::Limits { .. } => self.hear_limits(),
            Message::Moved { pairs } => self.hear_move(&pairs, chooser, out),
            Message::Refused { reason } => self.hear_refusal(reason),
            Message::Ended { outcome } => self.hear_end(outcome),
            Message::Join { .. } => Err(PlayerError::BadMessage),
        }
    }

    #[tactic(auto, using(crate::proofs::HearingLemmas::hearing))]
    fn hear_name(&mut self, player: u64) -> Result<(), PlayerError>
        ensures ok { (name : List ℕ) → OnOk result
            (Accepts (stage_of self.old) (who_message player name) (stage_of self.new) []) }
        ensures fault { (name : List ℕ)
            → IfErr result (HasFault (stage_of self.old) (who_message player name)) }
    {
        let Stage::Unnamed = self else {
            return Err(PlayerError::BadMessage);
        };
        *self = Stage::Named { player };
        Ok(())
    }

    #[tactic(auto, using(crate::proofs::HearingLemmas::hearing))]
    fn hear_game(&mut self, alloc: Global, text: &[u8]) -> Result<(), PlayerError>
        ensures ok { OnOk result (Accepts (stage_of self.old) (game_message text.now)
            (stage_of self.new) []) }
        ensures fault { IfErr result (HasFault (stage_of self.old) (game_message text.now)) }
    {
        let Stage::Named { player } = self else {
            return Err(PlayerError::BadMessage);
        };
        let seat = Seat::new(alloc, *player, text)?;
        *self = Stage::Seated { seat };
        Ok(())
    }

    #[tactic(auto, using(crate::proofs::HearingLemmas::hearing))]
    fn hear_limits(&mut self) -> Result<(), PlayerError>
        ensures ok { (turn_ms refusals : ℕ) → OnOk result
            (Accepts (stage_of self.old) (limits_message turn_ms refusals) (stage_of self.new) []) }
        ensures fault { (turn_ms refusals : ℕ) → IfErr result
            (HasFault (stage_of self.old) (limits_message turn_ms refusals)) }
    {
        let Stage::Seated { seat } = mem::replace(self, Stage::Unnamed) else {
            return Err(PlayerError::BadMessage);
        };
        *self = Stage::Playing { seat };
        Ok(())
    }

    #[tactic(auto, using(crate::proofs::HearingLemmas::hearing))]
    fn hear_move<C: Chooser>(
        &mut self,
        pairs: &Move,
        chooser: &mut C,
        out: &mut Vec<u8>,
    ) -> Result<(), PlayerError>
        ensures { AcceptsOrFails (stage_of self.old) (move_message pairs.now) (stage_of self.new)
            out.old.items out.new.items result }
    {
        let Stage::Playing { seat } = self else {
            return Err(PlayerError::BadMessage);
        };
        play(seat, pairs, chooser, out)
    }

    #[tactic(auto, using(crate::proofs::HearingLemmas::hearing))]
    fn hear_refusal(&self, reason: Reason) -> Result<(), PlayerError>
        ensures ok { OnOk result (Accepts (stage_of self.now) (refusal_message reason)
            (stage_of self.now) []) }
        ensures fault { IfErr result (HasFault (stage_of self.now) (refusal_message reason)) }
    {
        match self {
            Stage::Playing { .. } => Ok(()),
            Stage::Unnamed => Err(refused_early(reason)),
            _ => Err(PlayerError::BadMessage),
        }
    }

    #[tactic(auto, using(crate::proofs::HearingLemmas::hearing))]
    fn hear_end(&mut self, outcome: Outcome) -> Result<(), PlayerError>
        ensures ok { OnOk result (Accepts (stage_of self.old) (end_message outcome)
            (stage_of self.new) []) }
        ensures fault { IfErr result (HasFault (stage_of self.old) (end_message outcome)) }
    {
        let Stage::Playing { .. } = self else {
            return Err(PlayerError::BadMessage);
        };
        *self = Stage::Ended { outcome };
        Ok(())
    }
}

/// The error of a refusal that is received before `W`.
#[tactic(auto, using(crate::proofs::HearingLemmas::hearing))]
fn refused_early(reason: Reason) -> PlayerError
    ensures { HasFault unnamed (refusal_message reason) result }
{
    match reason {
        Reason::NoSeat => PlayerError::NoSeat,
        Reason::Unreadable => PlayerError::BadMessage,
        Reason::OutOfTurn => PlayerError::BadMessage,
        Reason::NotLegal => PlayerError::BadMessage,
        Reason::MoveTooLong => PlayerError::BadMessage,
    }
}

/// Follows a move that was made, and sends a move if the player then has one to make.
fn play<C: Chooser>(
    seat: &mut Seat,
    pairs: &Move,
    chooser: &mut C,
    out: &mut Vec<u8>,
) -> Result<(), PlayerError>
    ensures { AcceptsOrFails (playing seat.old) (move_message pairs.now) (playing seat.new)
        out.old.items out.new.items result }
{
    seat.follow(pairs)?;
    if let Some(pairs) = seat.choose_move(chooser)? {
        say(pairs, out)?;
    }
    Ok(())
}

/// Sends a move: appends its message to `out`.
fn say(pairs: Move, out: &mut Vec<u8>) -> Result<(), Memory>
    requires { ArePairs pairs }
    ensures ok { OnOk result (out.new.items ≡ out.old.items ++ spelling (move_message pairs)) }
    ensures err { OnErr result (out.new.items ≡ out.old.items) }
{
    let message = Message::Moved { pairs };
    write_message(&message, out)
}
