//! A player: it receives the stream of its seat in pieces.
ghost use Rattle.std.specs.Prelude.{◌≡◌, IfErr, OnErr, OnOk, length, take};
ghost use Rattle.rbg_wire.specs.Inboxes.{item_of};
ghost use Rattle.rbg_player.specs.Players.{AbstractPlayer, failed};
ghost use Rattle.rbg_player.specs.Streams.{Fails, HasItemFault, AcceptsPiece};
ghost use Rattle.rbg_player.specs.internal.Codes.{coded_player};
ghost use Rattle.rbg_player.specs.internal.Stages.{stage_of, player_of, IsReady, AcceptsItem};

use crate::stage::Stage;
use crate::{Chooser, Heard, PlayerError};
use rbg_base::Memory;
use rbg_wire::{Inbox, Message, Took, WireError, read_message, write_message};
use std::alloc::Global;
use std::marker::Model;

/// The maximum number of bytes of a message to a player, without its zero byte: the letter `G` and the longest text.
pub const MAX_MESSAGE_BYTES: usize = 262_145;

/// A player of a match. It receives the stream of its seat, and sends its moves.
pub struct Player {
    alloc: Global,
    inbox: Inbox,
    stage: Stage,
}

impl Model for Player {
    ghost Value = { AbstractPlayer };

    ghost coded = { coded_player };

    ghost view = { λ p. record { stage = stage_of p.stage; rest = p.inbox.rest } };

    ghost invariant = { λ p. IsReady p.inbox };
}

/// Written by hand: dropping a player is then one call in the proofs of its owners, not a step for each part.
impl Drop for Player {
    fn drop(self) {
        let Player {
            alloc: _,
            inbox: _,
            stage: _,
        } = self;
    }
}

impl Player {
    ghost use Rattle.std.specs.Prelude.{◌≡◌, ◌++◌, Err, IfErr, IfOk, OnErr, OnOk};
    ghost use Rattle.rbg_wire.specs.Messages.{join_message, spelling};
    ghost use Rattle.rbg_player.specs.declared.error.PlayerError.{PlayerError as AnyError};
    ghost use Rattle.rbg_player.specs.Players.{failed, heard_at, new_player};
    ghost use Rattle.rbg_player.specs.Streams.{Fails, AcceptsPiece};

    /// A player that has received nothing. The call doesn't allocate.
    pub fn new(alloc: Global) -> Player
        ensures { result ≡ new_player }
    {
        Player {
            alloc,
            inbox: Inbox::new(alloc, MAX_MESSAGE_BYTES),
            stage: Stage::Unnamed,
        }
    }

    /// A player that asks for a seat in a match of a hall. Its message is appended to `out`, which is unchanged on an
    /// error.
    pub fn join(alloc: Global, table: u64, out: &mut Vec<u8>) -> Result<Player, Memory>
        ensures player { IfOk result (λ player. player ≡ new_player) }
        ensures says { OnOk result (out.new.items
            ≡ out.old.items ++ spelling (join_message table)) }
        ensures err { OnErr result (out.new.items ≡ out.old.items) }
    {
        write_message(&Message::Join { table }, out)?;
        Ok(Player::new(alloc))
    }

    /// Receives a piece of its stream, and appends the messages that it sends to `out`. If it has a move to make, the
    /// chooser chooses one of at most 64 legal moves.
    ///
    /// After an error `out` is as before, and the player returns that error from then on.
    pub fn hear<C: Chooser>(
        &mut self,
        piece: &[u8],
        chooser: &mut C,
        out: &mut Vec<u8>,
    ) -> Result<Heard, PlayerError>
        ensures hears { OnOk result (AcceptsPiece self.old piece.now self.new out.old.items
            out.new.items) }
        ensures tells { IfOk result (λ heard. heard ≡ heard_at self.new.stage) }
        ensures fails { IfErr result (Fails self.old piece.now) }
        ensures out { OnErr result (out.new.items ≡ out.old.items) }
        ensures failed { IfErr result (λ error. self.new.stage ≡ failed error) }
        ensures again { (error : AnyError) → self.old.stage ≡ failed error → result ≡ Err error }
    {
        if let Some(error) = self.stage.error() {
            return Err(error);
        }
        let len = out.len();
        match hear_piece(&mut self.inbox, &mut self.stage, piece, chooser, out) {
            Ok(()) => Ok(self.stage.heard()),
            Err(error) => {
                self.inbox = Inbox::new(self.alloc, MAX_MESSAGE_BYTES);
                self.stage = give_up(error, len, out);
                Err(error)
            }
        }
    }
}

/// The stage of a player that returns an error. What it wrote after the first `len` bytes is taken back.
fn give_up(error: PlayerError, len: usize, out: &mut Vec<u8>) -> Stage
    ensures stage { stage_of result ≡ failed error }
    ensures out { out.new.items ≡ take len out.old.items }
{
    out.truncate(len);
    Stage::Failed { error }
}

/// Receives the items that a piece completes, in turn. After an error the bytes that were there are still there, and
/// others may follow them.
fn hear_piece<C: Chooser>(
    inbox: &mut Inbox,
    stage: &mut Stage,
    piece: &[u8],
    chooser: &mut C,
    out: &mut Vec<u8>,
) -> Result<(), PlayerError>
    requires ready { IsReady inbox.old }
    ensures ready { OnOk result (IsReady inbox.new) }
    ensures hears { OnOk result (AcceptsPiece (player_of stage.old inbox.old) piece.now
        (player_of stage.new inbox.new)
        out.old.items out.new.items) }
    ensures fails { IfErr result (Fails (player_of stage.old inbox.old) piece.now) }
    ensures kept { take (length out.old.items) out.new.items ≡ out.old.items }
{
    let alloc = *out.allocator();
    inbox.feed(piece)?;
    while let Some(took) = inbox.take() {
        hear_item(alloc, stage, took, chooser, out)?;
    }
    Ok(())
}

/// Receives an item of the stream.
fn hear_item<C: Chooser>(
    alloc: Global,
    stage: &mut Stage,
    took: Took<'_>,
    chooser: &mut C,
    out: &mut Vec<u8>,
) -> Result<(), PlayerError>
    ensures hears { OnOk result
        (AcceptsItem (stage_of stage.old) (item_of took.entry) (stage_of stage.new) out.old.items
        out.new.items) }
    ensures fault { IfErr result (HasItemFault (stage_of stage.old) (item_of took.entry)) }
    ensures out { OnErr result (out.new.items ≡ out.old.items) }
{
    let Took::Message(text) = took else {
        return Err(PlayerError::BadMessage);
    };
    match read_message(text) {
        Ok(message) => stage.hear(alloc, message, chooser, out),
        Err(WireError::Malformed) => Err(PlayerError::BadMessage),
        Err(WireError::TooManyPairs) => Err(PlayerError::BadMessage),
    }
}
