//! A seat in a game, whose player follows play and chooses its moves.
ghost use Rattle.std.specs.Prelude.{◌≡◌, ◌==◌, ℕ, [], length, Contains, IfErr, IfNone, IfOk, IfSome, OnOk};
ghost use Rattle.rbg_base.specs.Move.{IsMoveLength};
ghost use Rattle.rbg_game.specs.Loading.{Loads};
ghost use Rattle.rbg_rules.specs.Meaning.{IsGame, IsPlaceOf};
ghost use Rattle.rbg_wire.specs.Messages.{game_message, move_message};
ghost use Rattle.rbg_player.specs.Players.{AbstractSeat, named, playing, seated};
ghost use Rattle.rbg_player.specs.Hearing.{HasFault, HasMoveToMake, Accepts, IsMover};
ghost use Rattle.rbg_player.specs.internal.Codes.{coded_seat};
ghost use Rattle.rbg_player.specs.internal.Sitting.{Follows, IsAnswer, IsUnanswered, Lists};

use crate::{Chooser, PlayerError};
use rbg_game::load;
use rbg_moves::{Move, Place, PlayedGame};
use std::alloc::Global;
use std::marker::Model;

/// The maximum number of legal moves among which a player chooses.
pub const MAX_CHOICES: usize = 64;

/// A seat in a game. Contracts see the number of its player, the game and the place that play has reached.
pub(crate) struct Seat {
    player: u64,
    game: PlayedGame,
    place: Place,
}

impl Model for Seat {
    ghost Value = { AbstractSeat };

    ghost coded = { coded_seat };

    ghost view = { λ s. record { player = s.player; game = s.game; place = s.place } };

    ghost invariant = { λ s. IsPlaceOf s.game s.place };
}

/// Written by hand: dropping a seat is then one call in the proofs of its owners, not a step for each part.
impl Drop for Seat {
    fn drop(self) {
        let Seat {
            player: _,
            game: _,
            place: _,
        } = self;
    }
}

impl Seat {
    /// The seat of a player in the game of a text, at the beginning of play.
    pub(crate) fn new(alloc: Global, player: u64, text: &[u8]) -> Result<Seat, PlayerError>
        ensures sits { IfOk result (λ seat.
            Accepts (named player) (game_message text.now) (seated seat) []) }
        ensures fault { IfErr result (HasFault (named player) (game_message text.now)) }
    {
        let game = load_game(alloc, text)?;
        if !game.has_player(player) {
            return Err(PlayerError::BadMessage);
        }
        let place = game.start()?;
        Ok(Seat {
            player,
            game,
            place,
        })
    }

    /// Follows a move that was made. On an error the seat is unchanged.
    pub(crate) fn follow(&mut self, pairs: &Move) -> Result<(), PlayerError>
        ensures ok { OnOk result (Follows self.old pairs.now self.new) }
        ensures fault { IfErr result (HasFault (playing self.old) (move_message pairs.now)) }
    {
        let to = self
            .game
            .try_move(&self.place, pairs, &mut self.game.workspace())?;
        match to {
            Some(place) => {
                self.place = place;
                Ok(())
            }
            None => Err(PlayerError::NotLegal),
        }
    }

    /// A legal move of the chooser's choice, if the player has a move to make.
    pub(crate) fn choose_move<C: Chooser>(
        &self,
        chooser: &mut C,
    ) -> Result<Option<Move>, PlayerError>
        ensures chosen { IfOk result (λ chosen. IfSome chosen (IsAnswer self.now)) }
        ensures none { IfOk result (λ chosen. IfNone chosen (¬ HasMoveToMake self.now)) }
        ensures fault { IfErr result (IsUnanswered self.now) }
    {
        if !self.is_mover() {
            return Ok(None);
        }
        let moves = self.list_moves()?;
        Ok(choose_among(moves, chooser))
    }

    /// Whether the player is the mover.
    fn is_mover(&self) -> bool
        ensures { result ≡ (self.now.place.state.player == self.now.player) }
    {
        u64::from(self.place.state.player()) == self.player
    }

    /// The legal moves among which the player chooses.
    fn list_moves(&self) -> Result<Vec<Move>, PlayerError>
        ensures lists { IfOk result (λ moves. Lists self.now moves.items) }
        ensures fault { IsMover self.now → IfErr result (IsUnanswered self.now) }
        ensures lawful { IsGame self.now.game }
        ensures fits { IsPlaceOf self.now.game self.now.place }
    {
        self.game.is_accepted();
        let listed = self.game.list_moves(&self.place, MAX_CHOICES)?;
        Ok(listed.moves)
    }
}

/// One of the moves, which the chooser chooses. None if there is none.
fn choose_among<C: Chooser>(mut moves: Vec<Move>, chooser: &mut C) -> Option<Move>
    ensures chosen { IfSome result (Contains moves.items) }
    ensures length { IfSome result (λ answer. IsMoveLength (length answer)) }
    ensures none { IfNone result (moves.items ≡ []) }
{
    if moves.is_empty() {
        return None;
    }
    let chosen = chooser.choose(moves.len());
    let answer = moves.swap_remove(chosen);
    // A move has 1 to 200 pairs.
    let _pairs = answer.len();
    Some(answer)
}

/// The game of a text, made ready for play.
fn load_game(alloc: Global, text: &[u8]) -> Result<PlayedGame, PlayerError>
    ensures game { IfOk result (Loads text.now) }
    ensures fault { (player : ℕ) → IfErr result (HasFault (named player) (game_message text.now)) }
{
    match load(alloc, text) {
        Ok(game) => Ok(PlayedGame::new(alloc, game)?),
        Err(error) => {
            if error.is_memory() {
                return Err(PlayerError::Memory);
            }
            Err(PlayerError::BadMessage)
        }
    }
}
