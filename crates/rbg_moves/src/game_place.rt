//! A place of a game, with the game.
ghost use Rattle.std.specs.Prelude.{◌≡◌, ◌<◌, ◌≤◌, ◌^◌, length, slice_get, take, All, IfOk, Some};
ghost use Rattle.rbg_rules.specs.Meaning.{IsGame, IsPlaceOf, try_move, most_players};
ghost use Rattle.rbg_moves.specs.Answers.{ListsMoves, TriesMove};
ghost use Rattle.rbg_moves.specs.Listing.{IsListed};
ghost use Rattle.rbg_moves.specs.Playing.{playing_at};
ghost use Rattle.rbg_moves.specs.Tallying.{Tallies};

use crate::list::Listed;
use crate::place::Place;
use crate::played::PlayedGame;
use crate::playthrough::Playthrough;
use crate::workspace::Workspace;
use arrayvec::ArrayVec;
use rbg_base::{Memory, Move, Piece, Player, Variable};
use rbg_rules::Game;
use rbg_rules::limits::MAX_PLAYERS;
use rbg_search::Over;
use std::alloc::Global;
use std::marker::Model;

/// A game, and a place of it; both are lent.
#[derive(Drop)]
pub struct GamePlace<'a> {
    game: &'a PlayedGame,
    place: &'a Place,
}

impl<'a> Model for GamePlace<'a> {
    ghost use Rattle.rbg_moves.specs.GamePlaces.{AbstractGamePlace, coded_game_place};

    ghost Value = { AbstractGamePlace };

    ghost coded = { coded_game_place };

    ghost view = { λ at. record { game = at.game.now; place = at.place.now } };

    ghost use Rattle.rbg_rules.specs.Meaning.{IsPlaceOf};

    ghost invariant = { λ at. IsPlaceOf at.game.now at.place.now };
}

impl<'a> GamePlace<'a> {
    /// The place with its game.
    #[inline(always)]
    pub fn new(game: &'a PlayedGame, place: &'a Place) -> GamePlace<'a>
        requires { IsPlaceOf game.now place.now }
        ensures { result ≡ record { game = game.now; place = place.now } }
    {
        GamePlace { game, place }
    }

    /// The game.
    #[inline(always)]
    pub fn played(&self) -> &'a PlayedGame
        ensures { result.now ≡ self.now.game }
    {
        self.game
    }

    /// The game itself.
    #[inline(always)]
    pub fn game(&self) -> &'a Game
        ensures game { result.now ≡ self.now.game }
        ensures lawful { IsGame self.now.game }
    {
        self.game.as_game()
    }

    /// The place.
    #[inline(always)]
    pub fn place(&self) -> &'a Place
        ensures place { result.now ≡ self.now.place }
        ensures in_game { IsPlaceOf self.now.game self.now.place }
    {
        self.place
    }

    /// Play that goes on from a copy of the place.
    pub fn play_on(&self) -> Result<Playthrough<'a>, Memory>
        ensures { IfOk result (λ play. play ≡ playing_at self.now.game self.now.place) }
    {
        let place = self.place.try_clone()?;
        Ok(Playthrough::at(self.game, place, self.game.workspace()))
    }

    /// The player to move; 0 is the keeper.
    pub fn player(&self) -> Player
        ensures { result ≡ self.now.place.state.player }
    {
        let place = self.place;
        place.state.player()
    }

    /// The piece on each vertex.
    pub fn pieces(&self) -> &'a [Piece]
        ensures { result.now ≡ self.now.place.state.pieces }
    {
        let place = self.place;
        place.state.pieces()
    }

    /// What a variable holds.
    #[inline(always)]
    pub fn value(&self, variable: Variable) -> u32
        requires { variable < length self.now.game.bounds }
        ensures { slice_get self.now.place.state.values variable ≡ Some result }
    {
        let place = self.place;
        place.state.value(variable)
    }

    /// What the variables hold, in order.
    pub fn values(&self, alloc: Global) -> Result<Vec<u32>, Memory>
        ensures { IfOk result (λ values. values.items ≡ self.now.place.state.values) }
    {
        values_at(alloc, self.game.as_game(), self.place)
    }

    /// What the players have scored, in order.
    pub fn scores(&self) -> ArrayVec<u64, MAX_PLAYERS>
        ensures values { result.items
            ≡ take (length self.now.game.players) self.now.place.state.values }
        ensures count { length result.items ≡ length self.now.game.players }
        ensures some { 0 < length result.items }
        ensures few { length result.items ≤ most_players }
        ensures small { All (λ score. score < 2 ^ 64) result.items }
    {
        self.game.scores(self.place)
    }

    /// The place after the move of these pairs, or None if it is not legal.
    pub fn try_move(&self, pairs: &Move, workspace: &mut Workspace) -> Result<Option<Place>, Over>
        ensures tries { TriesMove self.now.game self.now.place pairs.now result }
        ensures tallies { Tallies self.now.game (try_move pairs.now) self.now.place
            workspace.old.tally workspace.new.tally result }
    {
        self.game.try_move(self.place, pairs, workspace)
    }

    /// The legal moves in order, or `max` of them where there are more.
    pub fn list_moves(&self, max: usize) -> Result<Listed, Over>
        requires { 0 < max }
        ensures { ListsMoves self.now.game self.now.place result
            (λ listed. IsListed self.now.game self.now.place max listed.moves.items listed.cut)
            (λ listed. listed.cut) }
    {
        self.game.list_moves(self.place, max)
    }
}

/// What the variables hold at a place, in order.
#[tactic(auto, using(crate::proofs::Taking::take_one))]
fn values_at(alloc: Global, game: &Game, place: &Place) -> Result<Vec<u32>, Memory>
    requires { IsPlaceOf game.now place.now }
    ensures { IfOk result (λ values. values.items ≡ place.now.state.values) }
{
    let mut values = Vec::new(alloc);
    for index in 0..game.variables() {
        values.push(place.state.value(index as Variable))?;
    }
    Ok(values)
}
