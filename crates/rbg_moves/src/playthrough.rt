//! A game that is played move by move.
ghost use Rattle.std.specs.Prelude.{◌≡◌, ◌⊎◌, ◌<◌, ◌≤◌, Err, Some, length, slice_get, IfOk, IfSome, IfNone, IsTrue, OnOk, OnErr};
ghost use Rattle.rbg_rules.specs.Meaning.{IsHeavyToFind, IsHeavyToTry, AbstractPlace, Legal, IsLegal, Finished, IsGame, IsPlaceOf};
ghost use Rattle.rbg_moves.specs.Answers.{ListsMoves, TellsMove};
ghost use Rattle.rbg_moves.specs.Limits.{most_keeper_moves};
ghost use Rattle.rbg_moves.specs.Listing.{IsGathered};
ghost use Rattle.rbg_moves.specs.Moving.{Moves, in_a_row_after, moved_to};
ghost use Rattle.rbg_moves.specs.Playing.{mover_text, playing_at};
ghost use Rattle.rbg_moves.specs.Settling.{IsEndless, MeetsHeavy, Settles, SomeKeeperMoves};
ghost use Rattle.rbg_moves.specs.Starting.{start_place};

use crate::game_place::GamePlace;
use crate::list::Gathered;
use crate::place::Place;
use crate::played::PlayedGame;
use crate::settling::MAX_KEEPER_MOVES;
use crate::unsettled::Unsettled;
use crate::workspace::Workspace;
use rbg_base::{Memory, Move, MoveList, Pair, Piece, Player, Variable};
use rbg_rules::Game;
use rbg_search::Over;
use std::marker::Model;
use std::mem::swap;

/// A game that is played move by move, and the place that is reached. Contracts see both, and how many moves the keeper
/// has made in a row, one by one, since play came here from elsewhere.
pub struct Playthrough<'a> {
    game: &'a PlayedGame,
    place: Place,
    /// How many moves of the keeper were made in a row, at most `MAX_KEEPER_MOVES`.
    in_a_row: u32,
    /// What the questions leave to later ones. Contracts don't see it.
    workspace: Workspace,
}

impl<'a> Model for Playthrough<'a> {
    ghost use Rattle.rbg_moves.specs.Playing.{Playing, coded_playing};

    ghost Value = { Playing };

    ghost coded = { coded_playing };

    ghost view = { λ p. record { game = p.game.now; place = p.place; in_a_row = p.in_a_row } };

    ghost use Rattle.std.specs.Prelude.{◌≤◌};
    ghost use Rattle.rbg_moves.specs.Limits.{most_keeper_moves};
    ghost use Rattle.rbg_rules.specs.Meaning.{IsPlaceOf};

    ghost invariant = { λ p. IsPlaceOf p.game.now p.place × (p.in_a_row ≤ most_keeper_moves) };
}

/// Written out, so that letting a game go that is played is one call in the proofs of those who hold one.
impl Drop for Playthrough<'_> {
    fn drop(self) {
        let Playthrough {
            game: _,
            place: _,
            in_a_row: _,
            workspace: _,
        } = self;
    }
}

impl<'a> Playthrough<'a> {
    /// The beginning of play.
    pub fn start(game: &'a PlayedGame) -> Result<Playthrough<'a>, Memory>
        ensures { IfOk result (λ play. play ≡ playing_at game.now (start_place game.now)) }
    {
        let place = game.start()?;
        Ok(Playthrough::at(game, place, game.workspace()))
    }

    /// Play that goes on from a place of the game, with what earlier questions left.
    pub fn at(game: &'a PlayedGame, place: Place, workspace: Workspace) -> Playthrough<'a>
        requires { IsPlaceOf game.now place }
        ensures { result ≡ playing_at game.now place }
    {
        Playthrough {
            game,
            place,
            in_a_row: 0,
            workspace,
        }
    }

    /// The place that is reached, and what the questions leave.
    pub fn into_parts(self) -> (Place, Workspace)
        ensures place { result.0 ≡ self.entry.place }
        ensures in_game { IsPlaceOf self.entry.game result.0 }
    {
        let Playthrough {
            game: _,
            place,
            in_a_row: _,
            workspace,
        } = self;
        (place, workspace)
    }

    /// The place with its game.
    #[inline(always)]
    pub fn here(&self) -> GamePlace<'_>
        ensures { result ≡ record { game = self.now.game; place = self.now.place } }
    {
        GamePlace::new(self.game, &self.place)
    }

    /// The place.
    #[inline(always)]
    pub fn place(&self) -> &Place
        ensures place { result.now ≡ self.now.place }
        ensures in_game { IsPlaceOf self.now.game self.now.place }
    {
        &self.place
    }

    /// The game.
    pub fn game(&self) -> &'a Game
        ensures game { result.now ≡ self.now.game }
        ensures lawful { IsGame result.now }
    {
        self.game.as_game()
    }

    /// The player to move; 0 is the keeper.
    pub fn player(&self) -> Player
        ensures { result ≡ self.now.place.state.player }
    {
        self.place.state.player()
    }

    /// Whether the keeper has made as many moves in a row as it may.
    pub fn keeper_is_tired(&self) -> bool
        ensures tired { IsTrue result → self.now.in_a_row ≡ most_keeper_moves }
        ensures fresh { ¬ IsTrue result → self.now.in_a_row < most_keeper_moves }
    {
        self.in_a_row >= MAX_KEEPER_MOVES
    }

    /// The name of the player to move.
    pub fn mover(&self) -> &'a str
        ensures { result.now ≡ mover_text self.now }
    {
        let player = self.place.state.player();
        if player == 0 {
            "the keeper"
        } else {
            self.game().player_name(player)
        }
    }

    /// Makes a move, if it is legal. Tells whether it was.
    pub fn try_pairs(&mut self, pairs: &Move) -> Result<bool, Over>
        ensures legal { IfOk result (λ made. IsTrue made → Moves self.old pairs.now self.new) }
        ensures illegal { IfOk result (λ made. ¬ IsTrue made
            → (to : AbstractPlace) → ¬ Legal self.old.game self.old.place pairs.now to) }
        ensures kept { IfOk result (λ made. ¬ IsTrue made → self.new ≡ self.old) }
        ensures heavy { (result ≡ Err Over.Deep) ⊎ (result ≡ Err Over.Wide)
            → IsHeavyToTry self.old.game self.old.place pairs.now }
        ensures failed { OnErr result (self.new ≡ self.old) }
    {
        match self.game.try_move(&self.place, pairs, &mut self.workspace)? {
            Some(place) => {
                self.go_to(place);
                Ok(true)
            }
            None => Ok(false),
        }
    }

    /// A legal move, the one that the referee would make for the keeper. None where play is finished.
    pub fn find(&mut self) -> Result<Option<Vec<Pair>>, Over>
        ensures found { IfOk result (λ found.
            IfSome found (λ pairs. IsLegal self.old.game self.old.place pairs.items)) }
        ensures finished { IfOk result (λ found.
            IfNone found (Finished self.old.game self.old.place)) }
        ensures heavy { (result ≡ Err Over.Deep) ⊎ (result ≡ Err Over.Wide)
            → IsHeavyToFind self.old.game self.old.place }
        ensures kept { self.new ≡ self.old }
    {
        self.game.find_move(&mut self.place, &mut self.workspace)
    }

    /// Whether there is a legal move.
    pub fn has_move(&mut self) -> Result<bool, Over>
        ensures tells { TellsMove self.old.game self.old.place result }
        ensures kept { self.new ≡ self.old }
    {
        self.game.has_move(&mut self.place, &mut self.workspace)
    }

    /// The legal moves, or `max` of them where there are more, in the order in which they were found. `keep_moves` takes
    /// their list back.
    pub fn gather_moves(&mut self, max: usize) -> Result<Gathered, Over>
        requires { 0 < max }
        ensures lists { ListsMoves self.old.game self.old.place result
            (λ gathered. IsGathered self.old.game self.old.place max gathered.moves gathered.cut)
            (λ gathered. gathered.cut) }
        ensures kept { self.new ≡ self.old }
    {
        self.game
            .gather_moves(&mut self.place, max, &mut self.workspace)
    }

    /// Keeps a list of moves that is no longer needed.
    pub fn keep_moves(&mut self, moves: MoveList)
        ensures { self.new ≡ self.old }
    {
        self.workspace.keep_moves(moves);
    }

    /// Makes a legal move. Nothing is searched.
    pub fn make(&mut self, pairs: &[Pair]) -> Result<(), Memory>
        requires { IsLegal self.old.game self.old.place pairs.now }
        ensures made { OnOk result (Moves self.old pairs.now self.new) }
        ensures failed { OnErr result (self.new ≡ self.old) }
    {
        let in_a_row = self.next_in_a_row();
        self.game.make_move(&mut self.place, pairs)?;
        self.in_a_row = in_a_row;
        Ok(())
    }

    /// Makes a legal move, as `make`. The place before it is left in the buffers of another one: `exchange` leads back
    /// there. After an error what is left of the other place is of no use.
    pub fn make_from(&mut self, pairs: &[Pair], before: &mut Place) -> Result<(), Memory>
        requires { IsLegal self.old.game self.old.place pairs.now }
        ensures made { OnOk result (Moves self.old pairs.now self.new) }
        ensures before { OnOk result (before.new ≡ self.old.place) }
        ensures failed { OnErr result (self.new ≡ self.old) }
    {
        before.copy_from(&self.place)?;
        self.make(pairs)
    }

    /// Lets the keeper move until a player is to move or play is finished, as `PlayedGame::settle` does.
    pub fn settle(&mut self) -> Result<(), Unsettled>
        ensures settles { IfOk result (λ _. Settles self.old.game self.old.place self.new.place) }
        ensures at { self.new ≡ playing_at self.old.game self.new.place }
        ensures led { SomeKeeperMoves self.old.game self.old.place self.new.place }
        ensures heavy { result ≡ Err Unsettled.Heavy → MeetsHeavy self.old.game self.old.place }
        ensures endless { result ≡ Err Unsettled.Endless → IsEndless self.old.game self.old.place }
        ensures heavy_there { result ≡ Err Unsettled.Heavy
            → IsHeavyToFind self.old.game self.new.place }
        ensures keeper_there { (result ≡ Err Unsettled.Heavy) ⊎ (result ≡ Err Unsettled.Endless)
            → self.new.place.state.player ≡ 0 }
    {
        let settled = self.game.settle(&mut self.place, &mut self.workspace);
        self.in_a_row = 0;
        settled
    }

    /// Goes to another place, in exchange for the one that was reached.
    pub fn exchange(&mut self, place: &mut Place)
        requires { IsPlaceOf self.old.game place.old }
        ensures at { self.new ≡ playing_at self.old.game place.old }
        ensures left { place.new ≡ self.old.place }
        ensures in_game { IsPlaceOf self.old.game place.new }
    {
        swap(&mut self.place, place);
        self.in_a_row = 0;
    }

    /// Goes to a copy of another place. The buffers of the one that was reached are kept for later copies.
    pub fn go_to_copy(&mut self, place: &Place) -> Result<(), Memory>
        requires { IsPlaceOf self.old.game place.now }
        ensures at { OnOk result (self.new ≡ playing_at self.old.game place.now) }
        ensures failed { OnErr result (self.new ≡ self.old) }
    {
        let mut copy = self.workspace.copy_of(place)?;
        self.exchange(&mut copy);
        self.workspace.keep(copy);
        Ok(())
    }

    /// Some place, whose buffers are of use for another one. It may be a place of no game. `keep` takes it back.
    pub fn spare(&mut self) -> Place
        ensures { self.new ≡ self.old }
    {
        self.workspace.spare()
    }

    /// Keeps the buffers of a place that is no longer needed.
    pub fn keep(&mut self, place: Place)
        ensures { self.new ≡ self.old }
    {
        self.workspace.keep(place);
    }

    /// How many moves the keeper has made in a row after a move from here.
    fn next_in_a_row(&self) -> u32
        ensures after { result ≡ in_a_row_after self.now }
        ensures few { result ≤ most_keeper_moves }
    {
        if self.place.state.player() == 0 {
            (self.in_a_row + 1).min(MAX_KEEPER_MOVES)
        } else {
            0
        }
    }

    /// Goes to the place to which a move has led.
    fn go_to(&mut self, place: Place)
        requires { IsPlaceOf self.old.game place }
        ensures { self.new ≡ moved_to self.old place }
    {
        self.in_a_row = self.next_in_a_row();
        self.place = place;
    }

    /// The piece on each vertex.
    pub fn pieces(&self) -> &[Piece]
        ensures { result.now ≡ self.now.place.state.pieces }
    {
        self.place.state.pieces()
    }

    /// What a variable holds.
    pub fn value(&self, variable: Variable) -> u32
        requires { variable < length self.now.game.bounds }
        ensures { slice_get self.now.place.state.values variable ≡ Some result }
    {
        self.place.state.value(variable)
    }
}
