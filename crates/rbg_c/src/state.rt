//! A state of a game, as a value.
ghost use Rattle.std.specs.Prelude.{◌≡◌, ◌≢◌, ◌<◌, ◌^◌, [], length, map, slice_get, take, All, IfErr, IfNone, IfOk, IfSome, IsTrue, None, OnErr, OnOk, Some};
ghost use Rattle.std.specs.Option.{MatchOption};
ghost use Rattle.rbg_rules.specs.Meaning.{AbstractPlace, IsGame, IsPlaceOf, most_players};
ghost use Rattle.rbg_moves.specs.Settling.{IsEndless, MeetsHeavy, Settles};
ghost use Rattle.rbg_questions.specs.declared.question_error.QuestionError.TheVariants.{Keeper, Over};
ghost use Rattle.rbg_questions.specs.Chance.{AreTallied, IsUnmoved, IsUnplayed, counted_by};
ghost use Rattle.rbg_questions.specs.Keys.{key_of};
ghost use Rattle.rbg_questions.specs.Limits.{IsCount};
ghost use Rattle.rbg_questions.specs.Packing.{packed_of};
ghost use Rattle.rbg_questions.specs.Places.{AreLegalMoves, IsUnfollowed, IsUnlisted, IsUnmade};
ghost use Rattle.rbg_questions.specs.Sessions.{HasLedTo};
ghost use Rattle.rbg_moves.specs.Starting.{start_place};
ghost use Rattle.rbg_c.specs.States.{FindsMoves, Hears, Makes, MakesFound, Undoes, Unpacks, beginning_at, copy_of};
ghost use Rattle.rbg_c.specs.Stepping.{IsUnmadeAt};
ghost use Rattle.rbg_c.specs.internal.ByChance.{PlaysOne};

use crate::listing::push_move;
use arrayvec::ArrayVec;
use rand_pcg::Pcg32;
use rbg_base::{Memory, Move, MoveList, Piece, Player, Variable};
use rbg_moves::{GamePlace, Place, PlayedGame, Workspace};
use rbg_questions::{
    Draw, EndingTally, QuestionError, first_place, follow, key_of, lead, moves_at, pack,
    play_matches, step, unpack,
};
use rbg_rules::Game;
use rbg_rules::limits::MAX_PLAYERS;
use std::alloc::Global;
use std::marker::Model;
use std::mem::replace;
use std::ops::Deref;
use std::sync::Arc;

/// A state of a game: where play stands. States of one game share it. Contracts see the game, the place from which the
/// moves count, the places before, the place, and the legal moves there, where they were asked for.
pub struct State {
    alloc: Global,
    game: Arc<PlayedGame>,
    /// The place from which the moves count.
    origin: Arc<Place>,
    before: Vec<Place>,
    place: Place,
    found: Option<MoveList>,
    /// What questions leave to later ones. Contracts don't see it.
    workspace: Workspace,
}

impl Model for State {
    ghost use Rattle.rbg_c.specs.States.{AbstractState, IsState};

    ghost Value = { AbstractState };

    ghost use Rattle.rbg_c.specs.Codes.{coded_state};

    ghost coded = { coded_state };

    ghost view = { λ s. record { game = s.game.value; origin = s.origin.value; before = s.before.items; place = s.place; found = s.found } };

    ghost invariant = { λ s.
        IsState (record { game = s.game.value; origin = s.origin.value; before = s.before.items; place = s.place; found = s.found }) };
}

/// Written out, so that letting a state go is one call in the proofs of those who hold one, not a step for each part.
impl Drop for State {
    fn drop(self) {
        let State {
            alloc: _,
            game: _,
            origin: _,
            before: _,
            place: _,
            found: _,
            workspace: _,
        } = self;
    }
}

/// A game that states share.
fn shared(alloc: Global, game: PlayedGame) -> Result<Arc<PlayedGame>, Memory>
    ensures { IfOk result (λ shared. shared.value ≡ game) }
{
    match Arc::new(alloc, game) {
        Ok(shared) => Ok(shared),
        Err(_) => Err(Memory),
    }
}

/// A place that states share.
fn shared_place(alloc: Global, place: Place) -> Result<Arc<Place>, Memory>
    ensures { IfOk result (λ shared. shared.value ≡ place) }
{
    match Arc::new(alloc, place) {
        Ok(shared) => Ok(shared),
        Err(_) => Err(Memory),
    }
}

/// The game made ready for play, also by chance.
fn played(alloc: Global, game: Game) -> Result<PlayedGame, Memory>
    ensures { IfOk result (λ played. played ≡ game) }
{
    let mut played = PlayedGame::new(alloc, game)?;
    played.weigh()?;
    Ok(played)
}

/// Hands the list of the moves that were found on, so that later questions have its room.
fn hand_on(found: &mut Option<MoveList>, workspace: &mut Workspace) {
    if let Some(moves) = replace(found, None) {
        workspace.keep_moves(moves);
    }
}

impl State {
    /// The state to which the keeper's first moves lead.
    pub fn open(alloc: Global, game: Game) -> Result<State, QuestionError>
        ensures game { IfOk result (λ state.
            state ≡ beginning_at game (start_place game) state.place) }
        ensures place { IfOk result (λ state. Settles game (start_place game) state.place) }
    {
        let game = played(alloc, game)?;
        let mut workspace = Workspace::new(alloc);
        let place = first_place(&game, &mut workspace)?;
        let origin = shared_place(alloc, game.start()?)?;
        let game = shared(alloc, game)?;
        Ok(State {
            alloc,
            game,
            origin,
            before: Vec::new(alloc),
            place,
            found: None,
            workspace,
        })
    }

    /// The state where the rules begin: the keeper's first moves aren't made.
    pub fn begin(alloc: Global, game: Game) -> Result<State, Memory>
        ensures { IfOk result (λ state.
            state ≡ beginning_at game (start_place game) (start_place game)) }
    {
        let game = played(alloc, game)?;
        let place = game.start()?;
        let origin = shared_place(alloc, game.start()?)?;
        let game = shared(alloc, game)?;
        Ok(State {
            alloc,
            game,
            origin,
            before: Vec::new(alloc),
            place,
            found: None,
            workspace: Workspace::new(alloc),
        })
    }

    /// A copy of the state, of the same game, from which no move can be undone.
    pub fn try_clone(&self) -> Result<State, Memory>
        ensures { IfOk result (λ copy. copy ≡ copy_of self.now) }
    {
        let game = Arc::try_clone(&self.game)?;
        let origin = Arc::try_clone(&self.origin)?;
        let place = self.place.try_clone()?;
        Ok(State {
            alloc: self.alloc,
            game,
            origin,
            before: Vec::new(self.alloc),
            place,
            found: None,
            workspace: Workspace::new(self.alloc),
        })
    }

    /// The state at the place of these bytes, of the same game. None if no place of the game is packed so.
    pub fn unpack(&self, bytes: &[u8]) -> Result<Option<State>, Memory>
        ensures unpacked { IfOk result (λ found. IfSome found (Unpacks self.now bytes.now)) }
        ensures none { IfOk result (λ found. IfNone found ((place : AbstractPlace)
            → IsPlaceOf self.now.game place → bytes.now ≢ packed_of place)) }
    {
        match unpack(self.alloc, self.game(), bytes)? {
            Some(place) => Ok(Some(self.at(place)?)),
            None => Ok(None),
        }
    }

    /// The state at a place of the same game. Its moves count from there.
    fn at(&self, place: Place) -> Result<State, Memory>
        requires { IsPlaceOf self.now.game place }
        ensures { IfOk result (λ state. state ≡ beginning_at self.now.game place place) }
    {
        let game = Arc::try_clone(&self.game)?;
        let origin = shared_place(self.alloc, place.try_clone()?)?;
        Ok(State {
            alloc: self.alloc,
            game,
            origin,
            before: Vec::new(self.alloc),
            place,
            found: None,
            workspace: Workspace::new(self.alloc),
        })
    }

    /// The bytes of the place.
    pub fn pack(&self) -> Result<Vec<u8>, Memory>
        ensures { IfOk result (λ bytes. bytes.items ≡ packed_of self.now.place) }
    {
        pack(self.alloc, &self.here())
    }

    /// The place with its game.
    fn here(&self) -> GamePlace<'_>
        ensures { result ≡ record { game = self.now.game; place = self.now.place } }
    {
        GamePlace::new(self.game.deref(), &self.place)
    }

    /// The game.
    pub fn game(&self) -> &Game
        ensures game { result.now ≡ self.now.game }
        ensures lawful { IsGame result.now }
    {
        self.game.deref().as_game()
    }

    /// How many moves of players can be undone.
    pub fn moves_made(&self) -> usize
        ensures count { result ≡ length self.now.before }
        ensures led { HasLedTo self.now.game self.now.origin self.now.before
            self.now.place }
    {
        self.before.len()
    }

    /// The player to move; 0 is the keeper.
    pub fn player(&self) -> Player
        ensures { result ≡ self.now.place.state.player }
    {
        self.place.state.player()
    }

    /// The piece on each vertex.
    pub fn pieces(&self) -> &[Piece]
        ensures { result.now ≡ self.now.place.state.pieces }
    {
        self.place.state.pieces()
    }

    /// What a variable holds.
    pub fn value(&self, variable: Variable) -> u32
        requires { variable < length self.now.place.state.values }
        ensures { slice_get self.now.place.state.values variable ≡ Some result }
    {
        self.place.state.value(variable)
    }

    /// How many variables there are.
    pub fn variables(&self) -> usize
        ensures values { result ≡ length self.now.place.state.values }
        ensures small { result < 2 ^ 16 }
    {
        self.game.deref().as_game().variables()
    }

    /// What the players have scored, in order.
    pub fn scores(&self) -> ArrayVec<u64, MAX_PLAYERS>
        ensures values { result.items
            ≡ take (length self.now.game.players) self.now.place.state.values }
    {
        self.game.deref().scores(&self.place)
    }

    /// The key of the place: the one that a session of questions tells.
    pub fn key(&self) -> u64
        ensures { result ≡ key_of self.now.place }
    {
        key_of(&self.place)
    }

    /// Finds the legal moves, and tells how many they are. Play is finished where there is none.
    pub fn find_moves(&mut self) -> Result<usize, QuestionError>
        ensures found { IfOk result (λ count. FindsMoves self.old count self.new) }
        ensures unlisted { IfErr result (IsUnlisted self.old.game self.old.place) }
        ensures kept { OnErr result (self.new ≡ self.old) }
    {
        if let Some(moves) = &self.found {
            return Ok(moves.len());
        }
        let here = GamePlace::new(self.game.deref(), &self.place);
        let gathered = moves_at(&here, usize::MAX, &mut self.workspace)?;
        let count = gathered.moves.len();
        self.found = Some(gathered.moves);
        Ok(count)
    }

    /// The legal moves, where they were found.
    pub fn moves(&self) -> Option<&MoveList>
        ensures { MatchOption result (self.now.found ≡ None)
            (λ moves. (self.now.found ≡ Some moves.now)
            × AreLegalMoves self.now.game self.now.place moves.now) }
    {
        match &self.found {
            Some(moves) => Some(moves),
            None => None,
        }
    }

    /// Makes the move that stands at an index among those that were found, and the keeper's moves after it.
    pub fn make_found(&mut self, index: usize) -> Result<(), QuestionError>
        ensures made { OnOk result (MakesFound self.old index self.new) }
        ensures refused { IfErr result (IsUnmadeAt self.old index) }
        ensures kept { OnErr result (self.new ≡ self.old) }
    {
        let Some(moves) = &self.found else {
            return Err(QuestionError::Illegal);
        };
        if moves.len() <= index {
            return Err(QuestionError::Illegal);
        }
        let here = GamePlace::new(self.game.deref(), &self.place);
        let to = step(&here, moves.get(index), &mut self.workspace)?;
        self.before.reserve(1)?;
        self.before.push_reserved(replace(&mut self.place, to));
        hand_on(&mut self.found, &mut self.workspace);
        self.found = None;
        Ok(())
    }

    /// Makes a legal move by chance, each with the same chances, and the keeper's moves after it, and appends the numbers of
    /// the move. False where play is finished. After an error some numbers may have been appended.
    pub fn play_one(
        &mut self,
        chance: &mut Pcg32,
        numbers: &mut Vec<u32>,
    ) -> Result<bool, QuestionError>
        ensures plays { IfOk result (λ made.
            PlaysOne self.old made self.new numbers.old.items numbers.new.items) }
        ensures stuck { IfErr result (IsUnmoved self.old.game self.old.place) }
    {
        let game = self.game.deref();
        let mut to = self.workspace.copy_of(&self.place)?;
        let Some(_choice) = game.choose_move(&mut to, chance, &mut self.workspace)? else {
            self.workspace.keep(to);
            return Ok(false);
        };
        game.make_move(&mut to, self.workspace.chosen())?;
        push_move(self.workspace.chosen(), numbers)?;
        game.settle(&mut to, &mut self.workspace)?;
        self.before.reserve(1)?;
        self.before.push_reserved(replace(&mut self.place, to));
        hand_on(&mut self.found, &mut self.workspace);
        self.found = None;
        Ok(true)
    }

    /// Where memory is taken.
    pub fn allocator(&self) -> Global {
        self.alloc
    }

    /// Makes the move of these pairs, if it is legal, and the keeper's moves after it.
    pub fn make(&mut self, pairs: &Move) -> Result<(), QuestionError>
        ensures made { OnOk result (Makes self.old pairs.now self.new) }
        ensures refused { IfErr result (IsUnmade self.old.game self.old.place pairs.now) }
        ensures kept { OnErr result (self.new ≡ self.old) }
    {
        let here = GamePlace::new(self.game.deref(), &self.place);
        let to = lead(&here, pairs, &mut self.workspace)?;
        self.before.reserve(1)?;
        self.before.push_reserved(replace(&mut self.place, to));
        hand_on(&mut self.found, &mut self.workspace);
        self.found = None;
        Ok(())
    }

    /// Makes the move of these pairs, if it is legal, as a referee passes it on: the keeper's moves are passed on too, so
    /// none is made after it. None of the moves so far can be undone then.
    pub fn hear(&mut self, pairs: &Move) -> Result<(), QuestionError>
        ensures heard { OnOk result (Hears self.old pairs.now self.new) }
        ensures refused { IfErr result (IsUnfollowed self.old.game self.old.place pairs.now) }
        ensures kept { OnErr result (self.new ≡ self.old) }
    {
        let here = GamePlace::new(self.game.deref(), &self.place);
        let to = follow(&here, pairs, &mut self.workspace)?;
        self.before.clear();
        self.workspace.keep(replace(&mut self.place, to));
        hand_on(&mut self.found, &mut self.workspace);
        self.found = None;
        Ok(())
    }

    /// Undoes the last move of a player, with the keeper's moves after it. False where there is none.
    pub fn undo(&mut self) -> bool
        ensures undone { IsTrue result → Undoes self.old self.new }
        ensures none { ¬ IsTrue result → self.old.before ≡ [] }
        ensures kept { ¬ IsTrue result → self.new ≡ self.old }
    {
        match self.before.pop() {
            Some(place) => {
                self.workspace.keep(replace(&mut self.place, place));
                hand_on(&mut self.found, &mut self.workspace);
                self.found = None;
                true
            }
            None => false,
        }
    }

    /// Plays so many matches by chance from here, and counts how they end. A seed always gives the same matches.
    pub fn play_matches(&mut self, draw: Draw) -> Result<Vec<EndingTally>, QuestionError>
        requires { IsCount draw.count }
        ensures tallied { IfOk result (λ tallies.
            AreTallied self.old.game self.old.place draw.count (map counted_by tallies.items)) }
        ensures unplayed { IfErr result (IsUnplayed self.old.game self.old.place) }
        ensures kept { self.new ≡ self.old }
    {
        let here = GamePlace::new(self.game.deref(), &self.place);
        play_matches(self.alloc, &here, draw, &mut self.workspace)
    }
}
