//! A semi-state: the current player, the piece on each vertex, the value of each variable, and the current vertex. It
//! changes in place and keeps a list of its changes, so that they can be taken back.
ghost use Rattle.std.specs.Prelude.{◌≡◌, ◌*◌, ◌-◌, ◌<◌, ◌≤◌, ◌==◌, [], length, take, count_by, slice_get, Some, IfOk, IfSome, IfNone, OnOk, OnErr};
ghost use Rattle.rbg_rules.specs.Meaning.{AbstractGame, start_of, IsStateOf};
ghost use Rattle.rbg_state.specs.History.{History, states_of, capacity_of, changed_to, IsAfter};
ghost use Rattle.rbg_state.specs.Changes.{set, IsChangeWithin};
ghost use Rattle.rbg_state.specs.Rows.{IsWordOf};

mod actions;
mod arithmetic;
mod trials;

use crate::change::{Change, Mark};
use crate::fitting::{LentState, is_state_of};
use crate::parts::StateParts;
pub use actions::Applied;
use rbg_base::{Memory, Piece, Player, Variable, Vertex};
use rbg_rules::Game;
use std::alloc::Global;
use std::marker::Model;
pub use trials::Trial;

/// A semi-state of a game. Two of them are equal if they have the same player, vertex, pieces and values: their changes
/// don't count.
pub struct SemiState {
    parts: StateParts,
    /// The changes that lead back, the latest change last.
    changes: Vec<Change>,
}

impl Model for SemiState {
    ghost use Rattle.std.specs.Prelude.{◌-◌, length, All, vec_len, vec_capacity};
    ghost use Rattle.rbg_state.specs.History.{History};

    ghost Value = { History };

    ghost use Rattle.rbg_state.specs.Changes.{history_of, IsChangeWithin};

    ghost view = { λ s. history_of s.parts s.changes.items (vec_capacity s.changes - vec_len s.changes) };

    ghost invariant = { λ s. All (IsChangeWithin (length s.parts.pieces) (length s.parts.values)) s.changes.items };
}

/// Written by hand: dropping a semi-state is then one call in the proofs of its owners, not a step for each part.
impl Drop for SemiState {
    fn drop(self) {
        let SemiState {
            parts: _,
            changes: _,
        } = self;
    }
}

impl SemiState {
    /// The semi-state in which play of a game begins, with no change to take back.
    pub fn start(alloc: Global, game: &Game) -> Result<SemiState, Memory>
        ensures start { IfOk result (λ start. start.state ≡ start_of game.now) }
        ensures past { IfOk result (λ start. start.past ≡ []) }
        ensures fits { IfOk result (λ start. IsStateOf game.now start.state) }
    {
        Ok(SemiState {
            parts: StateParts::start(alloc, game)?,
            changes: Vec::new(alloc),
        })
    }

    /// The semi-state of these parts, with no change to take back. None if they aren't those of a semi-state of the game.
    pub fn of(
        alloc: Global,
        game: &Game,
        parts: &LentState<'_>,
    ) -> Result<Option<SemiState>, Memory>
        ensures state { IfOk result (λ found. IfSome found (λ made. made.state ≡ parts.now)) }
        ensures past { IfOk result (λ found. IfSome found (λ made. made.past ≡ [])) }
        ensures fits { IfOk result (λ found. IfSome found (λ _. IsStateOf game.now parts.now)) }
        ensures none { IfOk result (λ found. IfNone found (¬ IsStateOf game.now parts.now)) }
    {
        if !is_state_of(game, parts) {
            return Ok(None);
        }
        Ok(Some(SemiState {
            parts: StateParts::of(alloc, game.pieces(), parts)?,
            changes: Vec::new(alloc),
        }))
    }

    /// The parts, lent as slices.
    pub fn lend(&self) -> LentState<'_>
        ensures { result ≡ self.now.state }
    {
        self.parts.lend()
    }

    /// A semi-state of no board. It allocates nothing, and can become a copy of another one.
    pub fn empty(alloc: Global) -> SemiState
        ensures { result.past ≡ [] }
    {
        SemiState {
            parts: StateParts::empty(alloc),
            changes: Vec::new(alloc),
        }
    }

    /// A copy, which shares no memory with its source. It has no change to take back.
    pub fn try_clone(&self) -> Result<SemiState, Memory>
        ensures state { IfOk result (λ copy. copy.state ≡ self.now.state) }
        ensures past { IfOk result (λ copy. copy.past ≡ []) }
    {
        Ok(SemiState {
            parts: self.parts.try_clone()?,
            changes: Vec::new(*self.changes.allocator()),
        })
    }

    /// Becomes a copy of another semi-state, with no change to take back. Allocates only if its buffers have no room.
    /// After an error the contents are unspecified.
    pub fn copy_from(&mut self, other: &SemiState) -> Result<(), Memory>
        ensures state { IfOk result (λ _. self.new.state ≡ other.now.state) }
        ensures past { self.new.past ≡ [] }
    {
        self.changes.clear();
        self.parts.copy_from(&other.parts)
    }

    /// The current player, from 1; 0 is the keeper.
    pub fn player(&self) -> Player
        ensures { result ≡ self.now.state.player }
    {
        self.parts.player()
    }

    /// The current vertex.
    pub fn vertex(&self) -> Vertex
        ensures { result ≡ self.now.state.vertex }
    {
        self.parts.vertex()
    }

    /// The piece on a vertex.
    pub fn piece(&self, vertex: Vertex) -> Piece
        requires { vertex < length self.now.state.pieces }
        ensures { slice_get self.now.state.pieces vertex ≡ Some result }
    {
        self.parts.piece(vertex)
    }

    /// The piece on each vertex.
    pub fn pieces(&self) -> &[Piece]
        ensures { result.now ≡ self.now.state.pieces }
    {
        self.parts.pieces()
    }

    /// The value of a variable.
    pub fn value(&self, variable: Variable) -> u32
        requires { variable < length self.now.state.values }
        ensures { slice_get self.now.state.values variable ≡ Some result }
    {
        self.parts.value(variable)
    }

    /// How many vertices hold a piece.
    pub fn count(&self, piece: Piece) -> usize
        ensures { result ≡ count_by (λ x. x == piece) self.now.state.pieces }
    {
        self.parts.count(piece)
    }

    /// A word of a piece's row: a bit for each of the 64 vertices of a column, set if the piece is on it. Returns None
    /// if the piece has no row.
    #[inline(always)]
    pub fn row_word(&self, piece: Piece, column: usize) -> Option<u64>
        requires { column * 64 < length self.now.state.pieces }
        ensures { IfSome result (IsWordOf self.now.state.pieces piece column) }
    {
        self.parts.row_word(piece, column)
    }

    /// The score of a player. Players are numbered from 1.
    pub fn score(&self, player: Player) -> u32
        requires from_one { 0 < player }
        requires there { player ≤ length self.now.state.values }
        ensures { slice_get self.now.state.values (player - 1) ≡ Some result }
    {
        self.parts.value(player - 1)
    }

    /// How many more changes the list of changes has room for.
    pub fn room(&self) -> usize
        ensures { result ≡ self.now.room }
    {
        self.changes.capacity() - self.changes.len()
    }

    /// Makes room for this many changes. On an error nothing changes.
    pub fn reserve(&mut self, changes: usize) -> Result<(), Memory>
        ensures kept { self.new ≡ record self.old { room = self.new.room } }
        ensures room { OnOk result (changes ≤ self.new.room) }
        ensures no_less { self.old.room ≤ self.new.room }
        ensures refused { OnErr result (self.new ≡ self.old) }
    {
        self.changes.reserve(changes)
    }

    /// The name of the present state.
    pub fn mark(&self) -> Mark
        ensures { result ≡ length self.now.past }
    {
        Mark::after(self.changes.len())
    }

    /// Takes back every change since a mark of this semi-state. The mark must not have been undone since.
    pub fn undo_to(&mut self, mark: Mark)
        requires { mark ≤ length self.old.past }
        ensures state { slice_get (states_of self.old) mark ≡ Some self.new.state }
        ensures past { self.new.past ≡ take mark self.old.past }
        ensures capacity { capacity_of self.new ≡ capacity_of self.old }
        // The marked state is back, whatever was done since.
        ensures given_back { (marked : History) → mark ≡ length marked.past
            → IsAfter marked self.old
            → self.new ≡ record marked { room = self.new.room } }
    {
        while self.mark().changes() > mark.changes() {
            self.undo();
        }
    }

    /// Takes the latest change back.
    #[inline(always)]
    fn undo(&mut self)
        requires { 0 < length self.old.past }
        ensures states { states_of self.new ≡ self.old.past }
        ensures capacity { capacity_of self.new ≡ capacity_of self.old }
    {
        let change = self.changes.take_last();
        self.parts.set(change);
    }

    /// Makes a change, and writes it to the list.
    #[inline(always)]
    fn change(&mut self, change: Change)
        requires room { 0 < self.old.room }
        requires within { IsChangeWithin (length self.old.state.pieces)
            (length self.old.state.values) change }
        ensures { self.new ≡ changed_to self.old (set change self.old.state) }
    {
        let back = self.parts.set(change);
        self.changes.push_reserved(back);
    }

    /// Makes a vertex of the board the current one. This is a change, which `undo_to` takes back.
    pub fn stand_at(&mut self, vertex: Vertex)
        requires room { 0 < self.old.room }
        requires there { vertex < length self.old.state.pieces }
        ensures moved { self.new ≡ changed_to self.old (record self.old.state { vertex = vertex }) }
        ensures after { IsAfter self.old self.new }
        ensures capacity { capacity_of self.new ≡ capacity_of self.old }
        ensures fits { (game : AbstractGame) → IsStateOf game self.old.state
            → IsStateOf game self.new.state }
    {
        self.change(Change::Vertex(vertex));
    }
}

impl PartialEq for SemiState {
    ghost use Rattle.rbg_state.specs.Equality.{is_same_present, same_present_laws};

    ghost eq = { is_same_present };

    ghost laws = { same_present_laws };

    fn eq(&self, other: &SemiState) -> bool {
        self.parts == other.parts
    }
}

impl Eq for SemiState {
    ghost use Rattle.rbg_state.specs.Equality.{same_present_equiv};

    ghost laws = { same_present_equiv };
}
