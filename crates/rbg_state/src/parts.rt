//! The parts of a semi-state, one of which is changed at a time.
ghost use Rattle.std.specs.Prelude.{◌≡◌, ◌*◌, ◌<◌, ◌^◌, ◌==◌, Some, length, count_by, slice_get, IfOk, IfSome};
ghost use Rattle.rbg_rules.specs.Meaning.{start_of, IsStateOf};
ghost use Rattle.rbg_state.specs.Changes.{set, IsChangeWithin};
ghost use Rattle.rbg_state.specs.Rows.{IsWordOf};

use crate::change::Change;
use crate::fitting::LentState;
use crate::occupancy::{Occupancy, refill};
use rbg_base::{Memory, Piece, Player, Variable, Vertex};
use rbg_rules::Game;
use std::alloc::Global;
use std::marker::Model;
use std::mem::replace;

/// The current player, the piece on each vertex, the value of each variable, and the current vertex.
#[derive(Drop)]
pub(crate) struct StateParts {
    player: Player,
    vertex: Vertex,
    occupancy: Occupancy,
    /// The value of each variable.
    values: Vec<u32>,
}

impl Model for StateParts {
    ghost use Rattle.rbg_rules.specs.Meaning.{AbstractState};

    ghost Value = { AbstractState };

    ghost view = { λ p. record { player = p.player; pieces = p.occupancy; values = p.values.items; vertex = p.vertex } };
}

impl StateParts {
    /// The parts of the semi-state in which play of a game begins.
    pub(crate) fn start(alloc: Global, game: &Game) -> Result<StateParts, Memory>
        ensures start { IfOk result (λ start. start ≡ start_of game.now) }
        ensures fits { IfOk result (IsStateOf game.now) }
    {
        let keeper = 0;
        Ok(StateParts {
            player: keeper,
            vertex: 0,
            occupancy: Occupancy::start(alloc, game.board(), game.pieces())?,
            values: vec![in alloc; 0; game.variables()]?,
        })
    }

    /// These parts, of a game with so many kinds of pieces.
    pub(crate) fn of(
        alloc: Global,
        kinds: usize,
        parts: &LentState<'_>,
    ) -> Result<StateParts, Memory>
        requires few { length parts.now.pieces < 2 ^ 16 }
        ensures { IfOk result (λ made. made ≡ parts.now) }
    {
        let pieces = parts.pieces.to_vec(alloc)?;
        Ok(StateParts {
            player: parts.player,
            vertex: parts.vertex,
            occupancy: Occupancy::of(alloc, pieces, kinds)?,
            values: parts.values.to_vec(alloc)?,
        })
    }

    /// The parts, lent as slices.
    pub(crate) fn lend(&self) -> LentState<'_>
        ensures { result ≡ self.now }
    {
        LentState {
            player: self.player(),
            vertex: self.vertex(),
            pieces: self.pieces(),
            values: &self.values,
        }
    }

    /// The parts of a state without a board: no vertices and no variables.
    pub(crate) fn empty(alloc: Global) -> StateParts {
        StateParts {
            player: 0,
            vertex: 0,
            occupancy: Occupancy::empty(alloc),
            values: Vec::new(alloc),
        }
    }

    pub(crate) fn try_clone(&self) -> Result<StateParts, Memory>
        ensures { IfOk result (λ copy. copy ≡ self.now) }
    {
        Ok(StateParts {
            player: self.player,
            vertex: self.vertex,
            occupancy: self.occupancy.try_clone()?,
            values: self.values.clone()?,
        })
    }

    /// Becomes a copy of others. Allocates only if its buffers have no room.
    pub(crate) fn copy_from(&mut self, other: &StateParts) -> Result<(), Memory>
        ensures { IfOk result (λ _. self.new ≡ other.now) }
    {
        self.occupancy.copy_from(&other.occupancy)?;
        refill(&mut self.values, &other.values)?;
        self.player = other.player;
        self.vertex = other.vertex;
        Ok(())
    }

    pub(crate) fn player(&self) -> Player
        ensures { result ≡ self.now.player }
    {
        self.player
    }

    pub(crate) fn vertex(&self) -> Vertex
        ensures { result ≡ self.now.vertex }
    {
        self.vertex
    }

    pub(crate) fn piece(&self, vertex: Vertex) -> Piece
        requires { vertex < length self.now.pieces }
        ensures { slice_get self.now.pieces vertex ≡ Some result }
    {
        self.occupancy.pieces()[vertex as usize]
    }

    pub(crate) fn pieces(&self) -> &[Piece]
        ensures { result.now ≡ self.now.pieces }
    {
        self.occupancy.pieces()
    }

    pub(crate) fn count(&self, piece: Piece) -> usize
        ensures { result ≡ count_by (λ x. x == piece) self.now.pieces }
    {
        self.occupancy.count(piece)
    }

    #[inline(always)]
    pub(crate) fn row_word(&self, piece: Piece, column: usize) -> Option<u64>
        requires { column * 64 < length self.now.pieces }
        ensures { IfSome result (IsWordOf self.now.pieces piece column) }
    {
        self.occupancy.row_word(piece, column)
    }

    pub(crate) fn value(&self, variable: Variable) -> u32
        requires { variable < length self.now.values }
        ensures { slice_get self.now.values variable ≡ Some result }
    {
        self.values[variable as usize]
    }

    /// Makes a change, and returns the change that takes it back.
    #[inline(always)]
    pub(crate) fn set(&mut self, change: Change) -> Change
        requires { IsChangeWithin (length self.old.pieces) (length self.old.values) change }
        ensures set { self.new ≡ set change self.old }
        ensures back { set result self.new ≡ self.old }
        ensures within { IsChangeWithin (length self.new.pieces) (length self.new.values) result }
    {
        match change {
            Change::Player(player) => Change::Player(replace(&mut self.player, player)),
            Change::Vertex(vertex) => Change::Vertex(replace(&mut self.vertex, vertex)),
            Change::Piece { vertex, piece } => Change::Piece {
                vertex,
                piece: self.occupancy.put(vertex, piece),
            },
            Change::Value { variable, value } => Change::Value {
                variable,
                value: replace(&mut self.values[variable as usize], value),
            },
        }
    }
}

impl PartialEq for StateParts {
    ghost use Rattle.rbg_state.specs.Equality.{is_same_state, same_state_laws};

    ghost eq = { is_same_state };

    ghost laws = { same_state_laws };

    fn eq(&self, other: &StateParts) -> bool {
        self.player == other.player
            && self.vertex == other.vertex
            && self.occupancy.pieces() == other.occupancy.pieces()
            && self.values == other.values
    }
}
