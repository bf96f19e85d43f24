//! Parts that may be those of a semi-state of a game, and whether they are.
ghost use Rattle.std.specs.Prelude.{◌≡◌, ◌↔◌, ◌<◌, ◌≤◌, ◌^◌, ℕ, length, slice_index, IsTrue};
ghost use Rattle.rbg_rules.specs.Meaning.{IsStateOf};

use rbg_base::{Piece, Player, Variable, Vertex};
use rbg_rules::Game;
use std::marker::Model;

/// The parts of a semi-state, lent as slices.
pub struct LentState<'a> {
    pub player: Player,
    pub vertex: Vertex,
    /// The piece on each vertex.
    pub pieces: &'a [Piece],
    /// The value of each variable.
    pub values: &'a [u32],
}

impl<'a> Model for LentState<'a> {
    ghost use Rattle.rbg_rules.specs.Meaning.{AbstractState};

    ghost Value = { AbstractState };

    ghost view = { λ l. record { player = l.player; pieces = l.pieces.now; values = l.values.now; vertex = l.vertex } };
}

/// Whether the parts are those of a semi-state of the game.
pub(crate) fn is_state_of(game: &Game, parts: &LentState<'_>) -> bool
    ensures told { IsTrue result ↔ IsStateOf game.now parts.now }
    ensures few { IsTrue result → length parts.now.pieces < 2 ^ 16 }
{
    has_its_size(game, parts)
        && are_pieces_of(game, parts.pieces)
        && are_within_bounds(game, parts.values)
}

/// Whether there are as many vertices and variables as in the game, and the player and the vertex are two of it.
fn has_its_size(game: &Game, parts: &LentState<'_>) -> bool
    ensures told { IsTrue result ↔ ((parts.now.player ≤ length game.now.players)
        × (length parts.now.pieces ≡ length game.now.board.first)
        × (length parts.now.values ≡ length game.now.bounds)
        × (parts.now.vertex < length parts.now.pieces)) }
    ensures few { IsTrue result → length parts.now.pieces < 2 ^ 16 }
    ensures variables { length game.now.bounds ≡ length game.now.variables }
{
    parts.player as usize <= game.players()
        && parts.pieces.len() == game.board().len()
        && parts.values.len() == game.variables()
        && (parts.vertex as usize) < parts.pieces.len()
}

/// Whether these are pieces of the game.
fn are_pieces_of(game: &Game, pieces: &[Piece]) -> bool
    ensures { IsTrue result ↔ ((v : ℕ) → v < length pieces.now
        → slice_index pieces.now v < length game.now.pieces) }
{
    let kinds = game.pieces();
    for vertex in 0..pieces.len() {
        if pieces[vertex] as usize >= kinds {
            return false;
        }
    }
    true
}

/// Whether no value is above the bound of its variable.
fn are_within_bounds(game: &Game, values: &[u32]) -> bool
    requires { length values.now ≡ length game.now.variables }
    ensures { IsTrue result ↔ ((v : ℕ) → v < length values.now
        → slice_index values.now v ≤ slice_index game.now.bounds v) }
{
    for variable in 0..game.variables() {
        if values[variable] > game.bound(variable as Variable) {
            return false;
        }
    }
    true
}
