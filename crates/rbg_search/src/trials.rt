//! One action that is tried where it may come next.
ghost use Rattle.std.specs.Prelude.{◌≡◌, ℕ, ◌<◌, ◌≤◌, ◌+◌, ◌^◌, [], ◌∷◌, ◌++◌, List, length, Contains, IfSome, IfNone};
ghost use Rattle.rbg_rules.specs.Meaning.{shift, on, AbstractGame, AbstractState, IsStateOf, IsNumbered, HasAction, IsPatternAt, IsGame};
ghost use Rattle.rbg_search.specs.Part.{IsTrialAt};
ghost use Rattle.rbg_search.specs.Plain.{CountsPlain};
ghost use Rattle.rbg_search.specs.Start.{IsPositionOf};

use crate::game_steps::GameSteps;
use rbg_auto::{Glance, Steps};
use rbg_base::{Direction, Piece, Position, Vertex};
use rbg_flat::is_shift;
use rbg_rules::Game;
use rbg_state::{SemiState, Trial};

/// A number of pairs with one pair more, at this position. A shift counts only where shifts are said to.
#[inline(always)]
pub(crate) fn one_more<S: Steps>(
    rules: &GameSteps<'_, S>,
    position: Position,
    many: usize,
    shifts: bool,
) -> usize
    requires position { IsPositionOf rules.now.rules position }
    requires small { many + 1 < 2 ^ 64 }
    ensures count { (done : List (ℕ × ℕ)) (v : ℕ) → CountsPlain shifts rules.now.rules done many
        → ¬ Contains done (v, position)
        → CountsPlain shifts rules.now.rules (done ++ (v, position) ∷ []) result }
    ensures few { result ≤ many + 1 }
{
    if shifts {
        return many + 1;
    }
    if is_shift(rules.game(), position) {
        many
    } else {
        many + 1
    }
}

/// What becomes of an action where it is tried at a vertex; none where it is a pattern. Nothing changes.
#[inline(always)]
pub(crate) fn tried<S: Steps>(
    rules: &GameSteps<'_, S>,
    state: &SemiState,
    vertex: Vertex,
    position: Position,
) -> Option<Trial>
    requires lawful { IsGame rules.now }
    requires fits { IsStateOf rules.now state.now.state }
    requires there { vertex < length rules.now.board.first }
    requires position { IsPositionOf rules.now.rules position }
    ensures trial { IfSome result (λ trial.
        IsTrialAt rules.now state.now.state vertex position trial) }
    ensures there { IfSome result (λ trial. (u : ℕ) → trial ≡ Trial.LeadsTo u
        → u < length rules.now.board.first) }
    ensures plain { IfSome result (λ _. ¬ IsPatternAt rules.now.rules position) }
    ensures pattern { IfNone result (IsPatternAt rules.now.rules position) }
{
    match rules.glance(position) {
        Glance::Shift(direction) => Some(shifted(rules.game(), vertex, direction)),
        Glance::On(piece) => Some(stood_on(state, vertex, piece)),
        Glance::Modifies => Some(Trial::Modifies),
        Glance::OnEither(piece, other) => Some(stood_on_either(state, vertex, piece, other)),
        Glance::Pattern => None,
        Glance::Unknown => state.try_at(rules.game(), vertex, position),
    }
}

/// What becomes of a shift that is tried at a vertex.
#[inline(always)]
fn shifted(game: &Game, vertex: Vertex, direction: Direction) -> Trial
    requires { vertex < length game.now.board.first }
    ensures trial { (s : AbstractState) (q : ℕ) → IsNumbered game.now.rules
        → HasAction game.now.rules q (shift direction) → IsTrialAt game.now s vertex q result }
    ensures there { (u : ℕ) → result ≡ Trial.LeadsTo u → u < length game.now.board.first }
{
    match game.board().step(vertex, direction) {
        Some(to) => Trial::LeadsTo(to),
        None => Trial::Invalid,
    }
}

/// What becomes of an on of one piece that is tried at a vertex.
#[inline(always)]
fn stood_on(state: &SemiState, vertex: Vertex, piece: Piece) -> Trial
    requires { vertex < length state.now.state.pieces }
    ensures trial { (game : AbstractGame) (q : ℕ) → IsNumbered game.rules
        → HasAction game.rules q (on (piece ∷ []))
        → IsTrialAt game state.now.state vertex q result }
    ensures there { (u : ℕ) → result ≡ Trial.LeadsTo u → u ≡ vertex }
{
    if state.piece(vertex) == piece {
        Trial::LeadsTo(vertex)
    } else {
        Trial::Invalid
    }
}

/// What becomes of an on of two pieces that is tried at a vertex.
#[inline(always)]
fn stood_on_either(state: &SemiState, vertex: Vertex, piece: Piece, other: Piece) -> Trial
    requires { vertex < length state.now.state.pieces }
    ensures trial { (game : AbstractGame) (q : ℕ) → IsNumbered game.rules
        → HasAction game.rules q (on (piece ∷ other ∷ []))
        → IsTrialAt game state.now.state vertex q result }
    ensures there { (u : ℕ) → result ≡ Trial.LeadsTo u → u ≡ vertex }
{
    let here = state.piece(vertex);
    if here == piece || here == other {
        Trial::LeadsTo(vertex)
    } else {
        Trial::Invalid
    }
}
