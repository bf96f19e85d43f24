//! What the actions of a game would do to a semi-state, which stays as it is.
ghost use Rattle.std.specs.Prelude.{◌≡◌, ℕ, ◌<◌, ◌≤◌, ◌↔◌, true, false, length, slice_index, Contains, IfSome, IfNone, IsTrue, Option};
ghost use Rattle.rbg_board.specs.Graph.{next};
ghost use Rattle.rbg_rules.specs.Meaning.{AbstractAction, shift, on, assignment, comparison, AbstractGame, AbstractState, IsStateOf, positions_of, IsPatternAt, IsGame, IsActionOf, arithmetic_of, shows_pattern, Shows};
ghost use Rattle.rbg_state.specs.Reads.{ReadsBelow};
ghost use Rattle.rbg_state.specs.Trials.{IsTrialOf, IsTrial};

use super::SemiState;
use super::actions::Applied;
use rbg_base::{Piece, Position, Relation, Vertex};
use rbg_board::Board;
use rbg_rules::{Action, Arithmetic, Game};

/// What an action would do at a vertex.
#[derive(Clone, Copy, Debug, PartialEq, Eq)]
pub enum Trial {
    /// It isn't valid there.
    Invalid,
    /// It is a modifier, and valid there.
    Modifies,
    /// It is no modifier and valid there, and leads to this vertex.
    LeadsTo(Vertex),
}

impl SemiState {
    /// What the action at a position of the game would do if the vertex were the current one. Returns None if it is a
    /// pattern. Nothing changes.
    #[inline(always)]
    pub fn try_at(&self, game: &Game, vertex: Vertex, position: Position) -> Option<Trial>
        requires fits { IsStateOf game.now self.now.state }
        requires vertex { vertex < length self.now.state.pieces }
        requires from_one { 0 < position }
        requires there { position ≤ length (positions_of game.now.rules) }
        ensures told { IfSome result (IsTrial game.now (record self.now.state { vertex = vertex })
            position) }
        ensures plain { IfSome result (λ _. ¬ IsPatternAt game.now.rules position) }
        ensures pattern { IfNone result (IsPatternAt game.now.rules position) }
        ensures there { IfSome result (λ trial. (v : ℕ) → trial ≡ Trial.LeadsTo v
            → v < length self.now.state.pieces) }
    {
        self.try_action(game, game.board(), game.action(position), vertex)
    }

    /// What an action would do at a vertex. Returns None if it is a pattern.
    #[inline(always)]
    fn try_action(
        &self,
        game: &Game,
        board: &Board,
        action: &Action,
        vertex: Vertex,
    ) -> Option<Trial>
        requires lawful { IsGame game.now }
        requires board { board.now ≡ game.now.board }
        requires fits { IsStateOf game.now self.now.state }
        requires vertex { vertex < length self.now.state.pieces }
        requires named { (a : AbstractAction) → Shows a action.now → IsActionOf game.now a }
        ensures told { IfSome result (λ trial. (a : AbstractAction) → Shows a action.now
            → IsTrialOf game.now a (record self.now.state { vertex = vertex }) trial) }
        ensures plain { IfSome result (λ _. shows_pattern action.now ≡ false) }
        ensures pattern { IfNone result (shows_pattern action.now ≡ true) }
    {
        match action {
            Action::Shift { direction } => Some(try_shift(board.step(vertex, *direction))),
            Action::On { pieces } => Some(self.try_on(pieces, vertex)),
            Action::Compare {
                left,
                relation,
                right,
            } => Some(self.try_compare(left, *relation, right, vertex)),
            Action::Assign { variable, value } => {
                Some(self.try_assign(value, game.bound(*variable)))
            }
            Action::Off { .. } => Some(Trial::Modifies),
            Action::Switch { .. } => Some(Trial::Modifies),
            Action::Positive => None,
            Action::Negative => None,
        }
    }

    /// What an on of these pieces would do at a vertex.
    #[inline(always)]
    fn try_on(&self, pieces: &[Piece], vertex: Vertex) -> Trial
        requires { vertex < length self.now.state.pieces }
        ensures { (game : AbstractGame)
            → IsTrialOf game (on pieces.now) (record self.now.state { vertex = vertex }) result }
    {
        if is_among(pieces, self.piece(vertex)) {
            Trial::LeadsTo(vertex)
        } else {
            Trial::Invalid
        }
    }

    /// What a comparison would do at a vertex. It is never inlined, so that it stays out of the loops around it.
    #[inline(never)]
    fn try_compare(
        &self,
        left: &Arithmetic,
        relation: Relation,
        right: &Arithmetic,
        vertex: Vertex,
    ) -> Trial
        requires { ReadsBelow (length self.now.state.values) (arithmetic_of left.now)
            × ReadsBelow (length self.now.state.values) (arithmetic_of right.now) }
        ensures { (game : AbstractGame)
            → IsTrialOf game (comparison (arithmetic_of left.now) relation (arithmetic_of right.now))
            (record self.now.state { vertex = vertex }) result }
    {
        match self.compare(left, relation, right) {
            Applied::Valid => Trial::LeadsTo(vertex),
            Applied::Invalid => Trial::Invalid,
        }
    }

    /// What an assignment to a variable with this bound would do, at any vertex.
    fn try_assign(&self, expression: &Arithmetic, bound: u32) -> Trial
        requires { ReadsBelow (length self.now.state.values) (arithmetic_of expression.now) }
        ensures { (game : AbstractGame) (variable vertex : ℕ)
            → slice_index game.bounds variable ≡ bound
            → IsTrialOf game (assignment variable (arithmetic_of expression.now))
            (record self.now.state { vertex = vertex }) result }
    {
        match self.assigned(expression, bound) {
            Some(_) => Trial::Modifies,
            None => Trial::Invalid,
        }
    }
}

/// Whether a piece is one of these. They are few, so a call costs more than the loop.
#[inline(always)]
fn is_among(pieces: &[Piece], piece: Piece) -> bool
    ensures { IsTrue result ↔ Contains pieces.now piece }
{
    for listed in pieces {
        if *listed == piece {
            return true;
        }
    }
    false
}

/// What a shift would do that leads to this vertex, or nowhere.
fn try_shift(to: Option<Vertex>) -> Trial
    ensures { (game : AbstractGame) (s : AbstractState) (direction : ℕ)
        → next game.board s.vertex direction ≡ to
        → IsTrialOf game (shift direction) s result }
{
    match to {
        Some(vertex) => Trial::LeadsTo(vertex),
        None => Trial::Invalid,
    }
}
