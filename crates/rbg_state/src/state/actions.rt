//! What the actions of a game do to a semi-state.
ghost use Rattle.std.specs.Prelude.{◌≡◌, ℕ, ◌+◌, ◌<◌, ◌≤◌, ◌↔◌, false, length, slice_index, pos, Some, IfSome, IfNone, IsTrue};
ghost use Rattle.rbg_rules.specs.Meaning.{AbstractAction, shift, on, off, assignment, comparison, switch, AbstractGame, AbstractState, IsStateOf, positions_of, IsPatternAt, Applies, value_of, Relates, IsGame, IsActionOf, arithmetic_of, shows_pattern, Shows};
ghost use Rattle.rbg_state.specs.History.{capacity_of, IsAfter};
ghost use Rattle.rbg_state.specs.Reads.{ReadsBelow};

use super::SemiState;
use crate::change::Change;
use rbg_base::{Direction, Piece, Player, Position, Relation, Variable};
use rbg_board::Board;
use rbg_rules::{Action, Arithmetic, Game};

/// Whether an action could be applied.
#[derive(Clone, Copy, Debug, PartialEq, Eq)]
pub enum Applied {
    Valid,
    Invalid,
}

impl SemiState {
    ghost use Rattle.rbg_state.specs.Answer.{Answers};

    /// Applies the action at a position of the game. An action that is not valid changes nothing. A
    /// valid one makes at most one change, which `undo_to` takes back.
    pub fn apply(&mut self, game: &Game, position: Position) -> Applied
        requires fits { IsStateOf game.now self.old.state }
        requires from_one { 0 < position }
        requires there { position ≤ length (positions_of game.now.rules) }
        requires no_pattern { ¬ IsPatternAt game.now.rules position }
        requires room { 0 < self.old.room }
        ensures valid { result ≡ Applied.Valid
            → Applies game.now position self.old.state self.new.state }
        ensures only { (t : AbstractState) → Applies game.now position self.old.state t
            → t ≡ self.new.state }
        ensures invalid { result ≡ Applied.Invalid → (t : AbstractState)
            → ¬ Applies game.now position self.old.state t }
        ensures unchanged { result ≡ Applied.Invalid → self.new ≡ self.old }
        ensures fits { IsStateOf game.now self.new.state }
        ensures after { IsAfter self.old self.new }
        ensures capacity { capacity_of self.new ≡ capacity_of self.old }
        ensures room { self.old.room ≤ self.new.room + 1 }
    {
        self.act(game, game.board(), game.action(position))
    }

    /// Applies an action.
    fn act(&mut self, game: &Game, board: &Board, action: &Action) -> Applied
        requires lawful { IsGame game.now }
        requires board { board.now ≡ game.now.board }
        requires fits { IsStateOf game.now self.old.state }
        requires named { (a : AbstractAction) → Shows a action.now → IsActionOf game.now a }
        requires no_pattern { shows_pattern action.now ≡ false }
        requires room { 0 < self.old.room }
        ensures { (a : AbstractAction) → Shows a action.now
            → Answers game.now a self.old self.new result }
    {
        match action {
            Action::Shift { direction } => self.shift(board, *direction),
            Action::On { pieces } => self.on(pieces),
            Action::Off { piece } => self.off(*piece),
            Action::Assign { variable, value } => {
                self.assign(*variable, value, game.bound(*variable))
            }
            Action::Compare {
                left,
                relation,
                right,
            } => self.compare_apart(left, *relation, right),
            Action::Switch { player } => self.switch(*player),
            Action::Positive | Action::Negative => unreachable!(),
        }
    }

    /// Moves along the edge of the current vertex in a direction.
    fn shift(&mut self, board: &Board, direction: Direction) -> Applied
        requires vertex { self.old.state.vertex < length board.now.first }
        requires room { 0 < self.old.room }
        ensures { (game : AbstractGame) → game.board ≡ board.now
            → Answers game (shift direction) self.old self.new result }
    {
        match board.step(self.vertex(), direction) {
            Some(vertex) => {
                self.change(Change::Vertex(vertex));
                Applied::Valid
            }
            None => Applied::Invalid,
        }
    }

    /// Tests whether the piece on the current vertex is one of these.
    #[inline(never)]
    fn on(&self, pieces: &[Piece]) -> Applied
        requires { self.now.state.vertex < length self.now.state.pieces }
        ensures { (game : AbstractGame) → Answers game (on pieces.now) self.now self.now result }
    {
        if pieces.contains(&self.piece(self.vertex())) {
            Applied::Valid
        } else {
            Applied::Invalid
        }
    }

    /// Puts a piece on the current vertex.
    fn off(&mut self, piece: Piece) -> Applied
        requires vertex { self.old.state.vertex < length self.old.state.pieces }
        requires room { 0 < self.old.room }
        ensures { (game : AbstractGame) → Answers game (off piece) self.old self.new result }
    {
        let vertex = self.vertex();
        self.change(Change::Piece { vertex, piece });
        Applied::Valid
    }

    /// Gives a variable the value of an expression, if there is one that the variable may hold.
    #[inline(never)]
    fn assign(&mut self, variable: Variable, expression: &Arithmetic, bound: u32) -> Applied
        requires variable { variable < length self.old.state.values }
        requires reads { ReadsBelow (length self.old.state.values) (arithmetic_of expression.now) }
        requires room { 0 < self.old.room }
        ensures { (game : AbstractGame) → slice_index game.bounds variable ≡ bound
            → Answers game (assignment variable (arithmetic_of expression.now)) self.old self.new
            result }
    {
        let Some(value) = self.assigned(expression, bound) else {
            return Applied::Invalid;
        };
        self.change(Change::Value { variable, value });
        Applied::Valid
    }

    /// The value of an expression, if there is one and a variable with this bound may hold it.
    #[tactic(auto, using(rbg_rules::proofs::Bridge::translation, crate::proofs::Fits::by_conversion))]
    pub(super) fn assigned(&self, expression: &Arithmetic, bound: u32) -> Option<u32>
        requires { ReadsBelow (length self.now.state.values) (arithmetic_of expression.now) }
        ensures some { IfSome result (λ n.
            (value_of (arithmetic_of expression.now) self.now.state ≡ Some (pos n))
            × (n ≤ bound)) }
        ensures none { IfNone result ((n : ℕ)
            → value_of (arithmetic_of expression.now) self.now.state ≡ Some (pos n)
            → ¬ (n ≤ bound)) }
    {
        // most assignments have a number alone
        let value = match expression {
            Arithmetic::Number(number) => i64::try_from(*number).ok()?,
            _ => self.evaluate(expression)?,
        };
        if value < 0 || value > i64::from(bound) {
            return None;
        }
        Some(value as u32)
    }

    /// Tests whether a relation holds between the values of two expressions.
    #[inline(always)]
    pub(super) fn compare(
        &self,
        left: &Arithmetic,
        relation: Relation,
        right: &Arithmetic,
    ) -> Applied
        requires { ReadsBelow (length self.now.state.values) (arithmetic_of left.now)
            × ReadsBelow (length self.now.state.values) (arithmetic_of right.now) }
        ensures { (game : AbstractGame)
            → Answers game (comparison (arithmetic_of left.now) relation (arithmetic_of right.now))
            self.now self.now result }
    {
        match (self.evaluated(left), self.joined(right)) {
            (Some(x), Some(y)) if relates(relation, x, y) => Applied::Valid,
            _ => Applied::Invalid,
        }
    }

    /// As `compare`, but never inlined, since a comparison is seldom applied.
    #[inline(never)]
    fn compare_apart(&self, left: &Arithmetic, relation: Relation, right: &Arithmetic) -> Applied
        requires { ReadsBelow (length self.now.state.values) (arithmetic_of left.now)
            × ReadsBelow (length self.now.state.values) (arithmetic_of right.now) }
        ensures { (game : AbstractGame)
            → Answers game (comparison (arithmetic_of left.now) relation (arithmetic_of right.now))
            self.now self.now result }
    {
        self.compare(left, relation, right)
    }

    /// Makes a player, or the keeper, the current one.
    fn switch(&mut self, player: Player) -> Applied
        requires { 0 < self.old.room }
        ensures { (game : AbstractGame) → Answers game (switch player) self.old self.new result }
    {
        self.change(Change::Player(player));
        Applied::Valid
    }
}

/// Whether a relation holds between two values.
fn relates(relation: Relation, x: i64, y: i64) -> bool
    ensures { IsTrue result ↔ Relates relation x y }
{
    match relation {
        Relation::Equal => x == y,
        Relation::NotEqual => x != y,
        Relation::Less => x < y,
        Relation::LessOrEqual => x <= y,
        Relation::Greater => x > y,
        Relation::GreaterOrEqual => x >= y,
    }
}
