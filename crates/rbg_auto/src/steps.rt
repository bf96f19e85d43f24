//! What every automaton of positions answers, and the law that ties its answers to the words of the rules.
ghost use Rattle.std.specs.Prelude.{[], IsTrue, ◌↔◌, IfSome};
ghost use Rattle.rbg_rules.specs.Meaning.{Expression, beginning, after, Ends};
ghost use Rattle.rbg_auto.specs.LentSteps.{IsLentOf};
ghost use Rattle.rbg_auto.specs.Steps.{level_of, AreFirst, AreNext, IsGlance};

use crate::lent_steps::LentSteps;
use rbg_base::{Direction, Piece, Position};

/// An expression whose words are asked for: the rules, or the inside of the pattern at a position.
#[derive(Clone, Copy, PartialEq, Eq, Drop)]
pub enum Expr {
    Rules,
    Inside(Position),
}

/// What an automaton knows at once of the action at a position, so that the game need not be asked. The automaton of
/// `compact` knows every action but assignments, comparisons, and ons of no piece or of more than two. The slices that
/// it lends know the same actions, but none if words may end there.
#[derive(Clone, Copy, PartialEq, Eq, Drop)]
pub enum Glance {
    /// Nothing is known.
    Unknown,
    /// It is a shift in this direction.
    Shift(Direction),
    /// It is an on of this piece alone.
    On(Piece),
    /// It is an on of these two pieces.
    OnEither(Piece, Piece),
    /// It is an off or a switch: a modifier that is valid everywhere.
    Modifies,
    /// It is a pattern, positive or negative.
    Pattern,
}

/// The steps of the rules: where words begin, what comes directly after a position in them, and where they end.
///
/// Every position may be asked for. One that isn't in the rules has nothing after it, and nothing is known of it. The
/// inside of a position without a pattern has no words. No call allocates.
pub trait Steps {
    /// These are the steps of the rules.
    ghost of_rules: { Self → Expression → Type 0 };

    /// The positions with which words of the expression begin.
    fn first(&self, expr: Expr) -> &[Position]
        ensures { (rules : Expression) → of_rules self.now rules
            → AreFirst rules (level_of expr) result.now };

    /// The positions that come directly after the position in some word of the expression to which it belongs.
    fn next(&self, position: Position) -> &[Position]
        ensures { (rules : Expression) → of_rules self.now rules
            → AreNext rules position result.now };

    /// Whether a word of the expression to which the position belongs ends there.
    fn may_end(&self, position: Position) -> bool
        ensures { (rules : Expression) → of_rules self.now rules
            → IsTrue result ↔ Ends rules (after position) [] };

    /// What is known at once of the action at the position. It may be `Unknown` for any action.
    fn glance(&self, position: Position) -> Glance
        ensures { (rules : Expression) → of_rules self.now rules → IsGlance rules position result };

    /// The answers by position as slices, if they were prepared. For a position where words may end they have
    /// `Unknown`, whatever `glance` returns.
    fn lend(&self) -> Option<LentSteps<'_>>
        ensures { (rules : Expression) → of_rules self.now rules → IfSome result (IsLentOf rules) };

    /// Whether the empty list is a word of the expression.
    fn may_be_empty(&self, expr: Expr) -> bool
        ensures { (rules : Expression) → of_rules self.now rules
            → IsTrue result ↔ Ends rules (beginning (level_of expr)) [] };
}
