//! Where a leap begins in the rules.

use rbg_auto::Expr;
use rbg_base::Position;

/// A point in the rules of a game.
#[derive(Clone, Copy, PartialEq, Eq, Drop)]
pub enum Origin {
    /// At the beginning of an expression.
    Begin(Expr),
    /// After the action at a position.
    After(Position),
}
