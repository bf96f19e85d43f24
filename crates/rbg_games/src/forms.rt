//! Both forms of the automaton of a game's rules.

use rbg_auto::{Expr, Steps, compact, compile};
use rbg_base::Position;
use rbg_rules::Game;
use std::alloc::{AllocError, Global};

/// Whether two automata give the same answers for an expression.
fn same_first(one: &impl Steps, other: &impl Steps, expr: Expr) -> bool {
    one.first(expr) == other.first(expr) && one.may_be_empty(expr) == other.may_be_empty(expr)
}

/// Whether two automata give the same answers for the position, and for a pattern at it.
fn same_at(one: &impl Steps, other: &impl Steps, position: Position) -> bool {
    one.next(position) == other.next(position)
        && one.may_end(position) == other.may_end(position)
        && same_first(one, other, Expr::Inside(position))
}

/// Whether two automata give the same answers for the rules, and for each position from 0 to the one after the last.
fn agree(one: &impl Steps, other: &impl Steps, last: Position) -> bool {
    let mut same = same_first(one, other, Expr::Rules);
    for position in 0..=last.saturating_add(1) {
        same = same && same_at(one, other, position);
    }
    same
}

/// Whether both forms of the automaton of a game give the same answers.
pub fn forms_agree(alloc: Global, game: &Game) -> Result<bool, AllocError> {
    let plain = compile(alloc, game)?;
    let compact = compact(alloc, game)?;
    Ok(agree(&plain, &compact, game.positions() as Position))
}
