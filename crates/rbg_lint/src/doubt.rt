//! Doubts, and how they are found.

use crate::constants::{Compared, Constant, comparison_of, constant_of};
use crate::keeper_search::KeeperSearch;
use rbg_auto::compact;
use rbg_base::{Memory, Position, Relation, Variable};
use rbg_rules::{Action, Arithmetic, Game};
use std::alloc::Global;

/// What is doubtful in the rules of a game.
#[derive(Clone, Copy)]
pub enum Doubt {
    /// The assignment at the position is never valid, since its arithmetic is constant: it has this value, which is negative
    /// or above the bound of the variable, or none.
    Never {
        position: Position,
        variable: Variable,
        value: Option<i64>,
    },
    /// The comparison at the position is never valid, since its arithmetic is constant and has no value.
    NoValue {
        position: Position,
    },
    /// The comparison at the position has always this truth, since it is of a variable and this number, which the variable
    /// never holds: it is negative or above the bound.
    Decided {
        position: Position,
        variable: Variable,
        value: i64,
        holds: bool,
    },
    /// Before any switch the keeper puts a piece at the position, as a player does later.
    KeeperBegins {
        off: Position,
    },
    /// After the `->>` at the position the keeper goes on in the rules without another switch, and puts a piece at the
    /// position `off`, as a player does.
    GoesOn {
        position: Position,
        off: Position,
    },
}

/// The doubts of a game, by kind and position. A plain number above a bound is none.
pub fn doubts(alloc: Global, game: &Game) -> Result<Vec<Doubt>, Memory> {
    let mut found = Vec::new(alloc);
    push_constants(game, &mut found)?;
    push_keepers(alloc, game, &mut found)?;
    Ok(found)
}

/// Adds the assignments and comparisons that are never valid.
fn push_constants(game: &Game, found: &mut Vec<Doubt>) -> Result<(), Memory> {
    for index in 0..game.positions() {
        let position = index as Position + 1;
        if let Some(doubt) = doubt_at(game, position, game.action(position)) {
            found.push(doubt)?;
        }
    }
    Ok(())
}

/// The doubt about the arithmetic of an action.
fn doubt_at(game: &Game, position: Position, action: &Action) -> Option<Doubt> {
    match action {
        Action::Assign { variable, value } => doubt_of(game, position, *variable, value),
        Action::Compare { left, right, .. } if has_no_value(left) || has_no_value(right) => {
            Some(Doubt::NoValue { position })
        }
        Action::Compare {
            left,
            relation,
            right,
        } => doubt_about(game, position, left, *relation, right),
        _ => None,
    }
}

/// The doubt about a comparison.
fn doubt_about(
    game: &Game,
    position: Position,
    left: &Arithmetic,
    relation: Relation,
    right: &Arithmetic,
) -> Option<Doubt> {
    let Compared {
        variable,
        relation,
        value,
    } = comparison_of(left, relation, right)?;
    if is_within(game, variable, value) {
        return None;
    }
    Some(Doubt::Decided {
        position,
        variable,
        value,
        holds: holds_outside(relation, value < 0),
    })
}

/// Whether a number that is in this relation to one outside of a variable's bounds, below or above, holds it always.
fn holds_outside(relation: Relation, is_below: bool) -> bool {
    match relation {
        Relation::Equal => false,
        Relation::NotEqual => true,
        Relation::Less | Relation::LessOrEqual => !is_below,
        Relation::Greater | Relation::GreaterOrEqual => is_below,
    }
}

fn has_no_value(arithmetic: &Arithmetic) -> bool {
    matches!(constant_of(arithmetic), Constant::NoValue)
}

/// The doubt about an assignment.
fn doubt_of(
    game: &Game,
    position: Position,
    variable: Variable,
    arithmetic: &Arithmetic,
) -> Option<Doubt> {
    if matches!(arithmetic, Arithmetic::Number(_)) {
        return None;
    }
    let value = match constant_of(arithmetic) {
        Constant::Unknown => return None,
        Constant::Value(value) if is_within(game, variable, value) => return None,
        Constant::Value(value) => Some(value),
        Constant::NoValue => None,
    };
    Some(Doubt::Never {
        position,
        variable,
        value,
    })
}

/// Whether a variable can hold a value.
fn is_within(game: &Game, variable: Variable, value: i64) -> bool {
    let bound = if (variable as usize) < game.variables() {
        game.bound(variable)
    } else {
        0
    };
    0 <= value && value <= i64::from(bound)
}

/// Adds that the keeper puts a piece before any switch, and each `->>` after which it puts one as a player does.
fn push_keepers(alloc: Global, game: &Game, found: &mut Vec<Doubt>) -> Result<(), Memory> {
    game.is_accepted();
    let steps = compact(alloc, game)?;
    let mut search = KeeperSearch::new(alloc, game, &steps)?;
    if let Some(off) = search.first_off()? {
        found.push(Doubt::KeeperBegins { off })?;
    }
    for index in 0..game.positions() {
        let position = index as Position + 1;
        if is_keepers(game.action(position))
            && let Some(off) = search.off_after(position)?
        {
            found.push(Doubt::GoesOn { position, off })?;
        }
    }
    Ok(())
}

/// Whether an action gives the turn to the keeper.
fn is_keepers(action: &Action) -> bool {
    match action {
        Action::Switch { player } => *player == 0,
        _ => false,
    }
}
