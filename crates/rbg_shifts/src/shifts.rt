//! Which positions are shifts, and in which directions.
ghost use Rattle.std.specs.Prelude.{◌≡◌, ℕ, Some, IfOk, IfSome};
ghost use Rattle.rbg_rules.specs.declared.rule.Action.{Action};
ghost use Rattle.rbg_rules.specs.declared.rule.Action.TheVariants.{Shift};
ghost use Rattle.rbg_shifts.specs.internal.Steps.{AreDirections};

use rbg_base::{Direction, Memory, Position};
use rbg_rules::{Action, Game};
use std::alloc::Global;

/// The direction of a shift. Returns None for any other action.
fn direction_of(action: &Action) -> Option<Direction>
    ensures only { IfSome result (λ d. action.now ≡ Shift d) }
    ensures all { (d : ℕ) → action.now ≡ Shift d → result ≡ Some d }
{
    match action {
        Action::Shift { direction } => Some(*direction),
        Action::On { .. }
        | Action::Off { .. }
        | Action::Assign { .. }
        | Action::Compare { .. }
        | Action::Switch { .. }
        | Action::Positive
        | Action::Negative => None,
    }
}

/// The directions of the shifts of a game, by position. Nothing is at position 0.
pub(crate) fn directions(alloc: Global, game: &Game) -> Result<Vec<Option<Direction>>, Memory>
    ensures { IfOk result (λ directions. AreDirections game.now.rules directions.items) }
{
    let positions = game.positions();
    let mut directions = Vec::with_capacity(alloc, positions + 1)?;
    directions.push(None)?;
    for index in 0..positions {
        directions.push(direction_of(game.action(index as Position + 1)))?;
    }
    Ok(directions)
}
