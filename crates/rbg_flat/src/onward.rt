//! Where one modifier alone comes next: a straight line of modifiers is applied without a search.
ghost use Rattle.std.specs.Prelude.{◌≡◌, ℕ, ◌+◌, [], Some, length, slice_get, IfOk, IsTrue, ◌↔◌};
ghost use Rattle.rbg_rules.specs.Meaning.{IsGame, after, Ends, positions_of};
ghost use Rattle.rbg_auto.specs.Steps.{AreNext};
ghost use Rattle.rbg_flat.specs.Onward.{IsOnward, IsOnwardTo};
ghost use Rattle.rbg_flat.specs.internal.Leading.{IsPositionIn};
ghost use Rattle.rbg_flat.specs.internal.Shown.{ShowsOnward};

use rbg_auto::Steps;
use rbg_base::{Memory, Position};
use rbg_rules::{Action, Game};
use std::alloc::Global;

/// What comes next after a position, where that is one modifier alone and no word ends before it.
#[derive(Clone, Copy, Drop)]
pub enum Onward {
    /// Nothing is known: several actions may come next, or another one, or none, or a word may end.
    Unknown,
    /// The off or the assignment at this position.
    Modifier(Position),
    /// The switch at this position.
    Switch(Position),
}

/// What comes next after each position, from 0 on.
pub(crate) fn all_onward<S: Steps>(
    alloc: Global,
    game: &Game,
    steps: &S,
) -> Result<Vec<Onward>, Memory>
    requires { S.of_rules steps.now game.now.rules }
    ensures told { IfOk result (λ onward. (p : ℕ) (told : Onward)
        → slice_get onward.items p ≡ Some told → IsOnward game.now.rules p told) }
{
    let count = game.positions() + 1;
    let mut onward = Vec::with_capacity(alloc, count)?;
    for index in 0..count {
        let position = index as Position;
        let next = steps.next(position);
        let ends = steps.may_end(position);
        onward.push(onward_from(game, position, next, ends))?;
    }
    Ok(onward)
}

/// What comes next after a position: these positions may, and a word may end there or not.
fn onward_from(game: &Game, position: Position, next: &[Position], ends: bool) -> Onward
    requires lawful { IsGame game.now }
    requires next { AreNext game.now.rules position next.now }
    requires ends { IsTrue ends ↔ Ends game.now.rules (after position) [] }
    ensures { IsOnward game.now.rules position result }
{
    if ends {
        return Onward::Unknown;
    }
    match next {
        [only] => onward_to(game, *only),
        _ => Onward::Unknown,
    }
}

/// What is known of the action at a position, if it is a modifier.
fn onward_to(game: &Game, position: Position) -> Onward
    requires lawful { IsGame game.now }
    requires position { IsPositionIn game.now position }
    ensures { IsOnwardTo game.now.rules position result }
{
    onward_by(position, game.action(position))
}

/// The same of this action.
fn onward_by(position: Position, action: &Action) -> Onward
    ensures { ShowsOnward position action.now result }
{
    match action {
        Action::Off { .. } | Action::Assign { .. } => Onward::Modifier(position),
        Action::Switch { .. } => Onward::Switch(position),
        Action::Shift { .. }
        | Action::On { .. }
        | Action::Compare { .. }
        | Action::Positive
        | Action::Negative => Onward::Unknown,
    }
}
