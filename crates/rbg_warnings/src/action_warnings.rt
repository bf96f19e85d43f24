//! Checks of single actions for warnings.
ghost use Rattle.std.specs.Prelude.{◌≡◌, slice_index};
ghost use Rattle.rbg_rules.specs.Meaning.{Expression, action_of, arithmetic_of};
ghost use Rattle.rbg_warnings.specs.Warnings.{assigns_too_much as is_too_much, is_number_above, uses as is_used};
ghost use Rattle.rbg_warnings.specs.internal.Kinds.{is_variable_in};

use crate::arithmetic::{names_variable, number_of};
use crate::named_thing::NamedThing;
use rbg_base::Variable;
use rbg_rules::{Action, Arithmetic, Game};

/// Whether an action uses a thing.
pub(crate) fn uses(thing: NamedThing, action: &Action) -> bool
    ensures { (inside : Expression) → result ≡ is_used thing (action_of action.now inside) }
{
    match action {
        Action::Shift { direction } => thing
            == NamedThing::Direction {
                direction: *direction,
            },
        Action::Off { piece } => thing == NamedThing::Piece { piece: *piece },
        Action::Switch { player } => thing == NamedThing::Player { player: *player },
        Action::Assign { variable, value } => {
            thing
                == NamedThing::Variable {
                    variable: *variable,
                }
                || is_named(thing, value)
        }
        Action::Compare { left, right, .. } => is_named(thing, left) || is_named(thing, right),
        Action::On { .. } => false,
        Action::Positive => false,
        Action::Negative => false,
    }
}

/// Whether a thing is a variable that arithmetic names.
fn is_named(thing: NamedThing, arithmetic: &Arithmetic) -> bool
    ensures { result ≡ is_variable_in thing (arithmetic_of arithmetic.now) }
{
    match thing {
        NamedThing::Variable { variable } => names_variable(arithmetic, variable),
        NamedThing::Player { .. } => false,
        NamedThing::Piece { .. } => false,
        NamedThing::Direction { .. } => false,
    }
}

/// Whether an action of a game assigns a number to a variable whose bound is smaller.
pub(crate) fn assigns_too_much(game: &Game, action: &Action) -> bool
    ensures { (inside : Expression)
        → result ≡ is_too_much game.now.bounds (action_of action.now inside) }
{
    match action {
        Action::Assign { variable, value } => is_above(game, *variable, value),
        Action::Shift { .. } => false,
        Action::On { .. } => false,
        Action::Off { .. } => false,
        Action::Compare { .. } => false,
        Action::Switch { .. } => false,
        Action::Positive => false,
        Action::Negative => false,
    }
}

/// Whether arithmetic is a number above a variable's bound.
fn is_above(game: &Game, variable: Variable, value: &Arithmetic) -> bool
    ensures { result ≡ is_number_above (slice_index game.now.bounds variable)
        (arithmetic_of value.now) }
{
    match number_of(value) {
        Some(number) => u64::from(bound_of(game, variable)) < number,
        None => false,
    }
}

/// The bound of a variable.
fn bound_of(game: &Game, variable: Variable) -> u32
    ensures { result ≡ slice_index game.now.bounds variable }
{
    if (variable as usize) < game.variables() {
        game.bound(variable)
    } else {
        0
    }
}
