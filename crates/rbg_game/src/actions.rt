//! Actions by numbers. Each takes the next position of the table.
ghost use Rattle.std.specs.Prelude.{◌≡◌, ◌<◌, ◌≤◌, ◌+◌, ◌^◌, IfOk, IfErr, option_map, length, true, false};
ghost use Rattle.rbg_grammar.specs.Formed.{is_formed_action};
ghost use Rattle.rbg_grammar.specs.Views.{name_of, action_of as spelt_action_of};
ghost use Rattle.rbg_game.specs.NameTables.{HasLookUpFault};
ghost use Rattle.rbg_game.specs.Numbered.{names_of, IsWithinLimits};
ghost use Rattle.rbg_game.specs.internal.Actions.{IsPlayer, player_names, is_spelt_pattern, HasActionFault, IsActionHere, OpensPattern, HasOpeningFault};
ghost use Rattle.rbg_game.specs.internal.Steps.{AddsRule, HasFaultFrom};
ghost use Rattle.rbg_rules.specs.declared.rule.Rule.TheVariants as rules;
ghost use Rattle.rbg_grammar.specs.Tree.{act};

use crate::arithmetic::number_expression;
use crate::game_error::{GameError, Thing};
use crate::name_table::NameTable;
use crate::tables::NameTables;
use rbg_grammar::{Name, ParsedAction};
use rbg_rules::Action;
use rbg_rules::limits::{MAX_NESTED_PATTERNS, MAX_POSITIONS};
use std::alloc::Global;

/// Adds an action that is no pattern, and returns its position. `patterns_left` patterns may still be opened around it.
pub(crate) fn add_action(
    alloc: Global,
    names: &NameTables<'_>,
    patterns_left: usize,
    action: &ParsedAction<'_>,
    actions: &mut Vec<Action>,
) -> Result<u32, GameError>
    requires plain { is_spelt_pattern (spelt_action_of action.now) ≡ false }
    requires formed { is_formed_action (spelt_action_of action.now) ≡ true }
    requires limits { IsWithinLimits (names_of names.now) }
    requires room { length actions.old.items ≤ MAX_POSITIONS }
    requires nesting { patterns_left ≤ MAX_NESTED_PATTERNS }
    ensures added { IfOk result
        (λ p. AddsRule (names_of names.now) patterns_left (act (spelt_action_of action.now))
        actions.old.items actions.new.items (rules.Act p)) }
    ensures fault { IfErr result
        (HasFaultFrom (names_of names.now) patterns_left (length actions.old.items)
        (act (spelt_action_of action.now))) }
{
    if actions.len() == MAX_POSITIONS {
        return Err(GameError::TooMany {
            what: Thing::Positions,
        });
    }
    actions.push(number_action(alloc, names, patterns_left, action)?)?;
    Ok(actions.len() as u32)
}

/// Adds a pattern, whose brace is at this offset, and returns its position. `patterns_left` patterns may still be
/// opened.
pub(crate) fn open_pattern(
    patterns_left: usize,
    at: usize,
    pattern: Action,
    actions: &mut Vec<Action>,
) -> Result<u32, GameError>
    requires room { length actions.old.items ≤ MAX_POSITIONS }
    ensures opened { IfOk result (OpensPattern patterns_left pattern actions.old.items
        actions.new.items) }
    ensures fault { IfErr result (HasOpeningFault patterns_left at (length actions.old.items)) }
{
    if actions.len() == MAX_POSITIONS {
        return Err(GameError::TooMany {
            what: Thing::Positions,
        });
    }
    if patterns_left == 0 {
        return Err(GameError::PatternTooDeep { at });
    }
    actions.push(pattern)?;
    Ok(actions.len() as u32)
}

fn number_action(
    alloc: Global,
    names: &NameTables<'_>,
    patterns_left: usize,
    action: &ParsedAction<'_>,
) -> Result<Action, GameError>
    requires plain { is_spelt_pattern (spelt_action_of action.now) ≡ false }
    requires formed { is_formed_action (spelt_action_of action.now) ≡ true }
    requires limits { IsWithinLimits (names_of names.now) }
    requires nesting { patterns_left ≤ MAX_NESTED_PATTERNS }
    ensures action { IfOk result (IsActionHere (names_of names.now) patterns_left
        (spelt_action_of action.now)) }
    ensures fault { IfErr result (HasActionFault (names_of names.now) patterns_left
        (spelt_action_of action.now)) }
{
    match action {
        ParsedAction::Shift(direction) => Ok(Action::Shift {
            direction: names.directions.find(direction)?,
        }),
        ParsedAction::On(pieces) => Ok(Action::On {
            pieces: names.pieces.find_all(alloc, pieces)?,
        }),
        ParsedAction::Off(piece) => Ok(Action::Off {
            piece: names.pieces.find(piece)?,
        }),
        ParsedAction::Assign { variable, value } => Ok(Action::Assign {
            variable: names.variables.find(variable)?,
            value: number_expression(alloc, names, value)?,
        }),
        ParsedAction::Compare {
            left,
            relation,
            right,
        } => Ok(Action::Compare {
            left: number_expression(alloc, names, left)?,
            relation: *relation,
            right: number_expression(alloc, names, right)?,
        }),
        ParsedAction::Switch { at, player } => {
            if patterns_left < MAX_NESTED_PATTERNS {
                return Err(GameError::SwitchInPattern { at: *at });
            }
            Ok(Action::Switch {
                player: number_of_player(names.players, player)?,
            })
        }
        ParsedAction::PositivePattern { .. } | ParsedAction::NegativePattern { .. } => {
            unreachable!()
        }
    }
}

/// The number of a player, from 1 on. None is the keeper.
fn number_of_player(table: &NameTable, player: &Option<Name<'_>>) -> Result<u16, GameError>
    requires { length table.now < 2 ^ 16 }
    ensures number { IfOk result (IsPlayer table.now (option_map name_of player.now)) }
    ensures fault { IfErr result (HasLookUpFault table.now
        (player_names (option_map name_of player.now))) }
{
    match player {
        Some(name) => Ok(table.find(name)? + 1),
        None => Ok(0),
    }
}
