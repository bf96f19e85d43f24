//! The checks of a description: its names by their numbers, then its board, then its rules.
ghost use Rattle.std.specs.Prelude.{◌≡◌, ◌≢◌, IfOk, IfErr, length};
ghost use Rattle.rbg_grammar.specs.Descriptions.{description_of, description_of_parts};
ghost use Rattle.rbg_grammar.specs.Formed.{IsWhole};
ghost use Rattle.rbg_rules.specs.Meaning.{IsGame, positions_of, AbstractGame, rules_of, texts};
ghost use Rattle.rbg_game.specs.Descriptions.{IsGameOf};
ghost use Rattle.rbg_game.specs.Faults.{HasFault};
ghost use Rattle.rbg_game.specs.internal.Things.{game_by_numbers};

mod boards;
mod directions;
mod graphs;
mod names;

use crate::game_error::GameError;
use crate::name_table::NameTable;
use crate::rules::number_rules;
use crate::tables::NameTables;
use boards::{NamedBoard, make_board};
use names::{Things, number_things};
use rbg_grammar::{Description, DescriptionParts};
use rbg_rules::{Game, Parts, Rules};
use std::alloc::{AllocError, Global};

/// The game of a description.
///
/// Faults are looked for in this order: names and bounds of players and variables, and names of pieces, in order of
/// text; too many of them; the board; the rules in order of text.
pub fn check(alloc: Global, description: Description<'_>) -> Result<Game, GameError>
    ensures game { IfOk result (IsGameOf (description_of description.entry)) }

    // The description has the fault that an error names, and unless memory ran out it is no game.
    ensures fault { IfErr result (HasFault (description_of description.entry)) }
    ensures refused { IfErr result (λ e. e ≢ GameError.Memory → (game : AbstractGame)
        → ¬ IsGameOf (description_of description.entry) game) }
{
    check_parts(alloc, &description.into_parts())
}

/// The game of a description in parts.
fn check_parts(alloc: Global, parts: &DescriptionParts<'_>) -> Result<Game, GameError>
    requires { IsWhole (description_of_parts parts.now) }
    ensures game { IfOk result (IsGameOf (description_of_parts parts.now)) }
    ensures fault { IfErr result (HasFault (description_of_parts parts.now)) }
{
    let things = number_things(alloc, parts)?;
    let board = make_board(alloc, &things.pieces, &parts.board)?;
    let names = NameTables {
        players: &things.players,
        variables: &things.variables,
        pieces: &things.pieces,
        directions: &board.directions,
    };
    let rules = number_rules(alloc, &names, &parts.rules)?;
    Ok(assemble(alloc, things, board, rules)?)
}

/// The names of a game, in order of their numbers.
#[derive(Drop)]
struct GameNames {
    players: Vec<String>,
    pieces: Vec<String>,
    variables: Vec<String>,
    directions: Vec<String>,
}

/// Copies of the names in the tables.
fn copy_names(
    alloc: Global,
    things: &Things,
    directions: &NameTable,
) -> Result<GameNames, AllocError>
    ensures players { IfOk result (λ names. texts names.players.items ≡ things.now.players) }
    ensures pieces { IfOk result (λ names. texts names.pieces.items ≡ things.now.pieces) }
    ensures variables { IfOk result (λ names. texts names.variables.items ≡ things.now.variables) }
    ensures directions { IfOk result (λ names. texts names.directions.items ≡ directions.now) }
{
    Ok(GameNames {
        players: things.players.to_names(alloc)?,
        pieces: things.pieces.to_names(alloc)?,
        variables: things.variables.to_names(alloc)?,
        directions: directions.to_names(alloc)?,
    })
}

/// The game of its parts.
fn assemble(
    alloc: Global,
    things: Things,
    board: NamedBoard,
    rules: Rules,
) -> Result<Game, AllocError>
    requires lawful { IsGame (game_by_numbers things board (rules_of rules)) }
    requires actions { length rules.actions.items ≡ length (positions_of (rules_of rules)) }
    ensures { IfOk result (λ game. game ≡ game_by_numbers things board (rules_of rules)) }
{
    let names = copy_names(alloc, &things, &board.directions)?;
    Ok(Game::new(Parts {
        players: names.players,
        pieces: names.pieces,
        variables: names.variables,
        bounds: things.bounds,
        directions: names.directions,
        board: board.board,
        rules,
    }))
}
