//! The warnings of a game.
ghost use Rattle.std.specs.Prelude.{◌↔◌, ◌+◌, ◌<◌, ◌≤◌, ◌^◌, [], ◌∷◌, length, map, Contains, IfOk, OnOk, IsTrue};
ghost use Rattle.std.specs.List.{range_with_len};
ghost use Rattle.rbg_rules.specs.Meaning.{positions_of};
ghost use Rattle.rbg_warnings.specs.declared.warning.Warning.TheVariants.{TooGreat as TooGreatWarning, Unused as UnusedWarning};
ghost use Rattle.rbg_warnings.specs.Sifting.{Keeps};
ghost use Rattle.rbg_warnings.specs.Warnings.{
  BoardHas,
  HasTooGreat,
  IsUnused as IsThingUnused,
  IsWarned,
  IsWritten,
  positions_warned,
  possible_warnings,
};
ghost use Rattle.rbg_warnings.specs.internal.Kinds.{thing_of};
ghost use Rattle.rbg_warnings.specs.internal.Walking.{Sifts};

use crate::action_warnings::{assigns_too_much, uses};
use crate::named_thing::{Kind, NamedThing, thing_of};
use crate::warning::Warning;
use rbg_base::{Memory, Piece, Position, Vertex};
use rbg_rules::Game;
use std::alloc::Global;

/// The warnings of a game: those of positions, of players, of pieces, of variables and of directions, each by number.
pub fn warnings(alloc: Global, game: &Game) -> Result<Vec<Warning>, Memory>
    ensures { IfOk result (λ found.
        Keeps (IsWarned game.now) (possible_warnings game.now) found.items) }
{
    let mut found = Vec::new(alloc);
    sift_positions(game, &mut found)?;
    let players = game.players();
    let others = game.variables().saturating_sub(players);
    sift_things(game, Kind::Players, 1, players, &mut found)?;
    sift_things(game, Kind::Pieces, 0, game.pieces(), &mut found)?;
    sift_things(game, Kind::Variables, players, others, &mut found)?;
    sift_things(game, Kind::Directions, 0, game.directions(), &mut found)?;
    Ok(found)
}

fn sift_positions(game: &Game, found: &mut Vec<Warning>) -> Result<(), Memory>
    ensures { OnOk result (Sifts game.now (positions_warned game.now) found.old.items found.new.items) }
{
    for index in 0..game.positions() {
        sift_position(game, index as Position + 1, found)?;
    }
    Ok(())
}

/// Adds the warnings of things of a kind: those of `count` numbers from the first one on.
fn sift_things(
    game: &Game,
    kind: Kind,
    first: usize,
    count: usize,
    found: &mut Vec<Warning>,
) -> Result<(), Memory>
    requires { first + count ≤ 2 ^ 16 }
    ensures { OnOk result (Sifts game.now
        (map (λ n. UnusedWarning (thing_of kind n)) (range_with_len first count))
        found.old.items found.new.items) }
{
    for index in 0..count {
        sift_thing(game, thing_of(kind, (first + index) as u16), found)?;
    }
    Ok(())
}

/// Adds the warning of a position, if the game has it.
fn sift_position(game: &Game, position: Position, found: &mut Vec<Warning>) -> Result<(), Memory>
    requires from_one { 0 < position }
    requires there { position ≤ length (positions_of game.now.rules) }
    ensures { OnOk result (Sifts game.now (TooGreatWarning position ∷ [])
        found.old.items found.new.items) }
{
    if has_too_great(game, position) {
        found.push(Warning::TooGreat { position })?;
    }
    Ok(())
}

/// Adds the warning of a thing, if the game has it.
fn sift_thing(game: &Game, thing: NamedThing, found: &mut Vec<Warning>) -> Result<(), Memory>
    ensures { OnOk result (Sifts game.now (UnusedWarning thing ∷ []) found.old.items found.new.items) }
{
    if is_unused(game, thing) {
        found.push(Warning::Unused { thing })?;
    }
    Ok(())
}

/// Whether the action at a position assigns a number to a variable whose bound is smaller.
fn has_too_great(game: &Game, position: Position) -> bool
    requires from_one { 0 < position }
    requires there { position ≤ length (positions_of game.now.rules) }
    ensures { IsTrue result ↔ HasTooGreat game.now position }
{
    game.is_accepted();
    assigns_too_much(game, game.action(position))
}

/// Whether a thing is neither on the board at the beginning nor used by the rules.
fn is_unused(game: &Game, thing: NamedThing) -> bool
    ensures { IsTrue result ↔ IsThingUnused game.now thing }
{
    if is_on_board(game, thing) {
        return false;
    }
    !is_written(game, thing)
}

/// Whether the board has a thing at the beginning.
fn is_on_board(game: &Game, thing: NamedThing) -> bool
    ensures { IsTrue result ↔ BoardHas game.now thing }
{
    match thing {
        NamedThing::Piece { piece } => is_first_piece(game, piece),
        NamedThing::Player { .. } => false,
        NamedThing::Variable { .. } => false,
        NamedThing::Direction { .. } => false,
    }
}

/// Whether some action of the rules uses a thing.
fn is_written(game: &Game, thing: NamedThing) -> bool
    ensures { IsTrue result ↔ IsWritten game.now thing }
{
    for index in 0..game.positions() {
        if uses(thing, game.action(index as Position + 1)) {
            return true;
        }
    }
    false
}

/// Whether the board has a piece at the beginning.
fn is_first_piece(game: &Game, piece: Piece) -> bool
    ensures { IsTrue result ↔ Contains game.now.board.first piece }
{
    let board = game.board();
    for vertex in 0..board.len() {
        if board.piece_at_start(vertex as Vertex) == piece {
            return true;
        }
    }
    false
}
