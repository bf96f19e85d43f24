//! The call that tells names.
ghost use Rattle.std.specs.Prelude.{◌≡◌, None, Some, slice_get};
ghost use Rattle.std.specs.Option.{MatchOption};
ghost use Rattle.rbg_c.specs.Filling.{FetchesSome, FillsSome};
ghost use Rattle.rbg_c.specs.Names.{names_of};
ghost use Rattle.rbg_c.specs.Results.{range};

use crate::filling::fill;
use crate::handle::Handle;
use crate::results::{EMPTY, RANGE};
use crate::state::State;
use rbg_base::{Direction, Piece, Player, Variable};
use rbg_rules::Game;
use std::alloc::Global;

/// `rbg_name`: the name of a player, a piece, a variable or a direction.
#[unsafe(no_mangle)]
pub extern "C" fn rbg_name(
    alloc: Global,
    state: &mut Handle,
    kind: u32,
    index: u64,
    name: &mut [u8],
    needed: &mut u64,
) -> u32
    ensures { FetchesSome (λ told found. slice_get (names_of kind told.game) index ≡ Some found)
        range state.old.value state.new.value name.old name.new needed.new result }
{
    let Some(held) = state.take(alloc) else {
        return EMPTY;
    };
    let result = fill_name(&held, kind, index, name, needed);
    state.put(held);
    result
}

/// Puts a name into a buffer, if there is one of this kind and index.
fn fill_name(state: &State, kind: u32, index: u64, name: &mut [u8], needed: &mut u64) -> u32
    ensures { FillsSome (λ found. slice_get (names_of kind state.now.game) index ≡ Some found)
        range name.old name.new needed.new result }
{
    match name_of(state.game(), kind, index) {
        Some(found) => fill(found.as_bytes(), name, needed),
        None => RANGE,
    }
}

/// The name of this kind and index: of a player, a piece, a variable or a direction.
fn name_of(game: &Game, kind: u32, index: u64) -> Option<&str>
    ensures { MatchOption result (slice_get (names_of kind game.now) index ≡ None)
        (λ name. slice_get (names_of kind game.now) index ≡ Some name.now) }
{
    match kind {
        0 => player_at(game, index),
        1 => piece_at(game, index),
        2 => variable_at(game, index),
        3 => direction_at(game, index),
        _ => None,
    }
}

fn player_at(game: &Game, index: u64) -> Option<&str>
    ensures { MatchOption result (slice_get game.now.players index ≡ None)
        (λ name. slice_get game.now.players index ≡ Some name.now) }
{
    if index < game.players() as u64 {
        Some(game.player_name(index as Player + 1))
    } else {
        None
    }
}

fn piece_at(game: &Game, index: u64) -> Option<&str>
    ensures { MatchOption result (slice_get game.now.pieces index ≡ None)
        (λ name. slice_get game.now.pieces index ≡ Some name.now) }
{
    if index < game.pieces() as u64 {
        Some(game.piece_name(index as Piece))
    } else {
        None
    }
}

fn variable_at(game: &Game, index: u64) -> Option<&str>
    ensures { MatchOption result (slice_get game.now.variables index ≡ None)
        (λ name. slice_get game.now.variables index ≡ Some name.now) }
{
    if index < game.variables() as u64 {
        Some(game.variable_name(index as Variable))
    } else {
        None
    }
}

fn direction_at(game: &Game, index: u64) -> Option<&str>
    ensures { MatchOption result (slice_get game.now.directions index ≡ None)
        (λ name. slice_get game.now.directions index ≡ Some name.now) }
{
    if index < game.directions() as u64 {
        Some(game.direction_name(index as Direction))
    } else {
        None
    }
}
