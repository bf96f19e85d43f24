//! The names and numbers of two games, compared.
ghost use Rattle.std.specs.Prelude.{◌≡◌, ◌↔◌, ◌<◌, ◌≤◌, ◌^◌, IsTrue, Some, length, slice_get};
ghost use Rattle.rbg_position.specs.internal.Parts.{SameNames, names_of};

use rbg_base::Variable;
use rbg_rules::Game;

/// The things of a game that have names and are numbered from 0.
#[derive(Clone, Copy)]
pub(crate) enum Things {
    Pieces,
    Variables,
    Directions,
}

/// Whether two games have the same names of players, pieces, variables and directions, and the same bounds.
pub(crate) fn same_names(old: &Game, new: &Game) -> bool
    ensures { IsTrue result ↔ SameNames old.now new.now }
{
    old.players() == new.players()
        && same_things(Things::Variables, old, new)
        && same_bounds(old, new)
        && same_things(Things::Pieces, old, new)
        && same_things(Things::Directions, old, new)
}

/// Whether two games have the same names of things.
fn same_things(things: Things, old: &Game, new: &Game) -> bool
    ensures { IsTrue result ↔ (names_of things old.now ≡ names_of things new.now) }
{
    let count = count_of(things, old);
    if count != count_of(things, new) {
        return false;
    }
    for index in 0..count {
        if name_of(things, index as u16, old) != name_of(things, index as u16, new) {
            return false;
        }
    }
    true
}

/// How many things a game has.
fn count_of(things: Things, game: &Game) -> usize
    ensures count { result ≡ length (names_of things game.now) }
    ensures few { result ≤ 2 ^ 16 }
{
    match things {
        Things::Pieces => game.pieces(),
        Things::Variables => game.variables(),
        Things::Directions => game.directions(),
    }
}

/// The name of a thing.
fn name_of(things: Things, number: u16, game: &Game) -> &str
    requires { number < length (names_of things game.now) }
    ensures { slice_get (names_of things game.now) number ≡ Some result.now }
{
    match things {
        Things::Pieces => game.piece_name(number),
        Things::Variables => game.variable_name(number),
        Things::Directions => game.direction_name(number),
    }
}

fn same_bounds(old: &Game, new: &Game) -> bool
    ensures { IsTrue result ↔ (old.now.bounds ≡ new.now.bounds) }
{
    let count = old.variables();
    if count != new.variables() {
        return false;
    }
    for index in 0..count {
        let variable = index as Variable;
        if old.bound(variable) != new.bound(variable) {
            return false;
        }
    }
    true
}
