//! What was found is gathered: the modifiers that are valid, and how many candidates there are.
ghost use Rattle.std.specs.Prelude.{◌≡◌, ◌↔◌, ◌/◌, ◌<◌, ◌≤◌, ◌^◌, [], false, length, count_ones, IfOk, IsTrue};
ghost use Rattle.rbg_rules.specs.Meaning.{IsGame, IsModifierAt, positions_of, IsStateOf};
ghost use Rattle.rbg_flat.specs.Paths.{ArePathsOf};
ghost use Rattle.rbg_flat.specs.internal.Places.{IsMetAt};
ghost use Rattle.rbg_flat.specs.internal.Gathering.{Gathers, Keeps};

use crate::found::Modifiers;
use crate::paths::{Kind, Paths};
use crate::sets::Sets;
use crate::words::{lowest, without};
use rbg_base::{Memory, Position};
use rbg_rules::Game;
use rbg_state::{SemiState, Trial};

/// Whether a modifier stands at a position and is valid: where it is valid at one vertex, it is at each.
#[inline(always)]
pub(crate) fn keeps(game: &Game, paths: &Paths, state: &SemiState, position: Position) -> bool
    requires lawful { IsGame game.now }
    requires paths { ArePathsOf game.now paths.now }
    requires fits { IsStateOf game.now state.now.state }
    requires there { position ≤ length (positions_of game.now.rules) }
    ensures { IsTrue result ↔ Keeps game.now state.now.state position }
{
    is_modifier(game, paths, position)
        && (paths.facts(game, position).sure || is_kept(game, state, position))
}

/// Whether a modifier stands at a position.
#[inline(always)]
pub(crate) fn is_modifier(game: &Game, paths: &Paths, position: Position) -> bool
    requires lawful { IsGame game.now }
    requires paths { ArePathsOf game.now paths.now }
    requires there { position ≤ length (positions_of game.now.rules) }
    ensures { IsTrue result ↔ IsModifierAt game.now.rules position }
{
    matches!(paths.facts(game, position).kind, Kind::Modifier)
}

/// As `keeps`, by a try. Only assignments are tried so: offs and switches are always valid.
#[inline(never)]
fn is_kept(game: &Game, state: &SemiState, position: Position) -> bool
    requires lawful { IsGame game.now }
    requires fits { IsStateOf game.now state.now.state }
    requires from_one { 0 < position }
    requires there { position ≤ length (positions_of game.now.rules) }
    ensures { IsTrue result ↔ Keeps game.now state.now.state position }
{
    let Some(trial) = state.try_at(game, state.vertex(), position) else {
        return false;
    };
    match trial {
        Trial::Modifies => true,
        Trial::Invalid => false,
        Trial::LeadsTo(_) => false,
    }
}

/// How many bits of a word are set. Most words have one, which is seen in less than it takes to count.
#[inline(always)]
fn count(word: u64) -> usize
    ensures ones { result ≡ count_ones word }
    ensures few { result ≤ 64 }
{
    if word == 0 {
        return 0;
    }
    let rest = without(word, lowest(word));
    if rest == 0 {
        1
    } else {
        1 + rest.count_ones() as usize
    }
}

/// Counts the vertices that were met at a place. If they are kept, it adds them to what was found.
#[inline(always)]
pub(crate) fn gather_place(
    found: &mut Modifiers,
    sets: &Sets,
    place: usize,
    position: Position,
    keeps: bool,
) -> Result<usize, Memory>
    requires place { place < length sets.now.marks }
    requires position { position ≡ place / sets.now.columns }
    requires narrow { sets.now.columns < 2 ^ 16 }
    ensures { IfOk result (λ many. Gathers (IsMetAt sets.now place position)
        found.old found.new position keeps many 64) }
{
    let word = sets.met_at(place);
    if keeps {
        found.push_word(position, sets.column_at(place), word)?;
        Ok(count(word))
    } else {
        Ok(count(word))
    }
}

/// Counts the vertices that were met at a place.
pub(crate) fn count_place(sets: &Sets, place: usize, position: Position) -> usize
    requires place { place < length sets.now.marks }
    requires position { position ≡ place / sets.now.columns }
    requires narrow { sets.now.columns < 2 ^ 16 }
    ensures { Gathers (IsMetAt sets.now place position) [] [] position false result 64 }
{
    count(sets.met_at(place))
}
