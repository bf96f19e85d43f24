//! The lines of the moves with which play can continue at a place.
ghost use Rattle.std.specs.Prelude.{◌≡◌, ◌++◌, ℕ, List, codes, length, take, IfOk, OnOk};
ghost use Rattle.rbg_rules.specs.Meaning.{IsPlaceOf};
ghost use Rattle.rbg_moves.specs.Listing.{IsListed};
ghost use Rattle.rbg_operations.specs.After.{GoesOnAt};
ghost use Rattle.rbg_operations.specs.Lines.{numbers_text};
ghost use Rattle.rbg_operations.specs.Openings.{most_listed};

use crate::listing_lines::write_scores;
use crate::opened::{MAX_LISTED, write_limit, write_listed};
use rbg_base::{Memory, Player};
use rbg_moves::{Listed, Place, PlayedGame};
use std::alloc::Global;

/// The lines of the legal moves at a place, or the scores if there is none.
pub(crate) fn place_lines(
    alloc: Global,
    game: &PlayedGame,
    place: &Place,
) -> Result<Vec<u8>, Memory>
    requires { IsPlaceOf game.now place.now }
    ensures { IfOk result (λ lines. GoesOnAt game.now place.now lines.items) }
{
    let mut lines = Vec::new(alloc);
    write_place(game, place, &mut lines)?;
    Ok(lines)
}

fn write_place(game: &PlayedGame, place: &Place, out: &mut Vec<u8>) -> Result<(), Memory>
    requires { IsPlaceOf game.now place.now }
    ensures { OnOk result ((text : List ℕ) × GoesOnAt game.now place.now text
        × (out.new.items ≡ out.old.items ++ text)) }
{
    match game.list_moves(place, MAX_LISTED) {
        Ok(listed) => write_found(game, place, &listed, out),
        Err(over) => write_limit(over, out),
    }
}

/// The moves that were found, or the scores if there is none.
fn write_found(
    game: &PlayedGame,
    place: &Place,
    listed: &Listed,
    out: &mut Vec<u8>,
) -> Result<(), Memory>
    requires { IsPlaceOf game.now place.now }
    ensures { OnOk result (
        IsListed game.now place.now most_listed listed.now.moves.items listed.now.cut →
        (text : List ℕ) × GoesOnAt game.now place.now text
        × (out.new.items ≡ out.old.items ++ text)) }
{
    if listed.moves.is_empty() {
        write_values(game, place, out)
    } else {
        write_listed(mover(place), listed, out)
    }
}

/// The line that play is finished, with the values of the players.
fn write_values(game: &PlayedGame, place: &Place, out: &mut Vec<u8>) -> Result<(), Memory>
    requires { IsPlaceOf game.now place.now }
    ensures { OnOk result (out.new.items ≡ out.old.items ++ (codes "finished"
        ++ numbers_text (take (length game.now.players) place.now.state.values) ++ codes "\n")) }
{
    let scores = game.scores(place);
    write_scores(scores.as_slice(), out)
}

/// The player who is to move.
fn mover(place: &Place) -> Player
    ensures { result ≡ place.now.state.player }
{
    place.state.player()
}
