//! The beginning of a game, compared with a place.
ghost use Rattle.std.specs.Prelude.{◌≡◌, [], IfErr, IfOk, length};
ghost use Rattle.rbg_rules.specs.Meaning.{IsPlaceOf};
ghost use Rattle.rbg_moves.specs.Settling.{Settles};
ghost use Rattle.rbg_position.specs.Positions.{SettlesAs, game_at};
ghost use Rattle.rbg_position.specs.Refusals.{BeginsOtherwise, IsUnsettled};
ghost use Rattle.rbg_position.specs.Renumbering.{number_in};
ghost use Rattle.rbg_position.specs.internal.Texts.{error_of};

use crate::error::PositionError;
use crate::place_values::compare;
use crate::same_moves::same_moves;
use rbg_game::Game;
use rbg_moves::{Place, PlayedGame, Unsettled, Workspace};
use std::alloc::Global;

/// Whether play of a game with other pieces on its board goes on as from a place, after the keeper's first moves.
/// Returns an error if it doesn't, or if that isn't known.
pub(crate) fn begin(
    alloc: Global,
    new: Game,
    old: &PlayedGame,
    place: &Place,
) -> Result<(), PositionError>
    requires is { new ≡ game_at old.now place.now }
    requires place { IsPlaceOf old.now place.now }
    requires values { length place.now.state.values ≡ length new.bounds }
    ensures begins { IfOk result (λ _. SettlesAs new old.now place.now (number_in [])) }
    ensures otherwise { IfErr result (BeginsOtherwise new old.now place.now) }
{
    let new = PlayedGame::new(alloc, new)?;
    begin_played(alloc, &new, old, place)
}

fn begin_played(
    alloc: Global,
    new: &PlayedGame,
    old: &PlayedGame,
    place: &Place,
) -> Result<(), PositionError>
    requires is { new.now ≡ game_at old.now place.now }
    requires place { IsPlaceOf old.now place.now }
    requires values { length place.now.state.values ≡ length new.now.bounds }
    ensures begins { IfOk result (λ _. SettlesAs new.now old.now place.now (number_in [])) }
    ensures otherwise { IfErr result (BeginsOtherwise new.now old.now place.now) }
{
    let mut first = new.start()?;
    settle(alloc, new, &mut first)?;
    compare(new.as_game().variables(), &first, place)?;
    old.is_accepted();
    if same_moves(new, &first, old, place)? {
        Ok(())
    } else {
        Err(PositionError::Moves)
    }
}

/// Makes the keeper's moves.
pub(crate) fn settle(
    alloc: Global,
    game: &PlayedGame,
    place: &mut Place,
) -> Result<(), PositionError>
    requires { IsPlaceOf game.now place.old }
    ensures settles { IfOk result (λ _. Settles game.now place.old place.new) }
    ensures place { IsPlaceOf game.now place.new }
    ensures unsettled { IfErr result (IsUnsettled game.now place.old) }
{
    let mut workspace = Workspace::new(alloc);
    if let Err(unsettled) = game.settle(place, &mut workspace) {
        return Err(refusal_of(unsettled));
    }
    Ok(())
}

/// The error for a game whose keeper's first moves lead to no place.
fn refusal_of(unsettled: Unsettled) -> PositionError
    ensures { result ≡ error_of unsettled }
{
    match unsettled {
        Unsettled::Heavy => PositionError::Unsettled,
        Unsettled::Endless => PositionError::Unsettled,
        Unsettled::Memory => PositionError::Memory,
    }
}
