//! What a record needs of its game: the players, their scores, and the questions of the rules.
ghost use Rattle.std.specs.Prelude.{
  ◌≡◌,
  ◌↔◌,
  length,
  take,
  true,
  false,
  Err,
  IfErr,
  IfOk,
  IfSome,
  IfNone,
  IsTrue,
};
ghost use Rattle.rbg_rules.specs.Meaning.{IsHeavyToFind, IsHeavyToTry, AbstractPlace, Finished, Legal, IsPlaceOf};
ghost use Rattle.rbg_wire.specs.Words.{words_left};
ghost use Rattle.rbg_record.specs.internal.Faults.{IsOverOrMemory};
ghost use Rattle.rbg_record.specs.internal.Reading.{SomeIsLegal};

use crate::fault::LineFault;
use rbg_moves::{Move, Place, PlayedGame};
use rbg_rules::Game;
use rbg_wire::{Scores, Words};

/// Whether these are the names of the players, in order.
pub(crate) fn are_players(game: &Game, names: Words<'_>) -> bool
    ensures { IsTrue result ↔ (words_left names.entry ≡ game.now.players) }
{
    let mut left = names;
    for player in 0..game.players() {
        let Some(name) = left.next() else {
            return false;
        };
        if name != game.player_name(player as u16 + 1).as_bytes() {
            return false;
        }
    }
    left.next().is_none()
}

/// Whether these are the players' values at a place.
pub(crate) fn are_scores(game: &PlayedGame, place: &Place, scores: &Scores) -> bool
    requires { IsPlaceOf game.now place.now }
    ensures { IsTrue result ↔ (scores.now ≡ take (length game.now.players) place.now.state.values) }
{
    let found = game.scores(place);
    are_same(scores.as_slice(), found.as_slice())
}

/// Whether play is finished at a place.
pub(crate) fn is_finished(game: &PlayedGame, place: &Place) -> Result<bool, LineFault>
    requires { IsPlaceOf game.now place.now }
    ensures finished { IfOk result (λ finished. finished ≡ true → Finished game.now place.now) }
    ensures going { IfOk result (λ finished. finished ≡ false → SomeIsLegal game.now place.now) }
    ensures heavy { result ≡ Err LineFault.Over → IsHeavyToFind game.now place.now }
    ensures other { IfErr result IsOverOrMemory }
{
    let mut workspace = game.workspace();
    let mut lent = place.try_clone()?;
    let found = game.find_move(&mut lent, &mut workspace)?;
    Ok(found.is_none())
}

/// The place after the move of these pairs, or None if the move is not legal.
pub(crate) fn try_move(
    game: &PlayedGame,
    place: &Place,
    pairs: &Move,
) -> Result<Option<Place>, LineFault>
    requires { IsPlaceOf game.now place.now }
    ensures legal { IfOk result (λ after. IfSome after (Legal game.now place.now pairs.now)) }
    ensures in_game { IfOk result (λ after. IfSome after (IsPlaceOf game.now)) }
    ensures illegal { IfOk result (λ after.
        IfNone after ((to : AbstractPlace) → ¬ Legal game.now place.now pairs.now to)) }
    ensures heavy { result ≡ Err LineFault.Over → IsHeavyToTry game.now place.now pairs.now }
    ensures other { IfErr result IsOverOrMemory }
{
    let mut workspace = game.workspace();
    Ok(game.try_move(place, pairs, &mut workspace)?)
}

fn are_same(one: &[u64], other: &[u64]) -> bool
    ensures { IsTrue result ↔ (one.now ≡ other.now) }
{
    one == other
}
