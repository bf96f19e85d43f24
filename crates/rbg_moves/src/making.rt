//! Moves that are known to be legal.
ghost use Rattle.std.specs.Prelude.{◌≡◌, IfOk, OnOk, OnErr};
ghost use Rattle.rbg_rules.specs.Meaning.{Legal, IsLegal, IsPlaceOf};
ghost use Rattle.rbg_state.specs.History.{IsAfter};

use crate::place::Place;
use crate::stepping::apply_at;
use rbg_base::{Memory, Pair, Position};
use rbg_rules::Game;
use rbg_state::SemiState;

/// Makes the move of these pairs, which is legal, in place. Its changes stay on the list of the place's semi-state. Where
/// memory is refused, the place stays as it is.
pub(crate) fn make_pairs(game: &Game, place: &mut Place, pairs: &[Pair]) -> Result<(), Memory>
    requires place { IsPlaceOf game.now place.old }
    requires legal { IsLegal game.now place.old pairs.now }
    ensures to { OnOk result (Legal game.now place.old pairs.now place.new) }
    ensures in_game { OnOk result (IsPlaceOf game.now place.new) }
    ensures refused { OnErr result (place.new ≡ place.old) }
{
    let mark = place.state.mark();
    match make_each(game, &mut place.state, place.after, pairs) {
        Ok(last) => {
            place.after = last;
            Ok(())
        }
        Err(memory) => {
            place.state.undo_to(mark);
            Err(memory)
        }
    }
}

/// Applies the pairs of a legal move one by one, and returns the position of the last one.
fn make_each(
    game: &Game,
    state: &mut SemiState,
    after: Option<Position>,
    pairs: &[Pair],
) -> Result<Option<Position>, Memory>
    requires place { IsPlaceOf game.now (record { state = state.old.state; last = after }) }
    requires legal { IsLegal game.now (record { state = state.old.state; last = after }) pairs.now }
    ensures to { IfOk result (λ last.
        Legal game.now (record { state = state.old.state; last = after }) pairs.now
        (record { state = state.new.state; last = last })) }
    ensures in_game { IfOk result (λ last.
        IsPlaceOf game.now (record { state = state.new.state; last = last })) }
    ensures after { OnErr result (IsAfter state.old state.new) }
{
    game.is_accepted();
    let mut after = after;
    for pair in pairs {
        state.reserve(2)?;
        apply_at(game, state, *pair);
        after = Some(pair.position);
    }
    Ok(after)
}
