//! The questions that play asks of the rules.
ghost use Rattle.std.specs.Prelude.{◌≡◌, ◌⊎◌, length, IfErr, IfNone, IfOk, IfSome};
ghost use Rattle.rbg_base.specs.Move.{IsMoveLength};
ghost use Rattle.rbg_rules.specs.Meaning.{IsHeavyToFind, IsHeavyToTry, AbstractPlace, Finished, IsLegal, Legal, IsPlaceOf};
ghost use Rattle.rbg_wire.specs.Messages.{ArePairs};

use rbg_base::Pair;
use rbg_moves::{Move, Over, Place, PlayedGame, Workspace};

/// The pairs of a legal move at a place, short enough for a message. Returns None if play is finished. The workspace
/// may take them back. The search works on the place itself and restores it, also on an error.
pub(crate) fn find_pairs(
    game: &PlayedGame,
    place: &mut Place,
    workspace: &mut Workspace,
) -> Result<Option<Vec<Pair>>, Over>
    requires place { IsPlaceOf game.now place.old }
    ensures kept { place.new ≡ place.old }
    ensures found { IfOk result (λ found.
        IfSome found (λ pairs. IsLegal game.now place.old pairs.items)) }
    ensures spelled { IfOk result (λ found. IfSome found (λ pairs. ArePairs pairs.items)) }
    ensures length { IfOk result (λ found.
        IfSome found (λ pairs. IsMoveLength (length pairs.items))) }
    ensures finished { IfOk result (λ found. IfNone found (Finished game.now place.old)) }
    ensures heavy { IfErr result (λ over. (over ≡ Over.Deep) ⊎ (over ≡ Over.Wide)
        → IsHeavyToFind game.now place.old) }
{
    game.is_accepted();
    game.find_move(place, workspace)
}

/// The place after the move of these pairs, or None if the move is not legal.
pub(crate) fn try_move(
    game: &PlayedGame,
    place: &Place,
    pairs: &Move,
    workspace: &mut Workspace,
) -> Result<Option<Place>, Over>
    requires place { IsPlaceOf game.now place.now }
    ensures legal { IfOk result (λ after. IfSome after (Legal game.now place.now pairs.now)) }
    ensures in_game { IfOk result (λ after. IfSome after (IsPlaceOf game.now)) }
    ensures illegal { IfOk result (λ after.
        IfNone after ((to : AbstractPlace) → ¬ Legal game.now place.now pairs.now to)) }
    ensures heavy { IfErr result (λ over. (over ≡ Over.Deep) ⊎ (over ≡ Over.Wide)
        → IsHeavyToTry game.now place.now pairs.now) }
{
    game.try_move(place, pairs, workspace)
}
