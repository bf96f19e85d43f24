//! The keeper's moves before a player's.
ghost use Rattle.std.specs.Prelude.{◌≡◌, ◌≢◌, ◌⊎◌, Err, IfOk, OnErr};
ghost use Rattle.rbg_rules.specs.Meaning.{IsHeavyToFind, IsPlaceOf};
ghost use Rattle.rbg_moves.specs.Settling.{IsEndless, MeetsHeavy, Settles, SomeKeeperMoves};

use crate::place::Place;
use crate::played::PlayedGame;
use crate::unsettled::Unsettled;
use crate::workspace::Workspace;

/// The most moves that the keeper makes in a row.
pub const MAX_KEEPER_MOVES: u32 = 1000;

impl PlayedGame {
    /// Leads a place, by moves of the keeper, to one where a player is to move or play is finished. Where there is no
    /// such place, some place of the game is left, to which moves of the keeper led: unless memory ran out, the one where
    /// the keeper is to move and isn't led on.
    pub fn settle(&self, place: &mut Place, workspace: &mut Workspace) -> Result<(), Unsettled>
        requires place { IsPlaceOf self.now place.old }
        ensures settles { IfOk result (λ _. Settles self.now place.old place.new) }
        ensures place { IsPlaceOf self.now place.new }
        ensures led { SomeKeeperMoves self.now place.old place.new }
        ensures heavy { result ≡ Err Unsettled.Heavy → MeetsHeavy self.now place.old }
        ensures endless { result ≡ Err Unsettled.Endless → IsEndless self.now place.old }
        ensures heavy_there { result ≡ Err Unsettled.Heavy → IsHeavyToFind self.now place.new }
        ensures keeper_there { (result ≡ Err Unsettled.Heavy) ⊎ (result ≡ Err Unsettled.Endless)
            → place.new.state.player ≡ 0 }
    {
        for _ in 0..MAX_KEEPER_MOVES {
            if place.state.player() != 0 {
                return Ok(());
            }
            if !self.find_front(place, workspace)? {
                return Ok(());
            }
            self.make_move(place, workspace.front.as_slice())?;
        }
        rest(place)
    }
}

/// Whether a player is to move.
fn rest(place: &Place) -> Result<(), Unsettled>
    ensures player { IfOk result (λ _. place.now.state.player ≢ 0) }
    ensures keeper { OnErr result (place.now.state.player ≡ 0) }
    ensures endless { OnErr result (result ≡ Err Unsettled.Endless) }
{
    if place.state.player() == 0 {
        return Err(Unsettled::Endless);
    }
    Ok(())
}
