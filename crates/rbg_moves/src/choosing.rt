//! A legal move that is chosen by chance.
ghost use Rattle.std.specs.Prelude.{◌≡◌, ◌<◌, length, IfNone, IfOk, IfSome};
ghost use Rattle.rbg_base.specs.Move.{IsMoveLength};
ghost use Rattle.rbg_rules.specs.Meaning.{Finished, IsLegal, IsPlaceOf, list_moves as listing_moves};
ghost use Rattle.rbg_moves.specs.Answers.{GivesUp};

use crate::place::Place;
use crate::played::PlayedGame;
use crate::workspace::Workspace;
use rand_core::Rng;
use rand_pcg::Pcg32;
use rbg_search::Over;

/// How a move was chosen by chance.
#[derive(Clone, Copy, Debug, PartialEq, Eq, Drop)]
pub enum Choice {
    /// It was drawn, without a list of all.
    Drawn,
    /// It is one of a list of all, which has so many.
    Listed(usize),
}

impl PlayedGame {
    /// Chooses a legal move by chance, each with the same chances; none where play is finished. Its pairs are then lent by
    /// `Workspace::chosen`.
    ///
    /// In a game that was weighed it is drawn, where that can be done: see `draw_move`. Else all legal moves are listed. The
    /// same numbers of the generator choose the same move.
    pub fn choose_move(
        &self,
        place: &mut Place,
        chance: &mut Pcg32,
        workspace: &mut Workspace,
    ) -> Result<Option<Choice>, Over>
        requires { IsPlaceOf self.now place.old }
        ensures legal { IfOk result (λ choice.
            IfSome choice (λ _. IsLegal self.now place.old workspace.new.front.items)) }
        ensures sized { IfOk result (λ choice.
            IfSome choice (λ _. IsMoveLength (length workspace.new.front.items))) }
        ensures finished { IfOk result (λ choice. IfNone choice (Finished self.now place.old)) }
        ensures given_up { GivesUp self.now listing_moves place.old result }
        ensures kept { place.new ≡ place.old }
    {
        if self.draw_move(place, chance, workspace)? {
            return Ok(Some(Choice::Drawn));
        }
        let gathered = self.gather_moves(place, usize::MAX, workspace)?;
        let moves = gathered.moves;
        let count = moves.len();
        if count == 0 {
            workspace.keep_moves(moves);
            return Ok(None);
        }
        let index = below(count, chance);
        let copied = workspace.choose(moves.get(index));
        workspace.keep_moves(moves);
        copied?;
        Ok(Some(Choice::Listed(count)))
    }
}

/// A number below another one, by chance.
fn below(count: usize, chance: &mut Pcg32) -> usize
    requires { 0 < count }
    ensures { result < count }
{
    (chance.next_u64() % count as u64) as usize
}
