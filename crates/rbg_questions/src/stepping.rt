//! From one place of a session to the next, and how play stands there.
ghost use Rattle.std.specs.Prelude.{◌≡◌, ◌<◌, ◌^◌, length, IfErr, IfOk, OnOk};
ghost use Rattle.rbg_rules.specs.Meaning.{IsLegal, IsPlaceOf, Legal, list_moves, try_move};
ghost use Rattle.rbg_moves.specs.Limits.{FitsLimits};
ghost use Rattle.rbg_moves.specs.Listing.{IsGathered};
ghost use Rattle.rbg_questions.specs.Answers.{standing_answer};
ghost use Rattle.rbg_questions.specs.Answering.{HasMoves, StandsAt};
ghost use Rattle.rbg_questions.specs.Sessions.{Leads};
ghost use Rattle.rbg_questions.specs.Places.{IsAnswered, IsStopped, IsUnfollowed, IsUnlisted, IsUnmade, IsUntold};

use crate::play_standing::PlayStanding;
use crate::question_error::QuestionError;
use rbg_base::{Move, MoveList, Pair, Piece};
use rbg_moves::{GamePlace, Gathered, Place, Workspace};
use rbg_state::LentState;

/// The place to which a move leads with the keeper's moves after it.
pub fn lead(
    from: &GamePlace<'_>,
    pairs: &Move,
    workspace: &mut Workspace,
) -> Result<Place, QuestionError>
    ensures leads { IfOk result (Leads from.now.game from.now.place pairs.now) }
    ensures in_game { IfOk result (IsPlaceOf from.now.game) }
    ensures answered { OnOk result (IsAnswered from.now.game (try_move pairs.now) from.now.place) }
    ensures unmade { IfErr result (IsUnmade from.now.game from.now.place pairs.now) }
{
    let mut to = follow(from, pairs, workspace)?;
    from.played().settle(&mut to, workspace)?;
    Ok(to)
}

/// The place to which a move leads, with no move of the keeper after it.
pub fn follow(
    from: &GamePlace<'_>,
    pairs: &Move,
    workspace: &mut Workspace,
) -> Result<Place, QuestionError>
    ensures legal { IfOk result (Legal from.now.game from.now.place pairs.now) }
    ensures in_game { IfOk result (IsPlaceOf from.now.game) }
    ensures answered { OnOk result (IsAnswered from.now.game (try_move pairs.now) from.now.place) }
    ensures unfollowed { IfErr result (IsUnfollowed from.now.game from.now.place pairs.now) }
{
    let Some(to) = from.try_move(pairs, workspace)? else {
        return Err(QuestionError::Illegal);
    };
    Ok(to)
}

/// As `lead`, of a move that is known to be legal. Only moves of the keeper are searched for.
pub fn step(
    from: &GamePlace<'_>,
    pairs: &[Pair],
    workspace: &mut Workspace,
) -> Result<Place, QuestionError>
    requires { IsLegal from.now.game from.now.place pairs.now }
    ensures leads { IfOk result (Leads from.now.game from.now.place pairs.now) }
    ensures in_game { IfOk result (IsPlaceOf from.now.game) }
    ensures stopped { IfErr result (IsStopped from.now.game from.now.place pairs.now) }
{
    let mut to = workspace.copy_of(from.place())?;
    let game = from.played();
    game.make_move(&mut to, pairs)?;
    game.settle(&mut to, workspace)?;
    Ok(to)
}

/// For proofs alone: no list in memory is so long that it is cut at the greatest length. It does nothing.
#[inline(always)]
pub(crate) fn is_in_memory(moves: &MoveList)
    ensures { length moves.now < 2 ^ 63 }
{
    let _count = moves.len();
}

/// The legal moves of a place, at most `max` of them, in a list that `Workspace::keep_moves` takes back.
pub fn moves_at(
    at: &GamePlace<'_>,
    max: usize,
    workspace: &mut Workspace,
) -> Result<Gathered, QuestionError>
    requires { 0 < max }
    ensures gathered { IfOk result (λ gathered.
        IsGathered at.now.game at.now.place max gathered.moves gathered.cut) }
    ensures answered { IfOk result (λ gathered.
        FitsLimits at.now.game gathered.cut list_moves at.now.place) }
    ensures unlisted { IfErr result (IsUnlisted at.now.game at.now.place) }
{
    let mut lent = workspace.copy_of(at.place())?;
    let gathered = at.played().gather_moves(&mut lent, max, workspace)?;
    workspace.keep(lent);
    Ok(gathered)
}

/// How many legal moves a place has.
pub(crate) fn count_at(at: &GamePlace<'_>, workspace: &mut Workspace) -> Result<u64, QuestionError>
    ensures count { IfOk result (HasMoves at.now.game at.now.place) }
    ensures unlisted { IfErr result (IsUnlisted at.now.game at.now.place) }
{
    let gathered = moves_at(at, usize::MAX, workspace)?;
    let count = gathered.moves.len() as u64;
    workspace.keep_moves(gathered.moves);
    Ok(count)
}

/// How play stands at a place that has so many legal moves.
pub(crate) fn standing_of(at: &GamePlace<'_>, count: u64) -> PlayStanding
    requires { HasMoves at.now.game at.now.place count }
    ensures { StandsAt at.now.game at.now.place (standing_answer result) }
{
    if count == 0 {
        return PlayStanding::Finished {
            scores: at.scores(),
        };
    }
    PlayStanding::ToMove {
        player: at.player(),
    }
}

/// How play stands at a place.
pub(crate) fn standing_at(
    at: &GamePlace<'_>,
    workspace: &mut Workspace,
) -> Result<PlayStanding, QuestionError>
    ensures stands { IfOk result (λ standing.
        StandsAt at.now.game at.now.place (standing_answer standing)) }
    ensures untold { IfErr result (IsUntold at.now.game at.now.place) }
{
    let mut lent = workspace.copy_of(at.place())?;
    let found = at.played().find_move(&mut lent, workspace)?;
    workspace.keep(lent);
    match found {
        Some(pairs) => {
            workspace.keep_pairs(pairs);
            Ok(PlayStanding::ToMove {
                player: at.player(),
            })
        }
        None => Ok(PlayStanding::Finished {
            scores: at.scores(),
        }),
    }
}

/// What stands on the vertices at a place.
pub(crate) fn pieces_at(place: &Place) -> &[Piece]
    ensures { result.now ≡ place.now.state.pieces }
{
    place.state.pieces()
}

/// What the variables hold at a place.
pub(crate) fn values_at(place: &Place) -> &[u32]
    ensures { result.now ≡ place.now.state.values }
{
    let LentState {
        player: _,
        vertex: _,
        pieces: _,
        values,
    } = place.state.lend();
    values
}
