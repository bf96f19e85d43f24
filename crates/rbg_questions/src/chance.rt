//! Matches that are played by chance.
ghost use Rattle.std.specs.Prelude.{IfErr, IfOk, OnOk, map};
ghost use Rattle.rbg_rules.specs.Meaning.{IsPlaceOf};
ghost use Rattle.rbg_questions.specs.Chance.{AreTallied, IsUnmoved, IsUnplayed, counted_by, scores_of};
ghost use Rattle.rbg_questions.specs.Limits.{IsCount};
ghost use Rattle.rbg_questions.specs.internal.Moving.{IsPlayedTo, MovesOn};

use crate::chosen::Chosen;
use crate::draw::Draw;
use crate::question_error::QuestionError;
use crate::tally::{Ending, EndingTally, Played, count_in};
use rand_core::SeedableRng;
use rand_pcg::Pcg32;
use rbg_moves::{GamePlace, Place, PlayedGame, Workspace};
use std::alloc::Global;

/// The most moves of the players in a match that is played by chance.
pub const MAX_PLAYED: u32 = 10_000;

/// Plays so many matches by chance from a place, and counts how they end and their moves. A seed always gives the same
/// matches.
pub fn play_matches(
    alloc: Global,
    from: &GamePlace<'_>,
    draw: Draw,
    workspace: &mut Workspace,
) -> Result<Vec<EndingTally>, QuestionError>
    requires { IsCount draw.count }
    ensures tallied { IfOk result (λ tallies.
        AreTallied from.now.game from.now.place draw.count (map counted_by tallies.items)) }
    ensures unplayed { IfErr result (IsUnplayed from.now.game from.now.place) }
{
    let mut chance = Pcg32::seed_from_u64(draw.seed);
    let mut chosen = Chosen::counted();
    let mut tallies = Vec::new(alloc);
    for _ in 0..draw.count {
        let played = play_match(from, &mut chance, &mut chosen, workspace)?;
        count_in(played, &mut tallies)?;
    }
    Ok(tallies)
}

/// Plays a match by chance from a place, and adds what is chosen. A seed always gives the same match, the first one of
/// `play_matches`.
pub(crate) fn play_seeded(
    from: &GamePlace<'_>,
    seed: u64,
    chosen: &mut Chosen,
    workspace: &mut Workspace,
) -> Result<Played, QuestionError>
    ensures ends { IfOk result (λ played.
        IsPlayedTo from.now.game from.now.place (scores_of played.ending) played.moves) }
    ensures unplayed { IfErr result (IsUnplayed from.now.game from.now.place) }
{
    let mut chance = Pcg32::seed_from_u64(seed);
    play_match(from, &mut chance, chosen, workspace)
}

/// Plays a match by chance from a place.
fn play_match(
    from: &GamePlace<'_>,
    chance: &mut Pcg32,
    chosen: &mut Chosen,
    workspace: &mut Workspace,
) -> Result<Played, QuestionError>
    ensures ends { IfOk result (λ played.
        IsPlayedTo from.now.game from.now.place (scores_of played.ending) played.moves) }
    ensures unplayed { IfErr result (IsUnplayed from.now.game from.now.place) }
{
    let game = from.played();
    let mut at = workspace.copy_of(from.place())?;
    for moves in 0..MAX_PLAYED {
        if !move_on(game, &mut at, chance, chosen, workspace)? {
            let scores = game.scores(&at);
            workspace.keep(at);
            return Ok(Played {
                ending: Ending::Finished { scores },
                moves: u64::from(moves),
            });
        }
    }
    workspace.keep(at);
    Ok(Played {
        ending: Ending::Stopped,
        moves: u64::from(MAX_PLAYED),
    })
}

/// Makes a move by chance, and the keeper's moves after it. False where there is no legal move.
fn move_on(
    game: &PlayedGame,
    place: &mut Place,
    chance: &mut Pcg32,
    chosen: &mut Chosen,
    workspace: &mut Workspace,
) -> Result<bool, QuestionError>
    requires { IsPlaceOf game.now place.old }
    ensures moves { IfOk result (λ moved. MovesOn game.now place.old moved place.new) }
    ensures in_game { OnOk result (IsPlaceOf game.now place.new) }
    ensures unmoved { IfErr result (IsUnmoved game.now place.old) }
{
    let Some(choice) = game.choose_move(place, chance, workspace)? else {
        return Ok(false);
    };
    game.make_move(place, workspace.chosen())?;
    chosen.add(choice, workspace.chosen())?;
    game.settle(place, workspace)?;
    Ok(true)
}
