//! Matches from the beginning of play.
ghost use Rattle.std.specs.Prelude.{IfErr, IfOk, map};
ghost use Rattle.rbg_questions.specs.Chance.{AreTallied, IsUnplayed, counted_by};
ghost use Rattle.rbg_questions.specs.Limits.{IsCount};
ghost use Rattle.rbg_questions.specs.Playing.{ArePlayouts, AreUnplayed, TellsPlayouts};

use crate::chance::play_seeded;
use crate::chosen::Chosen;
use crate::draw::Draw;
use crate::question_error::QuestionError;
use crate::summary_writer::put_summary;
use crate::survey::Survey;
use crate::tally::{EndingTally, count_in};
use rbg_moves::{GamePlace, PlayedGame, Workspace};
use std::alloc::Global;

/// Matches that were played by chance.
#[derive(Drop)]
pub struct Matches {
    /// What is told of them in lines.
    pub text: Vec<u8>,
    /// How they ended, in the order in which each way was first met.
    pub tallies: Vec<EndingTally>,
    /// What else was met.
    pub survey: Survey,
}

/// Plays so many matches by chance from where play begins, and tells of them in lines. The first one has this seed, and each
/// other one the next seed, so a match is played again by its seed alone.
pub fn playouts(
    alloc: Global,
    game: &PlayedGame,
    seed: u64,
    count: u64,
) -> Result<Matches, QuestionError>
    requires { IsCount count }
    ensures told { IfOk result (λ made. TellsPlayouts game.now count made.text.items) }
    ensures played { IfOk result (λ made.
        ArePlayouts game.now count (map counted_by made.tallies.items)) }
    ensures unplayed { IfErr result (AreUnplayed game.now) }
{
    let mut survey = Survey::new(alloc);
    let draw = Draw { seed, count };
    let tallies = play_from_start(alloc, game, draw, &mut survey)?;
    let mut text = Vec::new(alloc);
    put_summary(game.as_game(), count, tallies.as_slice(), &mut text)?;
    Ok(Matches {
        text,
        tallies,
        survey,
    })
}

/// Plays so many matches by chance from where play begins, and counts how they end.
fn play_from_start(
    alloc: Global,
    game: &PlayedGame,
    draw: Draw,
    survey: &mut Survey,
) -> Result<Vec<EndingTally>, QuestionError>
    requires { IsCount draw.count }
    ensures played { IfOk result (λ tallies.
        ArePlayouts game.now draw.count (map counted_by tallies.items)) }
    ensures unplayed { IfErr result (AreUnplayed game.now) }
{
    let mut workspace = Workspace::new(alloc);
    play_on(game, draw, survey, &mut workspace)
}

/// The same with a workspace that is lent.
fn play_on(
    game: &PlayedGame,
    draw: Draw,
    survey: &mut Survey,
    workspace: &mut Workspace,
) -> Result<Vec<EndingTally>, QuestionError>
    requires { IsCount draw.count }
    ensures played { IfOk result (λ tallies.
        ArePlayouts game.now draw.count (map counted_by tallies.items)) }
    ensures unplayed { IfErr result (AreUnplayed game.now) }
{
    let mut place = game.start()?;
    game.settle(&mut place, workspace)?;
    let from = GamePlace::new(game, &place);
    let tallies = play_all(&from, draw, survey, workspace)?;
    Ok(tallies)
}

/// Plays so many matches by chance from a place, and counts how they end.
fn play_all(
    from: &GamePlace<'_>,
    draw: Draw,
    survey: &mut Survey,
    workspace: &mut Workspace,
) -> Result<Vec<EndingTally>, QuestionError>
    requires { IsCount draw.count }
    ensures tallied { IfOk result (λ tallies.
        AreTallied from.now.game from.now.place draw.count (map counted_by tallies.items)) }
    ensures unplayed { IfErr result (IsUnplayed from.now.game from.now.place) }
{
    let mut tallies = Vec::new(*survey.seeds.allocator());
    let mut seeded = draw.seed;
    for _ in 0..draw.count {
        let played = play_seeded(from, seeded, &mut survey.chosen, workspace)?;
        survey.add(seeded, &played, tallies.as_slice())?;
        count_in(played, &mut tallies)?;
        seeded = seeded.wrapping_add(1);
    }
    Ok(tallies)
}

/// The moves of the match by chance from where play begins that has this seed: a line of pairs for each.
pub fn moves_of(alloc: Global, game: &PlayedGame, seed: u64) -> Result<Vec<u8>, QuestionError> {
    let mut chosen = Chosen::written(alloc);
    let mut workspace = Workspace::new(alloc);
    play_once(game, seed, &mut chosen, &mut workspace)?;
    Ok(chosen.lines.unwrap_or(Vec::new(alloc)))
}

fn play_once(
    game: &PlayedGame,
    seed: u64,
    chosen: &mut Chosen,
    workspace: &mut Workspace,
) -> Result<(), QuestionError> {
    let mut place = game.start()?;
    game.settle(&mut place, workspace)?;
    let from = GamePlace::new(game, &place);
    let _played = play_seeded(&from, seed, chosen, workspace)?;
    Ok(())
}
