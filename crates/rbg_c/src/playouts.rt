//! Moves and matches by chance from a state.
ghost use Rattle.std.specs.Prelude.{◌≡◌, ◌++◌, None, IfErr, IfOk, OnOk, map};
ghost use Rattle.std.specs.List.{flat_map};
ghost use Rattle.rbg_questions.specs.Chance.{IsUnplayed, counted_by};
ghost use Rattle.rbg_questions.specs.Limits.{IsCount};
ghost use Rattle.rbg_c.specs.Playouts.{ArePlayed, IsNotPlayedOn, row_of};
ghost use Rattle.rbg_c.specs.States.{copy_of};
ghost use Rattle.rbg_c.specs.internal.ByChance.{IsPlayedOn, TellsOn};

use crate::state::State;
use rand_core::SeedableRng;
use rand_pcg::Pcg32;
use rbg_base::Memory;
use rbg_questions::{Draw, Ending, EndingTally, QuestionError};
use std::alloc::Global;

/// Plays so many matches by chance, and returns the rows of those that were finished.
pub(crate) fn play_rows(
    alloc: Global,
    state: &mut State,
    draw: Draw,
) -> Result<Vec<u64>, QuestionError>
    requires { IsCount draw.count }
    ensures played { IfOk result (λ rows.
        ArePlayed state.old.game state.old.place draw.count rows.items) }
    ensures unplayed { IfErr result (IsUnplayed state.old.game state.old.place) }
    ensures kept { state.new ≡ state.old }
{
    let tallies = state.play_matches(draw)?;
    let rows = rows_of(alloc, tallies.as_slice())?;
    Ok(rows)
}

/// The rows of matches that were counted.
fn rows_of(alloc: Global, tallies: &[EndingTally]) -> Result<Vec<u64>, Memory>
    ensures { IfOk result (λ rows.
        rows.items ≡ flat_map row_of (map counted_by tallies.now)) }
{
    let mut rows = Vec::new(alloc);
    for tally in tallies {
        push_row(tally, &mut rows)?;
    }
    Ok(rows)
}

/// Appends the row of matches that ended alike.
fn push_row(tally: &EndingTally, rows: &mut Vec<u64>) -> Result<(), Memory>
    ensures { OnOk result (rows.new.items ≡ rows.old.items ++ row_of (counted_by tally.now)) }
{
    match &tally.ending {
        Ending::Finished { scores } => {
            rows.push(tally.matches)?;
            rows.extend_from_slice(scores.as_slice())?;
            Ok(())
        }
        Ending::Stopped => Ok(()),
    }
}

/// A copy of a state on which moves are made by chance, at most so many, until play is finished.
pub(crate) fn played_on(state: &State, draw: Draw) -> Result<State, QuestionError>
    ensures played { IfOk result (IsPlayedOn (copy_of state.now) draw.count) }
    ensures stuck { IfErr result (IsNotPlayedOn state.now.game state.now.place draw.count) }
{
    let mut copy = state.try_clone()?;
    play_on(&mut copy, draw)?;
    Ok(copy)
}

/// As `played_on`. The numbers of the moves are appended, as `rbg_moves` has them.
///
/// One seed gives both the same moves. This isn't proved, since no contract says which move chance chooses, nor which one the
/// keeper makes of several. It is so since both make their moves by `State::play_one`. clients/c/trial.c tries it: how many
/// moves there are, and where they lead.
pub(crate) fn sampled_on(
    state: &State,
    draw: Draw,
    numbers: &mut Vec<u32>,
) -> Result<State, QuestionError>
    ensures played { IfOk result (λ played.
        TellsOn (copy_of state.now) draw.count played numbers.old.items numbers.new.items) }
    ensures stuck { IfErr result (IsNotPlayedOn state.now.game state.now.place draw.count) }
{
    let mut copy = state.try_clone()?;
    sample_on(&mut copy, draw, numbers)?;
    Ok(copy)
}

/// Makes moves by chance, at most so many, until play is finished.
fn play_on(state: &mut State, draw: Draw) -> Result<(), QuestionError>
    requires { state.old.found ≡ None }
    ensures plays { OnOk result (IsPlayedOn state.old draw.count state.new) }
    ensures stuck { IfErr result (IsNotPlayedOn state.old.game state.old.place draw.count) }
{
    let mut chance = Pcg32::seed_from_u64(draw.seed);
    let mut numbers = Vec::new(state.allocator());
    for _ in 0..draw.count {
        numbers.clear();
        let made = state.play_one(&mut chance, &mut numbers)?;
        if !made {
            return Ok(());
        }
    }
    Ok(())
}

/// Makes moves by chance, at most so many, until play is finished, and appends their numbers.
fn sample_on(state: &mut State, draw: Draw, numbers: &mut Vec<u32>) -> Result<(), QuestionError>
    requires { state.old.found ≡ None }
    ensures plays { OnOk result
        (TellsOn state.old draw.count state.new numbers.old.items numbers.new.items) }
    ensures stuck { IfErr result (IsNotPlayedOn state.old.game state.old.place draw.count) }
{
    let mut chance = Pcg32::seed_from_u64(draw.seed);
    for _ in 0..draw.count {
        let made = state.play_one(&mut chance, numbers)?;
        if !made {
            return Ok(());
        }
    }
    Ok(())
}
