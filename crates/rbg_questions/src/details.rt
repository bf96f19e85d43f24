//! The lines that tell how long matches were, how much there was to choose from, who had the best score, and which seeds show
//! how they ended.

use crate::answer_writer::put_scores;
use crate::survey::Survey;
use crate::tally::{Ending, EndingTally};
use rbg_base::{Memory, Player};
use rbg_rules::Game;
use rbg_wire::{put_number, write_number};

/// Appends the lines of so many matches: the least, the mean and the greatest number of moves; how many moves there were to
/// choose from, in the mean; in how many finished matches each player alone had the best score; in how many several had; and
/// the seed of the first match of each way of ending.
pub fn put_details(
    game: &Game,
    count: u64,
    tallies: &[EndingTally],
    survey: &Survey,
    out: &mut Vec<u8>,
) -> Result<(), Memory> {
    let moves = moves_in(tallies);
    put_lengths(moves, count, survey, out)?;
    out.extend_from_slice(b"branching ")?;
    put_mean(survey.chosen.choices, moves, out)?;
    out.extend_from_slice(b"\n")?;
    put_best(game, tallies, out)?;
    put_seeds(tallies, &survey.seeds, out)
}

/// Appends the line of the numbers of moves.
fn put_lengths(moves: u64, count: u64, survey: &Survey, out: &mut Vec<u8>) -> Result<(), Memory> {
    put_number(b"length ", survey.least, out)?;
    out.extend_from_slice(b" ")?;
    put_mean(moves, count, out)?;
    put_number(b" ", survey.greatest, out)?;
    out.extend_from_slice(b"\n")
}

/// Appends the lines of the best scores.
fn put_best(game: &Game, tallies: &[EndingTally], out: &mut Vec<u8>) -> Result<(), Memory> {
    for index in 0..game.players() {
        let name = game.player_name(index as Player + 1);
        put_best_of(name, best_in(index, tallies), out)?;
    }
    put_number(b"draws ", draws_in(tallies), out)?;
    out.extend_from_slice(b"\n")
}

fn put_best_of(name: &str, matches: u64, out: &mut Vec<u8>) -> Result<(), Memory> {
    out.extend_from_slice(b"best ")?;
    out.extend_from_slice(name.as_bytes())?;
    put_number(b" ", matches, out)?;
    out.extend_from_slice(b"\n")
}

/// Appends the line of the seed of the first match of each way of ending.
fn put_seeds(tallies: &[EndingTally], seeds: &[u64], out: &mut Vec<u8>) -> Result<(), Memory> {
    for (index, tally) in tallies.iter().enumerate() {
        if let Some(seed) = seeds.get(index) {
            put_seed(*seed, &tally.ending, out)?;
        }
    }
    Ok(())
}

fn put_seed(seed: u64, ending: &Ending, out: &mut Vec<u8>) -> Result<(), Memory> {
    put_number(b"seed ", seed, out)?;
    match ending {
        Ending::Finished { scores } => put_scores(scores.as_slice(), out)?,
        Ending::Stopped => out.extend_from_slice(b" -")?,
    }
    out.extend_from_slice(b"\n")
}

/// Appends a mean with two digits after the point, of which the rest is cut off, or `-` where there is none.
fn put_mean(total: u64, count: u64, out: &mut Vec<u8>) -> Result<(), Memory> {
    if count == 0 {
        return out.extend_from_slice(b"-");
    }
    let rest = u128::from(total % count) * 100 / u128::from(count);
    let hundredths = rest.min(99) as u64;
    write_number(total / count, out)?;
    out.extend_from_slice(b".")?;
    write_number(hundredths / 10, out)?;
    write_number(hundredths % 10, out)
}

/// How many moves the players made in all matches together.
fn moves_in(tallies: &[EndingTally]) -> u64 {
    let mut sum: u64 = 0;
    for tally in tallies {
        sum = sum.saturating_add(tally.moves);
    }
    sum
}

/// In how many matches a player alone had the best score. The players are numbered from 0.
fn best_in(player: usize, tallies: &[EndingTally]) -> u64 {
    let mut sum: u64 = 0;
    for tally in tallies {
        if is_best(player, &tally.ending) {
            sum = sum.saturating_add(tally.matches);
        }
    }
    sum
}

/// In how many matches several players had the best score.
fn draws_in(tallies: &[EndingTally]) -> u64 {
    let mut sum: u64 = 0;
    for tally in tallies {
        if is_draw(&tally.ending) {
            sum = sum.saturating_add(tally.matches);
        }
    }
    sum
}

fn is_best(player: usize, ending: &Ending) -> bool {
    match ending {
        Ending::Finished { scores } => alone_best(scores.as_slice()) == Some(player),
        Ending::Stopped => false,
    }
}

fn is_draw(ending: &Ending) -> bool {
    match ending {
        Ending::Finished { scores } => alone_best(scores.as_slice()).is_none(),
        Ending::Stopped => false,
    }
}

/// The index of the greatest number, if it stands once.
fn alone_best(scores: &[u64]) -> Option<usize> {
    let mut best = None;
    let mut most: u64 = 0;
    for (index, score) in scores.iter().enumerate() {
        if index == 0 || most < *score {
            best = Some(index);
            most = *score;
        } else if most == *score {
            best = None;
        }
    }
    best
}
