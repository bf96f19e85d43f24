//! Sums over all the matches that were counted.
ghost use Rattle.std.specs.Prelude.{◌≡◌, ◌*◌, ◌≤◌, get_or, map};
ghost use Rattle.rbg_questions.specs.Chance.{counted_by, scores_of};
ghost use Rattle.rbg_questions.specs.Summary.{finished_in, score_of, total_of};
ghost use Rattle.rbg_questions.specs.internal.Counts.{number_in, sum_in};
ghost use Rattle.rbg_questions.specs.internal.Bounds.{AreFew, highest};

use crate::tally::{Ending, EndingTally};

/// What is counted of the matches that a tally holds.
#[derive(Clone, Copy)]
pub(crate) enum Counting {
    Moves,
    Finished,
    Stopped,
}

/// How many there are in all matches together.
pub(crate) fn sum_of(counting: Counting, tallies: &[EndingTally]) -> u64
    requires { AreFew tallies.now }
    ensures { result ≡ sum_in counting (map counted_by tallies.now) }
{
    let mut sum: u64 = 0;
    for tally in tallies {
        sum += number_in(counting, tally);
    }
    sum
}

fn number_in(counting: Counting, tally: &EndingTally) -> u64
    ensures { result ≡ number_in counting (counted_by tally.now) }
{
    match counting {
        Counting::Moves => tally.moves,
        Counting::Finished => match &tally.ending {
            Ending::Finished { .. } => tally.matches,
            Ending::Stopped => 0,
        },
        Counting::Stopped => match &tally.ending {
            Ending::Finished { .. } => 0,
            Ending::Stopped => tally.matches,
        },
    }
}

/// What a player scored in all matches together. The players are numbered from 0.
pub(crate) fn add_scores(player: usize, tallies: &[EndingTally]) -> u128
    requires { AreFew tallies.now }
    ensures total { result ≡ total_of player (map counted_by tallies.now) }
    ensures small { result ≤ highest * finished_in (map counted_by tallies.now) }
{
    let mut total: u128 = 0;
    for tally in tallies {
        let score = score_by(player, &tally.ending);
        total += u128::from(score) * u128::from(tally.matches);
    }
    total
}

/// What a player scores at an ending.
fn score_by(player: usize, ending: &Ending) -> u64
    ensures { result ≡ score_of player (scores_of ending.now) }
{
    match ending {
        Ending::Finished { scores } => number_at(player, scores.as_slice()),
        Ending::Stopped => 0,
    }
}

/// The number at an index, or 0.
fn number_at(index: usize, numbers: &[u64]) -> u64
    ensures { result ≡ get_or numbers.now index 0 }
{
    if index < numbers.len() {
        numbers[index]
    } else {
        0
    }
}
