//! What is told of matches, at the end of a list of bytes.
ghost use Rattle.std.specs.Prelude.{◌≡◌, ◌*◌, ◌++◌, ◌/◌, ◌<◌, ◌≤◌, codes, decimal, length, map};
ghost use Rattle.std.specs.List.{flat_map};
ghost use Rattle.rbg_wire.specs.Lines.{line_of};
ghost use Rattle.rbg_wire.specs.Writing.{Appends};
ghost use Rattle.rbg_questions.specs.Answers.{numbers_text};
ghost use Rattle.rbg_questions.specs.Chance.{counted_by, scores_of};
ghost use Rattle.rbg_questions.specs.Limits.{most_counted};
ghost use Rattle.rbg_questions.specs.Summary.{ended_line, finished_in, hundredths_text, mean_line, mean_lines, mean_text, number_line, summary_text, total_of};
ghost use Rattle.rbg_questions.specs.internal.Bounds.{AreFew, highest};

use crate::answer_writer::put_scores;
use crate::sums::{Counting, add_scores, sum_of};
use crate::tally::{Ending, EndingTally};
use rbg_base::{Memory, Player};
use rbg_rules::Game;
use rbg_wire::write_number;

/// Appends the lines of so many matches.
#[tactic(auto, unfolding(crate::specs::Summary::summary_text))]
pub(crate) fn put_summary(
    game: &Game,
    count: u64,
    tallies: &[EndingTally],
    out: &mut Vec<u8>,
) -> Result<(), Memory>
    requires { AreFew tallies.now }
    ensures { Appends out.old.items out.new.items
        (summary_text game.now.players count (map counted_by tallies.now)) result }
{
    put_number_line(b"matches ", count, out)?;
    put_number_line(b"moves ", sum_of(Counting::Moves, tallies), out)?;
    put_means(game, tallies, out)?;
    put_endings(tallies, out)?;
    put_number_line(b"stopped ", sum_of(Counting::Stopped, tallies), out)
}

/// Appends a line of a head and a number.
fn put_number_line(head: &[u8], number: u64, out: &mut Vec<u8>) -> Result<(), Memory>
    ensures { Appends out.old.items out.new.items (number_line head.now number) result }
{
    out.extend_from_slice(head)?;
    write_number(number, out)?;
    out.extend_from_slice(b"\n")
}

/// Appends the mean score of each player.
fn put_means(game: &Game, tallies: &[EndingTally], out: &mut Vec<u8>) -> Result<(), Memory>
    requires { AreFew tallies.now }
    ensures { Appends out.old.items out.new.items
        (mean_lines game.now.players (map counted_by tallies.now) (length game.now.players))
        result }
{
    for index in 0..game.players() {
        let name = game.player_name(index as Player + 1);
        put_mean_of(index, name, tallies, out)?;
    }
    Ok(())
}

/// Appends the line of a player's mean score over the matches that were finished. The players are numbered from 0.
fn put_mean_of(
    player: usize,
    name: &str,
    tallies: &[EndingTally],
    out: &mut Vec<u8>,
) -> Result<(), Memory>
    requires { AreFew tallies.now }
    ensures { Appends out.old.items out.new.items
        (mean_line name.now (total_of player (map counted_by tallies.now))
        (finished_in (map counted_by tallies.now))) result }
{
    let total = add_scores(player, tallies);
    let finished = sum_of(Counting::Finished, tallies);
    put_mean_line(name, total, finished, out)
}

/// Appends the line of a mean.
fn put_mean_line(name: &str, total: u128, finished: u64, out: &mut Vec<u8>) -> Result<(), Memory>
    requires few { finished ≤ most_counted }
    requires small { total ≤ highest * finished }
    ensures { Appends out.old.items out.new.items (mean_line name.now total finished) result }
{
    out.extend_from_slice(b"mean ")?;
    out.extend_from_slice(name.as_bytes())?;
    out.extend_from_slice(b" ")?;
    put_mean(total, finished, out)?;
    out.extend_from_slice(b"\n")
}

/// Appends the mean of a total over so many matches.
pub(crate) fn put_mean(total: u128, finished: u64, out: &mut Vec<u8>) -> Result<(), Memory>
    requires few { finished ≤ most_counted }
    requires small { total ≤ highest * finished }
    ensures { Appends out.old.items out.new.items (mean_text total finished) result }
{
    if finished == 0 {
        out.extend_from_slice(b"-")
    } else {
        put_hundredths(mean_in_hundredths(total, finished), out)
    }
}

/// The mean of a total over so many matches, in hundredths. The rest is cut off.
fn mean_in_hundredths(total: u128, finished: u64) -> u128
    requires some { 0 < finished }
    requires few { finished ≤ most_counted }
    requires small { total ≤ highest * finished }
    ensures mean { result ≡ total * 100 / finished }
    ensures small { result ≤ highest * 100 }
{
    total * 100 / u128::from(finished)
}

/// Appends hundredths as a number with two digits after a point.
fn put_hundredths(hundredths: u128, out: &mut Vec<u8>) -> Result<(), Memory>
    requires { hundredths ≤ highest * 100 }
    ensures { Appends out.old.items out.new.items (hundredths_text hundredths) result }
{
    write_number((hundredths / 100) as u64, out)?;
    out.extend_from_slice(b".")?;
    write_number((hundredths % 100 / 10) as u64, out)?;
    write_number((hundredths % 10) as u64, out)
}

/// Appends a line for each way in which matches were finished, in the order in which they were first met.
fn put_endings(tallies: &[EndingTally], out: &mut Vec<u8>) -> Result<(), Memory>
    ensures { Appends out.old.items out.new.items
        (flat_map (λ one. ended_line one.scores one.matches) (map counted_by tallies.now))
        result }
{
    for tally in tallies {
        put_ending(tally, out)?;
    }
    Ok(())
}

fn put_ending(tally: &EndingTally, out: &mut Vec<u8>) -> Result<(), Memory>
    ensures { Appends out.old.items out.new.items
        (ended_line (scores_of tally.now.ending) tally.now.matches) result }
{
    match &tally.ending {
        Ending::Finished { scores } => put_ended(tally.matches, scores.as_slice(), out),
        Ending::Stopped => Ok(()),
    }
}

fn put_ended(matches: u64, scores: &[u64], out: &mut Vec<u8>) -> Result<(), Memory>
    ensures { Appends out.old.items out.new.items
        (line_of (codes "ended " ++ decimal matches ++ numbers_text scores.now)) result }
{
    out.extend_from_slice(b"ended ")?;
    write_number(matches, out)?;
    put_scores(scores, out)?;
    out.extend_from_slice(b"\n")
}
