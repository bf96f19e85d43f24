//! Matches that are played by chance after each legal move of a place.
ghost use Rattle.std.specs.Prelude.{◌≡◌, ◌*◌, ◌≤◌, ◌++◌, All, IfErr, OnErr, OnOk, codes, length, map, take};
ghost use Rattle.rbg_rules.specs.Meaning.{IsLegal};
ghost use Rattle.rbg_wire.specs.Writing.{Appends};
ghost use Rattle.rbg_questions.specs.Chance.{counted_by};
ghost use Rattle.rbg_questions.specs.Places.{AreLegalMoves};
ghost use Rattle.rbg_questions.specs.Limits.{IsCount, most_counted};
ghost use Rattle.rbg_questions.specs.Searching.{IsUnsearched, means_text, searched_line};
ghost use Rattle.rbg_questions.specs.Summary.{finished_in, mean_text, total_of};
ghost use Rattle.rbg_questions.specs.internal.Bounds.{AreFew, highest};
ghost use Rattle.rbg_questions.specs.internal.Searching.{WritesMoves, WritesOne, WritesSearch};

use crate::answer_writer::put_head;
use crate::chance::play_matches;
use crate::draw::Draw;
use crate::ordering::in_order;
use crate::question_error::QuestionError;
use crate::stepping::{is_in_memory, moves_at, step};
use crate::summary_writer::put_mean;
use crate::sums::{Counting, add_scores, sum_of};
use crate::tally::EndingTally;
use rbg_base::{Memory, MoveList, Pair};
use rbg_moves::{GamePlace, Workspace};
use rbg_rules::Game;
use rbg_wire::{write_number, write_pairs};

/// Plays so many matches by chance after each legal move of a place, and appends the lines that tell how they ended. The
/// matches after each move begin chance with the same seed. On an error the bytes are unchanged.
pub(crate) fn write_search(
    from: &GamePlace<'_>,
    draw: Draw,
    workspace: &mut Workspace,
    out: &mut Vec<u8>,
) -> Result<(), QuestionError>
    requires { IsCount draw.count }
    ensures searched { OnOk result (WritesSearch from.now.game from.now.place draw.count
        out.old.items out.new.items) }
    ensures unsearched { IfErr result (IsUnsearched from.now.game from.now.place) }
    ensures kept { OnErr result (out.new.items ≡ out.old.items) }
{
    let gathered = moves_at(from, usize::MAX, workspace)?;
    is_in_memory(&gathered.moves);
    let len = out.len();
    let written = put_search(from, draw, &gathered.moves, workspace, out);
    workspace.keep_moves(gathered.moves);
    if written.is_err() {
        out.truncate(len);
    }
    written
}

/// Plays matches after each of the moves, in their order.
fn put_search(
    from: &GamePlace<'_>,
    draw: Draw,
    moves: &MoveList,
    workspace: &mut Workspace,
    out: &mut Vec<u8>,
) -> Result<(), QuestionError>
    requires count { IsCount draw.count }
    requires moves { AreLegalMoves from.now.game from.now.place moves.now }
    ensures searched { OnOk result (WritesSearch from.now.game from.now.place
        draw.count out.old.items out.new.items) }
    ensures unsearched { IfErr result (IsUnsearched from.now.game from.now.place) }
    ensures kept { take (length out.old.items) out.new.items ≡ out.old.items }
{
    let ordered = in_order(*out.allocator(), moves)?;
    put_head(b"search ", ordered.len() as u64, out)?;
    put_moves(from, draw, ordered.as_slice(), workspace, out)
}

/// Plays matches after each of the moves, and appends a line for each.
fn put_moves(
    from: &GamePlace<'_>,
    draw: Draw,
    moves: &[&[Pair]],
    workspace: &mut Workspace,
    out: &mut Vec<u8>,
) -> Result<(), QuestionError>
    requires count { IsCount draw.count }
    requires legal { All (λ m. IsLegal from.now.game from.now.place m.now)
        moves.now }
    ensures searched { OnOk result (WritesMoves from.now.game from.now.place
        draw.count (map (λ m. m.now) moves.now) out.old.items out.new.items) }
    ensures unsearched { IfErr result (IsUnsearched from.now.game from.now.place) }
    ensures kept { take (length out.old.items) out.new.items ≡ out.old.items }
{
    for pairs in moves {
        put_one(from, draw, pairs, workspace, out)?;
    }
    Ok(())
}

/// Plays matches after a move, and appends its line.
fn put_one(
    from: &GamePlace<'_>,
    draw: Draw,
    pairs: &[Pair],
    workspace: &mut Workspace,
    out: &mut Vec<u8>,
) -> Result<(), QuestionError>
    requires count { IsCount draw.count }
    requires legal { IsLegal from.now.game from.now.place pairs.now }
    ensures searched { OnOk result (WritesOne from.now.game from.now.place
        draw.count pairs.now out.old.items out.new.items) }
    ensures unsearched { IfErr result (IsUnsearched from.now.game from.now.place) }
    ensures kept { take (length out.old.items) out.new.items ≡ out.old.items }
{
    let to = step(from, pairs, workspace)?;
    let there = GamePlace::new(from.played(), &to);
    let tallies = play_matches(*out.allocator(), &there, draw, workspace)?;
    workspace.keep(to);
    put_line(from.game(), tallies.as_slice(), pairs, out)?;
    Ok(())
}

/// Appends the line of a move.
fn put_line(
    game: &Game,
    tallies: &[EndingTally],
    pairs: &[Pair],
    out: &mut Vec<u8>,
) -> Result<(), Memory>
    requires { AreFew tallies.now }
    ensures { Appends out.old.items out.new.items (searched_line (length game.now.players)
        (record { pairs = pairs.now; counted = map counted_by tallies.now })) result }
{
    write_number(sum_of(Counting::Finished, tallies), out)?;
    put_means(game, tallies, out)?;
    out.extend_from_slice(b" ")?;
    write_pairs(pairs, out)?;
    out.extend_from_slice(b"\n")
}

/// Appends the mean score of each player.
fn put_means(game: &Game, tallies: &[EndingTally], out: &mut Vec<u8>) -> Result<(), Memory>
    requires { AreFew tallies.now }
    ensures { Appends out.old.items out.new.items
        (means_text (map counted_by tallies.now) (length game.now.players)) result }
{
    for index in 0..game.players() {
        put_mean_of(index, tallies, out)?;
    }
    Ok(())
}

/// Appends a player's mean score over the matches that were finished, with a space before it. The players are numbered
/// from 0.
fn put_mean_of(player: usize, tallies: &[EndingTally], out: &mut Vec<u8>) -> Result<(), Memory>
    requires { AreFew tallies.now }
    ensures { Appends out.old.items out.new.items
        (codes " " ++ mean_text (total_of player (map counted_by tallies.now))
        (finished_in (map counted_by tallies.now))) result }
{
    let total = add_scores(player, tallies);
    let finished = sum_of(Counting::Finished, tallies);
    put_spaced_mean(total, finished, out)
}

/// Appends a space and a mean.
fn put_spaced_mean(total: u128, finished: u64, out: &mut Vec<u8>) -> Result<(), Memory>
    requires few { finished ≤ most_counted }
    requires small { total ≤ highest * finished }
    ensures { Appends out.old.items out.new.items (codes " " ++ mean_text total finished) result }
{
    out.extend_from_slice(b" ")?;
    put_mean(total, finished, out)
}
