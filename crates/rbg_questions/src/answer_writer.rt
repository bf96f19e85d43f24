//! The calls that write an answer or a refusal at the end of a list of bytes: the whole of it, or nothing.
ghost use Rattle.std.specs.Prelude.{◌++◌, codes, decimal, map};
ghost use Rattle.std.specs.List.{flat_map};
ghost use Rattle.rbg_wire.specs.Lines.{line_of};
ghost use Rattle.rbg_wire.specs.Messages.{pairs_text};
ghost use Rattle.rbg_wire.specs.Writing.{Appends, AppendsAll};
ghost use Rattle.rbg_questions.specs.Answers.{moves as moves_answer, state as state_answer, key as key_answer, values as values_answer, board as board_answer, by_chance, answer_text, counted_text, cut_text, ending_text, numbers_text, refusal_text, standing_answer};
ghost use Rattle.rbg_questions.specs.Chance.{counted_by, scores_of};

use crate::number_writer::{put_pairs, put_spaced};
use crate::play_standing::PlayStanding;
use crate::question_error::QuestionError;
use crate::tally::{Ending, EndingTally};
use rbg_base::{Memory, Pair, Piece};
use rbg_wire::{all_or_nothing, put_number, write_number};

/// Appends the lines of legal moves. On an error the bytes are unchanged.
pub fn write_moves(moves: &[&[Pair]], cut: bool, out: &mut Vec<u8>) -> Result<(), Memory>
    ensures { AppendsAll out.old.items out.new.items
        (answer_text (moves_answer (map (λ m. m.now) moves.now) cut)) result }
{
    let len = out.len();
    let written = put_moves(moves, cut, out);
    all_or_nothing(written, len, out)
}

/// Appends the line of how play stands. On an error the bytes are unchanged.
pub fn write_standing(standing: &PlayStanding, out: &mut Vec<u8>) -> Result<(), Memory>
    ensures { AppendsAll out.old.items out.new.items (answer_text (standing_answer standing.now)) result }
{
    let len = out.len();
    let written = put_standing(standing, out);
    all_or_nothing(written, len, out)
}

/// All that is told of a place.
#[derive(Drop)]
pub(crate) struct StateLines<'a> {
    /// How many legal moves it has.
    pub(crate) count: u64,
    pub(crate) key: u64,
    pub(crate) standing: &'a PlayStanding,
    pub(crate) pieces: &'a [Piece],
    pub(crate) values: &'a [u32],
}

/// Appends the lines of all that is told of a place. On an error the bytes are unchanged.
pub(crate) fn write_state(state: &StateLines, out: &mut Vec<u8>) -> Result<(), Memory>
    ensures { AppendsAll out.old.items out.new.items
        (answer_text (state_answer state.now.count state.now.key
        (standing_answer state.now.standing.now) state.now.pieces.now state.now.values.now))
        result }
{
    let len = out.len();
    let written = put_state(state, out);
    all_or_nothing(written, len, out)
}

/// Appends the line of a key. On an error the bytes are unchanged.
pub fn write_key(key: u64, out: &mut Vec<u8>) -> Result<(), Memory>
    ensures { AppendsAll out.old.items out.new.items (answer_text (key_answer key)) result }
{
    let len = out.len();
    let written = put_key(key, out);
    all_or_nothing(written, len, out)
}

/// Appends the line of what the variables hold. On an error the bytes are unchanged.
pub fn write_values(values: &[u32], out: &mut Vec<u8>) -> Result<(), Memory>
    ensures { AppendsAll out.old.items out.new.items
        (answer_text (values_answer values.now)) result }
{
    let len = out.len();
    let written = put_values(values, out);
    all_or_nothing(written, len, out)
}

/// Appends the line of the pieces on the vertices. On an error the bytes are unchanged.
pub fn write_board(pieces: &[Piece], out: &mut Vec<u8>) -> Result<(), Memory>
    ensures { AppendsAll out.old.items out.new.items
        (answer_text (board_answer pieces.now)) result }
{
    let len = out.len();
    let written = put_board(pieces, out);
    all_or_nothing(written, len, out)
}

/// Appends the lines of matches that were played by chance. On an error the bytes are unchanged.
pub fn write_matches(count: u64, tallies: &[EndingTally], out: &mut Vec<u8>) -> Result<(), Memory>
    ensures { AppendsAll out.old.items out.new.items
        (answer_text (by_chance count (map counted_by tallies.now))) result }
{
    let len = out.len();
    let written = put_matches(count, tallies, out);
    all_or_nothing(written, len, out)
}

/// Appends the lines of a match of so many moves, of which the lines are given, and of how play stands after them. On an
/// error the bytes are unchanged.
pub(crate) fn write_sampled(
    made: u64,
    lines: &[u8],
    standing: &PlayStanding,
    out: &mut Vec<u8>,
) -> Result<(), Memory>
    ensures { AppendsAll out.old.items out.new.items
        (line_of (codes "sample " ++ decimal made) ++ lines.now
        ++ answer_text (standing_answer standing.now)) result }
{
    let len = out.len();
    let written = put_sampled(made, lines, standing, out);
    all_or_nothing(written, len, out)
}

/// Appends the line of a refusal. On an error the bytes are unchanged.
#[tactic(auto, unfolding(crate::specs::Answers::refusal_text))]
pub fn write_refusal(refusal: QuestionError, out: &mut Vec<u8>) -> Result<(), Memory>
    ensures { AppendsAll out.old.items out.new.items (refusal_text refusal) result }
{
    match refusal {
        QuestionError::Long => out.extend_from_slice(b"error long\n"),
        QuestionError::Empty => out.extend_from_slice(b"error empty\n"),
        QuestionError::Return => out.extend_from_slice(b"error return\n"),
        QuestionError::Word => out.extend_from_slice(b"error word\n"),
        QuestionError::Form => out.extend_from_slice(b"error form\n"),
        QuestionError::Illegal => out.extend_from_slice(b"error illegal\n"),
        QuestionError::Start => out.extend_from_slice(b"error start\n"),
        QuestionError::NoPlace => out.extend_from_slice(b"error place\n"),
        QuestionError::Over => out.extend_from_slice(b"error over\n"),
        QuestionError::Keeper => out.extend_from_slice(b"error keeper\n"),
        QuestionError::Memory => out.extend_from_slice(b"error memory\n"),
    }
}

#[tactic(auto, unfolding(crate::specs::Answers::answer_text))]
fn put_moves(moves: &[&[Pair]], cut: bool, out: &mut Vec<u8>) -> Result<(), Memory>
    ensures { Appends out.old.items out.new.items
        (answer_text (moves_answer (map (λ m. m.now) moves.now) cut)) result }
{
    put_number(b"moves ", moves.len() as u64, out)?;
    put_cut(cut, out)?;
    put_move_lines(moves, out)
}

/// Ends the first line of legal moves.
fn put_cut(cut: bool, out: &mut Vec<u8>) -> Result<(), Memory>
    ensures { Appends out.old.items out.new.items (line_of (cut_text cut)) result }
{
    if cut {
        out.extend_from_slice(b" cut\n")
    } else {
        out.extend_from_slice(b"\n")
    }
}

fn put_move_lines(moves: &[&[Pair]], out: &mut Vec<u8>) -> Result<(), Memory>
    ensures { Appends out.old.items out.new.items (flat_map (λ pairs.
        line_of (pairs_text pairs)) (map (λ m. m.now) moves.now)) result }
{
    put_lent_lines(moves, out)
}

fn put_lent_lines(moves: &[&[Pair]], out: &mut Vec<u8>) -> Result<(), Memory>
    ensures { Appends out.old.items out.new.items (flat_map (λ m.
        line_of (pairs_text m.now)) moves.now) result }
{
    for pairs in moves {
        put_move_line(pairs, out)?;
    }
    Ok(())
}

pub(crate) fn put_move_line(pairs: &[Pair], out: &mut Vec<u8>) -> Result<(), Memory>
    ensures { Appends out.old.items out.new.items (line_of (pairs_text pairs.now)) result }
{
    put_pairs(pairs, out)?;
    out.extend_from_slice(b"\n")
}

#[tactic(auto, unfolding(crate::specs::Answers::answer_text))]
fn put_standing(standing: &PlayStanding, out: &mut Vec<u8>) -> Result<(), Memory>
    ensures { Appends out.old.items out.new.items
        (answer_text (standing_answer standing.now)) result }
{
    match standing {
        PlayStanding::ToMove { player } => {
            put_number(b"player ", u64::from(*player), out)?;
            out.extend_from_slice(b"\n")
        }
        PlayStanding::Finished { scores } => {
            out.extend_from_slice(b"finished")?;
            put_scores(scores.as_slice(), out)?;
            out.extend_from_slice(b"\n")
        }
    }
}

/// Appends each score, with a space before it.
pub fn put_scores(scores: &[u64], out: &mut Vec<u8>) -> Result<(), Memory>
    ensures { Appends out.old.items out.new.items (numbers_text scores.now) result }
{
    for score in scores {
        put_number(b" ", *score, out)?;
    }
    Ok(())
}

#[tactic(auto, unfolding(crate::specs::Answers::answer_text))]
fn put_state(state: &StateLines, out: &mut Vec<u8>) -> Result<(), Memory>
    ensures { Appends out.old.items out.new.items
        (answer_text (state_answer state.now.count state.now.key
        (standing_answer state.now.standing.now) state.now.pieces.now state.now.values.now))
        result }
{
    put_state_head(state.count, state.key, out)?;
    put_standing(state.standing, out)?;
    put_board(state.pieces, out)?;
    put_values(state.values, out)
}

/// Appends the first line of all that is told of a place.
fn put_state_head(count: u64, key: u64, out: &mut Vec<u8>) -> Result<(), Memory>
    ensures { Appends out.old.items out.new.items
        (line_of (codes "state " ++ decimal count ++ codes " " ++ decimal key)) result }
{
    put_number(b"state ", count, out)?;
    put_number(b" ", key, out)?;
    out.extend_from_slice(b"\n")
}

fn put_sampled(
    made: u64,
    lines: &[u8],
    standing: &PlayStanding,
    out: &mut Vec<u8>,
) -> Result<(), Memory>
    ensures { Appends out.old.items out.new.items
        (line_of (codes "sample " ++ decimal made) ++ lines.now
        ++ answer_text (standing_answer standing.now)) result }
{
    put_head(b"sample ", made, out)?;
    out.extend_from_slice(lines)?;
    put_standing(standing, out)
}

/// Appends the line of a word and a number.
pub(crate) fn put_head(word: &[u8], number: u64, out: &mut Vec<u8>) -> Result<(), Memory>
    ensures { Appends out.old.items out.new.items (line_of (word.now ++ decimal number)) result }
{
    put_number(word, number, out)?;
    out.extend_from_slice(b"\n")
}

#[tactic(auto, unfolding(crate::specs::Answers::answer_text))]
fn put_key(key: u64, out: &mut Vec<u8>) -> Result<(), Memory>
    ensures { Appends out.old.items out.new.items (answer_text (key_answer key)) result }
{
    put_number(b"key ", key, out)?;
    out.extend_from_slice(b"\n")
}

#[tactic(auto, unfolding(crate::specs::Answers::answer_text))]
fn put_values(values: &[u32], out: &mut Vec<u8>) -> Result<(), Memory>
    ensures { Appends out.old.items out.new.items (answer_text (values_answer values.now)) result }
{
    out.extend_from_slice(b"values")?;
    put_value_numbers(values, out)?;
    out.extend_from_slice(b"\n")
}

fn put_value_numbers(values: &[u32], out: &mut Vec<u8>) -> Result<(), Memory>
    ensures { Appends out.old.items out.new.items (numbers_text values.now) result }
{
    for value in values {
        put_spaced(*value, out)?;
    }
    Ok(())
}

#[tactic(auto, unfolding(crate::specs::Answers::answer_text))]
fn put_board(pieces: &[Piece], out: &mut Vec<u8>) -> Result<(), Memory>
    ensures { Appends out.old.items out.new.items (answer_text (board_answer pieces.now)) result }
{
    out.extend_from_slice(b"board")?;
    put_pieces(pieces, out)?;
    out.extend_from_slice(b"\n")
}

pub(crate) fn put_pieces(pieces: &[Piece], out: &mut Vec<u8>) -> Result<(), Memory>
    ensures { Appends out.old.items out.new.items (numbers_text pieces.now) result }
{
    for piece in pieces {
        put_spaced(u32::from(*piece), out)?;
    }
    Ok(())
}

#[tactic(auto, unfolding(crate::specs::Answers::answer_text))]
fn put_matches(count: u64, tallies: &[EndingTally], out: &mut Vec<u8>) -> Result<(), Memory>
    ensures { Appends out.old.items out.new.items
        (answer_text (by_chance count (map counted_by tallies.now))) result }
{
    put_matches_head(count, out)?;
    put_counted(tallies, out)
}

fn put_matches_head(count: u64, out: &mut Vec<u8>) -> Result<(), Memory>
    ensures { Appends out.old.items out.new.items (line_of (codes "random " ++ decimal count)) result }
{
    put_number(b"random ", count, out)?;
    out.extend_from_slice(b"\n")
}

fn put_counted(tallies: &[EndingTally], out: &mut Vec<u8>) -> Result<(), Memory>
    ensures { Appends out.old.items out.new.items
        (flat_map counted_text (map counted_by tallies.now)) result }
{
    put_tallies(tallies, out)
}

fn put_tallies(tallies: &[EndingTally], out: &mut Vec<u8>) -> Result<(), Memory>
    ensures { Appends out.old.items out.new.items
        (flat_map (λ tally. counted_text (counted_by tally)) tallies.now) result }
{
    for tally in tallies {
        put_tally(tally, out)?;
    }
    Ok(())
}

fn put_tally(tally: &EndingTally, out: &mut Vec<u8>) -> Result<(), Memory>
    ensures { Appends out.old.items out.new.items (counted_text (counted_by tally.now)) result }
{
    put_ending(&tally.ending, out)?;
    write_number(tally.matches, out)?;
    out.extend_from_slice(b"\n")
}

fn put_ending(ending: &Ending, out: &mut Vec<u8>) -> Result<(), Memory>
    ensures { Appends out.old.items out.new.items (ending_text (scores_of ending.now)) result }
{
    match ending {
        Ending::Finished { scores } => put_spaced_scores(scores.as_slice(), out),
        Ending::Stopped => out.extend_from_slice(b"- "),
    }
}

fn put_spaced_scores(scores: &[u64], out: &mut Vec<u8>) -> Result<(), Memory>
    ensures { Appends out.old.items out.new.items
        (flat_map (λ score. decimal score ++ codes " ") scores.now) result }
{
    for score in scores {
        put_spaced_score(*score, out)?;
    }
    Ok(())
}

/// Appends the digits of a score, and a space.
fn put_spaced_score(score: u64, out: &mut Vec<u8>) -> Result<(), Memory>
    ensures { Appends out.old.items out.new.items (decimal score ++ codes " ") result }
{
    write_number(score, out)?;
    out.extend_from_slice(b" ")
}
