//! The lines of moves, and of how a match ended. Each call writes at the end of a list of bytes.
ghost use Rattle.std.specs.Prelude.{◌≡◌, ◌++◌, OnOk, codes, decimal};
ghost use Rattle.std.specs.List.{flat_map};
ghost use Rattle.rbg_operations.specs.Lines.{cut_text, end_text, made_line, move_line, numbers_text};

use rbg_base::{Memory, Move, Player};
use rbg_match::Made;
use rbg_wire::{Outcome, write_number, write_pairs};

/// The line of each move of the opening.
pub(crate) fn write_made(moves: &[Made], out: &mut Vec<u8>) -> Result<(), Memory>
    ensures { OnOk result (out.new.items ≡ out.old.items ++ flat_map made_line moves.now) }
{
    for made in moves {
        write_made_line(made, out)?;
    }
    Ok(())
}

fn write_made_line(made: &Made, out: &mut Vec<u8>) -> Result<(), Memory>
    ensures { OnOk result (out.new.items ≡ out.old.items ++ made_line made.now) }
{
    write_head(b"made ", made.player, out)?;
    write_pairs(made.pairs.as_slice(), out)?;
    out.extend_from_slice(b"\n")
}

/// The line of each of the moves of a player.
pub(crate) fn write_moves(player: Player, moves: &[Move], out: &mut Vec<u8>) -> Result<(), Memory>
    ensures { OnOk result (out.new.items ≡ out.old.items ++ flat_map (move_line player) moves.now) }
{
    for pairs in moves {
        write_move_line(player, pairs, out)?;
    }
    Ok(())
}

fn write_move_line(player: Player, pairs: &Move, out: &mut Vec<u8>) -> Result<(), Memory>
    ensures { OnOk result (out.new.items ≡ out.old.items ++ move_line player pairs.now) }
{
    write_head(b"move ", player, out)?;
    write_pairs(pairs.as_slice(), out)?;
    out.extend_from_slice(b"\n")
}

/// A word, the number of a player, and a space.
fn write_head(word: &[u8], player: Player, out: &mut Vec<u8>) -> Result<(), Memory>
    ensures { OnOk result (out.new.items
        ≡ out.old.items ++ (word.now ++ decimal player ++ codes " ")) }
{
    out.extend_from_slice(word)?;
    write_number(u64::from(player), out)?;
    out.extend_from_slice(b" ")
}

/// The line that there are more moves, if the list is cut off.
pub(crate) fn write_cut(cut: bool, out: &mut Vec<u8>) -> Result<(), Memory>
    ensures { OnOk result (out.new.items ≡ out.old.items ++ cut_text cut) }
{
    if cut {
        out.extend_from_slice(b"cut\n")
    } else {
        Ok(())
    }
}

/// How a match ended in its opening.
#[tactic(auto, unfolding(crate::specs::Lines::end_text))]
pub(crate) fn write_end(outcome: &Outcome, out: &mut Vec<u8>) -> Result<(), Memory>
    ensures { OnOk result (out.new.items ≡ out.old.items ++ end_text outcome.now) }
{
    match outcome {
        Outcome::Finished { scores } => write_scores(scores.as_slice(), out),
        Outcome::Time { .. } => write_over(out),
        Outcome::Refusals { .. } => write_over(out),
        Outcome::Gone { .. } => write_over(out),
        Outcome::Heavy => write_over(out),
    }
}

pub(crate) fn write_scores(scores: &[u64], out: &mut Vec<u8>) -> Result<(), Memory>
    ensures { OnOk result (out.new.items
        ≡ out.old.items ++ (codes "finished" ++ numbers_text scores.now ++ codes "\n")) }
{
    out.extend_from_slice(b"finished")?;
    write_numbers(scores, out)?;
    out.extend_from_slice(b"\n")
}

/// Each number, with a space before it.
fn write_numbers(numbers: &[u64], out: &mut Vec<u8>) -> Result<(), Memory>
    ensures { OnOk result (out.new.items ≡ out.old.items ++ numbers_text numbers.now) }
{
    for number in numbers {
        write_spaced(*number, out)?;
    }
    Ok(())
}

fn write_spaced(number: u64, out: &mut Vec<u8>) -> Result<(), Memory>
    ensures { OnOk result (out.new.items ≡ out.old.items ++ (codes " " ++ decimal number)) }
{
    out.extend_from_slice(b" ")?;
    write_number(number, out)
}

/// The line that a question is above the limits.
pub(crate) fn write_over(out: &mut Vec<u8>) -> Result<(), Memory>
    ensures { OnOk result (out.new.items ≡ out.old.items ++ codes "over\n") }
{
    out.extend_from_slice(b"over\n")
}
