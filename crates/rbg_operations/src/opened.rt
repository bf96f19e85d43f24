//! The lines of a match that has just been opened.
ghost use Rattle.std.specs.Prelude.{◌≡◌, ◌⊎◌, ◌++◌, List, ℕ, None, IfOk, OnOk, codes};
ghost use Rattle.std.specs.List.{flat_map};
ghost use Rattle.rbg_match.specs.Play.{mover_of};
ghost use Rattle.rbg_operations.specs.Lines.{cut_text, move_line};
ghost use Rattle.rbg_operations.specs.Openings.{GoesOn, IsOpenedText};

use crate::listing_lines::{write_cut, write_end, write_made, write_moves, write_over};
use rbg_base::{Memory, Player};
use rbg_match::Match;
use rbg_moves::{Listed, Over};
use std::alloc::Global;

/// The maximum number of legal moves that are printed.
pub(crate) const MAX_LISTED: usize = 1_000;

/// The lines of the moves of the opening, and of how play can continue.
pub(crate) fn opened_lines(alloc: Global, opened: &Match) -> Result<Vec<u8>, Memory>
    ensures { IfOk result (λ lines. IsOpenedText opened.now lines.items) }
{
    let mut lines = Vec::new(alloc);
    write_made(opened.made(), &mut lines)?;
    write_rest(opened, &mut lines)?;
    Ok(lines)
}

/// How the match ended, or how it can continue.
fn write_rest(opened: &Match, out: &mut Vec<u8>) -> Result<(), Memory>
    ensures { OnOk result ((rest : List ℕ) × GoesOn opened.now rest
        × (out.new.items ≡ out.old.items ++ rest)) }
{
    match opened.outcome() {
        Some(outcome) => write_end(&outcome, out),
        None => write_legal(opened, out),
    }
}

/// The legal moves of the player who is to move.
fn write_legal(opened: &Match, out: &mut Vec<u8>) -> Result<(), Memory>
    ensures { OnOk result (opened.now.play.outcome ≡ None → (rest : List ℕ) × GoesOn opened.now rest
        × (out.new.items ≡ out.old.items ++ rest)) }
{
    match opened.list_moves(MAX_LISTED) {
        Ok(listed) => write_listed(mover(opened), &listed, out),
        Err(over) => write_limit(over, out),
    }
}

/// The line that a question is above the limits, if that is the reason for no answer.
pub(crate) fn write_limit(over: Over, out: &mut Vec<u8>) -> Result<(), Memory>
    ensures written { OnOk result (out.new.items ≡ out.old.items ++ codes "over\n") }
    ensures limit { OnOk result ((over ≡ Over.Deep) ⊎ (over ≡ Over.Wide)) }
{
    match over {
        Over::Deep => write_over(out),
        Over::Wide => write_over(out),
        Over::Memory => Err(Memory),
    }
}

/// The player who is to move.
fn mover(opened: &Match) -> Player
    ensures { result ≡ mover_of opened.now.play }
{
    opened.place().state.player()
}

/// The lines of moves of a player, and of the mark that there are more.
pub(crate) fn write_listed(player: Player, listed: &Listed, out: &mut Vec<u8>) -> Result<(), Memory>
    ensures { OnOk result (out.new.items ≡ out.old.items
        ++ (flat_map (move_line player) listed.now.moves.items ++ cut_text listed.now.cut)) }
{
    write_moves(player, listed.moves.as_slice(), out)?;
    write_cut(listed.cut, out)
}
