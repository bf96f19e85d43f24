//! Sequences of moves from the beginning of play.
ghost use Rattle.std.specs.Prelude.{IfErr, IfOk};
ghost use Rattle.rbg_questions.specs.Counting.{AreCounted};
ghost use Rattle.rbg_questions.specs.Refusals.{IsNotCounted};
ghost use Rattle.rbg_moves.specs.Starting.{start_place};

use crate::counting::{Counts, count_sequences};
use crate::error::CountError;
use crate::extent::Extent;
use rbg_moves::{PlayedGame, Workspace};

/// Counts the sequences of so many moves of the players from the beginning of play, as `count_sequences` does.
pub fn count_from_start(
    game: &PlayedGame,
    moves: u8,
    extent: Extent,
    workspace: &mut Workspace,
) -> Result<Counts, CountError>
    ensures counted { IfOk result (λ counts.
        AreCounted game.now moves extent (start_place game.now)
        counts.sequences counts.ended) }
    ensures refused { IfErr result
        (IsNotCounted game.now moves extent (start_place game.now)) }
{
    let place = game.start()?;
    count_sequences(game, place, moves, extent, workspace)
}
